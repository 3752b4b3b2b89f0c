// What a step does: the state after it, its cost, and the one run of bytes that it stores. It is worked out whole before
// any of it is done, so that all reads come before all writes and no part of a step is ever spent.
#![tactic(auto)]

ghost use Rattle.std.specs.Prelude.{◌≡◌, ◌+◌, ◌<◌};
ghost use Rattle.memory.specs.Memory.{committed};
ghost use Rattle.effect.specs.Effect.{writes as writes_of, quiet as quiet_of, acted};

use memory::{Memory, Store};
use state::State;

#[derive(Clone, Copy)]
pub struct Effect {
    pub store: Store,
    pub state: State,
    pub cost: u8,
}

pub fn writes(s: State, cost: u8, w: Store) -> Effect
    ensures { result ≡ writes_of s cost w }
{
    Effect {
        state: s,
        cost,
        store: w,
    }
}

pub fn quiet(s: State, cost: u8) -> Effect
    ensures { result ≡ quiet_of s cost }
{
    writes(s, cost, Store::none())
}

// What was worked out is done: its store is made, and the clock moves by its cost. The one place where a step takes effect.
pub fn act(s: State, m: &mut Memory, e: Effect) -> State
    requires cost_bound { s.clock + e.cost < 4294967296 }
    ensures { (result ≡ acted s e) × (m.new ≡ committed m.old e.store) }
{
    memory::commit(m, e.store);
    e.state.with_clock(s.clock + u32::from(e.cost))
}
