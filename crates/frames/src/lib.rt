// The frame of nine bytes: what an entry and WAI push, and RTI pulls. SP points at the last byte that was pushed.
#![tactic(auto)]

ghost use Rattle.std.specs.Prelude.{◌≡◌};
ghost use Rattle.frames.specs.Frames.{frame_store, interrupt_effect, wait_effect, pulled_frame};

use effect::Effect;
use memory::{Memory, Store};
use state::{Flags, State};

// The nine bytes of a frame. B lies below A.
pub fn frame_store(s: State) -> Store
    ensures { result ≡ frame_store s }
{
    let [xh, xl] = s.x.to_be_bytes();
    let [yh, yl] = s.y.to_be_bytes();
    let [ph, pl] = s.pc.to_be_bytes();
    Store::nine(
        word::minus(s.sp, 9),
        [s.flags.ccr(), s.b, s.a, xh, xl, yh, yl, ph, pl],
    )
}

// An entry by a vector, as SWI's: the vector is read before the frame is pushed. `after` are the flags that the entry leaves.
pub fn interrupt(s: State, m: &Memory, vector: u16, after: Flags, cost: u8) -> Effect
    ensures { result ≡ interrupt_effect s m.now vector after cost }
{
    let target = memory::read_word(m, vector);
    let entered = s
        .with_sp(word::minus(s.sp, 9))
        .with_flags(after)
        .with_pc(target);
    effect::writes(entered, cost, frame_store(s))
}

// WAI.
#[tactic(auto, unfolding(crate::specs::Frames::wait_effect))]
pub fn wait(s: State, cost: u8) -> Effect
    ensures { result ≡ wait_effect s cost }
{
    let after = s.with_sp(word::minus(s.sp, 9)).with_waiting(true);
    effect::writes(after, cost, frame_store(s))
}

// RTI's pull of the frame.
#[tactic(auto, unfolding(crate::specs::Frames::pulled_frame))]
pub fn pulled_frame(s: State, m: &Memory) -> State
    ensures { result ≡ pulled_frame s m.now }
{
    let f = s.flags.take_ccr(memory::read_byte(m, s.sp));
    let b = memory::read_byte(m, word::plus(s.sp, 1));
    let a = memory::read_byte(m, word::plus(s.sp, 2));
    let x = memory::read_word(m, word::plus(s.sp, 3));
    let y = memory::read_word(m, word::plus(s.sp, 5));
    let pc = memory::read_word(m, word::plus(s.sp, 7));
    s.with_sp(word::plus(s.sp, 9))
        .with_flags(f)
        .with_b(b)
        .with_a(a)
        .with_x(x)
        .with_y(y)
        .with_pc(pc)
}
