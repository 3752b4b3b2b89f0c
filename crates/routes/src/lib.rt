// Where a move takes its operand from and to. A postbyte of a move has the form IDX, or it is reserved and nothing was fetched; so the place
// that it names is a plain one.
#![tactic(auto)]

ghost use Rattle.std.specs.Prelude.{◌≡◌, true};
ghost use Rattle.opcodes.specs.Rules.{moves_mode};
ghost use Rattle.decode.specs.Decode.{Faithful};
ghost use Rattle.routes.specs.Routes.{route_is, route_of};

use decode::Decoded;
use memory::Memory;
use opcodes::mode::Mode;
use operand::plain_place;
use state::State;

// Where a move takes its operand from and to, and the state after the updates of both base registers.
#[derive(Clone, Copy)]
pub struct Route {
    pub source: u16,
    pub target: u16,
    pub state: State,
}

fn route_is(source: u16, target: u16, state: State) -> Route
    ensures { result ≡ route_is source target state }
{
    Route {
        source,
        target,
        state,
    }
}

// The way of a move of `size` bytes. The first postbyte was decoded; the second, right after it, is read here.
#[tactic(auto, using(crate::proofs::Places::first, crate::proofs::Places::second), unfolding(crate::specs::Routes::route_of, crate::specs::Routes::immediate_to_indexed, crate::specs::Routes::extended_to_indexed, crate::specs::Routes::indexed_to_extended, crate::specs::Routes::indexed_to_indexed))]
pub fn route_of(s: State, m: &Memory, d: Decoded, size: u16) -> Route
    requires faithful { Faithful m.now d }
    requires mode_value { moves_mode d.mode ≡ true }
    ensures { result ≡ route_of s m.now d.mode d.at size }
{
    let next = word::plus(d.at, 1);
    match d.mode {
        Mode::ImEx => route_is(d.at, memory::read_word(m, word::plus(d.at, size)), s),
        Mode::ExEx => {
            let source = memory::read_word(m, d.at);
            route_is(source, memory::read_word(m, word::plus(d.at, 2)), s)
        }
        Mode::ImId => {
            let to = plain_place(s, word::plus(s.pc, size), d.postbyte);
            route_is(next, to.address, to.state)
        }
        Mode::ExId => {
            let to = plain_place(s, word::plus(s.pc, 2), d.postbyte);
            route_is(memory::read_word(m, next), to.address, to.state)
        }
        Mode::IdEx => {
            let from = plain_place(s, word::minus(s.pc, 2), d.postbyte);
            route_is(from.address, memory::read_word(m, next), from.state)
        }
        Mode::IdId => {
            let from = plain_place(s, word::minus(s.pc, 1), d.postbyte);
            let second = memory::read_byte(m, next);
            let to = plain_place(from.state, word::plus(s.pc, 1), second);
            route_is(from.address, to.address, to.state)
        }
        _ => unreachable!(),
    }
}
