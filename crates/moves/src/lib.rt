// Moves, what takes the operand's address alone, and bits of memory.
#![tactic(auto)]

ghost use Rattle.std.specs.Prelude.{◌≡◌, true};
ghost use Rattle.opcodes.specs.Rules.{moves_mode};
ghost use Rattle.opcodes.specs.declared.kind.Kind.TheVariants.{Address, Bits};
ghost use Rattle.decode.specs.Decode.{Faithful};
ghost use Rattle.moves.specs.Addresses.{addressed};
ghost use Rattle.moves.specs.Bits.{bitted};
ghost use Rattle.moves.specs.Moves.{data_moved, move_effect};

use decode::Decoded;
use effect::Effect;
use memory::{Data, Memory, Store};
use opcodes::kind::{AddressOp, BitOp};
use state::State;

// LEAY to JSR, with the operand's address: `s` is the state after the base register's update.
#[tactic(auto, unfolding(crate::specs::Addresses::addressed))]
pub fn addresses(s: State, op: AddressOp, a: u16, cost: u8) -> Effect
    ensures { result ≡ addressed s (Address op) a cost }
{
    match op {
        AddressOp::Leay => effect::quiet(s.with_y(a), cost),
        AddressOp::Leax => effect::quiet(s.with_x(a), cost),
        AddressOp::Leas => effect::quiet(s.with_sp(a), cost),
        AddressOp::Jmp => effect::quiet(s.with_pc(a), cost),
        AddressOp::Jsr => stack::subroutine(s, cost, a),
    }
}

// BSET to BRCLR, of the byte at `a`. The mask and the offset are the instruction's last bytes.
#[tactic(auto, unfolding(crate::specs::Bits::bitted, crate::specs::Bits::bits_changed))]
pub fn bits(s: State, m: &Memory, op: BitOp, a: u16, cost: u8) -> Effect
    ensures { result ≡ bitted s m.now (Bits op) a cost }
{
    let v = memory::read_byte(m, a);
    let last = memory::read_byte(m, word::minus(s.pc, 1));
    let changed = match op {
        BitOp::Bset => logic::or_8(s.flags, v, last),
        BitOp::Bclr => logic::bclr(s.flags, v, last),
        BitOp::Brset => {
            let mask = memory::read_byte(m, word::minus(s.pc, 2));
            return flow::branched(s, logic::bits_set(v, mask), word::extend(last), cost, cost);
        }
        BitOp::Brclr => {
            let mask = memory::read_byte(m, word::minus(s.pc, 2));
            return flow::branched(
                s,
                logic::bits_clear(v, mask),
                word::extend(last),
                cost,
                cost,
            );
        }
    };
    effect::writes(
        s.with_flags(changed.flags),
        cost,
        Store::byte(a, changed.value),
    )
}

// A move of what `D` is, a byte or a word.
fn move_data<D: Data>(s: State, m: &Memory, d: Decoded) -> Effect
    requires faithful { Faithful m.now d }
    requires mode_value { moves_mode d.mode ≡ true }
    ensures { result ≡ data_moved D.SIZE D.read_at D.store_at s m.now d }
{
    let route = routes::route_of(s, m, d, D::SIZE);
    let data = D::read(m, route.source);
    effect::writes(route.state, d.cost, data.store(route.target))
}

// MOVB, and else MOVW.
#[tactic(auto, unfolding(crate::specs::Moves::move_effect, crate::specs::Moves::byte_move_effect, crate::specs::Moves::word_move_effect))]
pub fn moves(s: State, m: &Memory, d: Decoded) -> Effect
    requires faithful { Faithful m.now d }
    requires mode_value { moves_mode d.mode ≡ true }
    ensures { result ≡ move_effect s m.now d }
{
    if opcodes::is_movb(d.kind) {
        move_data::<u8>(s, m, d)
    } else {
        move_data::<u16>(s, m, d)
    }
}
