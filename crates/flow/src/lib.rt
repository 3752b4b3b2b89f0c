// Where the program goes next: branches and loops, and subroutines. SWI, TRAP and RTI belong here too, but their vectors are the
// machine's.
#![tactic(auto)]

ghost use Rattle.std.specs.Prelude.{◌≡◌};
ghost use Rattle.memory.specs.Memory.{byte_at};
ghost use Rattle.opcodes.specs.declared.kind.Kind.TheVariants.{ShortBranch, LongBranch, Control};
ghost use Rattle.flow.specs.Branches.{branched as branched_of, short_branched, long_branched, looped as looped_of, loop_done};
ghost use Rattle.flow.specs.Control.{control_done};

use effect::Effect;
use memory::Memory;
use opcodes::kind::{Condition, ControlOp};
use state::State;

pub fn branched(s: State, taken: bool, offset: u16, cost: u8, untaken: u8) -> Effect
    ensures { result ≡ branched_of s taken offset cost untaken }
{
    if taken {
        return effect::quiet(s.with_pc(word::plus(s.pc, offset)), cost);
    }
    effect::quiet(s, untaken)
}

// LBRA to LBLE.
pub fn long_branch(s: State, condition: Condition, offset: u16, cost: u8, untaken: u8) -> Effect
    ensures { result ≡ long_branched s (LongBranch condition) offset cost untaken }
{
    branched(
        s,
        codes::condition(s.flags, condition),
        offset,
        cost,
        untaken,
    )
}

// BRA to BLE: a long branch's conditions, and an offset of 8 bits.
pub fn short_branch(s: State, condition: Condition, n: u8, cost: u8, untaken: u8) -> Effect
    ensures { result ≡ short_branched s (ShortBranch condition) n cost untaken }
{
    long_branch(s, condition, word::extend(n), cost, untaken)
}

// The counter is A, B, D, X, Y or, for 7, SP.
#[tactic(auto, unfolding(crate::specs::Branches::looped))]
fn looped(counter: u8, s: State, kind: u8, offset: u16, cost: u8) -> Effect
    ensures { result ≡ looped_of counter s kind offset cost }
{
    match counter {
        0 => {
            let t = codes::count(kind, s.a);
            branched(s.with_a(t.counter), t.taken, offset, cost, cost)
        }
        1 => {
            let t = codes::count(kind, s.b);
            branched(s.with_b(t.counter), t.taken, offset, cost, cost)
        }
        4 => {
            let t = codes::count(kind, s.d());
            branched(s.with_d(t.counter), t.taken, offset, cost, cost)
        }
        5 => {
            let t = codes::count(kind, s.x);
            branched(s.with_x(t.counter), t.taken, offset, cost, cost)
        }
        6 => {
            let t = codes::count(kind, s.y);
            branched(s.with_y(t.counter), t.taken, offset, cost, cost)
        }
        _ => {
            let t = codes::count(kind, s.sp);
            branched(s.with_sp(t.counter), t.taken, offset, cost, cost)
        }
    }
}

// A loop primitive by its postbyte and the low byte of its offset, whose sign is bit 4 of the postbyte.
#[tactic(auto, unfolding(crate::specs::Branches::loop_done))]
pub fn loop_primitive(s: State, p: u8, b: u8, cost: u8) -> Effect
    ensures { result ≡ loop_done s p b cost }
{
    let sign = p / 16 % 2 == 1;
    looped(p % 8, s, p / 32, word::extend_9(sign, b), cost)
}

// BSR, RTS, WAI, and else the loop primitives; the postbyte stands at `at`.
#[tactic(auto, unfolding(crate::specs::Control::control_done))]
pub fn control(s: State, m: &Memory, op: ControlOp, at: u16, postbyte: u8, cost: u8) -> Effect
    requires { postbyte ≡ byte_at m.now at }
    ensures { result ≡ control_done (Control op) s m.now at cost }
{
    match op {
        ControlOp::Bsr => stack::subroutine(s, cost, word::plus(s.pc, word::extend(postbyte))),
        ControlOp::Rts => stack::returned(s, m, cost),
        ControlOp::Wai => frames::wait(s, cost),
        // SWI, TRAP and RTI are chosen before.
        ControlOp::Swi | ControlOp::Trap | ControlOp::Rti | ControlOp::Loop => loop_primitive(
            s,
            postbyte,
            memory::read_byte(m, word::plus(at, 1)),
            cost,
        ),
    }
}
