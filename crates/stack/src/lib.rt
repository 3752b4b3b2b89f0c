// The stack: pushes, pulls and subroutines. SP points at the last byte that was pushed.
#![tactic(auto)]

ghost use Rattle.std.specs.Prelude.{◌≡◌};
ghost use Rattle.opcodes.specs.declared.kind.Kind.TheVariants.{Stack};
ghost use Rattle.stack.specs.Stack.{pushed as pushed_of, pulled as pulled_of, stacked, subroutine_effect, return_effect};

use effect::Effect;
use memory::{Data, Memory};
use opcodes::kind::StackOp;
use state::State;

fn pushed<D: Data>(s: State, cost: u8, v: D) -> Effect
    ensures { result ≡ pushed_of s D.SIZE cost (λ top. D.store_at top v) }
{
    let top = word::minus(s.sp, D::SIZE);
    effect::writes(s.with_sp(top), cost, v.store(top))
}

// SP rises by as many bytes as were pulled.
fn pulled(s: State, n: u16, cost: u8) -> Effect
    ensures { result ≡ pulled_of s n cost }
{
    effect::quiet(s.with_sp(word::plus(s.sp, n)), cost)
}

#[tactic(auto, unfolding(crate::specs::Stack::stacked))]
pub fn stack(s: State, m: &Memory, op: StackOp, cost: u8) -> Effect
    ensures { result ≡ stacked (Stack op) s m.now cost }
{
    let f = s.flags;
    match op {
        StackOp::Pulx => pulled(s.with_x(memory::read_word(m, s.sp)), 2, cost),
        StackOp::Puly => pulled(s.with_y(memory::read_word(m, s.sp)), 2, cost),
        StackOp::Pula => pulled(s.with_a(memory::read_byte(m, s.sp)), 1, cost),
        StackOp::Pulb => pulled(s.with_b(memory::read_byte(m, s.sp)), 1, cost),
        StackOp::Pshx => pushed(s, cost, s.x),
        StackOp::Pshy => pushed(s, cost, s.y),
        StackOp::Psha => pushed(s, cost, s.a),
        StackOp::Pshb => pushed(s, cost, s.b),
        StackOp::Pulc => pulled(
            s.with_flags(f.take_ccr(memory::read_byte(m, s.sp))),
            1,
            cost,
        ),
        StackOp::Pshc => pushed(s, cost, f.ccr()),
        StackOp::Puld => pulled(s.with_d(memory::read_word(m, s.sp)), 2, cost),
        StackOp::Pshd => pushed(s, cost, s.d()),
    }
}

// A subroutine is called: the return address is pushed.
#[tactic(auto, unfolding(crate::specs::Stack::subroutine_effect))]
pub fn subroutine(s: State, cost: u8, target: u16) -> Effect
    ensures { result ≡ subroutine_effect s cost target }
{
    pushed(s.with_pc(target), cost, s.pc)
}

// RTS: the return address is pulled.
#[tactic(auto, unfolding(crate::specs::Stack::return_effect))]
pub fn returned(s: State, m: &Memory, cost: u8) -> Effect
    ensures { result ≡ return_effect s m.now cost }
{
    pulled(s.with_pc(memory::read_word(m, s.sp)), 2, cost)
}
