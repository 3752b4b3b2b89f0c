// What multiplies and divides: MUL to EMACS, whose operands and results are registers, or for EMACS memory.
#![tactic(auto)]

ghost use Rattle.std.specs.Prelude.{◌≡◌};
ghost use Rattle.word.specs.Word.{plus_w, long_of};
ghost use Rattle.memory.specs.Memory.{word_at};
ghost use Rattle.state.specs.State.{with_d, with_flags};
ghost use Rattle.opcodes.specs.declared.kind.Kind.TheVariants.{Product};
ghost use Rattle.execute16.specs.Words.{register_with};
ghost use Rattle.products.specs.Products.{yd_result, multiplied as multiplied_of, accumulate_effect, product_of};

use effect::Effect;
use execute16::WordRegister;
use memory::{Memory, Store};
use opcodes::kind::ProductOp;
use product::Long;
use quotient::Division;
use state::State;

fn yd_result(s: State, r: Long) -> State
    ensures { result ≡ yd_result s r }
{
    s.with_y(word::high(r.value))
        .with_d(word::low(r.value))
        .with_flags(r.flags)
}

// The quotient goes to X or to Y, the remainder to D.
fn divided(s: State, to: WordRegister, r: Division) -> State
    ensures { result ≡ with_flags (with_d (register_with to s r.quotient) r.remainder) r.flags }
{
    to.with(s, r.quotient)
        .with_d(r.remainder)
        .with_flags(r.flags)
}

fn read_long(m: &Memory, a: u16) -> u32
    ensures { result ≡ long_of (word_at m.now a) (word_at m.now (plus_w a 2)) }
{
    let high = memory::read_word(m, a);
    let low = memory::read_word(m, word::plus(a, 2));
    word::word(high, low)
}

#[tactic(auto, unfolding(crate::specs::Products::accumulate_effect))]
fn accumulate(s: State, m: &Memory, cost: u8, a: u16) -> Effect
    ensures { result ≡ accumulate_effect s m.now cost a }
{
    let x = memory::read_word(m, s.x);
    let y = memory::read_word(m, s.y);
    let r = product::emacs(s.flags, x, y, read_long(m, a));
    let high = word::high(r.value);
    let low = word::low(r.value);
    effect::writes(s.with_flags(r.flags), cost, Store::words(a, high, low))
}

// Of the products only EMACS looks at memory, at an address that stands after its opcode, at `at`.
#[tactic(auto, unfolding(crate::specs::Products::multiplied))]
pub fn products(s: State, m: &Memory, op: ProductOp, at: u16, cost: u8) -> Effect
    ensures { result ≡ product_of (Product op) s m.now at cost }
{
    let f = s.flags;
    let after = match op {
        ProductOp::Emacs => return accumulate(s, m, cost, memory::read_word(m, at)),
        ProductOp::Mul => WordRegister::D.result(s, product::mul(f, s.a, s.b)),
        ProductOp::Emul => yd_result(s, product::emul(f, s.d(), s.y)),
        ProductOp::Emuls => yd_result(s, product::emuls(f, s.d(), s.y)),
        ProductOp::Ediv => divided(s, WordRegister::Y, quotient::ediv(f, s.y, s.d(), s.x)),
        ProductOp::Edivs => divided(s, WordRegister::Y, quotient::edivs(f, s.y, s.d(), s.x)),
        ProductOp::Idiv => divided(s, WordRegister::X, quotient::idiv(f, s.d(), s.x)),
        ProductOp::Idivs => divided(s, WordRegister::X, quotient::idivs(f, s.d(), s.x)),
        ProductOp::Fdiv => divided(s, WordRegister::X, quotient::fdiv(f, s.d(), s.x)),
    };
    effect::quiet(after, cost)
}
