// The instructions on bytes: A or B with an operand, and a byte changed in memory or in A or B. Everything here is numbers: where an
// operand lies, and what stands there, was found before.
#![tactic(auto)]

ghost use Rattle.std.specs.Prelude.{◌≡◌};
ghost use Rattle.opcodes.specs.Kind.{byte_number, change_number};
ghost use Rattle.opcodes.specs.declared.kind.Kind.TheVariants.{InMemory};
ghost use Rattle.results.specs.Results.{result_codes};
ghost use Rattle.execute8.specs.Bytes.{accumulator_of, accumulator_result, accumulator_with, accumulator_changed};
ghost use Rattle.execute8.specs.Bytes.{keeping as keeping_of, accumulated as accumulated_of, changed as changed_of, memory_changed};

use effect::Effect;
use memory::Store;
use opcodes::kind::{ByteOp, Change};
use results::{Byte, Outcome, Width};
use state::{Flags, State};

// The register of 8 bits that an instruction works on.
#[derive(Clone, Copy)]
pub enum Accumulator {
    A,
    B,
}

impl Accumulator {
    fn of(self, s: State) -> u8
        ensures { result ≡ accumulator_of self s }
    {
        match self {
            Accumulator::A => s.a,
            Accumulator::B => s.b,
        }
    }

    pub fn result(self, s: State, r: Byte) -> State
        ensures { result ≡ accumulator_result self s r }
    {
        let after = match self {
            Accumulator::A => s.with_a(r.value),
            Accumulator::B => s.with_b(r.value),
        };
        after.with_flags(r.flags)
    }
}

// The codes of a comparison, with the register as it was.
fn keeping(x: u8, r: Byte) -> Byte
    ensures { result ≡ keeping_of x r }
{
    Outcome {
        value: x,
        flags: r.flags,
    }
}

// A byte or a word that is moved.
pub fn loaded<W: Width>(f: Flags, m: W) -> Outcome<W>
    ensures { result ≡ record { value = m; flags = result_codes W.top f (W.number m) } }
{
    Outcome {
        value: m,
        flags: results::result_codes(f, m),
    }
}

#[tactic(auto, unfolding(crate::specs::Bytes::accumulated))]
fn accumulated(op: ByteOp, f: Flags, x: u8, m: u8) -> Byte
    ensures { result ≡ accumulated_of (byte_number op) f x m }
{
    match op {
        ByteOp::Sub => alu::sub(f, x, m, false),
        ByteOp::Cmp => keeping(x, alu::sub(f, x, m, false)),
        ByteOp::Sbc => alu::sub(f, x, m, f.c),
        ByteOp::And => logic::and_8(f, x, m),
        ByteOp::Bit => keeping(x, logic::and_8(f, x, m)),
        ByteOp::Ld => loaded(f, m),
        ByteOp::Eor => logic::eor_8(f, x, m),
        ByteOp::Adc => alu::add_8(f, x, m, f.c),
        ByteOp::Or => logic::or_8(f, x, m),
        ByteOp::Add => alu::add_8(f, x, m, false),
    }
}

#[tactic(auto, unfolding(crate::specs::Bytes::changed))]
fn changed(op: Change, f: Flags, m: u8) -> Byte
    ensures { result ≡ changed_of (change_number op) f m }
{
    match op {
        Change::Neg => alu::neg(f, m),
        Change::Com => logic::com(f, m),
        Change::Inc => alu::inc(f, m),
        Change::Dec => alu::dec(f, m),
        Change::Lsr => shift::lsr(f, m),
        Change::Rol => shift::rol(f, m),
        Change::Ror => shift::ror(f, m),
        Change::Asr => shift::asr(f, m),
        Change::Asl => shift::asl(f, m),
        Change::Clr => logic::clr(f),
        Change::Tst => logic::tst(f, m),
    }
}

// SUBA to ADDB: A or B with the operand. One function for both, so that `accumulated` has one caller: the compiler then takes it into
// the machine's loop (docs/SPEED.md).
pub fn with_accumulator(x: Accumulator, s: State, op: ByteOp, v: u8, cost: u8) -> Effect
    ensures { result ≡ accumulator_with x s op v cost }
{
    let r = accumulated(op, s.flags, x.of(s), v);
    effect::quiet(x.result(s, r), cost)
}

// `v` is the byte at the address `a`.
#[tactic(auto, unfolding(crate::specs::Bytes::memory_changed))]
pub fn in_memory(s: State, op: Change, v: u8, a: u16, cost: u8) -> Effect
    ensures { result ≡ memory_changed s (InMemory op) v a cost }
{
    let r = changed(op, s.flags, v);
    let after = s.with_flags(r.flags);
    if matches!(op, Change::Tst) {
        return effect::quiet(after, cost);
    }
    effect::writes(after, cost, Store::byte(a, r.value))
}

// NEGA to TSTB.
pub fn in_accumulator(x: Accumulator, s: State, op: Change, cost: u8) -> Effect
    ensures { result ≡ accumulator_changed x s op cost }
{
    let r = changed(op, s.flags, x.of(s));
    effect::quiet(x.result(s, r), cost)
}
