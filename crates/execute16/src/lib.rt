// The instructions on words, the stores, the larger or smaller of two, what works on registers and condition codes alone, and table
// lookup. Where an operand lies was found before; what two sizes may have is read here.
#![tactic(auto)]

ghost use Rattle.std.specs.Prelude.{◌≡◌};
ghost use Rattle.word.specs.Word.{plus_w};
ghost use Rattle.state.specs.State.{with_flags};
ghost use Rattle.opcodes.specs.declared.kind.Kind.TheVariants.{WithWord, Store as AStore, Registers, Choose, LookUp};
ghost use Rattle.results.specs.Results.{outcome_of, result_codes};
ghost use Rattle.decimal.specs.Lookup.{lookup_of, lookup_codes};
ghost use Rattle.effect.specs.Effect.{quiet, writes};
ghost use Rattle.execute16.specs.Words.{register_with, register_result, worded as worded_of, word_with, stored as stored_of, chosen as chosen_of};
ghost use Rattle.execute16.specs.Registers.{registered as registered_of};
ghost use Rattle.execute16.specs.Lookups.{looked_up};

use effect::Effect;
use execute8::{Accumulator, loaded};
use memory::{Data, Memory};
use opcodes::kind::{Choice, Lookup, RegisterOp, StoreOp, WordOp};
use results::{Outcome, Width, Word};
use state::{Flags, State};

// The register of 16 bits that takes a result.
#[derive(Clone, Copy)]
pub enum WordRegister {
    D,
    X,
    Y,
    Sp,
}

impl WordRegister {
    pub fn with(self, s: State, v: u16) -> State
        ensures { result ≡ register_with self s v }
    {
        match self {
            WordRegister::D => s.with_d(v),
            WordRegister::X => s.with_x(v),
            WordRegister::Y => s.with_y(v),
            WordRegister::Sp => s.with_sp(v),
        }
    }

    pub fn result(self, s: State, r: Word) -> State
        ensures { result ≡ register_result self s r }
    {
        self.with(s, r.value).with_flags(r.flags)
    }
}

#[tactic(auto, unfolding(crate::specs::Words::worded))]
fn worded(op: WordOp, s: State, m: u16) -> State
    ensures { result ≡ worded_of (WithWord op) s m }
{
    let f = s.flags;
    match op {
        WordOp::Subd => WordRegister::D.result(s, alu::sub(f, s.d(), m, false)),
        WordOp::Addd => WordRegister::D.result(s, alu::add(f, s.d(), m, false)),
        WordOp::Cpd => s.with_flags(alu::sub(f, s.d(), m, false).flags),
        WordOp::Cpy => s.with_flags(alu::sub(f, s.y, m, false).flags),
        WordOp::Cpx => s.with_flags(alu::sub(f, s.x, m, false).flags),
        WordOp::Cps => s.with_flags(alu::sub(f, s.sp, m, false).flags),
        WordOp::Ldd => WordRegister::D.result(s, loaded(f, m)),
        WordOp::Ldy => WordRegister::Y.result(s, loaded(f, m)),
        WordOp::Ldx => WordRegister::X.result(s, loaded(f, m)),
        WordOp::Lds => WordRegister::Sp.result(s, loaded(f, m)),
    }
}

// D, X, Y or SP with the word `v`.
pub fn with_word(s: State, op: WordOp, v: u16, cost: u8) -> Effect
    ensures { result ≡ word_with s (WithWord op) v cost }
{
    effect::quiet(worded(op, s, v), cost)
}

// A byte or a word is stored, with the codes of what is moved.
fn stored<T: Data + Width>(s: State, cost: u8, a: u16, v: T) -> Effect
    ensures { result ≡ writes (with_flags s (result_codes T.top s.flags (T.number v))) cost (T.store_at a v) }
{
    let flags = results::result_codes(s.flags, v);
    effect::writes(s.with_flags(flags), cost, v.store(a))
}

// A register is stored at the address `a`.
#[tactic(auto, unfolding(crate::specs::Words::stored))]
pub fn store(s: State, op: StoreOp, cost: u8, a: u16) -> Effect
    ensures { result ≡ stored_of (AStore op) s cost a }
{
    match op {
        StoreOp::Staa => stored(s, cost, a, s.a),
        StoreOp::Stab => stored(s, cost, a, s.b),
        StoreOp::Std => stored(s, cost, a, s.d()),
        StoreOp::Sty => stored(s, cost, a, s.y),
        StoreOp::Stx => stored(s, cost, a, s.x),
        StoreOp::Sts => stored(s, cost, a, s.sp),
    }
}

// The result of a choice in memory.
fn chosen<T: Data>(s: State, cost: u8, a: u16, r: Outcome<T>) -> Effect
    ensures { result ≡ writes (with_flags s r.flags) cost (T.store_at a r.value) }
{
    effect::writes(s.with_flags(r.flags), cost, r.value.store(a))
}

// The larger or smaller of a register and the operand at the address `a`.
#[tactic(auto, unfolding(crate::specs::Words::chosen))]
pub fn choose(s: State, m: &Memory, op: Choice, cost: u8, a: u16) -> Effect
    ensures { result ≡ chosen_of (Choose op) s m.now cost a }
{
    let f = s.flags;
    match op {
        Choice::Maxa => effect::quiet(
            Accumulator::A.result(s, alu::max(f, s.a, memory::read_byte(m, a))),
            cost,
        ),
        Choice::Mina => effect::quiet(
            Accumulator::A.result(s, alu::min(f, s.a, memory::read_byte(m, a))),
            cost,
        ),
        Choice::Emaxd => effect::quiet(
            WordRegister::D.result(s, alu::max(f, s.d(), memory::read_word(m, a))),
            cost,
        ),
        Choice::Emind => effect::quiet(
            WordRegister::D.result(s, alu::min(f, s.d(), memory::read_word(m, a))),
            cost,
        ),
        Choice::Maxm => chosen(s, cost, a, alu::max(f, s.a, memory::read_byte(m, a))),
        Choice::Minm => chosen(s, cost, a, alu::min(f, s.a, memory::read_byte(m, a))),
        Choice::Emaxm => chosen(s, cost, a, alu::max(f, s.d(), memory::read_word(m, a))),
        Choice::Eminm => chosen(s, cost, a, alu::min(f, s.d(), memory::read_word(m, a))),
    }
}

// `n` is the byte after the opcode, a mask or a postbyte, which most of these do not look at.
#[tactic(auto, unfolding(crate::specs::Registers::first_registers, crate::specs::Registers::second_registers, crate::specs::Registers::registered))]
pub fn registers(s: State, op: RegisterOp, n: u8, cost: u8) -> Effect
    ensures { result ≡ registered_of s (Registers op) n cost }
{
    let f = s.flags;
    let after = match op {
        RegisterOp::Lsrd => WordRegister::D.result(s, shift::lsr(f, s.d())),
        RegisterOp::Asld => WordRegister::D.result(s, shift::asl(f, s.d())),
        RegisterOp::Inx => WordRegister::X.result(s, alu::inx(f, s.x)),
        RegisterOp::Iny => WordRegister::Y.result(s, alu::inx(f, s.y)),
        RegisterOp::Dex => WordRegister::X.result(s, alu::dex(f, s.x)),
        RegisterOp::Dey => WordRegister::Y.result(s, alu::dex(f, s.y)),
        RegisterOp::Aba => Accumulator::A.result(s, alu::add_8(f, s.a, s.b, false)),
        RegisterOp::Sba => Accumulator::A.result(s, alu::sub(f, s.a, s.b, false)),
        RegisterOp::Cba => s.with_flags(alu::sub(f, s.a, s.b, false).flags),
        RegisterOp::Daa => Accumulator::A.result(s, decimal::daa(f, s.a)),
        RegisterOp::Tab => Accumulator::B.result(s, loaded(f, s.a)),
        RegisterOp::Tba => Accumulator::A.result(s, loaded(f, s.b)),
        RegisterOp::Andcc => s.with_flags(codes::andcc(f, n)),
        RegisterOp::Orcc => s.with_flags(codes::orcc(f, n)),
        RegisterOp::TfrExg => transfers::transfer(s, n),
        RegisterOp::Nop => s,
    };
    effect::quiet(after, cost)
}

// Between two entries of the table at the address `a`.
fn between<T: Data + Width>(f: Flags, b: u8, m: &Memory, a: u16) -> Outcome<T>
    ensures { result ≡ outcome_of T.of (lookup_of b (T.number (T.read_at m.now a)) (T.number (T.read_at m.now (plus_w a T.SIZE)))) (lookup_codes T.top f) }
{
    let y1 = T::read(m, a);
    let y2 = T::read(m, word::plus(a, T::SIZE));
    decimal::tbl(f, b, y1, y2)
}

// The two entries of the table are at the address `a`.
#[tactic(auto, unfolding(crate::specs::Lookups::looked_up))]
pub fn look_up(s: State, m: &Memory, op: Lookup, cost: u8, a: u16) -> Effect
    ensures { result ≡ quiet (looked_up (LookUp op) s m.now a) cost }
{
    let after = match op {
        Lookup::Tbl => Accumulator::A.result(s, between(s.flags, s.b, m, a)),
        Lookup::Etbl => WordRegister::D.result(s, between(s.flags, s.b, m, a)),
    };
    effect::quiet(after, cost)
}
