// The shifts and rotates, at 8 and at 16 bits: the result and the codes after, from the codes before and the operand.
#![tactic(auto)]

ghost use Rattle.std.specs.Prelude.{◌≡◌, Bool, false};
ghost use Rattle.word.specs.Word.{bit_of};
ghost use Rattle.results.specs.Results.{outcome_of};
ghost use Rattle.shift.specs.Shift.{left_of, right_of, shift_codes, rol_byte, asr_byte, ror_byte};

use results::{Byte, Outcome, Width, codes, exclusive_or};
use state::Flags;

// A shift that gave a value and moved a bit into C. V is the exclusive or of N and C after it.
fn shifted<W: Width>(f: Flags, value: W, c: bool) -> Outcome<W>
    ensures { result ≡ record { value = value; flags = shift_codes W.top f c (W.number value) } }
{
    let v = exclusive_or(value.top_bit(), c);
    let flags = codes(f, value, v, c);
    Outcome { value, flags }
}

// All bits one place to the left, `low` into bit 0.
fn left<W: Width>(f: Flags, m: W, low: bool) -> Outcome<W>
    ensures { result ≡ outcome_of W.of (left_of W.top (W.number m) low) (shift_codes W.top f (bit_of W.top (W.number m))) }
{
    let value = W::cut(m.wide() * 2 + u64::from(low));
    shifted(f, value, m.top_bit())
}

// All bits one place to the right, `high` into the top bit.
fn right<W: Width>(f: Flags, m: W, high: bool) -> Outcome<W>
    ensures { result ≡ outcome_of W.of (right_of W.top (W.number m) high) (shift_codes W.top f (bit_of 0 (W.number m))) }
{
    let top = u64::from(high) * W::span();
    let value = W::cut((m.wide() + top) / 2);
    shifted(f, value, m.wide() % 2 == 1)
}

// ASL, LSL, ASLD, LSLD.
pub fn asl<W: Width>(f: Flags, m: W) -> Outcome<W>
    ensures { result ≡ outcome_of W.of (left_of W.top (W.number m) false) (shift_codes W.top f (bit_of W.top (W.number m))) }
{
    left(f, m, false)
}

pub fn rol(f: Flags, m: u8) -> Byte
    ensures { result ≡ rol_byte f m }
{
    left(f, m, f.c)
}

// LSR, LSRD.
pub fn lsr<W: Width>(f: Flags, m: W) -> Outcome<W>
    ensures { result ≡ outcome_of W.of (right_of W.top (W.number m) false) (shift_codes W.top f (bit_of 0 (W.number m))) }
{
    right(f, m, false)
}

pub fn asr(f: Flags, m: u8) -> Byte
    ensures { result ≡ asr_byte f m }
{
    right(f, m, m.top_bit())
}

pub fn ror(f: Flags, m: u8) -> Byte
    ensures { result ≡ ror_byte f m }
{
    right(f, m, f.c)
}
