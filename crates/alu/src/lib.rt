// Additions, subtractions, counting and comparing, at 8 and at 16 bits: each is a function from the codes before and the operands
// to the result and the codes after. No memory, no opcode and no address here.
#![tactic(auto)]

ghost use Rattle.std.specs.Prelude.{◌≡◌, min, max, false};
ghost use Rattle.results.specs.Results.{outcome_of};
ghost use Rattle.alu.specs.Alu.{sum_of, difference_of, one_more, one_less, sum_codes, difference_codes};
ghost use Rattle.alu.specs.Alu.{add_byte, neg_byte, inc_byte, dec_byte, inx_word, dex_word};

use results::{Byte, Outcome, Width, Word, codes, difference_overflow, sum_overflow};
use state::Flags;

pub fn one_more<W: Width>(x: W) -> W
    ensures { result ≡ W.of (one_more W.top (W.number x)) }
{
    W::cut(x.wide() + 1)
}

pub fn one_less<W: Width>(x: W) -> W
    ensures { result ≡ W.of (one_less W.top (W.number x)) }
{
    W::cut(x.wide() + W::span() - 1)
}

// ADDD; and ADDA, ADDB, ADCA, ADCB, ABA without H.
pub fn add<W: Width>(f: Flags, x: W, m: W, carry: bool) -> Outcome<W>
    ensures { result ≡ outcome_of W.of (sum_of W.top (W.number x) (W.number m) carry) (sum_codes W.top f (W.number x) (W.number m)) }
{
    let sum = x.wide() + m.wide() + u64::from(carry);
    let value = W::cut(sum);
    let v = sum_overflow(x.top_bit(), m.top_bit(), value.top_bit());
    let flags = codes(f, value, v, sum >= W::span());
    Outcome { value, flags }
}

// ADDA, ADDB, ADCA, ADCB, ABA.
pub fn add_8(f: Flags, x: u8, m: u8, carry: bool) -> Byte
    ensures { result ≡ add_byte f x m carry }
{
    let half = x % 16 + m % 16 + u8::from(carry);
    let sum = add(f, x, m, carry);
    Outcome {
        value: sum.value,
        flags: sum.flags.with_h(half > 15),
    }
}

// SUBA, SUBB, SBCA, SBCB, SBA, SUBD; CMPA, CMPB, CBA, CPD, CPX, CPY, CPS by the codes alone.
pub fn sub<W: Width>(f: Flags, x: W, m: W, carry: bool) -> Outcome<W>
    ensures { result ≡ outcome_of W.of (difference_of W.top (W.number x) (W.number m) carry) (difference_codes W.top f (W.number x) (W.number m)) }
{
    let less = m.wide() + u64::from(carry);
    let value = W::cut(x.wide() + W::span() - less);
    let v = difference_overflow(x.top_bit(), m.top_bit(), value.top_bit());
    let flags = codes(f, value, v, x.wide() < less);
    Outcome { value, flags }
}

pub fn neg(f: Flags, m: u8) -> Byte
    ensures { result ≡ neg_byte f m }
{
    let value = m.wrapping_neg();
    let flags = codes(f, value, value == 128, value != 0);
    Outcome { value, flags }
}

pub fn inc(f: Flags, m: u8) -> Byte
    ensures { result ≡ inc_byte f m }
{
    let value = one_more(m);
    let flags = codes(f, value, m == 127, f.c);
    Outcome { value, flags }
}

pub fn dec(f: Flags, m: u8) -> Byte
    ensures { result ≡ dec_byte f m }
{
    let value = one_less(m);
    let flags = codes(f, value, m == 128, f.c);
    Outcome { value, flags }
}

// INX, INY.
pub fn inx(f: Flags, x: u16) -> Word
    ensures { result ≡ inx_word f x }
{
    let value = one_more(x);
    let flags = f.with_z(value == 0);
    Outcome { value, flags }
}

// DEX, DEY.
pub fn dex(f: Flags, x: u16) -> Word
    ensures { result ≡ dex_word f x }
{
    let value = one_less(x);
    let flags = f.with_z(value == 0);
    Outcome { value, flags }
}

// MAXA, MAXM, EMAXD, EMAXM.
pub fn max<W: Width>(f: Flags, x: W, m: W) -> Outcome<W>
    ensures { result ≡ outcome_of W.of (max (W.number x) (W.number m)) (λ _. difference_codes W.top f (W.number x) (W.number m) (difference_of W.top (W.number x) (W.number m) false)) }
{
    let value = W::cut(x.wide().max(m.wide()));
    let flags = sub(f, x, m, false).flags;
    Outcome { value, flags }
}

// MINA, MINM, EMIND, EMINM.
pub fn min<W: Width>(f: Flags, x: W, m: W) -> Outcome<W>
    ensures { result ≡ outcome_of W.of (min (W.number x) (W.number m)) (λ _. difference_codes W.top f (W.number x) (W.number m) (difference_of W.top (W.number x) (W.number m) false)) }
{
    let value = W::cut(x.wide().min(m.wide()));
    let flags = sub(f, x, m, false).flags;
    Outcome { value, flags }
}
