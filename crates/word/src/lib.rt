// Bytes and words: the two halves of a word and of 32 bits, sums of addresses modulo 65,536, sign extension.
// Every other crate builds its addresses from these.
#![tactic(auto)]

ghost use Rattle.std.specs.Prelude.{ℕ, ◌≡◌};
ghost use Rattle.std.proofs.Common.{rules};
ghost use Rattle.word.specs.Word.{high_of, low_of, word_of, plus_w, minus_w, extend8, extend9, extend16, high_word, low_word, long_of};

// A number of two halves: a word of two bytes, 32 bits of two words.
pub trait Halves: Copy {
    type Half: Copy;

    ghost high_half: { Self → Self.Half };

    ghost low_half: { Self → Self.Half };

    ghost of_halves: { Self.Half → Self.Half → Self };

    ghost extended: { Self.Half → Self };

    fn high(self) -> Self::Half
        ensures { result ≡ high_half self };

    fn low(self) -> Self::Half
        ensures { result ≡ low_half self };

    fn of(high: Self::Half, low: Self::Half) -> Self
        ensures { result ≡ of_halves high low };

    fn extend(low: Self::Half) -> Self
        ensures { result ≡ extended low };

    // The halves of a number make it again.
    ghost again: { (n : Self) → of_halves (high_half n) (low_half n) ≡ n };
}

impl Halves for u16 {
    type Half = u8;

    ghost high_half = { high_of };

    ghost low_half = { low_of };

    ghost of_halves = { word_of };

    ghost extended = { extend8 };

    ghost again = { Prim.search rules };

    fn high(self) -> u8 {
        (self / 256) as u8
    }

    fn low(self) -> u8 {
        (self % 256) as u8
    }

    fn of(high: u8, low: u8) -> u16 {
        u16::from(high) * 256 + u16::from(low)
    }

    fn extend(low: u8) -> u16 {
        i16::from(low.cast_signed()).cast_unsigned()
    }
}

impl Halves for u32 {
    type Half = u16;

    ghost high_half = { high_word };

    ghost low_half = { low_word };

    ghost of_halves = { long_of };

    ghost extended = { extend16 };

    ghost again = { Prim.search rules };

    fn high(self) -> u16 {
        (self / 65536) as u16
    }

    fn low(self) -> u16 {
        (self % 65536) as u16
    }

    fn of(high: u16, low: u16) -> u32 {
        u32::from(high) * 65536 + u32::from(low)
    }

    fn extend(low: u16) -> u32 {
        i32::from(low.cast_signed()).cast_unsigned()
    }
}

// The trait's four functions by the names that callers use, with no import: `word::high(s.x)`.
pub fn high<T: Halves>(n: T) -> T::Half
    ensures { result ≡ T.high_half n }
{
    n.high()
}

pub fn low<T: Halves>(n: T) -> T::Half
    ensures { result ≡ T.low_half n }
{
    n.low()
}

pub fn word<T: Halves>(high: T::Half, low: T::Half) -> T
    ensures { result ≡ T.of_halves high low }
{
    T::of(high, low)
}

// The low half, its sign carried through the high one.
pub fn extend<T: Halves>(low: T::Half) -> T
    ensures { result ≡ T.extended low }
{
    T::extend(low)
}

// A sum of addresses. A number past $FFFF comes round to $0000.
pub fn plus(a: u16, b: u16) -> u16
    ensures { result ≡ plus_w a b }
{
    a.wrapping_add(b)
}

// A difference of addresses. A number below $0000 comes round to $FFFF.
pub fn minus(a: u16, b: u16) -> u16
    ensures { result ≡ minus_w a b }
{
    a.wrapping_sub(b)
}

// Nine bits made 16: the byte, and the ninth bit, which is the sign.
pub fn extend_9(sign: bool, low: u8) -> u16
    ensures { result ≡ extend9 sign low }
{
    if sign {
        u16::from(low) + 0xFF00
    } else {
        u16::from(low)
    }
}
