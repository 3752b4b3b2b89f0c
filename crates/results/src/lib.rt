// A result of 8, 16 or 32 bits with the codes that it gives, and the manual's formulas for them: what every operation ends in.
// No memory, no opcode and no address here.
#![tactic(auto)]

ghost use Rattle.std.specs.Prelude.{◌≡◌, ℕ, suc, ◌%◌, ◌^◌, ◌<◌, ◌≤◌, ◌&&◌, ◌||◌, not, eqb, refl};
ghost use Rattle.word.specs.Word.{bit_of};
ghost use Rattle.results.specs.Results.{exclusive_or, set_nzv, set_nzvc, result_codes};

use state::Flags;

#[derive(Clone, Copy)]
pub struct Outcome<T> {
    pub value: T,
    pub flags: Flags,
}

pub type Byte = Outcome<u8>;

pub type Word = Outcome<u16>;

// A number of 8, 16 or 32 bits. An operation over it reckons in 64 bits, and cuts the result.
pub trait Width: Copy {
    // The number of the top bit.
    ghost top: { ℕ };

    // What a value is as a number, and the value of a number.
    ghost number: { Self → ℕ };

    ghost of: { ℕ → Self };

    // How many values there are.
    fn span() -> u64
        ensures { (result ≡ 2 ^ suc top) × (result ≤ 4294967296) };

    fn wide(self) -> u64
        ensures { (result ≡ number self) × (result < 2 ^ suc top) × (result < 4294967296) };

    // The low bits of a number, as many as the width has.
    fn cut(n: u64) -> Self
        ensures { result ≡ of (n % 2 ^ suc top) };

    fn top_bit(self) -> bool
        ensures { result ≡ bit_of top (number self) }
    {
        self.wide() >= Self::span() / 2
    }

    fn is_zero(self) -> bool
        ensures { result ≡ eqb (number self) 0 }
    {
        self.wide() == 0
    }

    ghost again: { (n : ℕ) → number (of n) ≡ n };

    ghost kept: { (x : Self) → of (number x) ≡ x };
}

impl Width for u8 {
    ghost top = { 7 };

    ghost number = { λ n. n };

    ghost of = { λ n. n };

    ghost again = { λ n. refl };

    ghost kept = { λ x. refl };

    fn span() -> u64 {
        256
    }

    fn wide(self) -> u64 {
        u64::from(self)
    }

    fn cut(n: u64) -> u8 {
        (n % 256) as u8
    }
}

impl Width for u16 {
    ghost top = { 15 };

    ghost number = { λ n. n };

    ghost of = { λ n. n };

    ghost again = { λ n. refl };

    ghost kept = { λ x. refl };

    fn span() -> u64 {
        65536
    }

    fn wide(self) -> u64 {
        u64::from(self)
    }

    fn cut(n: u64) -> u16 {
        (n % 65536) as u16
    }
}

impl Width for u32 {
    ghost top = { 31 };

    ghost number = { λ n. n };

    ghost of = { λ n. n };

    ghost again = { λ n. refl };

    ghost kept = { λ x. refl };

    fn span() -> u64 {
        4294967296
    }

    fn wide(self) -> u64 {
        u64::from(self)
    }

    fn cut(n: u64) -> u32 {
        (n % 4294967296) as u32
    }
}

fn nzv(f: Flags, n: bool, z: bool, v: bool) -> Flags
    ensures { result ≡ set_nzv f n z v }
{
    f.with_n(n).with_z(z).with_v(v)
}

pub fn nzvc(f: Flags, n: bool, z: bool, v: bool, c: bool) -> Flags
    ensures { result ≡ set_nzvc f n z v c }
{
    nzv(f, n, z, v).with_c(c)
}

pub fn exclusive_or(a: bool, b: bool) -> bool
    ensures { result ≡ exclusive_or a b }
{
    a ^ b
}

// V of a sum, from the top bits of the two numbers and of the result.
pub fn sum_overflow(x: bool, m: bool, r: bool) -> bool
    ensures { result ≡ (x && m && not r || not x && not m && r) }
{
    x & m & !r | !x & !m & r
}

// V of a difference, likewise.
pub fn difference_overflow(x: bool, m: bool, r: bool) -> bool
    ensures { result ≡ (x && not m && not r || not x && m && r) }
{
    x & !m & !r | !x & m & r
}

// LDAA, LDAB, STAA, STAB, TAB, TBA, LDD, LDX, LDY, LDS, STD, STX, STY, STS: the codes of a value that is moved.
pub fn result_codes<W: Width>(f: Flags, r: W) -> Flags
    ensures { result ≡ result_codes W.top f (W.number r) }
{
    nzv(f, r.top_bit(), r.is_zero(), false)
}

// The codes of a result whose V and C the operation tells.
pub fn codes<W: Width>(f: Flags, r: W, v: bool, c: bool) -> Flags
    ensures { result ≡ set_nzvc f (bit_of W.top (W.number r)) (eqb (W.number r) 0) v c }
{
    nzvc(f, r.top_bit(), r.is_zero(), v, c)
}
