// The divisions of the 16-bit registers, unsigned and signed.
#![tactic(auto)]

ghost use Rattle.std.specs.Prelude.{◌≡◌};
ghost use Rattle.word.specs.Word.{bit_of};
ghost use Rattle.quotient.specs.Divide.{unsigned, idiv_of, fdiv_of, by_zero, too_large, divided, ediv_of};
ghost use Rattle.quotient.specs.Divide.{magnitude_of, signed_of, signed_division, idivs_of, edivs_of};

use results::{Width, exclusive_or};
use state::Flags;

// The quotient is for X or Y, the remainder for D.
#[derive(Clone, Copy)]
pub struct Division {
    pub quotient: u16,
    pub remainder: u16,
    pub flags: Flags,
}

// The codes of IDIV and FDIV, whose quotient and remainder are known.
fn unsigned_division(f: Flags, x: u16, v: bool, quotient: u16, remainder: u16) -> Division
    ensures { result ≡ unsigned f x v quotient remainder }
{
    let flags = f.with_z(quotient == 0).with_v(v).with_c(x == 0);
    Division {
        quotient,
        remainder,
        flags,
    }
}

pub fn idiv(f: Flags, d: u16, x: u16) -> Division
    ensures { result ≡ idiv_of f d x }
{
    if x == 0 {
        return unsigned_division(f, x, false, 65535, d);
    }
    unsigned_division(f, x, false, d / x, d % x)
}

pub fn fdiv(f: Flags, d: u16, x: u16) -> Division
    ensures { result ≡ fdiv_of f d x }
{
    if x <= d {
        return unsigned_division(f, x, true, 65535, d);
    }
    let n = d as u32 * 65536;
    let q = (n / x as u32) as u16;
    let r = (n % x as u32) as u16;
    unsigned_division(f, x, false, q, r)
}

// The registers as they were, and C.
fn by_zero(f: Flags, quotient: u16, remainder: u16) -> Division
    ensures { result ≡ by_zero f quotient remainder }
{
    let flags = f.with_c(true);
    Division {
        quotient,
        remainder,
        flags,
    }
}

// The registers as they were, and V.
fn too_large(f: Flags, quotient: u16, remainder: u16) -> Division
    ensures { result ≡ too_large f quotient remainder }
{
    let flags = f.with_v(true).with_c(false);
    Division {
        quotient,
        remainder,
        flags,
    }
}

fn fitting(f: Flags, quotient: u16, remainder: u16) -> Division
    ensures { result ≡ divided f quotient remainder }
{
    let flags = results::codes(f, quotient, false, false);
    Division {
        quotient,
        remainder,
        flags,
    }
}

pub fn ediv(f: Flags, y: u16, d: u16, x: u16) -> Division
    ensures { result ≡ ediv_of f y d x }
{
    if x == 0 {
        return by_zero(f, y, d);
    }
    let n: u32 = word::word(y, d);
    let q = n / x as u32;
    if q >= 65536 {
        return too_large(f, y, d);
    }
    fitting(f, q as u16, (n % x as u32) as u16)
}

fn magnitude<W: Width>(n: W) -> u64
    ensures { result ≡ magnitude_of W.top (W.number n) }
{
    if n.top_bit() {
        W::span() - n.wide()
    } else {
        n.wide()
    }
}

// A magnitude with its sign, as 16 bits.
fn signed(negative: bool, m: u16) -> u16
    ensures { result ≡ signed_of negative m }
{
    if negative { word::minus(0, m) } else { m }
}

// By sign and magnitude: n is the dividend. q and d are the registers that stay where there is no result.
fn signed_division<W: Width>(f: Flags, q: u16, d: u16, n: W, x: u16) -> Division
    ensures { result ≡ signed_division f q d (bit_of W.top (W.number n)) (magnitude_of W.top (W.number n)) x }
{
    if x == 0 {
        return by_zero(f, q, d);
    }
    let dividend = magnitude(n);
    let divisor = magnitude(x);
    let negative = n.top_bit();
    let sign = x.top_bit();
    let unlike = exclusive_or(negative, sign);
    let m = dividend / divisor;
    if unlike & (m >= 32769) | !unlike & (m >= 32768) {
        return too_large(f, q, d);
    }
    let r = signed(negative, (dividend % divisor) as u16);
    fitting(f, signed(unlike, m as u16), r)
}

pub fn idivs(f: Flags, d: u16, x: u16) -> Division
    ensures { result ≡ idivs_of f d x }
{
    signed_division(f, x, d, d, x)
}

pub fn edivs(f: Flags, y: u16, d: u16, x: u16) -> Division
    ensures { result ≡ edivs_of f y d x }
{
    signed_division(f, y, d, word::word::<u32>(y, d), x)
}
