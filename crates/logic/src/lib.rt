// Logic on bytes, bit by bit: each operation is a function from the codes before and the operands to the result and the codes after.
// Tests for zero and clearing stand here too, since no carry enters into them.
#![tactic(auto)]

ghost use Rattle.std.specs.Prelude.{◌≡◌};
ghost use Rattle.results.specs.Results.{byte_of, result_codes};
ghost use Rattle.logic.specs.Logic.{and_byte, or_byte, eor_byte, bclr_byte, all_clear, all_set, tst_byte, clr_byte, com_byte};

use results::{Byte, codes, nzvc, result_codes};
use state::Flags;

// A result with N and Z of it, and V cleared.
fn coded(f: Flags, value: u8) -> Byte
    ensures { result ≡ byte_of value (result_codes 7 f) }
{
    let flags = result_codes(f, value);
    Byte { value, flags }
}

// ANDA, ANDB; BITA, BITB by the codes alone.
pub fn and_8(f: Flags, x: u8, m: u8) -> Byte
    ensures { result ≡ and_byte f x m }
{
    coded(f, x & m)
}

// ORAA, ORAB, BSET.
pub fn or_8(f: Flags, x: u8, m: u8) -> Byte
    ensures { result ≡ or_byte f x m }
{
    coded(f, x | m)
}

// EORA, EORB.
pub fn eor_8(f: Flags, x: u8, m: u8) -> Byte
    ensures { result ≡ eor_byte f x m }
{
    coded(f, x ^ m)
}

pub fn bclr(f: Flags, m: u8, mask: u8) -> Byte
    ensures { result ≡ bclr_byte f m mask }
{
    and_8(f, m, !mask)
}

// BRCLR branches where this holds.
pub fn bits_clear(m: u8, mask: u8) -> bool
    ensures { result ≡ all_clear m mask }
{
    m & mask == 0
}

// BRSET branches where this holds.
pub fn bits_set(m: u8, mask: u8) -> bool
    ensures { result ≡ all_set m mask }
{
    !m & mask == 0
}

pub fn tst(f: Flags, m: u8) -> Byte
    ensures { result ≡ tst_byte f m }
{
    let flags = codes(f, m, false, false);
    Byte { value: m, flags }
}

pub fn clr(f: Flags) -> Byte
    ensures { result ≡ clr_byte f }
{
    let flags = nzvc(f, false, true, false, false);
    Byte { value: 0, flags }
}

pub fn com(f: Flags, m: u8) -> Byte
    ensures { result ≡ com_byte f m }
{
    let value = !m;
    let flags = codes(f, value, false, true);
    Byte { value, flags }
}
