// The multiplications: the results and the codes after, from the codes before and the registers.
#![tactic(auto)]

ghost use Rattle.std.specs.Prelude.{◌≡◌};
ghost use Rattle.product.specs.Product.{mul_word, product_codes, emul_long, signed_product, emuls_long, emacs_long};

use results::{Outcome, Width, Word, codes, sum_overflow};
use state::Flags;

// 32 bits: Y : D, or four bytes of memory.
pub type Long = Outcome<u32>;

pub fn mul(f: Flags, a: u8, b: u8) -> Word
    ensures { result ≡ mul_word f a b }
{
    let value = a as u16 * b as u16;
    let flags = f.with_c(value / 128 % 2 == 1);
    Word { value, flags }
}

fn product_codes(f: Flags, r: u32) -> Flags
    ensures { result ≡ product_codes f r }
{
    f.with_n(r.top_bit())
        .with_z(r.is_zero())
        .with_c(r / 32768 % 2 == 1)
}

pub fn emul(f: Flags, d: u16, y: u16) -> Long
    ensures { result ≡ emul_long f d y }
{
    let value = d as u32 * y as u32;
    let flags = product_codes(f, value);
    Long { value, flags }
}

// Both factors with their signs spread over 32 bits: modulo 2 to the 32nd that is the product, by the law `SignedProduct`.
#[tactic(auto, using(crate::proofs::Laws::signed_product_lem))]
fn signed_product(x: u16, y: u16) -> u32
    ensures { result ≡ signed_product x y }
{
    word::extend::<u32>(x).wrapping_mul(word::extend::<u32>(y))
}

pub fn emuls(f: Flags, d: u16, y: u16) -> Long
    ensures { result ≡ emuls_long f d y }
{
    let value = signed_product(d, y);
    let flags = product_codes(f, value);
    Long { value, flags }
}

// V and C of EMACS are an addition's, V at 32 bits and C from bit 15.
pub fn emacs(f: Flags, x: u16, y: u16, m: u32) -> Long
    ensures { result ≡ emacs_long f x y m }
{
    let i = signed_product(x, y);
    let value = i.wrapping_add(m);
    let v = sum_overflow(m.top_bit(), i.top_bit(), value.top_bit());
    let flags = codes(f, value, v, m % 65536 + i % 65536 > 65535);
    Long { value, flags }
}
