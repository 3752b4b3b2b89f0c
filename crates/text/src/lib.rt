// A line of text. Bytes are put into it one after another, and then it is printed. It has 80 places; what is put when all of
// them are taken is left out.
#![tactic(auto)]

ghost use Rattle.std.specs.Prelude.{◌≡◌, [], ◌∷◌, ◌≤◌, ◌<◌, take};
ghost use Rattle.text.specs.Text.{blank, Followed, digit_of, hex_byte, hex_word, numeral};

use std::io;

const DIGITS: [u8; 16] = *b"0123456789ABCDEF";

// The first `len` places are written. There is no heap, and `arrayvec::ArrayVec` is not `Copy`, as the texts of a page have to be when
// they are printed from it.
#[derive(Clone, Copy, Default)]
pub struct Text {
    bytes: [u8; 80],
    len: usize,
}

fn digit(n: u8) -> u8
    requires { n < 16 }
    ensures { result ≡ digit_of n }
{
    DIGITS[n as usize]
}

// The digits of n in a base. Its part above the last digit goes first.
fn spelled(t: Text, n: u64, base: u64) -> Text
    requires { (2 ≤ base) × (base ≤ 16) }
    ensures { Followed t (numeral base n) result }
{
    if n < base {
        return t.put(digit(n as u8));
    }
    spelled(t, n / base, base).put(digit((n % base) as u8))
}

// The first n bytes, or all of them where n is more.
pub fn first(bytes: &[u8], n: usize) -> &[u8]
    ensures { result.now ≡ take n bytes.now }
{
    bytes.get(..n).unwrap_or(bytes)
}

impl Text {
    #[tactic(auto, unfolding(crate::specs::Text::blank))]
    pub fn empty() -> Self
        ensures { result ≡ blank }
    {
        Text {
            bytes: [0; 80],
            len: 0,
        }
    }

    #[tactic(auto, using(crate::proofs::Laws::put_one, crate::proofs::Laws::put_past))]
    pub fn put(mut self, b: u8) -> Self
        ensures { Followed self (b ∷ []) result }
    {
        let at = self.len;
        if at < 80 {
            self.bytes[at] = b;
            self.len = at + 1;
        }
        self
    }

    #[tactic(auto, using(crate::proofs::Laws::none_yet))]
    pub fn put_all(mut self, more: &[u8]) -> Self
        ensures { Followed self more.now result }
    {
        for byte in more {
            self = self.put(*byte);
        }
        self
    }

    pub fn put_decimal(self, n: u64) -> Self
        ensures { Followed self (numeral 10 n) result }
    {
        spelled(self, n, 10)
    }

    pub fn put_hex(self, n: u64) -> Self
        ensures { Followed self (numeral 16 n) result }
    {
        spelled(self, n, 16)
    }

    pub fn put_hex_byte(self, b: u8) -> Self
        ensures { Followed self (hex_byte b) result }
    {
        self.put(digit(b / 16)).put(digit(b % 16))
    }

    pub fn put_hex_word(self, w: u16) -> Self
        ensures { Followed self (hex_word w) result }
    {
        self.put_hex_byte(word::high(w)).put_hex_byte(word::low(w))
    }

    // No promise can say what reaches the output. What it is handed is, by the promise of `first`, what is written.
    pub fn print(self, out: &impl Print) -> io::Result<()> {
        let bytes = self.bytes;
        out.write_all(first(&bytes, self.len))
    }
}
