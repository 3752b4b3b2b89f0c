// The decimal adjustment after an addition, and the two table lookups.
#![tactic(auto)]

ghost use Rattle.std.specs.Prelude.{◌≡◌};
ghost use Rattle.results.specs.Results.{outcome_of};
ghost use Rattle.decimal.specs.Decimal.{daa_byte};
ghost use Rattle.decimal.specs.Lookup.{lookup_of, lookup_codes};

use results::{Byte, Outcome, Width};
use state::Flags;

// The rows of the table, told by its bounds. Where no row serves, nothing is added and C stays.
pub fn daa(f: Flags, a: u8) -> Byte
    ensures { result ≡ daa_byte f a }
{
    let c = f.c;
    let h = f.h;
    let high = a / 16;
    let low = a % 16;
    // The largest high digit, plus one, that a row with C set has.
    let past_high = 3 + u8::from(h);
    let listed = !(h & (low >= 4) | c & (high >= past_high));
    let low_due = listed & (h | (low >= 10));
    let high_due = listed & (c | (high >= 10) | (high >= 9) & (low >= 10));
    let factor = u8::from(low_due) * 6 + u8::from(high_due) * 96;
    let value = a.wrapping_add(factor);
    let flags = results::codes(f, value, f.v, c | high_due);
    Byte { value, flags }
}

// Between two entries of a table, b 256ths of the way from the first to the second: in one fraction, by the law `OneFraction`.
fn between<W: Width>(b: u8, y1: W, y2: W) -> W
    ensures { result ≡ W.of (lookup_of b (W.number y1) (W.number y2)) }
{
    let b = u64::from(b);
    let whole = y1.wide() * 256 + b * y2.wide();
    W::cut((whole - b * y1.wide()) / 256)
}

// TBL, ETBL.
pub fn tbl<W: Width>(f: Flags, b: u8, y1: W, y2: W) -> Outcome<W>
    ensures { result ≡ outcome_of W.of (lookup_of b (W.number y1) (W.number y2)) (lookup_codes W.top f) }
{
    let value = between(b, y1, y2);
    let flags = f.with_n(value.top_bit()).with_z(value.is_zero());
    Outcome { value, flags }
}
