// A text of a schedule, read byte by byte: its finished lines, and the part of the line in which it stands.
ghost use Rattle.std.specs.Prelude.{◌≡◌, ◌<◌, SomeIff};
ghost use Rattle.migrate.specs.Format.{digit_value};
ghost use Rattle.migrate.specs.Reading.{longer as longer_of, grown as grown_of, with_line, begun, read_on, spoiled_is, finished};

use table::{Record, Table};

// What is read of a line. Once it can become no record it is wrong, whatever follows.
#[derive(Clone, Copy)]
pub enum Part {
    Nothing,
    // The digits of a cycle number.
    Cycle(u32),
    // And a space.
    Space(u32),
    // And the first digit of the line byte.
    Digit(u32, u8),
    // And the second: a cycle number and a line byte.
    Whole(u32, u8),
    Wrong,
}

// The finished lines, as the first of their records where all are good, and the part of the next.
#[derive(Drop)]
pub struct Reading {
    pub done: Option<Table>,
    pub part: Part,
}

// The value of a decimal or hexadecimal digit.
fn digit(b: u8) -> Option<u8>
    ensures { SomeIff result (digit_value b < 16) (digit_value b) }
{
    if (b >= b'0') & (b <= b'9') {
        return Some(b - b'0');
    }
    if (b >= b'A') & (b <= b'F') {
        return Some(b - b'A' + 10);
    }
    if (b >= b'a') & (b <= b'f') {
        return Some(b - b'a' + 10);
    }
    None
}

fn longer(cycle: u32, d: u8) -> Part
    ensures { result ≡ longer_of cycle d }
{
    match u32::try_from(u64::from(cycle) * 10 + u64::from(d)) {
        Ok(n) => Part::Cycle(n),
        Err(_) => Part::Wrong,
    }
}

// The part of a line with one byte more.
fn grown(part: Part, b: u8) -> Part
    ensures { result ≡ grown_of part b }
{
    match (part, digit(b)) {
        (Part::Cycle(cycle), _) if b == b' ' => Part::Space(cycle),
        (Part::Nothing, Some(d)) if d < 10 => longer(0, d),
        (Part::Cycle(cycle), Some(d)) if d < 10 => longer(cycle, d),
        (Part::Space(cycle), Some(d)) => Part::Digit(cycle, d),
        (Part::Digit(cycle, first), Some(d)) => Part::Whole(cycle, first % 16 * 16 + d),
        _ => Part::Wrong,
    }
}

// The finished lines with one more, of which this was read.
fn with_line(done: Option<Table>, part: Part) -> Option<Table>
    ensures { result ≡ with_line done part }
{
    let Part::Whole(cycle, line) = part else {
        return None;
    };
    Some(table::put(done?, Record::of(cycle, line)))
}

impl Reading {
    pub fn begin() -> Self
        ensures { result ≡ begun }
    {
        Reading {
            done: Some(table::empty()),
            part: Part::Nothing,
        }
    }

    // Reads on. The finished lines are handed on only where a line ends, since they are much to copy.
    pub fn read(self, text: &[u8]) -> Self
        ensures { result ≡ read_on self text.now }
    {
        let Reading { mut done, mut part } = self;
        for &b in text {
            if b == b'\n' {
                done = with_line(done, part);
                part = Part::Nothing;
            } else {
                part = grown(part, b);
            }
        }
        Reading { done, part }
    }

    // What is read of an input that fails: its rest is not known, so it counts as other text.
    pub fn spoiled(self) -> Self
        ensures { result ≡ spoiled_is self }
    {
        Reading {
            part: Part::Wrong,
            ..self
        }
    }

    // The lines of a text that ends here. Its last line may lack a line feed.
    pub fn finish(self) -> Option<Table>
        ensures { result ≡ finished self }
    {
        match self.part {
            Part::Nothing => self.done,
            part => with_line(self.done, part),
        }
    }
}
