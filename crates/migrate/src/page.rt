// The page that is printed: a line for each record that is kept, and one that counts.
ghost use Rattle.std.specs.Prelude.{◌≡◌, ◌≤◌, length};
ghost use Rattle.text.specs.Text.{ascii};
ghost use Rattle.table.specs.Records.{record_is};
ghost use Rattle.machine.specs.Names.{record_limit};
ghost use Rattle.migrate.specs.Migrated.{cleared_byte, altered_count, record_line, counts_line, renewed as renewed_of};
ghost use Rattle.migrate.specs.Page.{page_text, empty_page, with_text, text_of, paired, with_kept};

use arrayvec::ArrayVec;
use machine::Machine;
use std::io;
use text::Text;

// As many lines as a schedule may have records, and the line that counts.
const ROOM: usize = Machine::RECORDS + 1;

#[derive(Drop)]
pub struct Page {
    pub lines: ArrayVec<Text, ROOM>,
}

fn cleared(line: u8) -> u8
    ensures { result ≡ cleared_byte line }
{
    line % 64
}

// How many line bytes have one of the bits that are cleared.
fn altered(lines: &[u8]) -> usize
    ensures { result ≡ altered_count lines.now }
{
    lines.iter().filter(|&&line| cleared(line) != line).count()
}

fn record_text(cycle: u32, line: u8) -> Text
    ensures { result ≡ text_of (record_line (record_is cycle line)) }
{
    let number = Text::empty().put_decimal(u64::from(cycle)).put(b' ');
    number.put_hex_byte(line).put(b'\n')
}

fn counts_text(altered: usize, removed: usize) -> Text
    ensures { result ≡ text_of (counts_line altered removed) }
{
    let first = Text::empty().put_decimal(altered as u64).put(b' ');
    first.put_decimal(removed as u64).put(b'\n')
}

impl Page {
    fn empty() -> Self
        ensures { result ≡ empty_page }
    {
        Page {
            lines: ArrayVec::new(),
        }
    }

    fn put(mut self, t: Text) -> Self
        ensures { result ≡ with_text self t }
    {
        if !self.lines.is_full() {
            self.lines.push(t);
        }
        self
    }

    // No promise can say what reaches the output.
    pub fn print(self, out: &impl Print) -> io::Result<()> {
        for line in self.lines.as_slice() {
            line.print(out)?;
        }
        Ok(())
    }
}

// The lines of the records that do not repeat the line byte before them, once it is cleared. Before the first it is 0.
fn kept(cycles: &[u32], lines: &[u8]) -> Page
    requires { length cycles.now ≡ length lines.now }
    ensures { result ≡ with_kept empty_page 0 (paired cycles.now lines.now) }
{
    let mut page = Page::empty();
    let mut last: u8 = 0;
    for (&cycle, &line) in cycles.iter().zip(lines) {
        let line = cleared(line);
        if line != last {
            page = page.put(record_text(cycle, line));
        }
        last = line;
    }
    page
}

// The page of a schedule that is accepted.
pub fn renewed(cycles: &[u32], lines: &[u8]) -> Page
    requires { (length cycles.now ≡ length lines.now) × (length cycles.now ≤ record_limit) }
    ensures { page_text result ≡ renewed_of (paired cycles.now lines.now) }
{
    let page = kept(cycles, lines);
    let removed = cycles.len() - page.lines.len();
    page.put(counts_text(altered(lines), removed))
}

pub fn bad() -> Page
    ensures { page_text result ≡ ascii "bad\n" }
{
    Page::empty().put(Text::empty().put_all(b"bad\n"))
}
