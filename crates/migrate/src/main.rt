// Reads an old schedule from standard input and prints the new one: docs/MIGRATE.md has the form of both. The lines 6 and 7 are withdrawn:
// their bits are cleared, and records that then repeat the line byte before them are removed.
#![tactic(auto)]

mod page;
mod reading;

ghost use Rattle.std.specs.Prelude.{◌≡◌};
ghost use Rattle.migrate.specs.Page.{page_text, answer_to, answer_of, Answers};

use machine::Machine;
use page::Page;
use reading::Reading;
use std::io;
use std::io::Read;
use table::Table;

// What is printed for the records of good lines.
fn answer_to(cycles: &[u32], lines: &[u8]) -> Page
    ensures { page_text result ≡ answer_to cycles.now lines.now }
{
    if schedule::accepted(cycles, lines, Machine::RECORDS) {
        return page::renewed(cycles, lines);
    }
    page::bad()
}

fn answer(done: Option<Table>) -> Page
    ensures { page_text result ≡ answer_of done }
{
    let Some(t) = done else {
        return page::bad();
    };
    let n = table::held(t.count);
    answer_to(&t.cycles[..n], &t.lines[..n])
}

// What is printed for a text of which `before` is what was read so far, and `rest` what is left: with `begin()` the rest is all of it.
fn migrate(before: Reading, rest: &[u8]) -> Page
    ensures { Answers before rest.now (page_text result) }
{
    answer(before.read(rest).finish())
}

// Reads to the end of the input, one part ahead, so that its last part is at hand when the end is met: a text that comes in one part is
// handed over whole. A proved loop has to end, and nothing says that the input does: it counts up to a number that no run reaches.
fn answer_input(input: &mut impl Read) -> Page {
    let mut before = Reading::begin();
    let mut part = [0u8; 4096];
    let Ok(mut n) = input.read(&mut part) else {
        return page::bad();
    };
    for _ in 0..u64::MAX {
        let mut next = [0u8; 4096];
        match input.read(&mut next) {
            Ok(0) => break,
            Ok(more) => {
                before = before.read(&part[..n]);
                part = next;
                n = more;
            }
            Err(_) => {
                before = before.spoiled();
                break;
            }
        }
    }
    migrate(before, &part[..n])
}

fn main(rt: HostRuntime) -> io::Result<()> {
    answer_input(&mut rt.stdin()).print(&rt)
}
