// The records of a schedule, and the table that the first of them are put into.
#![tactic(auto)]

ghost use Rattle.std.specs.Prelude.{◌≡◌, min};
ghost use Rattle.table.specs.Records.{record_is, room, no_records, with_record, gathered};

use machine::Machine;

// From this cycle on, this line byte.
#[derive(Clone, Copy)]
pub struct Record {
    pub cycle: u32,
    pub line: u8,
}

impl Record {
    pub fn of(cycle: u32, line: u8) -> Self
        ensures { result ≡ record_is cycle line }
    {
        Record { cycle, line }
    }
}

// One place more than a schedule may have records: when all are taken the machine refuses them, whatever else follows.
const ROOM: usize = Machine::RECORDS + 1;

// The first records of a schedule, as the machine's run takes them.
// Two arrays with one count: `run::run` takes the cycle numbers and the line bytes as two slices, and there is no heap.
#[derive(Drop)]
pub struct Table {
    pub cycles: [u32; ROOM],
    pub lines: [u8; ROOM],
    pub count: usize,
}

#[tactic(auto, unfolding(crate::specs::Records::no_records))]
pub fn empty() -> Table
    ensures { result ≡ no_records }
{
    Table {
        cycles: [0; ROOM],
        lines: [0; ROOM],
        count: 0,
    }
}

pub fn put(mut t: Table, r: Record) -> Table
    ensures { result ≡ with_record t r }
{
    let next = t.count;
    if next < ROOM {
        t.cycles[next] = r.cycle;
        t.lines[next] = r.line;
        t.count = next + 1;
    }
    t
}

// How many records a table holds, by its count: at most as many as it has room for.
pub fn held(count: usize) -> usize
    ensures { result ≡ min count room }
{
    count.min(ROOM)
}

// The records of a lent slice, as many as the table has room for.
pub fn gather(rs: &[Record]) -> Table
    ensures { result ≡ gathered no_records rs.now }
{
    let mut t = empty();
    for r in rs {
        t = put(t, *r);
    }
    t
}
