// The schedule: whether it is accepted, and the line byte in force, found by moving through the records once.
#![tactic(auto)]

ghost use Rattle.std.specs.Prelude.{◌≡◌, ◌≤◌};
ghost use Rattle.schedule.specs.Schedule.{rising as rising_of, accepted as accepted_of, withdrawn as withdrawn_of, any_withdrawn, passed as passed_of, line_before, coming_at, watch_is, watch_at, Watched};

// Where a run stands in its schedule: how many records are at or before its clock, the line byte in force, and the clock value at which
// the next record comes into force. Until then a step finds its line byte here by one comparison.
#[derive(Clone, Copy)]
pub struct Watch {
    pub place: usize,
    pub line: u8,
    pub due: u32,
}

fn rising(cycles: &[u32]) -> bool
    ensures { result ≡ rising_of cycles.now }
{
    cycles.is_sorted_by(|before, after| before < after)
}

// Whether this is a list of at most `most` records whose cycle numbers strictly rise.
pub fn accepted(cycles: &[u32], lines: &[u8], most: usize) -> bool
    ensures { result ≡ accepted_of most cycles.now lines.now }
{
    let sized = (cycles.len() == lines.len()) & (cycles.len() <= most);
    sized & rising(cycles)
}

// Whether a line byte has bit 6 or 7, whose requests are withdrawn.
pub fn withdrawn(line: u8) -> bool
    ensures { result ≡ withdrawn_of line }
{
    (line / 64 % 2 == 1) | (line / 128 % 2 == 1)
}

// Whether one of the line bytes has, wherever it stands: also one that never comes into force.
#[tactic(auto, unfolding(crate::specs::Schedule::any_withdrawn))]
pub fn any_withdrawn(lines: &[u8]) -> bool
    ensures { result ≡ any_withdrawn lines.now }
{
    lines.iter().any(|line| withdrawn(*line))
}

// How many records are at or before a clock value, where `from` of them are known to be.
fn passed(cycles: &[u32], from: usize, clock: u32) -> usize
    requires { from ≤ passed_of cycles.now clock }
    ensures { result ≡ passed_of cycles.now clock }
{
    for place in from..cycles.len() {
        if cycles[place] > clock {
            return place;
        }
    }
    cycles.len()
}

// The line byte of the last of the first `place` records.
fn line_before(lines: &[u8], place: usize) -> u8
    ensures { result ≡ line_before lines.now place }
{
    match place.checked_sub(1) {
        Some(last) => lines.get(last).copied().unwrap_or(0),
        None => 0,
    }
}

// The clock value at which the record at a place comes into force. Past the last record none does: no clock reaches that number.
fn coming(cycles: &[u32], place: usize) -> u32
    ensures { result ≡ coming_at cycles.now place }
{
    cycles.get(place).copied().unwrap_or(u32::MAX)
}

fn watch_is(place: usize, line: u8, due: u32) -> Watch
    ensures { result ≡ watch_is place line due }
{
    Watch { place, line, due }
}

fn watch_from(cycles: &[u32], lines: &[u8], from: usize, clock: u32) -> Watch
    requires { from ≤ passed_of cycles.now clock }
    ensures { result ≡ watch_at cycles.now lines.now clock }
{
    let place = passed(cycles, from, clock);
    let line = line_before(lines, place);
    watch_is(place, line, coming(cycles, place))
}

pub fn first_watch(cycles: &[u32], lines: &[u8], clock: u32) -> Watch
    ensures { result ≡ watch_at cycles.now lines.now clock }
{
    watch_from(cycles, lines, 0, clock)
}

// The watch at a later clock value. Until the next record is due it is the same one.
pub fn next_watch(cycles: &[u32], lines: &[u8], w: Watch, clock: u32) -> Watch
    requires { Watched cycles.now lines.now clock w }
    ensures { result ≡ watch_at cycles.now lines.now clock }
{
    if clock < w.due {
        return w;
    }
    watch_from(cycles, lines, w.place, clock)
}

// A schedule as a run is lent it: the cycle numbers of its records, and their line bytes, which go through a run together.
#[derive(Clone, Copy)]
pub struct Schedule<'a> {
    pub cycles: &'a [u32],
    pub lines: &'a [u8],
}

impl Schedule<'_> {
    pub fn accepted(self, most: usize) -> bool
        ensures { result ≡ accepted_of most self.entry.cycles.now self.entry.lines.now }
    {
        accepted(self.cycles, self.lines, most)
    }

    pub fn any_withdrawn(self) -> bool
        ensures { result ≡ any_withdrawn self.entry.lines.now }
    {
        any_withdrawn(self.lines)
    }

    pub fn first_watch(self, clock: u32) -> Watch
        ensures { result ≡ watch_at self.entry.cycles.now self.entry.lines.now clock }
    {
        first_watch(self.cycles, self.lines, clock)
    }

    pub fn next_watch(self, w: Watch, clock: u32) -> Watch
        requires { Watched self.cycles.now self.lines.now clock w }
        ensures { result ≡ watch_at self.entry.cycles.now self.entry.lines.now clock }
    {
        next_watch(self.cycles, self.lines, w, clock)
    }
}
