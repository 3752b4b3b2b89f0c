// Reads cases from standard input, a line each, and writes an answer for each: docs/CASES.md has the format.
#![tactic(auto)]

ghost use Rattle.std.specs.Prelude.{◌≤◌, length, IfSome};

use arrayvec::ArrayVec;
use machine::{Machine, Reply};
use state::{Flags, State};
use std::io;
use std::io::Read;
use steps::Answer;
use table::{Record, Table};
use text::Text;

// What is left to read of a line: each word with the space before it.
#[derive(Drop)]
struct Rest<'a>(&'a [u8]);

fn bad() -> Text {
    Text::empty().put_all(b"bad\n")
}

fn put_next(t: Text, n: u64) -> Text {
    t.put(b' ').put_hex(n)
}

// The longest answer has 68 bytes.
fn answer(r: Reply, cycles: u32, s: State, sum: u64) -> Text {
    let flags = s.flags;
    let standing = s.standing;
    let numbers: [u64; 11] = [
        u64::from(cycles),
        u64::from(s.a),
        u64::from(s.b),
        u64::from(s.x),
        u64::from(s.y),
        u64::from(s.sp),
        u64::from(s.pc),
        u64::from(flags.ccr()),
        u64::from(standing.waiting),
        u64::from(s.clock),
        sum,
    ];
    let mut text = Text::empty().put_hex(u64::from(r.number()));
    for n in numbers {
        text = put_next(text, n);
    }
    text.put(b'\n')
}

fn digit_value(b: u8) -> Option<u32>
    ensures { IfSome result (λ digit. digit ≤ 15) }
{
    match b {
        b'0'..=b'9' => Some(u32::from(b - b'0')),
        b'A'..=b'F' => Some(u32::from(b - b'A') + 10),
        _ => None,
    }
}

impl Rest<'_> {
    // Takes a space, and the number that stands up to the next one, read as it is found. A ninth digit fits no number.
    fn value(&mut self) -> Option<u32> {
        let from = self.0.strip_prefix(b" ")?;
        let mut value: u32 = 0;
        let mut end = from.len();
        for (place, &b) in from.iter().enumerate() {
            if b == b' ' {
                end = place;
                break;
            }
            value = value.checked_mul(16)?.checked_add(digit_value(b)?)?;
        }
        let (word, rest) = from.split_at(end);
        if matches!(word, [] | [b'0', _, ..]) {
            return None;
        }
        self.0 = rest;
        Some(value)
    }

    // Takes a number of at most `most`.
    fn number(&mut self, most: u32) -> Option<u32> {
        let value = self.value()?;
        if value > most {
            return None;
        }
        Some(value)
    }

    fn byte(&mut self) -> Option<u8> {
        u8::try_from(self.value()?).ok()
    }

    fn register(&mut self) -> Option<u16> {
        u16::try_from(self.value()?).ok()
    }

    fn registers(&mut self) -> Option<State> {
        let a = self.byte()?;
        let b = self.byte()?;
        let x = self.register()?;
        let y = self.register()?;
        let sp = self.register()?;
        let pc = self.register()?;
        let ccr = self.byte()?;
        let waits = self.number(1)?;
        let clock = self.number(u32::MAX)?;
        let bytes = State::cleared().with_a(a).with_b(b);
        let words = bytes.with_x(x).with_y(y).with_sp(sp).with_pc(pc);
        let codes = words.with_flags(Flags::of_ccr(ccr));
        Some(codes.with_waiting(waits == 1).with_clock(clock))
    }

    // Lays `count` bytes over the memory. None where a pair is missing or its address is outside.
    fn overlay(&mut self, count: u32, memory: &mut [u8]) -> Option<()> {
        for _ in 0..count {
            let place = self.number(0x10000)? as usize;
            *memory.get_mut(place)? = self.byte()?;
        }
        Some(())
    }

    // Takes `count` records of a schedule, for which the table has room.
    fn records(&mut self, count: u32) -> Option<Table> {
        let mut t = table::empty();
        for _ in 0..count {
            let cycle = self.number(u32::MAX)?;
            t = table::put(t, Record::of(cycle, self.byte()?));
        }
        Some(t)
    }

    // Nothing follows.
    fn end(&self) -> Option<()> {
        if self.0.is_empty() { Some(()) } else { None }
    }
}

fn next_seed(v: u32) -> u32 {
    ((u64::from(v) * 1103515245 + 12345) % 2147483648) as u32
}

fn seeded_byte(v: u32) -> u8 {
    (v / 65536 % 256) as u8
}

fn sow(memory: &mut [u8], seed: u32) {
    let mut v = seed;
    for byte in memory.iter_mut() {
        v = next_seed(v);
        *byte = seeded_byte(v);
    }
}

fn fill(memory: &mut [u8], seed: u32) {
    if seed == 0 {
        memory.fill(0);
    } else {
        sow(memory, seed);
    }
}

// The sum of (address + 1) * byte. From the top down, `above` is the sum of the bytes passed; the byte at an
// address is in it address + 1 times.
fn weighted(memory: &[u8]) -> u64
    requires { length memory.now ≤ 65537 }
{
    let mut above: u64 = 0;
    let mut sum: u64 = 0;
    for &byte in memory.iter().rev() {
        above += u64::from(byte);
        sum += above;
    }
    sum
}

// The machine's answer, with the memory that it left.
fn ended(done: Answer, memory: &[u8]) -> Text
    requires { length memory.now ≤ 65537 }
{
    let machine = done.machine;
    answer(done.reply, done.cycles, machine.state, weighted(memory))
}

fn reset(rest: Rest, memory: &[u8]) -> Option<Text>
    requires { length memory.now ≤ 65537 }
{
    rest.end()?;
    let started = Machine::reset(memory);
    let machine = started.machine;
    Some(answer(started.reply, 0, machine.state, weighted(memory)))
}

fn step(mut rest: Rest, memory: &mut [u8]) -> Option<Text>
    requires { length memory.old ≤ 65537 }
{
    let state = rest.registers()?;
    let line = rest.byte()?;
    rest.end()?;
    let done = run::step(Machine::of(state), memory, line);
    Some(ended(done, memory))
}

// One record more than the machine accepts can be given, so that it can be seen to refuse them.
fn run(mut rest: Rest, memory: &mut [u8]) -> Option<Text>
    requires { length memory.old ≤ 65537 }
{
    let state = rest.registers()?;
    let budget = rest.number(u32::MAX)?;
    let count = rest.number(65)?;
    let schedule = rest.records(count)?;
    rest.end()?;
    let done = records::run_table(Machine::of(state), memory, schedule, budget);
    Some(ended(done, memory))
}

// The answer to a line that is of the form.
fn case(line: &[u8], memory: &mut [u8]) -> Option<Text>
    requires { length memory.old ≤ 65537 }
{
    let (&letter, words) = line.split_first()?;
    let mut rest = Rest(words);
    let len = rest.number(0x10001)? as usize;
    let seed = rest.number(u32::MAX)?;
    let count = rest.number(0x100)?;
    let memory = memory.get_mut(..len)?;
    fill(memory, seed);
    rest.overlay(count, memory)?;
    match letter {
        b's' => step(rest, memory),
        b'r' => run(rest, memory),
        b'z' => reset(rest, memory),
        _ => None,
    }
}

fn finish(out: &impl Print, line: &[u8], memory: &mut [u8]) -> io::Result<()>
    requires { length memory.old ≤ 65537 }
{
    case(line, memory).unwrap_or_else(bad).print(out)
}

// The line that is being read. The longest well-formed line, a run, has 3,156 bytes: one that is cut short here is
// malformed, cut or not.
type Line = ArrayVec<u8, ROOM>;

const ROOM: usize = 4096;

// Adds to the line what there is room for.
fn keep(line: &mut Line, more: &[u8]) {
    let room = ROOM - line.len();
    let _ = line.try_extend_from_slice(text::first(more, room));
}

// Takes in what was read, answering each line that it ends: the first part goes on with the line that is held, and each further one
// begins a line.
fn take(out: &impl Print, chunk: &[u8], line: &mut Line, memory: &mut [u8]) -> io::Result<()>
    requires { length memory.old ≤ 65537 }
{
    let mut held = true;
    for part in chunk.split(|&b| b == b'\n') {
        if !held {
            finish(out, line.as_slice(), memory)?;
            line.clear();
        }
        keep(line, part);
        held = false;
    }
    Ok(())
}

// Reads to the end of the input. A proved loop has to end, and nothing says that the input does: it counts up to a number of
// reads that no run reaches.
fn drain(
    input: &mut impl Read,
    out: &impl Print,
    line: &mut Line,
    memory: &mut [u8],
) -> io::Result<()>
    requires { length memory.old ≤ 65537 }
{
    let mut chunk = [0u8; 65536];
    for _ in 0..u64::MAX {
        let n = input.read(&mut chunk)?;
        if n == 0 {
            break;
        }
        take(out, &chunk[..n], line, memory)?;
    }
    Ok(())
}

// Answers each line of the input, and a last one that has no end.
fn answer_all(input: &mut impl Read, out: &impl Print, memory: &mut [u8]) -> io::Result<()>
    requires { length memory.old ≤ 65537 }
{
    let mut line = Line::new();
    drain(input, out, &mut line, memory)?;
    if line.is_empty() {
        return Ok(());
    }
    finish(out, line.as_slice(), memory)
}

fn main(rt: HostRuntime) -> io::Result<()> {
    let mut memory = [0u8; 65537];
    answer_all(&mut rt.stdin(), &rt, &mut memory)
}
