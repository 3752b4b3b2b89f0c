// The lines of request: which is entered at a boundary, what its entry or the end of a wait does, and RTI, which may take one itself.
#![tactic(auto)]

ghost use Rattle.std.specs.Prelude.{◌≡◌};
ghost use Rattle.machine.specs.Names.{line_vector};
ghost use Rattle.requests.specs.Requests.{as_line, lowest_line, allowed_line, masked as masked_of, entry_effect, vectored as vectored_of, wake_effect, rti_effect};

use effect::Effect;
use machine::Machine;
use memory::Memory;
use state::{Flags, State};

// The lowest of the lines 1 to 5 that is up.
fn lowest_line(line: u8) -> Option<u8>
    ensures { result ≡ as_line (lowest_line line) }
{
    // The bits 1 to 5.
    let up = line & 0b11_1110;
    if up == 0 {
        return None;
    }
    Some(up.trailing_zeros() as u8)
}

// The line to be entered. At most boundaries no line is up, so that is asked first.
pub fn allowed_line(f: Flags, line: u8) -> Option<u8>
    ensures { result ≡ as_line (allowed_line f line) }
{
    if line == 0 {
        return None;
    }
    let warned = (line % 2 == 1) & !f.x;
    if warned {
        return Some(0);
    }
    if f.i {
        return None;
    }
    lowest_line(line)
}

fn masked(k: u8, f: Flags) -> Flags
    ensures { result ≡ masked_of k f }
{
    if k == 0 {
        return f.with_i(true).with_x(true);
    }
    f.with_i(true)
}

fn line_vector(k: u8) -> u16
    ensures { result ≡ line_vector k }
{
    word::minus(Machine::XIRQ_VECTOR, 2 * u16::from(k))
}

// Line k is entered: the frame holds the flags as they were.
#[tactic(auto, unfolding(crate::specs::Requests::entry_effect))]
pub fn entry(s: State, m: &Memory, k: u8) -> Effect
    ensures { result ≡ entry_effect s m.now k }
{
    frames::interrupt(
        s,
        m,
        line_vector(k),
        masked(k, s.flags),
        Machine::ENTRY_COST,
    )
}

// Line k is taken, and the frame is in place.
fn vectored(s: State, m: &Memory, k: u8) -> State
    ensures { result ≡ vectored_of s m.now k }
{
    let target = memory::read_word(m, line_vector(k));
    s.with_flags(masked(k, s.flags)).with_pc(target)
}

// Line k ends a wait. The frame was pushed when the wait began.
#[tactic(auto, unfolding(crate::specs::Requests::wake_effect))]
pub fn wake(s: State, m: &Memory, k: u8) -> Effect
    ensures { result ≡ wake_effect s m.now k }
{
    effect::quiet(vectored(s, m, k).with_waiting(false), Machine::WAKE_COST)
}

// RTI. Where the masks that it pulls allow a request of `line`, the byte in force where it begins, that is taken in the same step, and the
// frame stays for it; else RTI has `cost`.
pub fn return_from_interrupt(s: State, m: &Memory, line: u8, cost: u8) -> Effect
    ensures { result ≡ rti_effect s m.now line cost }
{
    let pulled = frames::pulled_frame(s, m);
    if let Some(k) = allowed_line(pulled.flags, line) {
        let kept = pulled.with_sp(s.sp);
        return effect::quiet(vectored(kept, m, k), Machine::RETURN_AND_ENTRY_COST);
    }
    effect::quiet(pulled, cost)
}
