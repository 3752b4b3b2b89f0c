// What a step and what a run refuse: one function each, over one order, so that a later reply that refuses is added here and nowhere else.
#![tactic(auto)]

ghost use Rattle.std.specs.Prelude.{◌≡◌};
ghost use Rattle.word.specs.Word.{pick};
ghost use Rattle.machine.specs.Names.{number_of};
ghost use Rattle.refusals.specs.Given.{given_is};
ghost use Rattle.refusals.specs.Refusals.{refusal_number, refused_number, refusal, past_limit, run_refusal};

use machine::{Machine, Reply};
use schedule::Schedule;
use state::State;

// What may be refused. Each becomes the reply of the same name.
#[derive(Clone, Copy, Debug, PartialEq, Eq)]
pub enum Refusal {
    WrongMemory,
    WrongSchedule,
    WrongLine,
    PastLimit,
}

impl From<Refusal> for Reply {
    ghost from_gives = { λ x r. number_of r ≡ refusal_number x };

    fn from(refusal: Refusal) -> Reply {
        match refusal {
            Refusal::WrongMemory => Reply::WrongMemory,
            Refusal::WrongSchedule => Reply::WrongSchedule,
            Refusal::WrongLine => Reply::WrongLine,
            Refusal::PastLimit => Reply::PastLimit,
        }
    }
}

// The clock and the budget may each be any number of 32 bits: their sum is taken in 64.
fn past_limit(clock: u32, budget: u32) -> bool
    ensures { result ≡ past_limit clock budget }
{
    (budget > Machine::BUDGET_LIMIT) | (u64::from(clock) + u64::from(budget) > Machine::CLOCK_LIMIT)
}

// Of what may be refused the first that is, in this order.
fn first_of(memory: bool, schedule: bool, line: bool, limit: bool) -> Result<(), Refusal>
    ensures { refused_number result ≡ pick memory 1 (pick schedule 2 (pick line 15 (pick limit 3 0))) }
{
    if memory {
        return Err(Refusal::WrongMemory);
    }
    if schedule {
        return Err(Refusal::WrongSchedule);
    }
    if line {
        return Err(Refusal::WrongLine);
    }
    if limit {
        return Err(Refusal::PastLimit);
    }
    Ok(())
}

// What a step refuses: it is lent no schedule.
pub fn step_refusal(s: State, m: &[u8], line: u8) -> Result<(), Refusal>
    ensures { refused_number result ≡ refusal s m.now line }
{
    let gone = schedule::withdrawn(line);
    let far = s.clock > Machine::STEP_LIMIT;
    first_of(m.len() != Machine::MEMORY, false, gone, far)
}

// What a run refuses.
pub fn run_refusal(s: State, m: &[u8], given: Schedule<'_>, budget: u32) -> Result<(), Refusal>
    ensures { refused_number result ≡ run_refusal s m.now (given_is given.entry.cycles.now given.entry.lines.now) budget }
{
    let good = given.accepted(Machine::RECORDS);
    let gone = given.any_withdrawn();
    let far = past_limit(s.clock, budget);
    first_of(m.len() != Machine::MEMORY, !good, gone, far)
}
