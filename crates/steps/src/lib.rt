// Steps one after another, from boundary to boundary: the one loop of the machine, with its answer.
#![tactic(auto)]

ghost use Rattle.std.specs.Prelude.{◌≡◌, true, ◌+◌, ◌≤◌, length};
ghost use Rattle.schedule.specs.Schedule.{rising};
ghost use Rattle.machine.specs.Names.{clock_limit};
ghost use Rattle.refusals.specs.Given.{given_is};
ghost use Rattle.steps.specs.End.{Ends};
ghost use Rattle.steps.specs.Steps.{goes_on};
ghost use Rattle.steps.specs.Idle.{idle_cycles};

use machine::{Machine, Reply};
use memory::Memory;
use schedule::{Schedule, Watch};
use state::State;

// What a step or a run answers: the machine after it, and the cycles that it used. A machine stands beside every reply, also beside one
// that refuses: the machine as it was.
#[derive(Clone, Copy)]
pub struct Answer {
    pub reply: Reply,
    pub machine: Machine,
    pub cycles: u32,
}

pub fn answered(reply: Reply, state: State, cycles: u32) -> Answer
    ensures { (result.reply ≡ reply) × ((result.machine.state ≡ state) × (result.cycles ≡ cycles)) }
{
    Answer {
        reply,
        machine: Machine::of(state),
        cycles,
    }
}

// How many cycles a waiting machine idles at once: to the next record, to the end of what is left to spend, or as many boundaries as
// there are. 0 where the machine does not wait, or a line is allowed that ends its wait.
fn idle_cycles(s: State, w: Watch, left: u32, more: u32) -> u32
    requires { s.clock ≤ w.due }
    ensures { result ≡ idle_cycles s w.line w.due left more }
{
    if s.standing.waiting {
        if requests::allowed_line(s.flags, w.line).is_none() {
            return (w.due - s.clock).min(left.min(more));
        }
    }
    0
}

// So many boundaries, or until a step costs more than is left or the machine stops. What was lent has been tested. A wait takes several
// boundaries at once, so that they are counted down by hand.
pub fn go(
    start: State,
    m: &mut Memory,
    schedule: Schedule<'_>,
    budget: u32,
    boundaries: u32,
) -> Answer
    requires cycles_len { length schedule.cycles.now ≡ length schedule.lines.now }
    requires cycles_value { rising schedule.cycles.now ≡ true }
    requires budget_bound { start.clock + budget ≤ clock_limit }
    ensures { Ends (goes_on boundaries (given_is schedule.entry.cycles.now schedule.entry.lines.now) start m.old budget) result m.new }
{
    let end = start.clock + budget;
    let mut s = start;
    let mut watch = schedule.first_watch(s.clock);
    let mut more = boundaries;
    loop {
        if more == 0 {
            break answered(Reply::Done, s, s.clock - start.clock);
        }
        watch = schedule.next_watch(watch, s.clock);
        let left = end - s.clock;
        let idle = idle_cycles(s, watch, left, more);
        if idle > 0 {
            s = s.with_clock(s.clock + idle);
            more -= idle;
            continue;
        }
        match turn::turn_at(s, &*m, watch.line) {
            Err(halt) => break answered(Reply::from(halt), s, s.clock - start.clock),
            Ok(done) => {
                if left < u32::from(done.cost) {
                    break answered(Reply::Done, s, s.clock - start.clock);
                }
                s = effect::act(s, m, done);
                more -= 1;
            }
        }
    }
}
