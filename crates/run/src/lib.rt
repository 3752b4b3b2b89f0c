// One step under a line byte, and a run with a schedule and a budget: what is lent is tested first (`refusals`), and refused with
// its number in docs/MACHINE.md; then both are the one loop (`steps`).
#![tactic(auto)]

ghost use Rattle.std.specs.Prelude.{◌≡◌};
ghost use Rattle.refusals.specs.Given.{given_is};
ghost use Rattle.steps.specs.End.{Ends};
ghost use Rattle.run.specs.Step.{step_of};
ghost use Rattle.run.specs.Run.{run_of};

use machine::{Machine, Reply};
use schedule::Schedule;
use steps::Answer;

// No step costs more, so that this budget is enough for any one.
const ONE_STEP: u32 = 13;

// One step under the line byte `line`: the loop with one boundary. Refused or stopped, it changes no register and no byte.
pub fn step(machine: Machine, m: &mut [u8], line: u8) -> Answer
    ensures { Ends (step_of machine.state m.old line) result m.new }
{
    let s = machine.state;
    if let Err(refusal) = refusals::step_refusal(s, m, line) {
        return steps::answered(Reply::from(refusal), s, 0);
    }
    let cycles = [0u32];
    let lines = [line];
    let schedule = Schedule {
        cycles: &cycles,
        lines: &lines,
    };
    let memory = m.as_mut_array().unwrap();
    steps::go(s, memory, schedule, ONE_STEP, 1)
}

// Steps, each under the line byte in force at its boundary, until one costs more than is left of the budget or the machine stops.
// Each costs a cycle at least, so that there are no more boundaries than cycles, and the one at the end.
pub fn run(machine: Machine, m: &mut [u8], cycles: &[u32], lines: &[u8], budget: u32) -> Answer
    ensures { Ends (run_of machine.state m.old (given_is cycles.now lines.now) budget) result m.new }
{
    let s = machine.state;
    let schedule = Schedule { cycles, lines };
    if let Err(refusal) = refusals::run_refusal(s, m, schedule, budget) {
        return steps::answered(Reply::from(refusal), s, 0);
    }
    let memory = m.as_mut_array().unwrap();
    steps::go(s, memory, schedule, budget, budget + 1)
}
