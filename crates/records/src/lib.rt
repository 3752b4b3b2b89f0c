// The run over a lent slice of records: they are gathered into two arrays of numbers, over which the machine runs.
#![tactic(auto)]

ghost use Rattle.std.specs.Prelude.{◌≡◌};
ghost use Rattle.refusals.specs.Given.{given_is};
ghost use Rattle.steps.specs.End.{Ends};
ghost use Rattle.run.specs.Run.{run_of};
ghost use Rattle.table.specs.Records.{cycles_of, lines_of, table_cycles, table_lines};

use machine::Machine;
use steps::Answer;
use table::{Record, Table};

// The machine's run, with the schedule as the records that a table holds.
pub fn run_table(machine: Machine, m: &mut [u8], t: Table, budget: u32) -> Answer
    ensures { Ends (run_of machine.state m.old (given_is (table_cycles t) (table_lines t)) budget) result m.new }
{
    let n = table::held(t.count);
    run::run(machine, m, &t.cycles[..n], &t.lines[..n], budget)
}

// The machine's run, with the schedule as a list of records.
pub fn run(machine: Machine, m: &mut [u8], rs: &[Record], budget: u32) -> Answer
    ensures { Ends (run_of machine.state m.old (given_is (cycles_of rs.now) (lines_of rs.now)) budget) result m.new }
{
    run_table(machine, m, table::gather(rs), budget)
}
