// The machine's doors for programs in other languages, over numbers and lent bytes. Each tests every length that it is lent, and
// changes nothing where it refuses. docs/GUIDE-ABI.md has the state record, the packed schedule and the numbers.
#![tactic(auto)]

ghost use Rattle.std.specs.Prelude.{◌≡◌, length};
ghost use Rattle.machine.specs.Names.{number_of};
ghost use Rattle.packing.specs.Bytes.{record_size, bytes_of};
ghost use Rattle.cpu12.specs.Doors.{version, reset_leaves, step_leaves, run_leaves, Leaves};

use machine::Machine;
use steps::Answer;

// The version of these doors, by which a program knows that it was compiled for the library that it is linked with.
#[unsafe(no_mangle)]
pub extern "C" fn cpu12_version() -> u32
    ensures { result ≡ version }
{
    2
}

// The machine's answer: its state and cycles go into the record, and its reply's number is returned.
fn told(r: &mut [u8], answer: Answer) -> u32
    requires { length r.old ≡ record_size }
    ensures { (result ≡ number_of answer.reply) × (r.new ≡ bytes_of answer.machine.state answer.cycles) }
{
    let machine = answer.machine;
    packing::put_record(r.as_mut_array().unwrap(), machine.state, answer.cycles);
    u32::from(answer.reply.number())
}

#[unsafe(no_mangle)]
pub extern "C" fn cpu12_reset(state: &mut [u8], m: &[u8]) -> u32
    ensures { Leaves (reset_leaves state.old m.now) result state.new m.now }
{
    if let Err(refused) = lent::check_length(state) {
        return refused.number();
    }
    let started = Machine::reset(m);
    let machine = started.machine;
    told(state, steps::answered(started.reply, machine.state, 0))
}

#[unsafe(no_mangle)]
pub extern "C" fn cpu12_step(state: &mut [u8], m: &mut [u8], line: u8) -> u32
    ensures { Leaves (step_leaves state.old m.old line) result state.new m.new }
{
    let before = match lent::check_record(state) {
        Ok(record) => packing::state_of(record),
        Err(refused) => return refused.number(),
    };
    told(state, run::step(Machine::of(before), m, line))
}

#[unsafe(no_mangle)]
pub extern "C" fn cpu12_run(state: &mut [u8], m: &mut [u8], schedule: &[u8], budget: u32) -> u32
    ensures { Leaves (run_leaves state.old m.old schedule.now budget) result state.new m.new }
{
    let before = match lent::check_lent(state, schedule) {
        Ok(record) => packing::state_of(record),
        Err(refused) => return refused.number(),
    };
    let schedule = packing::unpacked(schedule);
    told(
        state,
        records::run_table(Machine::of(before), m, schedule, budget),
    )
}
