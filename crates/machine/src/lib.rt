// The machine: its replies, its numbers, and its reset.
#![tactic(auto)]

ghost use Rattle.std.specs.Prelude.{◌≡◌};
ghost use Rattle.machine.specs.Names.{number_of};
ghost use Rattle.machine.specs.Reset.{reset_state, reset_reply, reset_of};

use memory::Memory;
use state::{Flags, State};

// The replies of docs/MACHINE.md, "Numbered replies"; `number_of` in specs/Names.antt gives the number of each.
#[derive(Clone, Copy, Debug, PartialEq, Eq)]
pub enum Reply {
    Done = 0,
    WrongMemory = 1,
    WrongSchedule = 2,
    PastLimit = 3,
    Stopped = 4,
    ReservedPostbyte = 5,
    WrongLine = 15,
}

impl Reply {
    pub fn number(self) -> u8
        ensures { result ≡ number_of self }
    {
        self as u8
    }
}

#[derive(Clone, Copy)]
pub struct Machine {
    pub state: State,
}

// What a reset leaves. A refused one leaves a machine too (`reset_of`): so the reply stands beside it, and this is no Result.
#[derive(Clone, Copy)]
pub struct Started {
    pub reply: Reply,
    pub machine: Machine,
}

// A machine after a reset, and the reply that the reset gives.
fn after_reset(reply: Reply, pc: u16) -> Started
    ensures { (result.reply ≡ reply) × (result.machine.state ≡ reset_state pc) }
{
    Started {
        reply,
        machine: Machine::new(pc),
    }
}

impl Machine {
    pub const MEMORY: usize = 65536;

    pub const RECORDS: usize = 64;

    pub const BUDGET_LIMIT: u32 = 100000000;

    pub const CLOCK_LIMIT: u64 = 4000000000;

    pub const STEP_LIMIT: u32 = 3999999900;

    pub const RESET_VECTOR: u16 = 0xFFFE;

    pub const TRAP_VECTOR: u16 = 0xFFF8;

    pub const SWI_VECTOR: u16 = 0xFFF6;

    pub const XIRQ_VECTOR: u16 = 0xFFF4;

    pub const ENTRY_COST: u8 = 9;

    pub const WAKE_COST: u8 = 6;

    pub const RETURN_AND_ENTRY_COST: u8 = 10;

    pub const IDLE_COST: u8 = 1;

    pub fn of(state: State) -> Self
        ensures { result.state ≡ state }
    {
        Machine { state }
    }

    // The state after a reset, with PC as given: S, X and I set, all else clear.
    pub fn new(pc: u16) -> Self
        ensures { result.state ≡ reset_state pc }
    {
        let flags = Flags::cleared().with_i(true).with_x(true).with_s(true);
        let state = State::cleared().with_flags(flags).with_pc(pc);
        Machine::of(state)
    }

    // Reset reads the vector and stores nothing.
    pub fn reset(m: &[u8]) -> Started
        ensures { (number_of result.reply ≡ reset_reply m.now) × (result.machine.state ≡ reset_of m.now) }
    {
        let Ok(whole) = <&Memory>::try_from(m) else {
            return after_reset(Reply::WrongMemory, 0);
        };
        after_reset(Reply::Done, memory::read_word(whole, Machine::RESET_VECTOR))
    }
}
