// What stands at the program counter. Nothing is changed here: the memory is only read, each byte of the opcode once and the postbyte
// once.
#![tactic(auto)]

ghost use Rattle.std.specs.Prelude.{◌≡◌};
ghost use Rattle.opcodes.specs.Postbyte.{form_number};
ghost use Rattle.decode.specs.Decode.{opcode_is, opcode_at, second_reserved, decoded_is, fetched_of, halted};

use machine::Reply;
use memory::Memory;
use opcodes::Cell;
use opcodes::form::Form;
use opcodes::kind::Kind;
use opcodes::mode::Mode;

// An instruction: which it is, how it is addressed, the first byte after its opcode, the address after all of it, its
// cost, and its cost where it is a branch that is not taken; and the byte that stands at `at`.
#[derive(Clone, Copy)]
pub struct Decoded {
    pub kind: Kind,
    pub mode: Mode,
    pub at: u16,
    pub next: u16,
    pub cost: u8,
    pub untaken: u8,
    pub postbyte: u8,
}

// Why no instruction was fetched: an encoding that stops the machine, or a reserved postbyte.
#[derive(Clone, Copy)]
pub enum Halt {
    Stopped,
    Reserved,
}

impl From<Halt> for Reply {
    ghost use Rattle.decode.specs.Decode.{halted};

    ghost from_gives = { λ halt reply. reply ≡ halted halt };

    fn from(halt: Halt) -> Self {
        match halt {
            Halt::Stopped => Reply::Stopped,
            Halt::Reserved => Reply::ReservedPostbyte,
        }
    }
}

// A cell of the map, and the address after the opcode that named it.
#[derive(Clone, Copy)]
pub struct Opcode {
    pub cell: Cell,
    pub at: u16,
}

const PREBYTE: u8 = 0x18;

fn opcode_is(cell: Cell, at: u16) -> Opcode
    ensures { result ≡ opcode_is cell at }
{
    Opcode { cell, at }
}

pub fn opcode_at(m: &Memory, pc: u16) -> Opcode
    ensures { result ≡ opcode_at m.now pc }
{
    let first = memory::read_byte(m, pc);
    if first == PREBYTE {
        let second = memory::read_byte(m, word::plus(pc, 1));
        return opcode_is(opcodes::cell_at(true, second), word::plus(pc, 2));
    }
    opcode_is(opcodes::cell_at(false, first), word::plus(pc, 1))
}

// Whether there is a second postbyte, which stands right after the first, and it is reserved.
#[tactic(auto, unfolding(opcodes::specs::Postbyte::cost_of))]
fn second_reserved(m: &Memory, c: Cell, at: u16) -> bool
    ensures { result ≡ second_reserved m.now c at }
{
    if matches!(c.mode, Mode::IdId) {
        let postbyte = memory::read_byte(m, word::plus(at, 1));
        let form = opcodes::form_of(postbyte);
        return opcodes::reserved(c, postbyte, opcodes::full_cost(c, form));
    }
    false
}

pub fn decoded_is(pc: u16, c: Cell, at: u16, postbyte: u8, form: Form, cost: u8) -> Decoded
    ensures { result ≡ decoded_is pc c at postbyte (form_number form) cost }
{
    Decoded {
        kind: c.kind,
        mode: c.mode,
        at,
        next: word::plus(pc, opcodes::full_length(c, form)),
        cost,
        untaken: opcodes::untaken_cost(c),
        postbyte,
    }
}

#[tactic(auto, unfolding(opcodes::specs::Postbyte::cost_of, crate::specs::Decode::fetched_of))]
pub fn fetch(m: &Memory, pc: u16) -> Result<Decoded, Halt>
    ensures { result ≡ fetched_of m.now pc }
{
    let Opcode { cell, at } = opcode_at(m, pc);
    if opcodes::stops(cell) {
        return Err(Halt::Stopped);
    }
    let postbyte = memory::read_byte(m, at);
    let form = opcodes::form_of(postbyte);
    let cost = opcodes::full_cost(cell, form);
    if opcodes::reserved(cell, postbyte, cost) || second_reserved(m, cell, at) {
        return Err(Halt::Reserved);
    }
    Ok(decoded_is(pc, cell, at, postbyte, form, cost))
}
