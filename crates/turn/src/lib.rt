// What the machine does next at a boundary, worked out whole over a memory that is only read.
#![tactic(auto)]

ghost use Rattle.std.specs.Prelude.{ℕ, ◌≡◌, false, Result, Ok, Err};
ghost use Rattle.word.specs.Word.{plus_w};
ghost use Rattle.memory.specs.Memory.{byte_at};
ghost use Rattle.state.specs.State.{with_pc};
ghost use Rattle.opcodes.specs.declared.kind.Kind.TheVariants.{Registers, Control};
ghost use Rattle.opcodes.specs.Kind.{group_of, MOVES};
ghost use Rattle.opcodes.specs.Rules.{unplaced};
ghost use Rattle.decode.specs.Decode.{opcode_at, cell_at, fetched_of};
ghost use Rattle.turn.specs.Turn.{control_by, placed, turn_from, instructed, turn_of};

use decode::{Halt, Opcode};
use effect::Effect;
use execute8::Accumulator;
use machine::Machine;
use memory::Memory;
use opcodes::Cell;
use opcodes::kind::{ControlOp, Kind, RegisterOp};
use operand::Place;
use state::State;

#[tactic(auto, unfolding(crate::specs::Turn::control_by))]
fn controlled(
    s: State,
    m: &Memory,
    line: u8,
    op: ControlOp,
    at: u16,
    postbyte: u8,
    cost: u8,
) -> Effect
    requires { postbyte ≡ byte_at m.now at }
    ensures { result ≡ control_by (Control op) s m.now line at cost }
{
    let masked = s.flags.with_i(true);
    match op {
        ControlOp::Swi => frames::interrupt(s, m, Machine::SWI_VECTOR, masked, cost),
        ControlOp::Trap => frames::interrupt(s, m, Machine::TRAP_VECTOR, masked, cost),
        ControlOp::Rti => requests::return_from_interrupt(s, m, line, cost),
        ControlOp::Bsr | ControlOp::Rts | ControlOp::Wai | ControlOp::Loop => {
            flow::control(s, m, op, at, postbyte, cost)
        }
    }
}

// PC past an instruction that has the length of its cell.
fn past(s: State, c: Cell) -> State
    ensures { result ≡ with_pc s (plus_w s.pc c.length) }
{
    s.with_pc(word::plus(s.pc, u16::from(c.length)))
}

// The transfers have a postbyte of their own, the others of the group do not ask for it.
fn registers(s: State, m: &Memory, op: RegisterOp, opcode: Opcode) -> Result<Effect, Halt>
    requires opcode_value { opcode ≡ opcode_at m.now s.pc }
    requires kind_value { opcode.cell.kind ≡ Registers op }
    ensures { (line : ℕ) → turn_from s result ≡ instructed s m.now line (fetched_of m.now s.pc) }
{
    let c = opcode.cell;
    let postbyte = memory::read_byte(m, opcode.at);
    if opcodes::is_transfer(c.kind) & opcodes::transfer_reserved(postbyte) {
        return Err(Halt::Reserved);
    }
    Ok(execute16::registers(past(s, c), op, postbyte, c.cost))
}

// And so have the loop primitives. The line byte is RTI's.
fn control(s: State, m: &Memory, line: u8, op: ControlOp, opcode: Opcode) -> Result<Effect, Halt>
    requires opcode_value { opcode ≡ opcode_at m.now s.pc }
    requires kind_value { opcode.cell.kind ≡ Control op }
    ensures { turn_from s result ≡ instructed s m.now line (fetched_of m.now s.pc) }
{
    let c = opcode.cell;
    let postbyte = memory::read_byte(m, opcode.at);
    if opcodes::is_loop(c.kind) & opcodes::loop_reserved(postbyte) {
        return Err(Halt::Reserved);
    }
    Ok(controlled(past(s, c), m, line, op, opcode.at, postbyte, c.cost))
}

// A move: it alone may have two postbytes, and is fetched whole.
fn moved(s: State, m: &Memory) -> Result<Effect, Halt>
    requires { group_of (cell_at m.now s.pc).kind ≡ MOVES }
    ensures { (line : ℕ) → turn_from s result ≡ instructed s m.now line (fetched_of m.now s.pc) }
{
    let d = decode::fetch(m, s.pc)?;
    Ok(moves::moves(s.with_pc(d.next), m, d))
}

// What an instruction does with its operand, by the group. The other groups have none at a place in memory.
#[tactic(auto, unfolding(crate::specs::Turn::placed))]
fn with_operand(place: Place, m: &Memory, kind: Kind, cost: u8) -> Effect
    requires { unplaced (group_of kind) ≡ false }
    ensures { result ≡ placed (group_of kind) place m.now kind cost }
{
    let s = place.state;
    let a = place.address;
    match kind {
        // One call for both, so that the compiler takes it into the machine's loop (docs/SPEED.md).
        Kind::WithA(op) | Kind::WithB(op) => {
            let x = if matches!(kind, Kind::WithB(_)) {
                Accumulator::B
            } else {
                Accumulator::A
            };
            execute8::with_accumulator(x, s, op, memory::read_byte(m, a), cost)
        }
        Kind::WithWord(op) => execute16::with_word(s, op, memory::read_word(m, a), cost),
        Kind::Store(op) => execute16::store(s, op, cost, a),
        Kind::InMemory(op) => execute8::in_memory(s, op, memory::read_byte(m, a), a, cost),
        Kind::Address(op) => moves::addresses(s, op, a, cost),
        Kind::Choose(op) => execute16::choose(s, m, op, cost, a),
        Kind::LookUp(op) => execute16::look_up(s, m, op, cost, a),
        Kind::Bits(op) => moves::bits(s, m, op, a, cost),
        _ => unreachable!(),
    }
}

// An instruction with an operand in memory: the operand's place is found once, by the mode, and then the group is chosen.
fn operands(s: State, m: &Memory, opcode: Opcode) -> Result<Effect, Halt>
    requires opcode_value { opcode ≡ opcode_at m.now s.pc }
    requires unplaced_group { unplaced (group_of opcode.cell.kind) ≡ false }
    ensures { (line : ℕ) → turn_from s result ≡ instructed s m.now line (fetched_of m.now s.pc) }
{
    let c = opcode.cell;
    let Some(found) = operand::located(s, m, c, opcode.at) else {
        return Err(Halt::Reserved);
    };
    Ok(with_operand(found.place, m, c.kind, found.cost))
}

// What stands at PC. The group is chosen first, and then only what it needs is read and asked.
fn at_pc(s: State, m: &Memory, line: u8) -> Result<Effect, Halt>
    ensures { turn_from s result ≡ instructed s m.now line (fetched_of m.now s.pc) }
{
    let opcode = decode::opcode_at(m, s.pc);
    let c = opcode.cell;
    match c.kind {
        Kind::Stops(_) | Kind::Prebyte => Err(Halt::Stopped),
        Kind::ShortBranch(condition) => Ok(flow::short_branch(
            past(s, c),
            condition,
            memory::read_byte(m, opcode.at),
            c.cost,
            1,
        )),
        Kind::LongBranch(condition) => Ok(flow::long_branch(
            past(s, c),
            condition,
            memory::read_word(m, opcode.at),
            c.cost,
            3,
        )),
        Kind::InA(op) => Ok(execute8::in_accumulator(Accumulator::A, past(s, c), op, c.cost)),
        Kind::InB(op) => Ok(execute8::in_accumulator(Accumulator::B, past(s, c), op, c.cost)),
        Kind::Product(op) => Ok(products::products(past(s, c), m, op, opcode.at, c.cost)),
        Kind::Stack(op) => Ok(stack::stack(past(s, c), m, op, c.cost)),
        Kind::Registers(op) => registers(s, m, op, opcode),
        Kind::Control(op) => control(s, m, line, op, opcode),
        Kind::Move(_) => moved(s, m),
        _ => operands(s, m, opcode),
    }
}

// What the machine does next: nothing is changed.
#[tactic(auto, unfolding(crate::specs::Turn::turn_of))]
pub fn turn_at(s: State, m: &Memory, line: u8) -> Result<Effect, Halt>
    ensures { turn_from s result ≡ turn_of s m.now line }
{
    let waiting = s.standing.waiting;
    if let Some(k) = requests::allowed_line(s.flags, line) {
        if waiting {
            return Ok(requests::wake(s, m, k));
        }
        return Ok(requests::entry(s, m, k));
    }
    if waiting {
        return Ok(effect::quiet(s, Machine::IDLE_COST));
    }
    at_pc(s, m, line)
}
