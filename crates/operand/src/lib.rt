// Where an operand lies: its effective address, and the registers once the base register has stepped.
#![tactic(auto)]

ghost use Rattle.std.specs.Prelude.{◌≡◌, ◌/◌, ◌%◌};
ghost use Rattle.memory.specs.Memory.{byte_at};
ghost use Rattle.opcodes.specs.Postbyte.{form_number, form_of};
ghost use Rattle.operand.specs.Operand.{found_is, located_of};
ghost use Rattle.operand.specs.Indexed.{base_number, place_is, base_of, with_base, offset5, step_amount, five_place, stepped_place, nine_bits, sixteen_bits, through_sixteen, through_d, plain_accumulator, steps_of, unstepped_place, plain_place, indexed_place};

use memory::Memory;
use opcodes::Cell;
use opcodes::form::Form;
use opcodes::mode::Mode;
use state::State;

// An address, and the state after the base register's update, from which the operation goes on.
#[derive(Clone, Copy)]
pub struct Place {
    pub address: u16,
    pub state: State,
}

// The base register of an indexed postbyte.
#[derive(Clone, Copy)]
enum Base {
    X,
    Y,
    Sp,
    Pc,
}

impl Base {
    // The one that the two lowest bits name.
    fn named(bits: u8) -> Self
        ensures { base_number result ≡ bits % 4 }
    {
        match bits % 4 {
            0 => Base::X,
            1 => Base::Y,
            2 => Base::Sp,
            _ => Base::Pc,
        }
    }

    fn value(self, s: State, pc: u16) -> u16
        ensures { result ≡ base_of s pc (base_number self) }
    {
        match self {
            Base::X => s.x,
            Base::Y => s.y,
            Base::Sp => s.sp,
            Base::Pc => pc,
        }
    }

    // The state with the register set anew. No postbyte steps PC: `with_base` has SP there.
    fn set(self, s: State, v: u16) -> State
        ensures { result ≡ with_base s (base_number self) v }
    {
        match self {
            Base::X => s.with_x(v),
            Base::Y => s.with_y(v),
            Base::Sp | Base::Pc => s.with_sp(v),
        }
    }
}

// The base register of a postbyte whose bits rr are its highest.
fn high_base(p: u8) -> Base
    ensures { base_number result ≡ p / 64 }
{
    Base::named(p / 64)
}

// And of a postbyte 111rrxxx.
fn low_base(p: u8) -> Base
    ensures { base_number result ≡ p / 8 % 4 }
{
    Base::named(p / 8)
}

fn five_bits(p: u8) -> u16
    ensures { result ≡ offset5 p }
{
    let n = u16::from(p % 32);
    if n < 16 { n } else { word::minus(n, 32) }
}

fn step_amount(p: u8) -> u16
    ensures { result ≡ step_amount p }
{
    let n = u16::from(p % 16);
    if n < 8 { n + 1 } else { word::minus(n, 16) }
}

fn place_at(address: u16, state: State) -> Place
    ensures { result ≡ place_is address state }
{
    Place { address, state }
}

// Each function of a place takes what its definition takes: a struct of state, PC and postbyte would only be taken apart again.
fn five_place(s: State, pc: u16, p: u8) -> Place
    ensures { result ≡ five_place s pc p }
{
    place_at(word::plus(high_base(p).value(s, pc), five_bits(p)), s)
}

#[tactic(auto, unfolding(crate::specs::Indexed::stepped_place))]
fn stepped_place(s: State, p: u8) -> Place
    ensures { result ≡ stepped_place s p }
{
    let base = high_base(p);
    let old = base.value(s, 0);
    let new = word::plus(old, step_amount(p));
    let stepped = base.set(s, new);
    if p / 16 % 2 == 1 {
        return place_at(old, stepped);
    }
    place_at(new, stepped)
}

fn nine_bit_place(s: State, m: &Memory, at: u16, pc: u16, p: u8) -> Place
    ensures { result ≡ nine_bits s m.now at pc p }
{
    let low = memory::read_byte(m, word::plus(at, 1));
    let offset = word::extend_9(p % 2 == 1, low);
    place_at(word::plus(low_base(p).value(s, pc), offset), s)
}

fn sixteen_bit_place(s: State, m: &Memory, at: u16, pc: u16, p: u8) -> Place
    ensures { result ≡ sixteen_bits s m.now at pc p }
{
    let offset = memory::read_word(m, word::plus(at, 1));
    place_at(word::plus(low_base(p).value(s, pc), offset), s)
}

fn through_sixteen(s: State, m: &Memory, at: u16, pc: u16, p: u8) -> Place
    ensures { result ≡ through_sixteen s m.now at pc p }
{
    let pointer = sixteen_bit_place(s, m, at, pc, p);
    place_at(memory::read_word(m, pointer.address), s)
}

fn through_d(s: State, m: &Memory, pc: u16, p: u8) -> Place
    ensures { result ≡ through_d s m.now pc p }
{
    let pointer = word::plus(low_base(p).value(s, pc), s.d());
    place_at(memory::read_word(m, pointer), s)
}

fn accumulator_place(s: State, pc: u16, p: u8) -> Place
    ensures { result ≡ plain_accumulator s pc p }
{
    let offset = match p % 4 {
        0 => u16::from(s.a),
        1 => u16::from(s.b),
        _ => s.d(),
    };
    place_at(word::plus(low_base(p).value(s, pc), offset), s)
}

// Whether the postbyte steps its base register.
fn steps(p: u8) -> bool
    ensures { result ≡ steps_of p }
{
    (p / 32 % 2 == 1) & !matches!(high_base(p), Base::Pc)
}

fn unstepped_place(s: State, pc: u16, p: u8) -> Place
    ensures { result ≡ unstepped_place s pc p }
{
    if p / 32 % 2 == 1 {
        return accumulator_place(s, pc, p);
    }
    five_place(s, pc, p)
}

// The form IDX: what has no further byte and reads no pointer.
pub fn plain_place(s: State, pc: u16, p: u8) -> Place
    ensures { result ≡ plain_place s pc p }
{
    if steps(p) {
        return stepped_place(s, p);
    }
    unstepped_place(s, pc, p)
}

// The place that the postbyte p at `at` names, whose form is `form`. `pc` is what PC stands for as a base. It does not call
// `plain_place`: then this has one caller and that another, and the compiler takes this one into the loop of a run (docs/SPEED.md).
#[tactic(auto, using(crate::proofs::Forms::by_form), unfolding(crate::specs::Indexed::place_in))]
fn indexed_place(s: State, m: &Memory, at: u16, pc: u16, p: u8, form: Form) -> Place
    requires p_value { p ≡ byte_at m.now at }
    requires form_value { form_number form ≡ form_of p }
    ensures { result ≡ indexed_place s m.now at pc }
{
    if steps(p) {
        return stepped_place(s, p);
    }
    match form {
        Form::Idx => unstepped_place(s, pc, p),
        Form::Idx1 => nine_bit_place(s, m, at, pc, p),
        Form::Idx2 => sixteen_bit_place(s, m, at, pc, p),
        Form::DIndirect => through_d(s, m, pc, p),
        Form::Idx2Indirect => through_sixteen(s, m, at, pc, p),
    }
}

// What is found of an instruction before its operand is worked on: where that lies, and the instruction's cost.
#[derive(Clone, Copy)]
pub struct Found {
    pub place: Place,
    pub cost: u8,
}

fn found_is(place: Place, cost: u8) -> Found
    ensures { result ≡ found_is place cost }
{
    Found { place, cost }
}

// Where the operand of an instruction lies, once PC is past the instruction; none where its postbyte is reserved. Immediate data is an
// operand that lies in the instruction itself. Only a mode with a postbyte reads it, and asks for its form and the form's cost and length.
#[tactic(auto, unfolding(crate::specs::Operand::located_of, crate::specs::Operand::operand_place, opcodes::specs::Postbyte::cost_of))]
pub fn located(s: State, m: &Memory, c: Cell, at: u16) -> Option<Found>
    ensures { result ≡ located_of s m.now c at }
{
    let address = match c.mode {
        Mode::Im => at,
        Mode::Di => u16::from(memory::read_byte(m, at)),
        Mode::Ex => memory::read_word(m, at),
        _ => {
            let postbyte = memory::read_byte(m, at);
            let form = opcodes::form_of(postbyte);
            let cost = opcodes::full_cost(c, form);
            if opcodes::indexed(c) & (cost == 0) {
                return None;
            }
            let after = word::plus(s.pc, opcodes::full_length(c, form));
            let place = indexed_place(s.with_pc(after), m, at, after, postbyte, form);
            return Some(found_is(place, cost));
        }
    };
    let next = word::plus(s.pc, u16::from(c.length));
    Some(found_is(place_at(address, s.with_pc(next)), c.cost))
}
