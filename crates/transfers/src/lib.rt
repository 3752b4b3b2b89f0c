// TFR, SEX and EXG: a register sent to another, and two exchanged.
#![tactic(auto)]

ghost use Rattle.std.specs.Prelude.{◌≡◌, ◌%◌};
ghost use Rattle.transfers.specs.Registers.{register_number, byte_from, word_from, moved, sign_fill, back_fill, tfr_of, exg_of, transferred};

use results::Width;
use state::State;

// The registers in the order of their codes in a postbyte; specs/Registers.antt numbers them so.
#[derive(Clone, Copy)]
enum Register {
    A,
    B,
    Ccr,
    Reserved,
    D,
    X,
    Y,
    Sp,
}

impl Register {
    // The register that the lowest three bits of a code name.
    fn named(code: u8) -> Self
        ensures { register_number result ≡ code % 8 }
    {
        match code % 8 {
            0 => Register::A,
            1 => Register::B,
            2 => Register::Ccr,
            3 => Register::Reserved,
            4 => Register::D,
            5 => Register::X,
            6 => Register::Y,
            _ => Register::Sp,
        }
    }

    // The byte that a register sends: itself, or its low byte.
    fn byte(self, s: State) -> u8
        ensures { result ≡ byte_from s (register_number self) }
    {
        match self {
            Register::A => s.a,
            Register::B | Register::D => s.b,
            Register::Ccr => s.flags.ccr(),
            Register::Reserved => 0,
            Register::X => word::low(s.x),
            Register::Y => word::low(s.y),
            Register::Sp => word::low(s.sp),
        }
    }

    // A register of 16 bits as it is, one of 8 bits with a high byte that fills it up.
    fn word(self, s: State, fill: u8) -> u16
        ensures { result ≡ word_from s fill (register_number self) }
    {
        match self {
            Register::A | Register::B | Register::Ccr | Register::Reserved => {
                word::word(fill, self.byte(s))
            }
            Register::D => s.d(),
            Register::X => s.x,
            Register::Y => s.y,
            Register::Sp => s.sp,
        }
    }

    // The high byte that EXG gives back to a register of 16 bits: $00 : A, $FF : B, $FF : CCR.
    fn back_fill(self) -> u8
        ensures { result ≡ back_fill (register_number self) }
    {
        if matches!(self, Register::A) { 0 } else { 255 }
    }
}

// What a register sent before the instruction, put into another. The flags before the instruction, too, decide what CCR may take.
fn move_register(s: State, old: State, to: Register, from: Register, fill: u8) -> State
    ensures { result ≡ moved s old (register_number to) (register_number from) fill }
{
    match to {
        Register::A => s.with_a(from.byte(old)),
        Register::B => s.with_b(from.byte(old)),
        Register::Ccr | Register::Reserved => { s.with_flags(old.flags.take_ccr(from.byte(old))) }
        Register::D => s.with_d(from.word(old, fill)),
        Register::X => s.with_x(from.word(old, fill)),
        Register::Y => s.with_y(from.word(old, fill)),
        Register::Sp => s.with_sp(from.word(old, fill)),
    }
}

// The high byte of a byte that is extended with its sign.
fn sign_fill(b: u8) -> u8
    ensures { result ≡ sign_fill b }
{
    if b.top_bit() { 255 } else { 0 }
}

fn tfr(s: State, r1: Register, r2: Register) -> State
    ensures { result ≡ tfr_of s (register_number r1) (register_number r2) }
{
    move_register(s, s, r2, r1, sign_fill(r1.byte(s)))
}

// The second register is written last: of D and a part of it, it is the one that keeps what it takes.
fn exg(s: State, r1: Register, r2: Register) -> State
    ensures { result ≡ exg_of s (register_number r1) (register_number r2) }
{
    let first = move_register(s, s, r1, r2, r2.back_fill());
    move_register(first, s, r2, r1, 0)
}

// TFR, SEX and EXG by their postbyte; so TAP is B7 02, TPA is B7 20. A reserved postbyte changes nothing.
pub fn transfer(s: State, postbyte: u8) -> State
    ensures { result ≡ transferred s postbyte }
{
    if opcodes::transfer_reserved(postbyte) {
        return s;
    }
    let r1 = Register::named(postbyte / 16);
    let r2 = Register::named(postbyte);
    if postbyte >= 128 {
        return exg(s, r1, r2);
    }
    tfr(s, r1, r2)
}
