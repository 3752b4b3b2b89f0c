// Runs every 8-bit operation over all its operands and both carries, and prints a checksum for each: a second emulator
// that computes the same sums agrees with the proved functions at every operand.
#![tactic(auto)]

use results::Byte;
use state::Flags;
use std::io;

// A byte more of the sum.
fn fold(v: u32, b: u8) -> u32 {
    v.wrapping_mul(31).wrapping_add(u32::from(b))
}

fn folded(v: u32, r: Byte) -> u32 {
    fold(fold(v, r.value), r.flags.ccr())
}

// A test's answer as a byte, with the codes as they were.
fn tested(answer: bool, flags: Flags) -> Byte {
    let value = u8::from(answer);
    Byte { value, flags }
}

// The sum after `sum` of each step at each byte.
fn over_bytes<S: Fn(u32, u8) -> u32>(sum: u32, step: S) -> u32
    requires { S.IsAlwaysCallable step }
{
    (0..=255).fold(sum, step)
}

fn print(rt: &impl Print, name: &str, sum: u32) -> io::Result<()> {
    println!(rt; "{name} {sum}")
}

// An operation of two operands: over all pairs, C clear and then set.
fn print_pairs<S: Fn(u32, Flags, u8, u8) -> u32>(
    rt: &impl Print,
    name: &str,
    step: S,
) -> io::Result<()>
    requires { S.IsAlwaysCallable step }
{
    let over_pairs = |sum: u32, f: Flags| -> u32 {
        over_bytes(sum, |v, x| over_bytes(v, |w, m| step(w, f, x, m)))
    };
    let clear = Flags::cleared();
    print(
        rt,
        name,
        over_pairs(over_pairs(1, clear), clear.with_c(true)),
    )
}

fn print_binary<O: Fn(Flags, u8, u8) -> Byte>(rt: &impl Print, name: &str, op: O) -> io::Result<()>
    requires { O.IsAlwaysCallable op }
{
    print_pairs(rt, name, |v, f, x, m| folded(v, op(f, x, m)))
}

// An operation of one operand: over all bytes, with each of the flags in turn.
fn print_unary<O: Fn(Flags, u8) -> Byte>(
    rt: &impl Print,
    name: &str,
    flags: &[Flags],
    op: O,
) -> io::Result<()>
    requires { O.IsAlwaysCallable op }
{
    let sum = flags
        .iter()
        .fold(1, |sum, f| over_bytes(sum, |v, x| folded(v, op(*f, x))));
    print(rt, name, sum)
}

fn print_all_binary(rt: &impl Print) -> io::Result<()> {
    print_binary(rt, "ADD", |f, x, m| alu::add_8(f, x, m, false))?;
    print_binary(rt, "ADC", |f, x, m| alu::add_8(f, x, m, f.c))?;
    print_binary(rt, "SUB", |f, x, m| alu::sub(f, x, m, false))?;
    print_binary(rt, "SBC", |f, x, m| alu::sub(f, x, m, f.c))?;
    print_binary(rt, "AND", logic::and_8)?;
    print_binary(rt, "OR", logic::or_8)?;
    print_binary(rt, "EOR", logic::eor_8)?;
    print_binary(
        rt,
        "BIT",
        |f, x, m| Byte {
            value: x,
            ..logic::and_8(f, x, m)
        },
    )?;
    print_binary(
        rt,
        "CMP",
        |f, x, m| Byte {
            value: x,
            ..alu::sub(f, x, m, false)
        },
    )?;
    print_binary(rt, "BSET", logic::or_8)?;
    print_binary(rt, "BCLR", logic::bclr)?;
    print_binary(rt, "MAX", alu::max)?;
    print_binary(rt, "MIN", alu::min)?;
    print_binary(rt, "BRSET", |f, x, m| tested(logic::bits_set(x, m), f))?;
    print_binary(rt, "BRCLR", |f, x, m| tested(logic::bits_clear(x, m), f))?;
    // MUL has two bytes of result, the high one first.
    print_pairs(rt, "MUL", |v, f, x, m| {
        let d = product::mul(f, x, m);
        let low = Byte {
            value: word::low(d.value),
            flags: d.flags,
        };
        folded(fold(v, word::high(d.value)), low)
    })
}

fn print_all_unary(rt: &impl Print) -> io::Result<()> {
    let clear = Flags::cleared();
    let half = clear.with_h(true);
    let all = [clear, clear.with_c(true), half, half.with_c(true)];
    // Of the flags only DAA reads H.
    let flags = &all[..2];
    print_unary(rt, "CLR", flags, |f, _| logic::clr(f))?;
    print_unary(rt, "COM", flags, logic::com)?;
    print_unary(rt, "NEG", flags, alu::neg)?;
    print_unary(rt, "INC", flags, alu::inc)?;
    print_unary(rt, "DEC", flags, alu::dec)?;
    print_unary(rt, "ASL", flags, shift::asl)?;
    print_unary(rt, "LSR", flags, shift::lsr)?;
    print_unary(rt, "ASR", flags, shift::asr)?;
    print_unary(rt, "ROL", flags, shift::rol)?;
    print_unary(rt, "ROR", flags, shift::ror)?;
    print_unary(rt, "TST", flags, logic::tst)?;
    print_unary(
        rt,
        "LD",
        flags,
        |f, x| Byte {
            value: x,
            flags: results::result_codes(f, x),
        },
    )?;
    print_unary(rt, "DAA", &all, decimal::daa)
}

fn main(rt: HostRuntime) -> io::Result<()> {
    print_all_binary(&rt)?;
    print_all_unary(&rt)
}
