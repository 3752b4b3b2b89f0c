// Prints the opcode map, one line a cell: page, opcode, mnemonic, length, cost.
#![tactic(auto)]

mod mnemonic;

use mnemonic::Mnemonic;
use opcodes::Cell;
use opcodes::kind::{Condition, Kind};
use std::{fmt, io};

// What a cell costs: of an indexed one a cost in each form, of a conditional branch taken and untaken.
#[derive(Clone, Copy)]
struct Costs(Cell);

// A cost of the grid, or a hyphen where the form is reserved.
#[derive(Clone, Copy)]
struct Entry(u8);

impl fmt::Display for Entry {
    fn fmt<W: fmt::Write>(&self, f: &mut fmt::Formatter<W>) -> fmt::Result {
        match self.0 {
            0 => f.write_str("-"),
            cost => write!(f, "{cost}"),
        }
    }
}

// A branch, short or long, that is neither always nor never taken.
fn conditional(kind: Kind) -> bool {
    match kind {
        Kind::ShortBranch(c) | Kind::LongBranch(c) => !matches!(c, Condition::Ra | Condition::Rn),
        _ => false,
    }
}

// The costs of IDX, IDX1, IDX2, [D,IDX] and [IDX2].
fn write_five<W: fmt::Write>(f: &mut fmt::Formatter<W>, family: u8) -> fmt::Result {
    write!(f, "{}", Entry(opcodes::grid_entry(family, 3)))?;
    for column in 4u8..8 {
        write!(f, ",{}", Entry(opcodes::grid_entry(family, column)))?;
    }
    Ok(())
}

impl fmt::Display for Costs {
    fn fmt<W: fmt::Write>(&self, f: &mut fmt::Formatter<W>) -> fmt::Result {
        let cell = self.0;
        if matches!(cell.kind, Kind::Stops(_) | Kind::Prebyte) {
            return f.write_str("-");
        }
        if opcodes::indexed(cell) {
            return write_five(f, cell.family as u8);
        }
        write!(f, "{}", cell.cost)?;
        if conditional(cell.kind) {
            write!(f, "/{}", opcodes::untaken_cost(cell))?;
        }
        Ok(())
    }
}

// The line of cell k: page 1 has the cells 0 to 255, page 2 those from 256 on.
fn print_cell(rt: &impl Print, k: u16) -> io::Result<()> {
    let page = k / 256 + 1;
    let opcode = (k % 256) as u8;
    let cell = opcodes::cell_at(page == 2, opcode);
    let length = cell.length;
    println!(rt;
        "{page} {opcode:02X} {} {length} {}",
        Mnemonic(cell.kind),
        Costs(cell)
    )
}

fn main(rt: HostRuntime) -> io::Result<()> {
    for k in 0u16..512 {
        print_cell(&rt, k)?;
    }
    Ok(())
}
