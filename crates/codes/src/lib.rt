// The condition codes as a whole byte, the branch conditions, and the loop primitives.
#![tactic(auto)]

ghost use Rattle.std.specs.Prelude.{◌≡◌, ◌%◌, not, ◌==◌};
ghost use Rattle.word.specs.Word.{pick};
ghost use Rattle.opcodes.specs.Kind.{condition_number};
ghost use Rattle.codes.specs.Conditions.{andcc_of, orcc_of, condition_of};
ghost use Rattle.codes.specs.Loops.{counted, count_of};

use alu::{one_less, one_more};
use opcodes::kind::Condition;
use results::{Width, exclusive_or};
use state::Flags;

pub fn andcc(f: Flags, mask: u8) -> Flags
    ensures { result ≡ andcc_of f mask }
{
    f.take_ccr(f.ccr() & mask)
}

pub fn orcc(f: Flags, mask: u8) -> Flags
    ensures { result ≡ orcc_of f mask }
{
    f.take_ccr(f.ccr() | mask)
}

// Whether a branch is taken.
pub fn condition(f: Flags, c: Condition) -> bool
    ensures { result ≡ condition_of f (condition_number c) }
{
    // N and V differ: a signed difference that is below zero.
    let wrong = exclusive_or(f.n, f.v);
    match c {
        Condition::Ra => true,
        Condition::Rn => false,
        Condition::Hi => !(f.c | f.z),
        Condition::Ls => f.c | f.z,
        Condition::Cc => !f.c,
        Condition::Cs => f.c,
        Condition::Ne => !f.z,
        Condition::Eq => f.z,
        Condition::Vc => !f.v,
        Condition::Vs => f.v,
        Condition::Pl => !f.n,
        Condition::Mi => f.n,
        Condition::Ge => !wrong,
        Condition::Lt => wrong,
        Condition::Gt => !(f.z | wrong),
        Condition::Le => f.z | wrong,
    }
}

// A counter after one turn of a loop primitive, and whether it branches.
#[derive(Clone, Copy)]
pub struct Counting<T> {
    pub counter: T,
    pub taken: bool,
}

fn counted<W: Width>(kind: u8, n: W) -> W
    ensures { result ≡ W.of (counted W.top kind (W.number n)) }
{
    match kind {
        0 | 1 => one_less(n),
        2 | 3 => n,
        _ => one_more(n),
    }
}

// An even kind branches on zero, an odd one on not zero.
fn branches(kind: u8, zero: bool) -> bool
    ensures { result ≡ pick (kind % 2 == 0) zero (not zero) }
{
    if kind % 2 == 0 { zero } else { !zero }
}

// One turn of a loop primitive. The kind is bits 7 to 5 of its postbyte.
pub fn count<W: Width>(kind: u8, n: W) -> Counting<W>
    ensures { result ≡ count_of W.of W.top kind (W.number n) }
{
    let counter = counted(kind, n);
    let taken = branches(kind, counter.is_zero());
    Counting { counter, taken }
}
