// The tests of what is lent to a door of the library: each gives the first refusal, or hands on the state record that it found.
#![tactic(auto)]

ghost use Rattle.std.specs.Prelude.{◌≡◌, IfOk};
ghost use Rattle.lent.specs.Lent.{error_number, refusal_number, all_zero, length_refusal, record_refusal, lent_refusal};

use packing::{PACKED, RESERVED, STATE, WAITING};

// Why a door refuses what it is lent, each with the number that docs/GUIDE-ABI.md gives it.
#[derive(Clone, Copy, Debug, PartialEq, Eq)]
pub enum LentError {
    WrongLength = 100,
    WrongFlag = 101,
    WrongPacking = 102,
    WrongReserved = 103,
}

impl LentError {
    pub fn number(self) -> u32
        ensures { result ≡ error_number self }
    {
        self as u32
    }
}

pub fn check_length(r: &[u8]) -> Result<&[u8; STATE], LentError>
    ensures number { refusal_number result ≡ length_refusal r.now }
    ensures record { IfOk result (λ whole. whole.now ≡ r.now) }
{
    r.as_array().ok_or(LentError::WrongLength)
}

fn all_zero(bytes: &[u8]) -> bool
    ensures { result ≡ all_zero bytes.now }
{
    bytes.iter().all(|&b| b == 0)
}

pub fn check_record(r: &[u8]) -> Result<&[u8; STATE], LentError>
    ensures number { refusal_number result ≡ record_refusal r.now }
    ensures record { IfOk result (λ whole. whole.now ≡ r.now) }
{
    let record = check_length(r)?;
    if record[WAITING] > 1 {
        return Err(LentError::WrongFlag);
    }
    if !all_zero(&record[RESERVED..]) {
        return Err(LentError::WrongReserved);
    }
    Ok(record)
}

pub fn check_lent<'a>(r: &'a [u8], schedule: &[u8]) -> Result<&'a [u8; STATE], LentError>
    ensures number { refusal_number result ≡ lent_refusal r.now schedule.now }
    ensures record { IfOk result (λ whole. whole.now ≡ r.now) }
{
    let record = check_record(r)?;
    if schedule.len() % PACKED != 0 {
        return Err(LentError::WrongPacking);
    }
    Ok(record)
}
