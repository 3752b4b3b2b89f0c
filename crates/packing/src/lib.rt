// The machine's state and a schedule as bytes: docs/GUIDE-ABI.md has the state record and the packed schedule. What is refused is
// told by who is lent the bytes (crates/cpu12).
#![tactic(auto)]

ghost use Rattle.std.specs.Prelude.{◌≡◌};
ghost use Rattle.table.specs.Records.{no_records, gathered};
ghost use Rattle.packing.specs.Bytes.{word_in, long_in, state_of, meant_bytes, bytes_of, records_of};

use state::{Flags, State};
use table::{Record, Table};

// The bytes of a state record, the place of its waiting flag, and the place from which on its bytes are reserved.
pub const STATE: usize = 48;

pub const WAITING: usize = 11;

pub const RESERVED: usize = 20;

// The bytes of a packed record of a schedule.
pub const PACKED: usize = 5;

pub fn state_of(r: &[u8; STATE]) -> State
    ensures { result ≡ state_of r.now }
{
    State::cleared()
        .with_a(r[0])
        .with_b(r[1])
        .with_x(u16::from_be_bytes([r[2], r[3]]))
        .with_y(u16::from_be_bytes([r[4], r[5]]))
        .with_sp(u16::from_be_bytes([r[6], r[7]]))
        .with_pc(u16::from_be_bytes([r[8], r[9]]))
        .with_flags(Flags::of_ccr(r[10]))
        .with_waiting(r[WAITING] == 1)
        .with_clock(u32::from_be_bytes([r[12], r[13], r[14], r[15]]))
}

fn meant_bytes(s: State, cycles: u32) -> [u8; RESERVED]
    ensures { result ≡ meant_bytes s cycles }
{
    let standing = s.standing;
    let flags = s.flags;
    let [x_high, x_low] = s.x.to_be_bytes();
    let [y_high, y_low] = s.y.to_be_bytes();
    let [sp_high, sp_low] = s.sp.to_be_bytes();
    let [pc_high, pc_low] = s.pc.to_be_bytes();
    let [c3, c2, c1, c0] = s.clock.to_be_bytes();
    let [u3, u2, u1, u0] = cycles.to_be_bytes();
    [
        s.a,
        s.b,
        x_high,
        x_low,
        y_high,
        y_low,
        sp_high,
        sp_low,
        pc_high,
        pc_low,
        flags.ccr(),
        u8::from(standing.waiting),
        c3,
        c2,
        c1,
        c0,
        u3,
        u2,
        u1,
        u0,
    ]
}

pub fn put_record(r: &mut [u8; STATE], s: State, cycles: u32)
    ensures { r.new ≡ bytes_of s cycles }
{
    let (meant, reserved) = r.split_at_mut(RESERVED);
    meant.copy_from_slice(&meant_bytes(s, cycles));
    reserved.fill(0);
}

// The records of a packed schedule, in a table that the machine runs over. A part of a record at the end is left out.
pub fn unpacked(bytes: &[u8]) -> Table
    ensures { result ≡ gathered no_records (records_of bytes.now) }
{
    let (records, _) = bytes.as_chunks::<PACKED>();
    let mut t = table::empty();
    for &[c3, c2, c1, c0, line] in records {
        t = table::put(t, Record::of(u32::from_be_bytes([c3, c2, c1, c0]), line));
    }
    t
}
