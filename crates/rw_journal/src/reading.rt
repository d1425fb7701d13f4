// Reading the records of a file.
ghost use Rattle.std.specs.Prelude.{◌≡◌, ◌⊎◌, ◌+◌, ◌-◌, ◌<◌, ◌≤◌, ◌∷◌, ◌++◌, [], ℕ, List, Bool, true, false, length, take, drop, IfSome, IfNone, IfOk, IsTrue, OnOk, vec_len};
ghost use Rattle.std.specs.Int.{w32, to_be_bytes};
ghost use Rattle.rw_io.specs.Causes.{HasCause};
ghost use Rattle.rw_io.specs.Moments.{OnlyReads};
ghost use Rattle.rw_journal.specs.Image.{header, IsRecord, block, blocks, end_of, Ends, IsFile, Image, IsBrokenGate, BreaksAt, DiffersAt, IsForeign};
ghost use Rattle.rw_journal.specs.Conditions.{Refused};
ghost use Rattle.rw_journal.specs.Found.{payloads};

use crate::{JournalError, Record};
use rw_io::{Disk, Failed};
use rw_items::Items;
use std::alloc::Global;

// The most bytes of a payload.
pub(crate) const MOST_BYTES: u32 = 65700;

// How a journal begins: RWJRNL1 and a line feed.
const HEADER: [u8; 8] = [82, 87, 74, 82, 78, 76, 49, 10];

// Whether the gate at an offset is open.
fn read_gate<D: Disk>(disk: &mut D, at: u64) -> Result<bool, Failed>
    requires attached { D.attached disk.old ≡ true }
    requires within { IfSome (D.seen disk.old) (λ file. at < length file) }
    ensures open { IfOk result (λ is_open. IfSome (D.seen disk.old) (λ file. IsTrue is_open → drop at file ≡ 1 ∷ drop (at + 1) file)) }
    ensures shut { IfOk result (λ is_open. IfSome (D.seen disk.old) (λ file. is_open ≡ false → Ends (drop at file))) }
    ensures attached { D.attached disk.new ≡ true }
    ensures reads { OnlyReads D.seen D.may_leave D.moment D.left_since disk.old disk.new }
    ensures cause { HasCause (D.disk_faults disk.old) (D.disk_faults disk.new) result }
{
    let mut gate = [0];
    disk.read_at(at, &mut gate)?;
    Ok(gate[0] == 1)
}

// The number that four bytes spell.
fn number(bytes: &[u8; 4]) -> u32
    ensures { to_be_bytes w32 result ≡ bytes.now }
{
    u32::from_be_bytes(*bytes)
}

// The length at an offset.
fn read_length<D: Disk>(disk: &mut D, at: u64) -> Result<u32, Failed>
    requires attached { D.attached disk.old ≡ true }
    requires within { IfSome (D.seen disk.old) (λ file. at + 4 ≤ length file) }
    ensures length { IfOk result (λ count. IfSome (D.seen disk.old) (λ file. drop at file ≡ to_be_bytes w32 count ++ drop (at + 4) file)) }
    ensures attached { D.attached disk.new ≡ true }
    ensures reads { OnlyReads D.seen D.may_leave D.moment D.left_since disk.old disk.new }
    ensures cause { HasCause (D.disk_faults disk.old) (D.disk_faults disk.new) result }
{
    let mut count = [0; 4];
    disk.read_at(at, &mut count)?;
    Ok(number(&count))
}

// So many bytes at an offset.
fn read_payload<D: Disk>(
    alloc: Global,
    disk: &mut D,
    at: u64,
    count: usize,
) -> Result<Vec<u8>, JournalError>
    requires attached { D.attached disk.old ≡ true }
    requires within { IfSome (D.seen disk.old) (λ file. at + count ≤ length file) }
    ensures bytes { IfOk result (λ payload. IfSome (D.seen disk.old) (λ file. drop at file ≡ payload.items ++ drop (at + count) file)) }
    ensures len { IfOk result (λ payload. vec_len payload ≡ count) }
    ensures attached { D.attached disk.new ≡ true }
    ensures reads { OnlyReads D.seen D.may_leave D.moment D.left_since disk.old disk.new }
    ensures refused { Refused (λ at. ⊥) ⊥ (Unit {0}) (D.disk_faults disk.old) (D.disk_faults disk.new) result }
{
    let mut payload = Vec::new(alloc);
    payload.resize(count, 0)?;
    disk.read_at(at, &mut payload)?;
    Ok(payload)
}

// The payload behind the gate at an offset, where the gate is open.
fn read_record<D: Disk>(
    alloc: Global,
    disk: &mut D,
    len: u64,
    gate: u64,
) -> Result<Option<Vec<u8>>, JournalError>
    requires attached { D.attached disk.old ≡ true }
    requires len { IfSome (D.seen disk.old) (λ file. len ≡ length file) }
    requires within { gate < len }
    ensures none { IfOk result (λ found. IfNone found (IfSome (D.seen disk.old) (λ file. Ends (drop gate file)))) }
    ensures some { IfOk result (λ found. IfSome found (λ payload. IfSome (D.seen disk.old)
        (λ file. drop gate file ≡ block payload.items ++ drop (gate + 5 + vec_len payload) file))) }
    ensures record { IfOk result (λ found. IfSome found (λ payload. IsRecord payload.items)) }
    ensures whole { IfOk result (λ found. IfSome found (λ payload. gate + 5 + vec_len payload < len)) }
    ensures attached { D.attached disk.new ≡ true }
    ensures reads { OnlyReads D.seen D.may_leave D.moment D.left_since disk.old disk.new }
    ensures refused { Refused (λ at. (at ≡ gate) × IfSome (D.seen disk.old) (λ file. IsBrokenGate (drop gate file))) ⊥ (Unit {0}) (D.disk_faults disk.old) (D.disk_faults disk.new) result }
{
    if !read_gate(disk, gate)? {
        return Ok(None);
    }
    let foreign = JournalError::Foreign(gate);
    let rest = len - gate - 1;
    if rest < 4 {
        return Err(foreign);
    }
    let count = read_length(disk, gate + 1)?;
    if count == 0 || count > MOST_BYTES || rest <= 4 + count as u64 {
        return Err(foreign);
    }
    Ok(Some(read_payload(alloc, disk, gate + 5, count as usize)?))
}

// The records of a file, and the offset behind its last gate.
#[derive(Drop)]
pub(crate) struct Found {
    pub(crate) records: Items<Record>,
    pub(crate) end: u64,
}

// The records behind the header.
fn read_records<D: Disk>(alloc: Global, disk: &mut D, len: u64) -> Result<Found, JournalError>
    requires attached { D.attached disk.old ≡ true }
    requires len { IfSome (D.seen disk.old) (λ file. len ≡ length file) }
    requires within { 9 < len }
    requires header { IfSome (D.seen disk.old) (λ file. take 8 file ≡ header) }
    ensures records { IfOk result (λ found. IfSome (D.seen disk.old) (IsFile (payloads found.records))) }
    ensures end { IfOk result (λ found. found.end ≡ end_of (payloads found.records)) }
    ensures attached { D.attached disk.new ≡ true }
    ensures reads { OnlyReads D.seen D.may_leave D.moment D.left_since disk.old disk.new }
    ensures refused { Refused (λ at. IfSome (D.seen disk.old) (BreaksAt at)) ⊥ (Unit {0}) (D.disk_faults disk.old) (D.disk_faults disk.new) result }
{
    let mut records = Items::new(alloc);
    let mut gate = 8u64;
    'each: loop {
        match read_record(alloc, disk, len, gate)? {
            None => {
                return Ok(Found {
                    records,
                    end: gate + 1,
                });
            }
            Some(payload) => {
                gate += 5 + payload.len() as u64;
                records.push(Record {
                    payload: Items::from_vec(payload),
                })?;
            }
        }
    }
}

// Whether the file begins with the header.
fn check_header<D: Disk>(disk: &mut D) -> Result<(), JournalError>
    requires attached { D.attached disk.old ≡ true }
    requires within { IfSome (D.seen disk.old) (λ file. 8 ≤ length file) }
    ensures header { OnOk result (IfSome (D.seen disk.old) (λ file. take 8 file ≡ header)) }
    ensures attached { D.attached disk.new ≡ true }
    ensures reads { OnlyReads D.seen D.may_leave D.moment D.left_since disk.old disk.new }
    ensures refused { Refused (λ at. IfSome (D.seen disk.old) (DiffersAt at)) ⊥ ⊥ (D.disk_faults disk.old) (D.disk_faults disk.new) result }
{
    let mut front = [0; 8];
    disk.read_at(0, &mut front)?;
    match first_difference(&front) {
        None => Ok(()),
        Some(at) => Err(JournalError::Foreign(at)),
    }
}

// The place of the first byte that is not the header's.
fn first_difference(front: &[u8; 8]) -> Option<u64>
    ensures none { IfNone result (front.now ≡ header) }
    ensures some { IfSome result (λ at. DiffersAt at front.now) }
{
    for i in 0..8usize {
        if front[i] != HEADER[i] {
            return Some(i as u64);
        }
    }
    None
}

/// The records that a file stands for.
pub(crate) fn read_file<D: Disk>(alloc: Global, disk: &mut D) -> Result<Found, JournalError>
    requires { D.attached disk.old ≡ true }
    ensures records { IfOk result (λ found. IfSome (D.seen disk.old) (Image (payloads found.records))) }
    ensures end { IfOk result (λ found. found.end ≡ end_of (payloads found.records)) }
    ensures attached { D.attached disk.new ≡ true }
    ensures reads { OnlyReads D.seen D.may_leave D.moment D.left_since disk.old disk.new }
    ensures refused { Refused (λ at. IfSome (D.seen disk.old) (IsForeign at)) ⊥ (Unit {0}) (D.disk_faults disk.old) (D.disk_faults disk.new) result }
{
    let len = disk.len()?;
    if len <= 9 {
        return Ok(Found {
            records: Items::new(alloc),
            end: 9,
        });
    }
    check_header(disk)?;
    read_records(alloc, disk, len)
}
