// Writing to the disk so that a crash leaves one of two files.
ghost use Rattle.std.specs.Prelude.{◌≡◌, ◌↔◌, ◌+◌, ◌-◌, ◌<◌, ◌≤◌, ◌++◌, ◌∷◌, [], ℕ, List, length, true, IsSome, IfSome, OnOk, OnErr, vec_len, vec_capacity};
ghost use Rattle.rw_io.specs.Causes.{HasCause};
ghost use Rattle.rw_io.specs.Crash.{Holds, Torn, Follows, OnlyTold};
ghost use Rattle.rw_io.specs.Moments.{After, LeavesOnly};
ghost use Rattle.rw_journal.specs.Image.{header, IsRecord, Image, written};
ghost use Rattle.rw_journal.specs.Conditions.{AreFormed, AreShort, IsOneOf, StandsAt};

use rw_io::{Disk, Failed};

// Writes bytes at an offset, and syncs.
fn write_durably<D: Disk>(disk: &mut D, at: u64, bytes: &[u8]) -> Result<(), Failed>
    requires { D.attached disk.old ≡ true }
    ensures attached { D.attached disk.new ≡ true }
    ensures told { IsSome (D.seen disk.old) ↔ IsSome (D.seen disk.new) }
    ensures written { OnOk result (IfSome (D.seen disk.old)
        (λ old. IfSome (D.seen disk.new) (λ new. Holds old at bytes.now new))) }
    ensures durable { OnOk result (OnlyTold (D.seen disk.new) (D.may_leave disk.new)) }
    ensures crash { Follows (Torn at (length bytes.now)) (D.may_leave disk.old) (D.may_leave disk.new) }
    ensures any_moment { LeavesOnly D.moment D.left_since disk.old disk.new
        (After (Torn at (length bytes.now)) (D.may_leave disk.old)) }
    ensures cause { HasCause (D.disk_faults disk.old) (D.disk_faults disk.new) result }
{
    disk.write_at(at, bytes)?;
    disk.sync()?;
    Ok(())
}

// Fills the buffer with what is written behind the last gate.
fn fill(buffer: &mut Vec<u8>, payload: &[u8])
    requires room { length payload.now + 5 ≤ vec_capacity buffer.old }
    requires most { length payload.now ≤ 65700 }
    ensures bytes { buffer.new.items ≡ written payload.now }
    ensures capacity { vec_capacity buffer.old ≤ vec_capacity buffer.new }
{
    buffer.clear();
    if buffer
        .extend_from_slice(&(payload.len() as u32).to_be_bytes())
        .is_err()
    {
        unreachable!()
    }
    if buffer.extend_from_slice(payload).is_err() {
        unreachable!()
    }
    buffer.push_reserved(0);
}

// Writes a record and a gate that is not open behind the last gate, and syncs.
fn write_record<D: Disk>(
    disk: &mut D,
    end: u64,
    payload: &[u8],
    buffer: &mut Vec<u8>,
) -> Result<(), Failed>
    requires attached { D.attached disk.old ≡ true }
    requires from { 9 ≤ end }
    requires room { length payload.now + 5 ≤ vec_capacity buffer.old }
    requires most { length payload.now ≤ 65700 }
    ensures attached { D.attached disk.new ≡ true }
    ensures told { IsSome (D.seen disk.old) ↔ IsSome (D.seen disk.new) }
    ensures written { OnOk result (IfSome (D.seen disk.old)
        (λ old. IfSome (D.seen disk.new) (λ new. Holds old end buffer.new.items new))) }
    ensures bytes { buffer.new.items ≡ written payload.now }
    ensures durable { OnOk result (OnlyTold (D.seen disk.new) (D.may_leave disk.new)) }
    ensures crash { Follows (Torn end (vec_len buffer.new)) (D.may_leave disk.old) (D.may_leave disk.new) }
    ensures any_moment { LeavesOnly D.moment D.left_since disk.old disk.new
        (After (Torn end (vec_len buffer.new)) (D.may_leave disk.old)) }
    ensures capacity { vec_capacity buffer.old ≤ vec_capacity buffer.new }
    ensures cause { HasCause (D.disk_faults disk.old) (D.disk_faults disk.new) result }
{
    fill(buffer, payload);
    write_durably(disk, end, buffer)?;
    Ok(())
}

// Opens the gate at an offset, and syncs.
fn open_gate<D: Disk>(disk: &mut D, at: u64) -> Result<(), Failed>
    requires { D.attached disk.old ≡ true }
    ensures attached { D.attached disk.new ≡ true }
    ensures told { IsSome (D.seen disk.old) ↔ IsSome (D.seen disk.new) }
    ensures written { OnOk result (IfSome (D.seen disk.old)
        (λ old. IfSome (D.seen disk.new) (λ new. Holds old at (1 ∷ []) new))) }
    ensures durable { OnOk result (OnlyTold (D.seen disk.new) (D.may_leave disk.new)) }
    ensures crash { Follows (Torn at 1) (D.may_leave disk.old) (D.may_leave disk.new) }
    ensures any_moment { LeavesOnly D.moment D.left_since disk.old disk.new
        (After (Torn at 1) (D.may_leave disk.old)) }
    ensures cause { HasCause (D.disk_faults disk.old) (D.disk_faults disk.new) result }
{
    write_durably(disk, at, &[1])?;
    Ok(())
}

/// Puts a record behind the last gate, and opens the gate once the record is on the disk.
pub(crate) fn store<D: Disk>(
    disk: &mut D,
    end: u64,
    payload: &[u8],
    buffer: &mut Vec<u8>,
) -> Result<(), Failed>
    requires attached { D.attached disk.old ≡ true }
    requires from { 9 ≤ end }
    requires record { IsRecord payload.now }
    requires room { length payload.now + 5 ≤ vec_capacity buffer.old }
    requires stands { StandsAt (D.seen disk.old) (D.may_leave disk.old) end }
    requires formed { AreFormed (D.seen disk.old) (D.may_leave disk.old) }
    ensures attached { D.attached disk.new ≡ true }
    ensures told { IsSome (D.seen disk.old) ↔ IsSome (D.seen disk.new) }
    ensures any_moment { IfSome (D.seen disk.old) (λ file. (records : List (List ℕ)) → Image records file
        → LeavesOnly D.moment D.left_since disk.old disk.new (IsOneOf records payload.now)) }
    ensures left { IfSome (D.seen disk.old) (λ file. (records : List (List ℕ)) → Image records file
        → (c : List ℕ) → D.may_leave disk.new c → IsOneOf records payload.now c) }
    ensures acknowledged { OnOk result (IfSome (D.seen disk.old) (λ file. (records : List (List ℕ)) → Image records file
        → (c : List ℕ) → D.may_leave disk.new c → Image (records ++ payload.now ∷ []) c)) }
    ensures seen { OnOk result (IfSome (D.seen disk.old) (λ file. (records : List (List ℕ)) → Image records file
        → IfSome (D.seen disk.new) (Image (records ++ payload.now ∷ [])))) }
    ensures stands { OnOk result (StandsAt (D.seen disk.new) (D.may_leave disk.new) (end + 5 + length payload.now)) }
    ensures formed { OnOk result (AreFormed (D.seen disk.new) (D.may_leave disk.new)) }
    ensures capacity { vec_capacity buffer.old ≤ vec_capacity buffer.new }
    ensures cause { HasCause (D.disk_faults disk.old) (D.disk_faults disk.new) result }
{
    write_record(disk, end, payload, buffer)?;
    open_gate(disk, end - 1)?;
    Ok(())
}

// The header and a gate that is not open.
const EMPTY: [u8; 9] = [82, 87, 74, 82, 78, 76, 49, 10, 0];

// Makes a file of at most 9 bytes an empty journal of 9.
fn renew<D: Disk>(disk: &mut D) -> Result<(), Failed>
    requires attached { D.attached disk.old ≡ true }
    requires short { AreShort (D.seen disk.old) (D.may_leave disk.old) }
    ensures attached { D.attached disk.new ≡ true }
    ensures told { IsSome (D.seen disk.old) ↔ IsSome (D.seen disk.new) }
    ensures seen { OnOk result (IfSome (D.seen disk.old) (λ file. IfSome (D.seen disk.new) (λ new. new ≡ header ++ 0 ∷ []))) }
    ensures durable { OnOk result (OnlyTold (D.seen disk.new) (D.may_leave disk.new)) }
    ensures any_moment { IfSome (D.seen disk.old) (λ file. LeavesOnly D.moment D.left_since disk.old disk.new (λ c. length c ≤ 9)) }
    ensures cause { HasCause (D.disk_faults disk.old) (D.disk_faults disk.new) result }
{
    disk.write_at(0, &EMPTY)?;
    disk.cut(9)?;
    disk.sync()?;
    Ok(())
}

/// Makes a file ready for appending. It begins with a sync, and where the file has more than 9 bytes it does no more.
pub(crate) fn make_ready<D: Disk>(disk: &mut D) -> Result<(), Failed>
    requires { D.attached disk.old ≡ true }
    ensures attached { D.attached disk.new ≡ true }
    ensures told { IsSome (D.seen disk.old) ↔ IsSome (D.seen disk.new) }
    ensures any_moment { (end : ℕ) → StandsAt (D.seen disk.old) (D.may_leave disk.old) end
        → IfSome (D.seen disk.old) (λ file. (records : List (List ℕ)) → Image records file
        → LeavesOnly D.moment D.left_since disk.old disk.new (Image records)) }
    ensures left { (end : ℕ) → StandsAt (D.seen disk.old) (D.may_leave disk.old) end
        → IfSome (D.seen disk.old) (λ file. (records : List (List ℕ)) → Image records file
        → (c : List ℕ) → D.may_leave disk.new c → Image records c) }
    ensures stands { OnOk result ((end : ℕ) → StandsAt (D.seen disk.old) (D.may_leave disk.old) end
        → StandsAt (D.seen disk.new) (D.may_leave disk.new) end) }
    ensures formed { OnOk result ((end : ℕ) → StandsAt (D.seen disk.old) (D.may_leave disk.old) end
        → AreFormed (D.seen disk.new) (D.may_leave disk.new)) }
    ensures untouched { OnOk result (IfSome (D.seen disk.old) (λ file. 9 < length file → D.seen disk.new ≡ D.seen disk.old)) }
    ensures renewed { OnOk result (IfSome (D.seen disk.old) (λ file. length file ≤ 9
        → IfSome (D.seen disk.new) (λ new. new ≡ header ++ 0 ∷ []))) }
    ensures cause { HasCause (D.disk_faults disk.old) (D.disk_faults disk.new) result }
{
    disk.sync()?;
    if disk.len()? > 9 {
        return Ok(());
    }
    renew(disk)?;
    Ok(())
}
