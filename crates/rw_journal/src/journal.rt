// The journal.
ghost use Rattle.std.specs.Prelude.{◌≡◌, ◌↔◌, ◌+◌, ◌<◌, ◌≤◌, ◌++◌, ◌∷◌, [], ℕ, List, Bool, true, false, length, IsTrue, IsSome, IfSome, IfOk, IsErrOf, OnOk, OnErr, vec_capacity};
ghost use Rattle.rw_io.specs.Moments.{LeavesOnly, OnlyReads};
ghost use Rattle.rw_io.specs.Crash.{OnlyTold};
ghost use Rattle.rw_journal.specs.Image.{header, IsRecord, Image, IsForeign, end_of};
ghost use Rattle.rw_journal.specs.Conditions.{AreFormed, IsOneOf, Refused, StandsAt};

use crate::reading::{MOST_BYTES, read_file};
use crate::writing::{make_ready, store};
use crate::{JournalError, Record};
use rw_io::Disk;
use rw_items::Items;
use std::alloc::Global;

// No append moves the end past this.
const MOST_END: u64 = 67_108_864;

/// A journal's end, the records that `open` found, and room for one more.
#[derive(Drop)]
pub struct Journal {
    end: u64,
    records: Items<Record>,
    buffer: Vec<u8>,
    ready: bool,
    faulted: bool,
    ghost from: { 9 ≤ end },
    ghost room: { 65705 ≤ vec_capacity buffer },
}

impl Journal {
    ghost use Rattle.rw_journal.specs.Found.{payloads};
    ghost use Rattle.rw_journal.specs.Journal.{journal_end, found_in, is_ready, is_faulted};

    /// Reads the records of a file. It begins with a sync.
    pub fn open<D: Disk>(alloc: Global, disk: &mut D) -> Result<Journal, JournalError>
        requires { D.attached disk.old ≡ true }
        ensures records { IfOk result (λ journal. IfSome (D.seen disk.old) (Image (found_in journal))) }
        ensures end { IfOk result (λ journal. journal_end journal ≡ end_of (found_in journal)) }
        ensures stands { IfOk result (λ journal. StandsAt (D.seen disk.new) (D.may_leave disk.new) (journal_end journal)) }
        ensures opened { IfOk result (λ journal. (is_ready journal ≡ false) × (is_faulted journal ≡ false)) }
        // A crash then leaves what a read gives, and a read gives what it gave.
        ensures seen { OnOk result (D.seen disk.new ≡ D.seen disk.old) }
        ensures durable { OnOk result (OnlyTold (D.seen disk.new) (D.may_leave disk.new)) }
        // A crash at any moment leaves what one might have left before.
        ensures any_moment { LeavesOnly D.moment D.left_since disk.old disk.new (D.may_leave disk.old) }
        ensures crash { (c : List ℕ) → D.may_leave disk.new c → D.may_leave disk.old c }
        ensures told { IsSome (D.seen disk.old) ↔ IsSome (D.seen disk.new) }
        ensures attached { D.attached disk.new ≡ true }
        ensures refused { Refused (λ at. IfSome (D.seen disk.old) (IsForeign at)) ⊥ (Unit {0})
            (D.disk_faults disk.old) (D.disk_faults disk.new) result }
    {
        disk.sync()?;
        let found = read_file(alloc, disk)?;
        Ok(Journal {
            end: found.end,
            records: found.records,
            buffer: Vec::with_capacity(alloc, MOST_BYTES as usize + 5)?,
            ready: false,
            faulted: false,
        })
    }

    /// The records that `open` found, in order.
    pub fn records(&self) -> &[Record]
        ensures { payloads result.now ≡ found_in self.now }
    {
        self.records.as_slice()
    }

    /// Whether a payload of this length has room.
    pub fn fits(&self, length: u32) -> bool
        ensures { IsTrue result ↔ (journal_end self.now + 5 + length ≤ 67108864) }
    {
        length as u64 + 5 <= MOST_END.saturating_sub(self.end)
    }

    /// Adds a record. After `Ok` every crash leaves a file that has it; after a fault the journal must be opened again.
    pub fn append<D: Disk>(&mut self, disk: &mut D, payload: &[u8]) -> Result<(), JournalError>
        requires attached { D.attached disk.old ≡ true }
        requires payload { IsRecord payload.now }
        requires ready { is_ready self.old ≡ true }
        requires stands { StandsAt (D.seen disk.old) (D.may_leave disk.old) (journal_end self.old) }
        requires formed { AreFormed (D.seen disk.old) (D.may_leave disk.old) }

        // A crash at any moment leaves the records from before the call, or these and the new one.
        ensures any_moment { IfSome (D.seen disk.old) (λ file. (records : List (List ℕ)) → Image records file
            → LeavesOnly D.moment D.left_since disk.old disk.new (IsOneOf records payload.now)) }

        // After the call too, whatever it answers; after Ok it is these and the new one.
        ensures left { IfSome (D.seen disk.old) (λ file. (records : List (List ℕ)) → Image records file
            → (c : List ℕ) → D.may_leave disk.new c → IsOneOf records payload.now c) }
        ensures acknowledged { OnOk result (IfSome (D.seen disk.old) (λ file. (records : List (List ℕ)) → Image records file
            → (c : List ℕ) → D.may_leave disk.new c → Image (records ++ payload.now ∷ []) c)) }
        ensures seen { OnOk result (IfSome (D.seen disk.old) (λ file. (records : List (List ℕ)) → Image records file
            → IfSome (D.seen disk.new) (Image (records ++ payload.now ∷ [])))) }

        // What the next call asks.
        ensures stands { OnOk result (StandsAt (D.seen disk.new) (D.may_leave disk.new) (journal_end self.new)) }
        ensures formed { OnOk result (AreFormed (D.seen disk.new) (D.may_leave disk.new)) }
        ensures ready { OnOk result ((is_ready self.new ≡ true) × (is_faulted self.new ≡ false)) }
        ensures attached { D.attached disk.new ≡ true }
        ensures told { IsSome (D.seen disk.old) ↔ IsSome (D.seen disk.new) }

        ensures end { OnOk result (journal_end self.new ≡ journal_end self.old + 5 + length payload.now) }
        ensures found { found_in self.new ≡ found_in self.old }
        ensures full { IsErrOf result JournalError.Full ↔ (67108864 < journal_end self.old + 5 + length payload.now) }
        ensures nothing { IsErrOf result JournalError.Full → (disk.new ≡ disk.old) × (self.new ≡ self.old) }
        ensures faulted { IsErrOf result JournalError.DiskFault → (is_ready self.new ≡ false) × (is_faulted self.new ≡ true) }
        ensures refused { Refused (λ at. ⊥) (67108864 < journal_end self.old + 5 + length payload.now) ⊥
            (D.disk_faults disk.old) (D.disk_faults disk.new) result }
    {
        if !self.fits(payload.len() as u32) {
            return Err(JournalError::Full);
        }
        self.ready = false;
        self.faulted = true;
        store(disk, self.end, payload, &mut self.buffer)?;
        self.end += 5 + payload.len() as u64;
        self.ready = true;
        self.faulted = false;
        Ok(())
    }

    /// Makes a file of at most 9 bytes ready for appending. It begins with a sync, and leaves a longer file as it is.
    pub fn prepare<D: Disk>(&mut self, disk: &mut D) -> Result<(), JournalError>
        requires attached { D.attached disk.old ≡ true }
        requires usable { is_faulted self.old ≡ false }
        requires stands { StandsAt (D.seen disk.old) (D.may_leave disk.old) (journal_end self.old) }

        // A crash at any moment leaves a file that stands for the same records.
        ensures any_moment { IfSome (D.seen disk.old) (λ file. (records : List (List ℕ)) → Image records file
            → LeavesOnly D.moment D.left_since disk.old disk.new (Image records)) }
        ensures left { IfSome (D.seen disk.old) (λ file. (records : List (List ℕ)) → Image records file
            → (c : List ℕ) → D.may_leave disk.new c → Image records c) }
        ensures seen { IfSome (D.seen disk.old) (λ file. (records : List (List ℕ)) → Image records file
            → IfSome (D.seen disk.new) (Image records)) }

        // What `append` asks.
        ensures stands { OnOk result (StandsAt (D.seen disk.new) (D.may_leave disk.new) (journal_end self.new)) }
        ensures formed { OnOk result (AreFormed (D.seen disk.new) (D.may_leave disk.new)) }
        ensures ready { OnOk result ((is_ready self.new ≡ true) × (is_faulted self.new ≡ false)) }
        ensures attached { D.attached disk.new ≡ true }
        ensures told { IsSome (D.seen disk.old) ↔ IsSome (D.seen disk.new) }
        ensures end { journal_end self.new ≡ journal_end self.old }
        ensures found { found_in self.new ≡ found_in self.old }

        // A longer file stays as it is; a short one is then the header and a gate that is not open.
        ensures untouched { OnOk result (IfSome (D.seen disk.old) (λ file. 9 < length file → D.seen disk.new ≡ D.seen disk.old)) }
        ensures renewed { OnOk result (IfSome (D.seen disk.old) (λ file. length file ≤ 9
            → IfSome (D.seen disk.new) (λ new. new ≡ header ++ 0 ∷ []))) }
        ensures faulted { OnErr result ((is_ready self.new ≡ false) × (is_faulted self.new ≡ true)) }
        ensures refused { Refused (λ at. ⊥) ⊥ ⊥ (D.disk_faults disk.old) (D.disk_faults disk.new) result }
    {
        self.ready = false;
        self.faulted = true;
        make_ready(disk)?;
        self.ready = true;
        self.faulted = false;
        Ok(())
    }
}
