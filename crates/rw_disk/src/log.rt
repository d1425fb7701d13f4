// The record that a disk in memory keeps of its calls.
ghost use Rattle.std.specs.Prelude.{◌≡◌, ◌+◌, ◌≤◌, ◌<◌, ℕ, [], ◌∷◌, length, IfOk, vec_len, vec_capacity};
ghost use Rattle.rw_disk.specs.declared.log.Entry.TheVariants.{Write, TornWrite, Truncate, TornTruncate, Sync};
ghost use Rattle.rw_disk.specs.Events.{Wrote, event_of, bytes_of, total};

use rw_io::MakeError;
use std::alloc::Global;

/// A call that changes what a crash may leave: an offset and a number of bytes, or a length.
#[derive(Clone, Copy)]
pub enum Entry {
    Write(u64, usize),
    TornWrite(u64, usize),
    Truncate(u64),
    TornTruncate(u64),
    Sync,
}

/// What a file had at first, the calls in order, and the bytes of the writes that succeeded.
#[derive(Drop)]
pub struct DiskLog {
    pub first: Vec<u8>,
    pub entries: Vec<Entry>,
    pub written: Vec<u8>,
    pub ghost whole: { total entries.items ≡ length written.items },
}

impl DiskLog {
    ghost use Rattle.rw_disk.specs.DiskLog.{events_in};

    /// A record of no calls, with room for a number of bytes and of calls.
    pub fn new(alloc: Global, first: &[u8], bytes: usize, calls: usize) -> Result<Self, MakeError>
        ensures first { IfOk result (λ log. log.first.items ≡ first.now) }
        ensures calls { IfOk result (λ log. events_in log ≡ []) }
        ensures none { IfOk result (λ log. vec_len log.entries ≡ 0) }
        ensures empty { IfOk result (λ log. vec_len log.written ≡ 0) }
        ensures room_calls { IfOk result (λ log. vec_capacity log.entries ≡ calls) }
        ensures room_bytes { IfOk result (λ log. vec_capacity log.written ≡ bytes) }
    {
        Ok(DiskLog {
            first: first.to_vec(alloc)?,
            entries: Vec::with_capacity(alloc, calls)?,
            written: Vec::with_capacity(alloc, bytes)?,
        })
    }

    /// Records a write that succeeded.
    pub fn add_write(&mut self, at: u64, bytes: &[u8])
        requires calls { vec_len self.old.entries < vec_capacity self.old.entries }
        requires bytes { vec_len self.old.written + length bytes.now ≤ vec_capacity self.old.written }
        ensures call { events_in self.new ≡ Wrote at bytes.now ∷ events_in self.old }
        ensures first { self.new.first ≡ self.old.first }
        ensures one_more { vec_len self.new.entries ≡ vec_len self.old.entries + 1 }
        ensures longer { vec_len self.new.written ≡ vec_len self.old.written + length bytes.now }
        ensures room_calls { vec_capacity self.old.entries ≤ vec_capacity self.new.entries }
        ensures room_bytes { vec_capacity self.old.written ≤ vec_capacity self.new.written }
    {
        self.entries.push_reserved(Entry::Write(at, bytes.len()));
        if self.written.extend_from_slice(bytes).is_err() {
            unreachable!()
        }
    }

    /// Records another call, which has no bytes.
    pub fn add(&mut self, done: Entry)
        requires calls { vec_len self.old.entries < vec_capacity self.old.entries }
        requires none { bytes_of done ≡ 0 }
        ensures call { events_in self.new ≡ event_of done [] ∷ events_in self.old }
        ensures first { self.new.first ≡ self.old.first }
        ensures one_more { vec_len self.new.entries ≡ vec_len self.old.entries + 1 }
        ensures written { self.new.written ≡ self.old.written }
        ensures room_calls { vec_capacity self.old.entries ≤ vec_capacity self.new.entries }
    {
        self.entries.push_reserved(done);
    }
}
