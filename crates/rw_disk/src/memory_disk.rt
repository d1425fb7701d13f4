// A disk in memory, with a record of its calls.
ghost use Rattle.std.specs.Prelude.{◌≡◌, ◌==◌, ◌+◌, ◌-◌, ◌<◌, ◌≤◌, ◌↔◌, ℕ, List, [], ◌∷◌, if◌then◌else◌, length, slice_range, take, true, Some, IfOk, IsOk, OnOk, OnErr, vec_len, vec_capacity};
ghost use Rattle.rw_disk.specs.Events.{CutFailed, Synced, WasCut, WriteFailed, Wrote, read_after};
ghost use Rattle.rw_io.specs.Causes.{CountsFaults, HasCause};
ghost use Rattle.rw_io.specs.Crash.{Cut, Elapses, Follows, Holds, Same, Torn};
ghost use Rattle.rw_disk.specs.DiskLog.{events_in};

use crate::log::{DiskLog, Entry};
use crate::overwriting::overwrite;
use rw_io::{Disk, Failed, MakeError, Schedule};
use std::alloc::Global;

/// A file in memory. A read gives what was written last; its record tells what a crash may leave at each moment.
#[derive(Drop)]
pub struct MemoryDisk {
    contents: Vec<u8>,
    room: u32,
    log: DiskLog,
    schedule: Schedule,
    faults: u64,
    ghost reserved: { vec_len contents + room ≤ vec_capacity contents },
    ghost room_bytes: { vec_len log.written + room ≤ vec_capacity log.written },
    ghost room_calls: { vec_len log.entries + (schedule.room - schedule.made) ≤ vec_capacity log.entries },
    ghost read: { contents.items ≡ read_after log.first.items (events_in log) },
}

impl MemoryDisk {
    ghost use Rattle.rw_disk.specs.MemoryDisk.{disk_events, disk_bytes, disk_calls, disk_failures, disk_fails, disk_first, disk_room, disk_schedule};

    /// A disk whose file has these bytes, with room for a number of bytes and of calls; those of the listed numbers,
    /// counted from 1, fail.
    pub fn new(
        alloc: Global,
        contents: &[u8],
        bytes: u32,
        calls: u32,
        fails: &[u32],
    ) -> Result<Self, MakeError>
        ensures bytes { IfOk result (λ disk. disk_bytes disk ≡ contents.now) }
        ensures first { IfOk result (λ disk. disk_first disk ≡ contents.now) }
        ensures none_made { IfOk result (λ disk. disk_events disk ≡ []) }
        ensures room { IfOk result (λ disk. disk_room disk ≡ bytes) }
        ensures calls { IfOk result (λ disk. disk_calls disk ≡ calls) }
        ensures schedule { IfOk result (λ disk. (disk_schedule disk).made ≡ 0) }
        ensures fails { IfOk result (λ disk. disk_fails disk ≡ fails.now) }
        ensures faults { IfOk result (λ disk. disk_failures disk ≡ 0) }
    {
        let mut bytes_there = Vec::with_capacity(alloc, contents.len() + bytes as usize)?;
        bytes_there.extend_from_slice(contents)?;
        Ok(MemoryDisk {
            contents: bytes_there,
            room: bytes,
            log: DiskLog::new(alloc, contents, bytes as usize, calls as usize)?,
            schedule: Schedule::new(calls, fails.to_vec(alloc)?),
            faults: 0,
        })
    }

    /// What a read gives.
    pub fn contents(&self) -> &[u8]
        ensures { result.now ≡ disk_bytes self.now }
    {
        &self.contents
    }
}

impl Disk for MemoryDisk {
    ghost use Rattle.rw_io.specs.Memory.{Admits, Advances};
    ghost use Rattle.rw_disk.specs.MemoryDisk.{DiskLeaves, DiskLeftSince, disk_events, disk_bytes, disk_calls, disk_failures, disk_fails, disk_first, disk_moment, disk_room, disk_schedule, room_for};
    ghost use Rattle.rw_disk.specs.DiskLaws.{leaves_seen, left_now, now_alone};

    ghost attached = { λ d. true };

    ghost seen = { λ d. Some (disk_bytes d) };

    ghost may_leave = { DiskLeaves };

    ghost moment = { disk_moment };

    ghost left_since = { DiskLeftSince };

    ghost disk_faults = { disk_failures };

    ghost counts_now = { λ d t c le now. left_now d.log.first.items (events_in d.log) t c now };

    ghost only_now = { λ d c left. now_alone d.log.first.items (events_in d.log) c left };

    ghost may_leave_seen = { λ d. leaves_seen d.log.first.items (events_in d.log) d.contents.items d.read };

    fn attach(&mut self, _name: &str) -> Result<(), Failed>
        ensures seen { disk_bytes self.new ≡ disk_bytes self.old }
        ensures events { disk_events self.new ≡ disk_events self.old }
        ensures first { disk_first self.new ≡ disk_first self.old }
        ensures room { disk_room self.new ≡ disk_room self.old }
        ensures crash { Same (DiskLeaves self.old) (DiskLeaves self.new) }
        ensures time { Elapses (disk_moment self.old) (disk_moment self.new)
            (DiskLeftSince self.old) (DiskLeftSince self.new) (DiskLeaves self.new) }
        ensures cause { HasCause (disk_failures self.old) (disk_failures self.new) result }

        // It fails exactly where no room is left for a call or this call is to fail.
        ensures admitted { IsOk result ↔ Admits (disk_schedule self.old) }
        ensures counted { Advances (disk_schedule self.old) (disk_schedule self.new) }
        ensures faults { CountsFaults (disk_failures self.old) (disk_failures self.new) result }

        // With an empty list of failures it succeeds while there is room for calls.
        ensures succeeds { disk_fails self.old ≡ [] → 0 < disk_calls self.old → IsOk result }
        ensures calls { disk_calls self.new ≡ disk_calls self.old - 1 }
        ensures fails { disk_fails self.new ≡ disk_fails self.old }
    {
        if !self.schedule.admits() {
            self.faults = self.faults.saturating_add(1);
            return Err(Failed);
        }
        Ok(())
    }

    fn len(&mut self) -> Result<u64, Failed>
        ensures value { IfOk result (λ n. n ≡ length (disk_bytes self.old)) }
        ensures seen { disk_bytes self.new ≡ disk_bytes self.old }
        ensures events { disk_events self.new ≡ disk_events self.old }
        ensures first { disk_first self.new ≡ disk_first self.old }
        ensures room { disk_room self.new ≡ disk_room self.old }
        ensures crash { Same (DiskLeaves self.old) (DiskLeaves self.new) }
        ensures time { Elapses (disk_moment self.old) (disk_moment self.new)
            (DiskLeftSince self.old) (DiskLeftSince self.new) (DiskLeaves self.new) }
        ensures cause { HasCause (disk_failures self.old) (disk_failures self.new) result }

        // It fails exactly where no room is left for a call or this call is to fail.
        ensures admitted { IsOk result ↔ Admits (disk_schedule self.old) }
        ensures counted { Advances (disk_schedule self.old) (disk_schedule self.new) }
        ensures faults { CountsFaults (disk_failures self.old) (disk_failures self.new) result }

        // With an empty list of failures it succeeds while there is room for calls.
        ensures succeeds { disk_fails self.old ≡ [] → 0 < disk_calls self.old → IsOk result }
        ensures calls { disk_calls self.new ≡ disk_calls self.old - 1 }
        ensures fails { disk_fails self.new ≡ disk_fails self.old }
    {
        if !self.schedule.admits() {
            self.faults = self.faults.saturating_add(1);
            return Err(Failed);
        }
        Ok(self.contents.len() as u64)
    }

    fn read_at(&mut self, at: u64, into: &mut [u8]) -> Result<(), Failed>
        requires { at + length into.old ≤ length (disk_bytes self.old) }
        ensures value { OnOk result (into.new ≡ slice_range (disk_bytes self.old) at (at + length into.old)) }
        ensures seen { disk_bytes self.new ≡ disk_bytes self.old }
        ensures events { disk_events self.new ≡ disk_events self.old }
        ensures first { disk_first self.new ≡ disk_first self.old }
        ensures room { disk_room self.new ≡ disk_room self.old }
        ensures crash { Same (DiskLeaves self.old) (DiskLeaves self.new) }
        ensures time { Elapses (disk_moment self.old) (disk_moment self.new)
            (DiskLeftSince self.old) (DiskLeftSince self.new) (DiskLeaves self.new) }
        ensures cause { HasCause (disk_failures self.old) (disk_failures self.new) result }

        // It fails exactly where no room is left for a call or this call is to fail.
        ensures admitted { IsOk result ↔ Admits (disk_schedule self.old) }
        ensures counted { Advances (disk_schedule self.old) (disk_schedule self.new) }
        ensures faults { CountsFaults (disk_failures self.old) (disk_failures self.new) result }

        // With an empty list of failures it succeeds while there is room for calls.
        ensures succeeds { disk_fails self.old ≡ [] → 0 < disk_calls self.old → IsOk result }
        ensures calls { disk_calls self.new ≡ disk_calls self.old - 1 }
        ensures fails { disk_fails self.new ≡ disk_fails self.old }
    {
        if !self.schedule.admits() {
            self.faults = self.faults.saturating_add(1);
            return Err(Failed);
        }
        let from = at as usize;
        into.copy_from_slice(&self.contents[from..from + into.len()]);
        Ok(())
    }

    fn write_at(&mut self, at: u64, bytes: &[u8]) -> Result<(), Failed>
        ensures written { OnOk result (Holds (disk_bytes self.old) at bytes.now (disk_bytes self.new)) }
        ensures same { OnErr result (disk_bytes self.new ≡ disk_bytes self.old) }
        ensures crash { Follows (Torn at (length bytes.now)) (DiskLeaves self.old) (DiskLeaves self.new) }
        ensures time { Elapses (disk_moment self.old) (disk_moment self.new)
            (DiskLeftSince self.old) (DiskLeftSince self.new) (DiskLeaves self.new) }
        ensures cause { HasCause (disk_failures self.old) (disk_failures self.new) result }
        // What the record has: the write, or where it failed and there was room for a call, its range.
        ensures recorded { OnOk result (disk_events self.new ≡ Wrote at bytes.now ∷ disk_events self.old) }
        ensures torn { OnErr result (disk_events self.new ≡ (if 0 == disk_calls self.old then disk_events self.old
            else WriteFailed at (length bytes.now) ∷ disk_events self.old)) }
        ensures first { disk_first self.new ≡ disk_first self.old }
        ensures room { OnOk result (disk_room self.new + room_for (length (disk_bytes self.old)) at (length bytes.now) ≡ disk_room self.old) }
        ensures room_err { OnErr result (disk_room self.new ≡ disk_room self.old) }

        // It fails exactly where no room is left for a call or the bytes or this call is to fail.
        ensures admitted { IsOk result ↔ (Admits (disk_schedule self.old) × (room_for (length (disk_bytes self.old)) at (length bytes.now) ≤ disk_room self.old)) }
        ensures counted { Advances (disk_schedule self.old) (disk_schedule self.new) }
        ensures faults { CountsFaults (disk_failures self.old) (disk_failures self.new) result }

        // With an empty list of failures it succeeds while there is room for calls and bytes.
        ensures succeeds { disk_fails self.old ≡ [] → 0 < disk_calls self.old
            → room_for (length (disk_bytes self.old)) at (length bytes.now) ≤ disk_room self.old → IsOk result }
        ensures calls { disk_calls self.new ≡ disk_calls self.old - 1 }
        ensures fails { disk_fails self.new ≡ disk_fails self.old }
    {
        let recorded = self.schedule.made < self.schedule.room;
        let gap = at.saturating_sub(self.contents.len() as u64);
        let room = self.room as u64;
        let fits = gap <= room && bytes.len() as u64 <= room - gap;
        if !self.schedule.admits() || !fits {
            if recorded {
                self.log.add(Entry::TornWrite(at, bytes.len()));
            }
            self.faults = self.faults.saturating_add(1);
            return Err(Failed);
        }
        overwrite(&mut self.contents, at as usize, bytes);
        self.room -= gap as u32 + bytes.len() as u32;
        self.log.add_write(at, bytes);
        Ok(())
    }

    fn cut(&mut self, len: u64) -> Result<(), Failed>
        ensures cut { OnOk result (disk_bytes self.new ≡ take len (disk_bytes self.old)) }
        ensures same { OnErr result (disk_bytes self.new ≡ disk_bytes self.old) }
        ensures crash { Follows (Cut len) (DiskLeaves self.old) (DiskLeaves self.new) }
        ensures time { Elapses (disk_moment self.old) (disk_moment self.new)
            (DiskLeftSince self.old) (DiskLeftSince self.new) (DiskLeaves self.new) }
        ensures cause { HasCause (disk_failures self.old) (disk_failures self.new) result }
        // What the record has: the cut, or where it failed and there was room for a call, what it was to cut.
        ensures recorded { OnOk result (disk_events self.new ≡ WasCut len ∷ disk_events self.old) }
        ensures torn { OnErr result (disk_events self.new ≡ (if 0 == disk_calls self.old then disk_events self.old
            else CutFailed len ∷ disk_events self.old)) }
        ensures first { disk_first self.new ≡ disk_first self.old }
        ensures room { disk_room self.new ≡ disk_room self.old }

        // It fails exactly where no room is left for a call or this call is to fail.
        ensures admitted { IsOk result ↔ Admits (disk_schedule self.old) }
        ensures counted { Advances (disk_schedule self.old) (disk_schedule self.new) }
        ensures faults { CountsFaults (disk_failures self.old) (disk_failures self.new) result }

        // With an empty list of failures it succeeds while there is room for calls.
        ensures succeeds { disk_fails self.old ≡ [] → 0 < disk_calls self.old → IsOk result }
        ensures calls { disk_calls self.new ≡ disk_calls self.old - 1 }
        ensures fails { disk_fails self.new ≡ disk_fails self.old }
    {
        let recorded = self.schedule.made < self.schedule.room;
        if !self.schedule.admits() {
            if recorded {
                self.log.add(Entry::TornTruncate(len));
            }
            self.faults = self.faults.saturating_add(1);
            return Err(Failed);
        }
        self.contents
            .truncate(len.min(self.contents.len() as u64) as usize);
        self.log.add(Entry::Truncate(len));
        Ok(())
    }

    fn sync(&mut self) -> Result<(), Failed>
        ensures durable { OnOk result ((c : List ℕ) → DiskLeaves self.new c → c ≡ disk_bytes self.new) }
        ensures seen { disk_bytes self.new ≡ disk_bytes self.old }
        ensures unsettled { DiskLeaves self.old (disk_bytes self.new) }
        ensures crash { (c : List ℕ) → DiskLeaves self.new c → DiskLeaves self.old c }
        ensures time { Elapses (disk_moment self.old) (disk_moment self.new)
            (DiskLeftSince self.old) (DiskLeftSince self.new) (DiskLeaves self.new) }
        ensures cause { HasCause (disk_failures self.old) (disk_failures self.new) result }
        // What the record has: the sync, or nothing where it failed.
        ensures recorded { OnOk result (disk_events self.new ≡ Synced ∷ disk_events self.old) }
        ensures settles_nothing { OnErr result (disk_events self.new ≡ disk_events self.old) }
        ensures first { disk_first self.new ≡ disk_first self.old }
        ensures room { disk_room self.new ≡ disk_room self.old }

        // It fails exactly where no room is left for a call or this call is to fail.
        ensures admitted { IsOk result ↔ Admits (disk_schedule self.old) }
        ensures counted { Advances (disk_schedule self.old) (disk_schedule self.new) }
        ensures faults { CountsFaults (disk_failures self.old) (disk_failures self.new) result }

        // With an empty list of failures it succeeds while there is room for calls.
        ensures succeeds { disk_fails self.old ≡ [] → 0 < disk_calls self.old → IsOk result }
        ensures calls { disk_calls self.new ≡ disk_calls self.old - 1 }
        ensures fails { disk_fails self.new ≡ disk_fails self.old }
    {
        if !self.schedule.admits() {
            self.faults = self.faults.saturating_add(1);
            return Err(Failed);
        }
        self.log.add(Entry::Sync);
        Ok(())
    }
}
