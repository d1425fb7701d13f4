// Doors in memory, at which listed peers come one after the other.
ghost use Rattle.std.specs.Prelude.{◌≡◌, ◌↔◌, ◌+◌, ◌-◌, ◌<◌, ◌≤◌, ℕ, Bool, true, false, List, [], ◌∷◌, ◌++◌, map, Option, None, Some, IsOk, IfOk, IfSome, vec_len, vec_capacity, if◌then◌else◌};
ghost use Rattle.std.specs.VecDeque.{deque_len};
ghost use Rattle.std.proofs.Common.{ap};
ghost use Rattle.rw_io.specs.Causes.{HasCause, CountsFaults};
ghost use Rattle.rw_io.specs.Told.{AddsTold, KeepsTold, GivesPeer, NextTakes, told_peer, served_peer};

use crate::{Doors, Failed, MakeError, MemoryPeer, Schedule, Sink, Source};
use std::alloc::Global;
use std::collections::VecDeque;

/// Peers in memory that come one after the other. The calls of `open` and `next` are counted together.
#[derive(Drop)]
pub struct MemoryDoors {
    coming: VecDeque<MemoryPeer>,
    back: Vec<MemoryPeer>,
    opened: bool,
    out: bool,
    schedule: Schedule,
    faults: u64,
    ghost reserved: { vec_len back + (deque_len coming + (if out then 1 else 0)) ≤ vec_capacity back },
    ghost unopened: { opened ≡ false → (out ≡ false) × (back.items ≡ []) },
}

impl MemoryDoors {
    ghost use Rattle.rw_io.specs.MemoryDoors.{doors_opened, doors_out, doors_coming, doors_back, doors_schedule, doors_calls, doors_fails, doors_faults};

    /// Doors at which these peers come, with room for a number of calls; those of the listed numbers, counted from 1,
    /// fail. There is room for all the peers to be given back.
    pub fn new(
        alloc: Global,
        peers: Vec<MemoryPeer>,
        calls: u32,
        fails: &[u32],
    ) -> Result<Self, MakeError>
        ensures opened { IfOk result (λ doors. doors_opened doors ≡ false) }
        ensures out { IfOk result (λ doors. doors_out doors ≡ false) }
        ensures coming { IfOk result (λ doors. doors_coming doors ≡ peers.items) }
        ensures back { IfOk result (λ doors. doors_back doors ≡ []) }
        ensures calls { IfOk result (λ doors. doors_calls doors ≡ calls) }
        ensures none_made { IfOk result (λ doors. (doors_schedule doors).made ≡ 0) }
        ensures fails { IfOk result (λ doors. doors_fails doors ≡ fails.now) }
        ensures faults { IfOk result (λ doors. doors_faults doors ≡ 0) }
    {
        let back = Vec::with_capacity(alloc, peers.len())?;
        let fails = fails.to_vec(alloc)?;
        Ok(MemoryDoors {
            coming: VecDeque::from(peers),
            back,
            opened: false,
            out: false,
            schedule: Schedule::new(calls, fails),
            faults: 0,
        })
    }

    /// The peers that were given back, in order.
    pub fn given_back(&self) -> &[MemoryPeer]
        ensures { result.now ≡ doors_back self.now }
    {
        &self.back
    }
}

impl Doors for MemoryDoors {
    ghost use Rattle.rw_io.specs.Memory.{Admits, Advances};
    ghost use Rattle.rw_io.specs.Peers.{told_of, served_of, IsFirst};
    ghost use Rattle.rw_io.specs.MemoryDoors.{doors_opened, doors_out, doors_coming, doors_back, doors_schedule, doors_calls, doors_fails, doors_faults};

    type P = MemoryPeer;

    ghost opened = { λ d. d.opened };

    ghost out = { λ d. d.out };

    ghost coming = { λ d. Some (map told_of d.coming.items) };

    ghost back = { λ d. Some (map served_of d.back.items) };

    ghost door_faults = { λ d. d.faults };

    ghost closed = { λ d is. ((d.unopened is).0, ap (map served_of) (d.unopened is).1) };

    fn open(&mut self, _port: u16) -> Result<(), Failed>
        requires { ⟦<MemoryDoors as Doors>⟧.opened self.old ≡ false }
        ensures opened { ⟦<MemoryDoors as Doors>⟧.opened self.new ≡ true ↔ IsOk result }
        ensures inside { ⟦<MemoryDoors as Doors>⟧.out self.new ≡ false }
        ensures coming { KeepsTold (⟦<MemoryDoors as Doors>⟧.coming self.old) (⟦<MemoryDoors as Doors>⟧.coming self.new) }
        ensures back { KeepsTold (⟦<MemoryDoors as Doors>⟧.back self.old) (⟦<MemoryDoors as Doors>⟧.back self.new) }
        ensures none_back { IfSome (⟦<MemoryDoors as Doors>⟧.back self.new) (λ served. served ≡ []) }
        ensures cause { HasCause (⟦<MemoryDoors as Doors>⟧.door_faults self.old) (⟦<MemoryDoors as Doors>⟧.door_faults self.new) result }
        // With an empty list of failures it succeeds while there is room for calls.
        ensures succeeds { doors_fails self.old ≡ [] → 0 < doors_calls self.old → IsOk result }
        ensures calls { doors_calls self.new ≡ doors_calls self.old - 1 }
        ensures fails { doors_fails self.new ≡ doors_fails self.old }

        // It fails exactly where no room is left for a call or this call is to fail.
        ensures admitted { IsOk result ↔ Admits (doors_schedule self.old) }
        ensures counted { Advances (doors_schedule self.old) (doors_schedule self.new) }
        ensures faults { CountsFaults (doors_faults self.old) (doors_faults self.new) result }
        ensures peers { doors_coming self.new ≡ doors_coming self.old }
    {
        if !self.schedule.admits() {
            self.faults = self.faults.saturating_add(1);
            return Err(Failed);
        }
        self.opened = true;
        Ok(())
    }

    fn next(&mut self) -> Result<Option<MemoryPeer>, Failed>
        requires opened { ⟦<MemoryDoors as Doors>⟧.opened self.old ≡ true }
        requires inside { ⟦<MemoryDoors as Doors>⟧.out self.old ≡ false }
        ensures opened { ⟦<MemoryDoors as Doors>⟧.opened self.new ≡ true }
        ensures out { ⟦<MemoryDoors as Doors>⟧.out self.new ≡ true ↔ GivesPeer result }
        ensures coming { NextTakes (λ peer. told_peer (⟦<MemoryPeer as Source>⟧.left peer) (⟦<MemoryPeer as Sink>⟧.held peer))
            (⟦<MemoryDoors as Doors>⟧.coming self.old) (⟦<MemoryDoors as Doors>⟧.coming self.new) result }
        ensures fresh { IfOk result (λ given. IfSome given (λ peer. IfSome (⟦<MemoryPeer as Source>⟧.taken peer) (λ taken. taken ≡ []))) }
        ensures back { KeepsTold (⟦<MemoryDoors as Doors>⟧.back self.old) (⟦<MemoryDoors as Doors>⟧.back self.new) }
        ensures cause { HasCause (⟦<MemoryDoors as Doors>⟧.door_faults self.old) (⟦<MemoryDoors as Doors>⟧.door_faults self.new) result }
        // With an empty list of failures it succeeds while there is room for calls.
        ensures succeeds { doors_fails self.old ≡ [] → 0 < doors_calls self.old → IsOk result }
        ensures calls { doors_calls self.new ≡ doors_calls self.old - 1 }
        ensures fails { doors_fails self.new ≡ doors_fails self.old }

        // It fails exactly where no room is left for a call or this call is to fail.
        ensures admitted { IsOk result ↔ Admits (doors_schedule self.old) }
        ensures counted { Advances (doors_schedule self.old) (doors_schedule self.new) }
        ensures faults { CountsFaults (doors_faults self.old) (doors_faults self.new) result }

        // The peer is the first of those to come, with nothing taken from it.
        ensures first { IfOk result (λ given. IfSome given (IsFirst (doors_coming self.old) (doors_coming self.new))) }
        ensures peers { doors_back self.new ≡ doors_back self.old }
    {
        if !self.schedule.admits() {
            self.faults = self.faults.saturating_add(1);
            return Err(Failed);
        }
        let Some(mut peer) = self.coming.pop_front() else {
            return Ok(None);
        };
        peer.begin_anew();
        self.out = true;
        Ok(Some(peer))
    }

    fn done(&mut self, peer: MemoryPeer)
        requires { ⟦<MemoryDoors as Doors>⟧.out self.old ≡ true }
        ensures inside { ⟦<MemoryDoors as Doors>⟧.out self.new ≡ false }
        ensures opened { ⟦<MemoryDoors as Doors>⟧.opened self.new ≡ ⟦<MemoryDoors as Doors>⟧.opened self.old }
        ensures coming { KeepsTold (⟦<MemoryDoors as Doors>⟧.coming self.old) (⟦<MemoryDoors as Doors>⟧.coming self.new) }
        ensures back { AddsTold (⟦<MemoryDoors as Doors>⟧.back self.old) (⟦<MemoryDoors as Doors>⟧.back self.new)
            (served_peer (⟦<MemoryPeer as Source>⟧.taken peer) (⟦<MemoryPeer as Sink>⟧.held peer)) }
        ensures cause { ⟦<MemoryDoors as Doors>⟧.door_faults self.new ≡ ⟦<MemoryDoors as Doors>⟧.door_faults self.old }
        ensures peers { doors_back self.new ≡ doors_back self.old ++ peer ∷ [] }
        ensures others { doors_coming self.new ≡ doors_coming self.old }
        ensures schedule { doors_schedule self.new ≡ doors_schedule self.old }
    {
        self.out = false;
        if self.back.push(peer).is_err() {
            unreachable!()
        }
    }
}
