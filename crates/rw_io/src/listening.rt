// A listening socket on 127.0.0.1, and the connections that it takes. The trusted edge: nothing is told.
ghost use Rattle.std.specs.Prelude.{◌≡◌, ◌↔◌, ◌+◌, Bool, true, false, [], None, IsOk, IfOk, IfSome, IsSome, is_some, refl};
ghost use Rattle.rw_io.specs.Causes.{HasCause};
ghost use Rattle.rw_io.specs.Told.{KeepsTold, GivesPeer, NextTakes, told_peer};

use crate::{Doors, Failed, Peer, Sink, Source};
use std::io::{Read, Write};
use std::net::{Ipv4Addr, Net, OpenListener, SocketAddr, SocketAddrV4};

/// A connection: a stream of std, with counts of its faults. A write that takes no byte is a fault, as is an error.
#[derive(Drop)]
pub struct Connection<S: Read + Write> {
    stream: S,
    read_faults: u64,
    write_faults: u64,
}

impl<S: Read + Write> Connection<S> {
    /// A peer over a stream, with no fault so far.
    pub fn new(stream: S) -> Self
        ensures read_faults { result.read_faults ≡ 0 }
        ensures write_faults { result.write_faults ≡ 0 }
    {
        Connection {
            stream,
            read_faults: 0,
            write_faults: 0,
        }
    }
}

impl<S: Read + Write> Source for Connection<S> {
    ghost left = { λ s. None };

    ghost taken = { λ s. None };

    ghost read_faults = { λ s. s.read_faults };

    ghost read_keeps = { λ s. (None, s.write_faults) };

    fn read(&mut self, into: &mut [u8]) -> Result<usize, Failed> {
        match self.stream.read(into) {
            Ok(count) => Ok(count),
            Err(_) => {
                self.read_faults = self.read_faults.saturating_add(1);
                Err(Failed)
            }
        }
    }
}

impl<S: Read + Write> Sink for Connection<S> {
    ghost held = { λ s. None };

    ghost write_faults = { λ s. s.write_faults };

    ghost write_keeps = { λ s. ((None, None), s.read_faults) };

    fn write(&mut self, bytes: &[u8]) -> Result<usize, Failed> {
        match self.stream.write(bytes) {
            Ok(count) if count > 0 => Ok(count),
            _ => {
                self.write_faults = self.write_faults.saturating_add(1);
                Err(Failed)
            }
        }
    }
}

impl<S: Read + Write> Peer for Connection<S> {
    ghost peer_faults = { λ peer. peer.read_faults + peer.write_faults };

    ghost counts_both = { λ peer. refl };

    ghost read_keeps_sink = { λ peer. refl };

    ghost write_keeps_source = { λ peer. refl };
}

/// Doors over a socket that listens on 127.0.0.1. A peer that is given back is dropped, which ends its connection.
#[derive(Drop)]
pub struct Listening<R: Net> {
    net: R,
    listener: Option<R::Listener>,
    out: bool,
    faults: u64,
    ghost unopened: { is_some listener ≡ false → out ≡ false },
}

impl<R: Net> Listening<R> {
    /// Doors that are not open yet, with no fault so far.
    pub fn new(net: R) -> Self
        ensures opened { is_some result.listener ≡ false }
        ensures out { result.out ≡ false }
        ensures faults { result.faults ≡ 0 }
    {
        Listening {
            net,
            listener: None,
            out: false,
            faults: 0,
        }
    }
}

impl<R: Net> Doors for Listening<R> {
    type P = Connection<R::Stream>;

    ghost opened = { λ d. is_some d.listener };

    ghost out = { λ d. d.out };

    ghost coming = { λ d. None };

    ghost back = { λ d. None };

    ghost door_faults = { λ d. d.faults };

    ghost closed = { λ d is. (d.unopened is, tt) };

    fn open(&mut self, port: u16) -> Result<(), Failed> {
        let address = SocketAddr::V4(SocketAddrV4::new(Ipv4Addr::LOCALHOST, port));
        match self.net.bind(address) {
            Ok(listener) => {
                self.listener = Some(listener);
                Ok(())
            }
            Err(_) => {
                self.faults = self.faults.saturating_add(1);
                Err(Failed)
            }
        }
    }

    fn next(&mut self) -> Result<Option<Connection<R::Stream>>, Failed>
        requires opened { ⟦<Listening<R> as Doors>⟧.opened self.old ≡ true }
        requires inside { ⟦<Listening<R> as Doors>⟧.out self.old ≡ false }
        ensures opened { ⟦<Listening<R> as Doors>⟧.opened self.new ≡ true }
        ensures out { ⟦<Listening<R> as Doors>⟧.out self.new ≡ true ↔ GivesPeer result }
        ensures coming { NextTakes (λ peer. told_peer (⟦<Connection<R::Stream> as Source>⟧.left peer) (⟦<Connection<R::Stream> as Sink>⟧.held peer))
            (⟦<Listening<R> as Doors>⟧.coming self.old) (⟦<Listening<R> as Doors>⟧.coming self.new) result }
        ensures fresh { IfOk result (λ given. IfSome given (λ peer. IfSome (⟦<Connection<R::Stream> as Source>⟧.taken peer) (λ taken. taken ≡ []))) }
        ensures back { KeepsTold (⟦<Listening<R> as Doors>⟧.back self.old) (⟦<Listening<R> as Doors>⟧.back self.new) }
        ensures cause { HasCause (⟦<Listening<R> as Doors>⟧.door_faults self.old) (⟦<Listening<R> as Doors>⟧.door_faults self.new) result }
        // Some peer always comes.
        ensures never_none { IfOk result IsSome }
    {
        let Some(listener) = &self.listener else {
            unreachable!()
        };
        match listener.accept() {
            Ok((stream, _)) => {
                self.out = true;
                Ok(Some(Connection::new(stream)))
            }
            Err(_) => {
                self.faults = self.faults.saturating_add(1);
                Err(Failed)
            }
        }
    }

    fn done(&mut self, _peer: Connection<R::Stream>) {
        self.out = false;
    }
}
