// Cutting what a peer sends into requests.
ghost use Rattle.std.specs.Prelude.{◌≡◌, ◌+◌, ◌<◌, ◌≤◌, ◌++◌, [], true, false, ℕ, List, Ok, length, take, drop, slice_range, vec_len, OnErr, IfOk, IfSome, IsErrOf, vec_capacity};
ghost use Rattle.std.specs.Io.KnownBytes.{IsAtEnd};
ghost use Rattle.rw_io.specs.Causes.{Rose};
ghost use Rattle.rw_http.specs.Ends.{IsShort};
ghost use Rattle.rw_http.specs.Fronts.{IsFront, IfShort};
ghost use Rattle.rw_http.specs.Readings.{ReadsAs, HasHead};
ghost use Rattle.rw_http.specs.Moves.{Moves, TakesMore};

use crate::HttpError;
use crate::ends::{Front, find_end};
use crate::head::{Head, Reading, read_head};
use rw_io::{Peer, read_from};
use rw_items::Items;
use std::alloc::{AllocError, Global};
use std::marker::Model;

/// The bytes of one read.
const READ_BYTES: usize = 4096;

/// A list of bytes.
pub type Bytes = Items<u8>;

/// A request: its method, its whole target and its body.
#[derive(Debug, Drop)]
pub struct HttpRequest {
    /// The method's name.
    pub method: Bytes,
    /// The whole target, as it came.
    pub target: Bytes,
    /// As many bytes as Content-Length says.
    pub body: Bytes,
}

/// What the next bytes of a peer give.
#[derive(Debug, Drop)]
pub enum Taken {
    /// A whole request.
    Request(HttpRequest),
    /// A head that is refused, or past its limits.
    BadHead,
    /// A head with a body that is too long.
    TooLong,
    /// The input ended between requests.
    Ended,
    /// The input ended inside a request.
    Cut,
}

/// The bytes that were taken from a peer and belong to no request so far.
#[derive(Drop)]
pub struct Intake {
    alloc: Global,
    held: Vec<u8>,
}

impl Model for Intake {
    ghost use Rattle.std.specs.Prelude.{ℕ, List};

    ghost Value = { List ℕ };

    ghost view = { λ intake. intake.held.items };
}

impl Intake {
    ghost use Rattle.rw_http.specs.Requests.{Gives, IsStarved, Takes, TakesOf};

    /// Holds no bytes.
    pub fn new(alloc: Global) -> Intake
        ensures { result ≡ [] }
    {
        Intake {
            alloc,
            held: Vec::new(alloc),
        }
    }

    // One read. No byte is the end of the input.
    fn take_some<P: Peer>(&mut self, peer: &mut P) -> Result<bool, HttpError>
        ensures takes { TakesMore (P.left peer.old) (P.left peer.new) (P.taken peer.old) (P.taken peer.new) self.old self.new }
        ensures some { result ≡ Ok true → length self.old < length self.new }
        ensures none { OnErr result (self.new ≡ self.old) }
        ensures ended { result ≡ Ok false → (self.new ≡ self.old) × IsAtEnd (P.left peer.new) }
        ensures fault { IsErrOf result HttpError.PeerFault → Rose (P.read_faults peer.old) (P.read_faults peer.new) }
        ensures no_fault { (IsErrOf result HttpError.PeerFault → ⊥) → P.read_faults peer.new ≡ P.read_faults peer.old }
        ensures later { P.read_faults peer.old ≤ P.read_faults peer.new }
        ensures held { P.held peer.new ≡ P.held peer.old }
        ensures write_faults { P.write_faults peer.new ≡ P.write_faults peer.old }
    {
        self.held.reserve(READ_BYTES)?;
        let mut buffer = [0; READ_BYTES];
        let count = read_from(peer, &mut buffer)?;
        match self.held.extend_from_slice(&buffer[..count]) {
            Ok(()) => Ok(count > 0),
            Err(_) => unreachable!(),
        }
    }

    // Takes bytes until they show the head's end or the limit, or until the input ends.
    fn fill_head<P: Peer>(&mut self, peer: &mut P) -> Result<Front, HttpError>
        ensures takes { TakesMore (P.left peer.old) (P.left peer.new) (P.taken peer.old) (P.taken peer.new) self.old self.new }
        ensures front { IfOk result (IsFront self.new) }
        ensures ended { IfOk result (λ front. IfShort front (IsAtEnd (P.left peer.new))) }
        ensures short { OnErr result (IsShort self.new) }
        ensures fault { IsErrOf result HttpError.PeerFault → Rose (P.read_faults peer.old) (P.read_faults peer.new) }
        ensures no_fault { (IsErrOf result HttpError.PeerFault → ⊥) → P.read_faults peer.new ≡ P.read_faults peer.old }
        ensures later { P.read_faults peer.old ≤ P.read_faults peer.new }
        ensures held { P.held peer.new ≡ P.held peer.old }
        ensures write_faults { P.write_faults peer.new ≡ P.write_faults peer.old }
    {
        'fills: loop {
            let front = find_end(&self.held);
            if let Front::Short = front {
                if !self.take_some(peer)? {
                    return Ok(front);
                }
            } else {
                return Ok(front);
            }
        }
    }

    // Takes bytes until so many are held, or until the input ends.
    fn fill_to<P: Peer>(&mut self, peer: &mut P, total: usize) -> Result<bool, HttpError>
        ensures takes { TakesMore (P.left peer.old) (P.left peer.new) (P.taken peer.old) (P.taken peer.new) self.old self.new }
        ensures enough { result ≡ Ok true → total ≤ length self.new }
        ensures ended { result ≡ Ok false → (length self.new < total) × IsAtEnd (P.left peer.new) }
        ensures short { OnErr result (length self.new < total) }
        ensures fault { IsErrOf result HttpError.PeerFault → Rose (P.read_faults peer.old) (P.read_faults peer.new) }
        ensures no_fault { (IsErrOf result HttpError.PeerFault → ⊥) → P.read_faults peer.new ≡ P.read_faults peer.old }
        ensures later { P.read_faults peer.old ≤ P.read_faults peer.new }
        ensures held { P.held peer.new ≡ P.held peer.old }
        ensures write_faults { P.write_faults peer.new ≡ P.write_faults peer.old }
    {
        'fills: while self.held.len() < total {
            if !self.take_some(peer)? {
                return Ok(false);
            }
        }
        Ok(true)
    }

    // Cuts the request off whose head this is.
    fn cut_off(&mut self, head: Head) -> Result<HttpRequest, AllocError>
        requires { head.size + head.body ≤ length self.old }
        ensures method { IfOk result (λ request. request.method ≡ head.method) }
        ensures target { IfOk result (λ request. request.target ≡ head.target) }
        ensures body { IfOk result (λ request. request.body ≡ take head.body (drop head.size self.old)) }
        ensures rest { IfOk result (λ request. self.new ≡ drop head.body (drop head.size self.old)) }
        ensures kept { OnErr result (self.new ≡ self.old) }
    {
        let Head {
            method,
            target,
            size,
            body,
        } = head;
        let (copied, rest) = copy_parts(self.alloc, &self.held[size..], body)?;
        self.held = rest;
        Ok(HttpRequest {
            method,
            target,
            body: copied,
        })
    }

    // What the input that ended gives.
    fn at_end(&self) -> Taken
        requires { IsShort self.now }
        ensures { Gives self.now result self.now }
    {
        if self.held.is_empty() {
            Taken::Ended
        } else {
            Taken::Cut
        }
    }

    // The request whose head this is.
    fn take_body<P: Peer>(&mut self, peer: &mut P, head: Head) -> Result<Taken, HttpError>
        requires { HasHead self.old head }
        ensures takes { IfOk result (Takes (P.left peer.old) (P.left peer.new) (P.taken peer.old) (P.taken peer.new) self.old self.new) }
        ensures kept { OnErr result (TakesMore (P.left peer.old) (P.left peer.new) (P.taken peer.old) (P.taken peer.new) self.old self.new) }
        ensures fault { IsErrOf result HttpError.PeerFault → Rose (P.read_faults peer.old) (P.read_faults peer.new) }
        ensures no_fault { (IsErrOf result HttpError.PeerFault → ⊥) → P.read_faults peer.new ≡ P.read_faults peer.old }
        ensures starved { IsErrOf result HttpError.PeerFault → IsStarved self.new }
        ensures later { P.read_faults peer.old ≤ P.read_faults peer.new }
        ensures held { P.held peer.new ≡ P.held peer.old }
        ensures write_faults { P.write_faults peer.new ≡ P.write_faults peer.old }
    {
        let total = head.size + head.body;
        let enough = self.fill_to(peer, total)?;
        if !enough {
            return Ok(Taken::Cut);
        }
        Ok(Taken::Request(self.cut_off(head)?))
    }

    fn take_next<P: Peer>(&mut self, peer: &mut P) -> Result<Taken, HttpError>
        ensures takes { IfOk result (Takes (P.left peer.old) (P.left peer.new) (P.taken peer.old) (P.taken peer.new) self.old self.new) }
        ensures kept { OnErr result (TakesMore (P.left peer.old) (P.left peer.new) (P.taken peer.old) (P.taken peer.new) self.old self.new) }
        ensures fault { IsErrOf result HttpError.PeerFault → Rose (P.read_faults peer.old) (P.read_faults peer.new) }
        ensures no_fault { (IsErrOf result HttpError.PeerFault → ⊥) → P.read_faults peer.new ≡ P.read_faults peer.old }
        ensures starved { IsErrOf result HttpError.PeerFault → IsStarved self.new }
        ensures later { P.read_faults peer.old ≤ P.read_faults peer.new }
        ensures held { P.held peer.new ≡ P.held peer.old }
        ensures write_faults { P.write_faults peer.new ≡ P.write_faults peer.old }
    {
        let end = match self.fill_head(peer)? {
            Front::Ends(end) => end,
            Front::Past => return Ok(Taken::BadHead),
            Front::Short => return Ok(self.at_end()),
        };
        match read_head(self.alloc, &self.held[..end])? {
            Reading::Refused => Ok(Taken::BadHead),
            Reading::LongBody => Ok(Taken::TooLong),
            Reading::Accepted(head) => self.take_body(peer, head),
        }
    }

    /// The next request of the bytes that are held and of those that it takes from the peer. Behind a request what is
    /// left of them is held; after every other answer all of them are.
    pub fn next<P: Peer>(&mut self, peer: &mut P) -> Result<Taken, HttpError>
        ensures takes { IfOk result (Takes (P.left peer.old) (P.left peer.new) (P.taken peer.old) (P.taken peer.new) self.old self.new) }
        // However the peer's bytes are cut, the answer is that of all of them.
        ensures whole { IfOk result (TakesOf (P.left peer.old) (P.left peer.new) self.old self.new) }
        ensures kept { OnErr result (TakesMore (P.left peer.old) (P.left peer.new) (P.taken peer.old) (P.taken peer.new) self.old self.new) }
        ensures fault { IsErrOf result HttpError.PeerFault → Rose (P.read_faults peer.old) (P.read_faults peer.new) }
        ensures no_fault { (IsErrOf result HttpError.PeerFault → ⊥) → P.read_faults peer.new ≡ P.read_faults peer.old }
        ensures starved { IsErrOf result HttpError.PeerFault → IsStarved self.new }
        ensures later { P.read_faults peer.old ≤ P.read_faults peer.new }
        ensures held { P.held peer.new ≡ P.held peer.old }
        ensures write_faults { P.write_faults peer.new ≡ P.write_faults peer.old }
    {
        self.take_next(peer)
    }
}

// A body of so many bytes, and what stands behind it.
fn copy_parts(alloc: Global, bytes: &[u8], size: usize) -> Result<(Bytes, Vec<u8>), AllocError>
    requires { size ≤ length bytes.now }
    ensures body { IfOk result (λ parts. parts.0 ≡ take size bytes.now) }
    ensures rest { IfOk result (λ parts. parts.1.items ≡ drop size bytes.now) }
{
    let (body, rest) = bytes.split_at(size);
    Ok((
        Items::from_slice(alloc, body)?,
        Vec::from_slice(alloc, rest)?,
    ))
}
