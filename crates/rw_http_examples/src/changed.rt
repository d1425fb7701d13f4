// Heads made from a valid one by one changed byte, against a slow reader.
use crate::slow;
use crate::slow::Slow;
use rw_http::{Intake, Taken};
use rw_io::MemoryPeer;
use std::alloc::{AllocError, Global};
use std::test::Fail;

// A head of 40 bytes, and six behind it.
const VALID: &[u8; 46] = b"POST /ab HTTP/1.1\r\nContent-Length: 2\r\n\r\nvwxyz!";

// Makes a request of what is left of those six: its method.
const MORE: &[u8] = b" /r HTTP/1.1\n\n";

fn is_alike(taken: &Taken, slow: Slow<'_>) -> bool {
    match (taken, slow) {
        (Taken::Request(request), Slow::Request(parts)) => {
            request.method.as_slice() == parts.method
                && request.target.as_slice() == parts.target
                && request.body.as_slice() == parts.body
        }
        (Taken::BadHead, Slow::BadHead) => true,
        (Taken::TooLong, Slow::TooLong) => true,
        (Taken::Cut, Slow::Cut) => true,
        _ => false,
    }
}

// What is left of the bytes, and more behind.
fn left_and_more(alloc: Global, bytes: &[u8], slow: Slow<'_>) -> Result<Vec<u8>, AllocError> {
    let left = match slow {
        Slow::Request(parts) => parts.rest,
        _ => bytes,
    };
    let mut left = Vec::from_slice(alloc, left)?;
    left.extend_from_slice(MORE)?;
    Ok(left)
}

// What an intake takes from these bytes, if it is what the slow reader reads, and the same again of what is left then.
fn first_if_alike(alloc: Global, bytes: &[u8]) -> Result<Option<Taken>, Fail> {
    let slow = slow::read(bytes);
    let left = left_and_more(alloc, bytes, slow)?;
    let mut intake = Intake::new(alloc);
    let taken = intake.next(&mut MemoryPeer::new(alloc, bytes, 0, 9, &[])?)?;
    let second = intake.next(&mut MemoryPeer::new(alloc, MORE, 0, 9, &[])?)?;
    if is_alike(&taken, slow) && is_alike(&second, slow::read(&left)) {
        Ok(Some(taken))
    } else {
        Ok(None)
    }
}

// How many answers were of each kind.
#[derive(Clone, Copy, Debug, PartialEq)]
struct Counts {
    requests: u32,
    bad_heads: u32,
    cut: u32,
}

fn counted(counts: Counts, taken: &Taken) -> Counts {
    let mut counts = counts;
    match taken {
        Taken::Request(_) => counts.requests = counts.requests.saturating_add(1),
        Taken::BadHead => counts.bad_heads = counts.bad_heads.saturating_add(1),
        Taken::Cut => counts.cut = counts.cut.saturating_add(1),
        _ => {}
    }
    counts
}

// Reads the head with one byte moved by a step, both ways.
fn read_changed(
    alloc: Global,
    place: usize,
    step: u8,
    counts: Counts,
) -> Result<Option<Counts>, Fail> {
    let mut bytes = *VALID;
    if place < bytes.len() {
        bytes[place] = bytes[place].wrapping_add(step);
    }
    match first_if_alike(alloc, &bytes)? {
        Some(taken) => Ok(Some(counted(counts, &taken))),
        None => Ok(None),
    }
}

#[test]
fn ten_thousand_changed_heads(rt: HostRuntime) -> Result<(), Fail> {
    let mut counts = Counts {
        requests: 0,
        bad_heads: 0,
        cut: 0,
    };
    for place in 0..40 {
        for step in 1..251 {
            match read_changed(rt.alloc(), place, step, counts)? {
                Some(more) => counts = more,
                None => assert!(rt; false, "byte {place} moved by {step}"),
            }
        }
    }
    // Counted by another program.
    let wanted = Counts {
        requests: 1570,
        bad_heads: 7658,
        cut: 772,
    };
    assert_eq!(rt; counts, wanted);
    Ok(())
}
