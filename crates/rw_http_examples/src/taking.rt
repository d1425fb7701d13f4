// Requests, however their bytes are cut.
use crate::trickle::Trickle;
use rw_http::{HttpError, Intake, Taken};
use rw_io::MemoryPeer;
use std::alloc::Global;
use std::test::Fail;

pub(crate) const ROW: &[u8] =
    b"POST /authors/ann/requests/1 HTTP/1.1\r\nHost: x\r\nContent-Length: 11\r\n\r\nvar x : int";

/// Whether this is the request with these parts.
pub(crate) fn is_request(taken: &Taken, method: &[u8], target: &[u8], body: &[u8]) -> bool {
    match taken {
        Taken::Request(request) => {
            request.method.as_slice() == method
                && request.target.as_slice() == target
                && request.body.as_slice() == body
        }
        _ => false,
    }
}

fn is_row(taken: &Taken) -> bool {
    is_request(taken, b"POST", b"/authors/ann/requests/1", b"var x : int")
}

/// What an input of these bytes gives first.
pub(crate) fn first_of(alloc: Global, bytes: &[u8]) -> Result<Taken, Fail> {
    let mut peer = MemoryPeer::new(alloc, bytes, 0, 100, &[])?;
    let mut intake = Intake::new(alloc);
    Ok(intake.next(&mut peer)?)
}

// Takes the row from two peers, of which the first has so many bytes of it.
fn is_taken_in_two(alloc: Global, size: usize) -> Result<bool, Fail> {
    let (front, back) = ROW.split_at(size.min(ROW.len()));
    let mut intake = Intake::new(alloc);
    let cut = intake.next(&mut MemoryPeer::new(alloc, front, 0, 9, &[])?)?;
    let ended = matches!(cut, Taken::Ended);
    let is_end = if size == 0 {
        ended
    } else {
        matches!(cut, Taken::Cut)
    };
    let whole = intake.next(&mut MemoryPeer::new(alloc, back, 0, 9, &[])?)?;
    Ok(is_end && is_row(&whole))
}

#[test]
fn a_request_is_cut_at_every_byte(rt: HostRuntime) -> Result<(), Fail> {
    for size in 0..ROW.len() {
        assert!(rt; is_taken_in_two(rt.alloc(), size)?, "at {size}");
    }
    Ok(())
}

#[test]
fn one_byte_a_read(rt: HostRuntime) -> Result<(), Fail> {
    let mut bytes = Vec::from_slice(rt.alloc(), ROW)?;
    bytes.extend_from_slice(b"GET /derivation HTTP/1.1\r\n\r\n")?;
    let mut peer = Trickle::new(&bytes);
    let mut intake = Intake::new(rt.alloc());
    assert!(rt; is_row(&intake.next(&mut peer)?));
    assert!(rt; is_request(&intake.next(&mut peer)?, b"GET", b"/derivation", b""));
    assert!(rt; matches!(intake.next(&mut peer)?, Taken::Ended));
    Ok(())
}

#[test]
fn two_requests_in_one_read(rt: HostRuntime) -> Result<(), Fail> {
    let mut bytes = Vec::from_slice(rt.alloc(), ROW)?;
    bytes.extend_from_slice(b"GET /derivation HTTP/1.1\r\n\r\nGE")?;
    // There is room for one read, which takes all.
    let mut peer = MemoryPeer::new(rt.alloc(), &bytes, 0, 1, &[])?;
    let mut intake = Intake::new(rt.alloc());
    assert!(rt; is_row(&intake.next(&mut peer)?));
    assert!(rt; is_request(&intake.next(&mut peer)?, b"GET", b"/derivation", b""));
    assert!(rt; matches!(intake.next(&mut peer), Err(HttpError::PeerFault)));
    // What was held before the fault is held behind it.
    let mut rest = MemoryPeer::new(rt.alloc(), b"T /a HTTP/1.0\n\n", 0, 9, &[])?;
    assert!(rt; is_request(&intake.next(&mut rest)?, b"GET", b"/a", b""));
    Ok(())
}

#[test]
fn empty_lines_and_bare_line_feeds(rt: HostRuntime) -> Result<(), Fail> {
    let taken = first_of(
        rt.alloc(),
        b"\r\n\n\r\nPOST /a HTTP/1.1\ncOnTeNt-LENGTH:\t2 \n\nxyz",
    )?;
    assert!(rt; is_request(&taken, b"POST", b"/a", b"xy"), "{taken:?}");
    // Empty lines alone end no head.
    let taken = first_of(rt.alloc(), b"\r\n\r\n\n\n")?;
    assert!(rt; matches!(taken, Taken::Cut), "{taken:?}");
    Ok(())
}
