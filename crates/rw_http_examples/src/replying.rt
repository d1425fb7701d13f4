// Replies as bytes, and their way to a peer.
ghost use Rattle.std.specs.Prelude.{IsTrue};
ghost use Rattle.rw_http.specs.Replies.{is_desk_status};

use rw_http::{HttpError, reply_bytes, send};
use rw_io::MemoryPeer;
use std::alloc::Global;
use std::test::Fail;

const DONE: &[u8] = b"{\"author\":\"ann\",\"number\":1,\"reply\":[\"ok 1\"]}";

#[test]
fn a_reply_is_written(rt: HostRuntime) -> Result<(), Fail> {
    let bytes = reply_bytes(rt.alloc(), 200, false, DONE)?;
    let text =
        b"HTTP/1.1 200 OK\r\nContent-Type: application/json\r\nContent-Length: 44\r\n\r\n{\"author\":\"ann\",\"number\":1,\"reply\":[\"ok 1\"]}";
    assert_eq!(rt; bytes.as_slice(), text.as_slice());
    let bytes = reply_bytes(rt.alloc(), 200, true, b"a\n")?;
    let text = b"HTTP/1.1 200 OK\r\nContent-Type: text/plain\r\nContent-Length: 2\r\n\r\na\n";
    assert_eq!(rt; bytes.as_slice(), text.as_slice());
    Ok(())
}

fn is_line(alloc: Global, status: u16, line: &str) -> Result<bool, HttpError>
    requires { IsTrue (is_desk_status status) }
{
    let bytes = reply_bytes(alloc, status, false, b"")?;
    Ok(bytes.as_slice().starts_with(line.as_bytes()))
}

#[test]
fn each_status_has_its_phrase(rt: HostRuntime) -> Result<(), Fail> {
    let alloc = rt.alloc();
    assert!(rt; is_line(alloc, 200, "HTTP/1.1 200 OK\r\n")?);
    assert!(rt; is_line(alloc, 400, "HTTP/1.1 400 Bad Request\r\n")?);
    assert!(rt; is_line(alloc, 404, "HTTP/1.1 404 Not Found\r\n")?);
    assert!(rt; is_line(alloc, 405, "HTTP/1.1 405 Method Not Allowed\r\n")?);
    assert!(rt; is_line(alloc, 409, "HTTP/1.1 409 Conflict\r\n")?);
    assert!(rt; is_line(alloc, 413, "HTTP/1.1 413 Payload Too Large\r\n")?);
    assert!(rt; is_line(alloc, 422, "HTTP/1.1 422 Unprocessable Entity\r\n")?);
    assert!(rt; is_line(alloc, 423, "HTTP/1.1 423 Locked\r\n")?);
    Ok(())
}

#[test]
fn a_front_part_is_sent(rt: HostRuntime) -> Result<(), Fail> {
    // There is room for four bytes, and then for none.
    let mut peer = MemoryPeer::new(rt.alloc(), b"", 4, 9, &[])?;
    assert_eq!(rt; send(&mut peer, b"abcdef"), Err(HttpError::PeerFault));
    assert_eq!(rt; peer.written(), b"abcd".as_slice());
    let mut peer = MemoryPeer::new(rt.alloc(), b"", 9, 9, &[1])?;
    assert_eq!(rt; send(&mut peer, b"abcdef"), Err(HttpError::PeerFault));
    assert_eq!(rt; send(&mut peer, b"abcdef"), Ok(()));
    assert_eq!(rt; peer.written(), b"abcdef".as_slice());
    Ok(())
}
