// Each public call once, and a source that fails in between.
use super::*;
use std::io;
use std::io::{ErrorKind, Read};
use std::test::Fail;

#[test]
fn gives_its_bytes_until_the_end(rt: HostRuntime) -> Result<(), Fail> {
    let mut source = MemorySource::new(rt.alloc(), b"abc", 4, &[2])?;
    let mut into = [0; 2];
    for (answer, bytes) in [
        (Ok(2), b"ab"),
        (Err(Failed), b"ab"),
        (Ok(1), b"cb"),
        (Ok(0), b"cb"),
        (Err(Failed), b"cb"),
    ] {
        assert_eq!(rt; source.read(&mut into), answer);
        assert_eq!(rt; into.as_slice(), bytes.as_slice());
    }
    Ok(())
}

#[test]
fn holds_what_fits(rt: HostRuntime) -> Result<(), Fail> {
    let mut sink = MemorySink::new(rt.alloc(), 5, 9, &[2])?;
    for (bytes, answer) in [
        ("abc", Ok(3)),
        ("de", Err(Failed)),
        ("def", Ok(2)),
        ("f", Err(Failed)),
    ] {
        assert_eq!(rt; sink.write(bytes.as_bytes()), answer, "at {bytes}");
    }
    assert_eq!(rt; sink.written(), b"abcde".as_slice());
    Ok(())
}

#[test]
fn counts_the_calls_of_a_peer_together(rt: HostRuntime) -> Result<(), Fail> {
    let mut peer = MemoryPeer::new(rt.alloc(), b"ab", 9, 3, &[2])?;
    let mut into = [0; 1];
    assert_eq!(rt; read_from(&mut peer, &mut into), Ok(1));
    assert_eq!(rt; write_to(&mut peer, b"x"), Err(Failed));
    assert_eq!(rt; write_to(&mut peer, b"xy"), Ok(2));
    assert_eq!(rt; read_from(&mut peer, &mut into), Err(Failed));
    assert_eq!(rt; peer.written(), b"xy".as_slice());
    Ok(())
}

// Gives an error, then a byte, then the end.
#[derive(Drop)]
struct Faulty {
    turn: u8,
}

impl Read for Faulty {
    fn read(&mut self, into: &mut [u8]) -> io::Result<usize> {
        self.turn = self.turn.saturating_add(1);
        match (self.turn, into.first_mut()) {
            (1, _) => Err(ErrorKind::Other.into()),
            (2, Some(byte)) => {
                *byte = b'a';
                Ok(1)
            }
            _ => Ok(0),
        }
    }
}

#[test]
fn hands_on_readers_and_writers(rt: HostRuntime) -> Result<(), Fail> {
    let mut source = Reading::new(Faulty { turn: 0 });
    let mut into = [0; 4];
    assert_eq!(rt; source.read(&mut into), Err(Failed));
    assert_eq!(rt; source.read(&mut into), Ok(1));
    assert_eq!(rt; source.read(&mut into), Ok(0));
    let mut sink = Writing::new(Vec::new(rt.alloc()));
    assert_eq!(rt; sink.write(b"ab"), Ok(2));
    Ok(())
}

#[test]
fn nothing_is_there(rt: HostRuntime) -> Result<(), Fail> {
    let mut disk = NoDisk::new();
    assert_eq!(rt; disk.attach("journal"), Err(Failed));
    assert_eq!(rt; disk.sync(), Err(Failed));
    let mut doors = NoDoors::new();
    assert_eq!(rt; doors.open(1), Err(Failed));
    assert!(rt; doors.next().is_err());
    Ok(())
}
