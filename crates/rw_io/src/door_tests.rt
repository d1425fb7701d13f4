// Doors in memory, and a real socket once.
ghost use Rattle.std.specs.Prelude.{◌≡◌, ◌<◌, true, false, length, is_some, IfOk, OnOk};
ghost use Rattle.rw_io.specs.MemoryDoors.{doors_opened, doors_out};

use super::*;
use std::alloc::{AllocError, Global};
use std::io::{ErrorKind, Read, Write};
use std::net::{Ipv4Addr, Net, OpenListener, SocketAddr, SocketAddrV4, TcpListener, TcpStream};
use std::process::Abort;
use std::test::Fail;

// Takes a peer that sends so many bytes, writes some to it and gives it back.
fn serve_one(
    rt: &(impl Abort + Print),
    doors: &mut MemoryDoors,
    count: usize,
    written: &[u8],
) -> Result<(), Fail>
    requires opened { doors_opened doors.old ≡ true }
    requires inside { doors_out doors.old ≡ false }
    requires some { 0 < length written.now }
    ensures opened { OnOk result (doors_opened doors.new ≡ true) }
    ensures inside { OnOk result (doors_out doors.new ≡ false) }
{
    let Ok(Some(mut peer)) = doors.next() else {
        return Err(Fail::new("no peer came"));
    };
    let mut into = [0; 4];
    assert_eq!(rt; read_from(&mut peer, &mut into), Ok(count));
    assert_eq!(rt; write_to(&mut peer, written), Ok(1));
    doors.done(peer);
    Ok(())
}

fn two_peers(alloc: Global) -> Result<Vec<MemoryPeer>, MakeError> {
    let one = MemoryPeer::new(alloc, b"ab", 1, 2, &[])?;
    let two = MemoryPeer::new(alloc, b"c", 1, 2, &[])?;
    match vec![in alloc; one, two] {
        Ok(peers) => Ok(peers),
        Err(e) => Err(AllocError::from(e).into()),
    }
}

#[test]
fn peers_come_in_order_and_are_given_back(rt: HostRuntime) -> Result<(), Fail> {
    // The second call of the doors fails, and there is room for five.
    let mut doors = MemoryDoors::new(rt.alloc(), two_peers(rt.alloc())?, 5, &[2])?;
    if doors.open(1).is_err() || doors.next().is_ok() {
        return Err(Fail::new("the second call alone fails"));
    }
    serve_one(&rt, &mut doors, 2, b"x")?;
    serve_one(&rt, &mut doors, 1, b"y")?;
    assert!(rt; matches!(doors.next(), Ok(None)));
    assert!(rt; matches!(doors.next(), Err(Failed)));
    let [one, two] = doors.given_back() else {
        return Err(Fail::new("two were given back"));
    };
    assert_eq!(rt; one.written(), b"x".as_slice());
    assert_eq!(rt; two.written(), b"y".as_slice());
    Ok(())
}

// Doors over a socket, opened at a port that was free, and their address.
fn listening<R: Net>(net: &R) -> Result<(Listening<&R>, SocketAddr), Fail>
    ensures opened { IfOk result (λ made. is_some made.0.listener ≡ true) }
    ensures inside { IfOk result (λ made. made.0.out ≡ false) }
{
    let any = SocketAddr::V4(SocketAddrV4::new(Ipv4Addr::LOCALHOST, 0));
    // Another process may take a port before the doors open.
    for _try in 0..9 {
        let address = TcpListener::bind(net, any)?.local_addr()?;
        let mut doors = Listening::new(net);
        if doors.open(address.port()).is_ok() {
            return Ok((doors, address));
        }
    }
    Err(Fail::new("not opened"))
}

// Whether nobody listens at this port of 127.0.0.2.
fn is_closed(net: &impl Net, port: u16) -> bool {
    let other = SocketAddr::V4(SocketAddrV4::new(Ipv4Addr::new(127, 0, 0, 2), port));
    match TcpStream::connect(net, other) {
        Ok(_) => false,
        Err(e) => e.kind() == ErrorKind::ConnectionRefused,
    }
}

#[test]
fn a_socket_listens(rt: HostRuntime) -> Result<(), Fail> {
    let (mut doors, address) = listening(&rt)?;
    assert!(rt; is_closed(&rt, address.port()));
    let mut client = TcpStream::connect(&rt, address)?;
    assert_eq!(rt; client.write(b"ab")?, 2);
    let Ok(Some(mut peer)) = doors.next() else {
        return Err(Fail::new("no peer came"));
    };
    let mut into = [0; 4];
    assert_eq!(rt; read_from(&mut peer, &mut into), Ok(2));
    assert_eq!(rt; &into[..2], b"ab".as_slice());
    assert_eq!(rt; write_to(&mut peer, b"xyz"), Ok(3));
    doors.done(peer);
    // The connection ends where the peer is given back.
    assert_eq!(rt; client.read(&mut into)?, 3);
    assert_eq!(rt; client.read(&mut into)?, 0);
    assert_eq!(rt; &into[..3], b"xyz".as_slice());
    Ok(())
}
