//! Programs as deep as the bound on the nest lets them be, and one deeper.

use rw_forms::request::ReadError;
use rw_program_reader::read_program;
use rw_programs::prog::Prog;
use std::alloc::Global;
use std::process::Abort;
use std::test::Fail;

// So many fronts, a middle, and so many ends.
fn nested(
    alloc: Global,
    times: usize,
    front: &[u8],
    middle: &[u8],
    end: &[u8],
) -> Result<Vec<u8>, Fail> {
    let mut text = Vec::new(alloc);
    for _ in 0..times {
        text.extend_from_slice(front)?;
    }
    text.extend_from_slice(middle)?;
    for _ in 0..times {
        text.extend_from_slice(end)?;
    }
    Ok(text)
}

// Whether a reading gives a program.
fn is_read(read: &Result<Prog, ReadError>) -> bool {
    match read {
        Ok(_) => true,
        Err(_) => false,
    }
}

// The offset that a reading tells.
fn offset(read: &Result<Prog, ReadError>) -> Option<u32> {
    match read {
        Ok(_) => None,
        Err(ReadError::Syntax(at)) => Some(*at),
        Err(ReadError::Memory) => None,
    }
}

// With 512 fronts it is read, and with one more there is a fault at this offset.
fn deepest(rt: &impl Abort, alloc: Global, front: &[u8], end: &[u8], at: u32) -> Result<(), Fail> {
    let within = nested(alloc, 512, front, b"skip", end)?;
    assert!(rt; within.len() <= 65536);
    assert!(rt; is_read(&read_program(alloc, within.as_slice())));
    let deeper = nested(alloc, 513, front, b"skip", end)?;
    assert!(rt; deeper.len() <= 65536);
    assert_eq!(rt; offset(&read_program(alloc, deeper.as_slice())), Some(at));
    Ok(())
}

#[test]
fn blocks_are_512_deep_at_most(rt: HostRuntime) -> Result<(), Fail> {
    deepest(&rt, rt.alloc(), b"|[ var x : int . ", b" ]|", 8704)
}

#[test]
fn sequences_are_512_deep_at_most(rt: HostRuntime) -> Result<(), Fail> {
    deepest(&rt, rt.alloc(), b"skip ; ", b"", 3589)
}

#[test]
fn parentheses_are_512_deep_at_most(rt: HostRuntime) -> Result<(), Fail> {
    deepest(&rt, rt.alloc(), b"(", b")", 512)
}

#[test]
fn alternations_are_512_deep_at_most(rt: HostRuntime) -> Result<(), Fail> {
    deepest(&rt, rt.alloc(), b"if true -> ", b" fi", 5632)
}
