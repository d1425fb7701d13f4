// Files by their bytes, a fault at each call of the disk, and what a crash may leave then.
use super::*;
use rw_disk::MemoryDisk;
use std::test::Fail;

// A journal of no records.
const EMPTY: &[u8] = b"RWJRNL1\n\x00";

// The journal of one record: author ann, number 1, request `var x : int`.
const ONE: &[u8] =
    b"RWJRNL1\n\x01\x00\x00\x00\x17\x03ann\x00\x00\x00\x00\x00\x00\x00\x01var x : int\x00";

// The same with a second record, of one byte.
const TWO: &[u8] =
    b"RWJRNL1\n\x01\x00\x00\x00\x17\x03ann\x00\x00\x00\x00\x00\x00\x00\x01var x : int\x01\x00\x00\x00\x01x\x00";

const PAYLOAD: &[u8] = b"\x03ann\x00\x00\x00\x00\x00\x00\x00\x01var x : int";

// How many records a file has, or where it is foreign.
fn look(rt: &HostRuntime, file: &[u8]) -> Result<Result<usize, u64>, Fail> {
    let mut disk = MemoryDisk::new(rt.alloc(), file, 0, 99, &[])?;
    match Journal::open(rt.alloc(), &mut disk) {
        Ok(journal) => Ok(Ok(journal.records().len())),
        Err(JournalError::Foreign(at)) => Ok(Err(at)),
        Err(error) => Err(error.into()),
    }
}

// ONE with another byte at a place.
fn changed(rt: &HostRuntime, at: usize, byte: u8) -> Result<Vec<u8>, Fail> {
    let mut file = Vec::from_slice(rt.alloc(), ONE)?;
    if at < file.len() {
        file[at] = byte;
    }
    Ok(file)
}

#[test]
fn reads_files(rt: HostRuntime) -> Result<(), Fail> {
    for (name, file, found) in [
        ("no bytes", b"".as_slice(), Ok(0)),
        ("nine bytes of anything", b"123456789", Ok(0)),
        ("an open gate as the last of nine", b"RWJRNL1\n\x01", Ok(0)),
        ("no records and a rest", b"RWJRNL1\n\x00\x01", Ok(0)),
        ("one record", ONE, Ok(1)),
        ("two records", TWO, Ok(2)),
        ("another header", b"RWJRNL2\n\x00\x00", Err(6)),
        ("a length cut short", b"RWJRNL1\n\x01\x00", Err(8)),
    ] {
        assert_eq!(rt; look(&rt, file)?, found, "at {name}");
    }
    let mut disk = MemoryDisk::new(rt.alloc(), TWO, 0, 99, &[])?;
    let journal = Journal::open(rt.alloc(), &mut disk)?;
    for (record, payload) in journal.records().iter().zip([PAYLOAD, b"x"]) {
        assert_eq!(rt; record.payload.as_slice(), payload);
    }
    Ok(())
}

#[test]
fn each_byte_changed_is_told_or_stands(rt: HostRuntime) -> Result<(), Fail> {
    for at in 0..37usize {
        let found = match at {
            0..=7 => Err(at as u64),
            // the gate is not open
            8 => Ok(0),
            // the next gate is past the end
            9..=11 => Err(8),
            // an open gate with nothing behind it
            36 => Err(36),
            // a payload of 22 bytes, or one with another byte
            _ => Ok(1),
        };
        let byte = ONE.get(at).copied().unwrap_or(0) ^ 1;
        assert_eq!(rt; look(&rt, &changed(&rt, at, byte)?)?, found, "at {at}");
    }
    assert_eq!(rt; look(&rt, &changed(&rt, 12, 24)?)?, Err(8));
    Ok(())
}

#[test]
fn only_01_is_an_open_gate(rt: HostRuntime) -> Result<(), Fail> {
    for gate in 0..=255u8 {
        let open = gate == 1;
        let first = look(&rt, &changed(&rt, 8, gate)?)?;
        assert_eq!(rt; first, Ok(if open { 1 } else { 0 }), "at {gate}");
        let last = look(&rt, &changed(&rt, 36, gate)?)?;
        assert_eq!(rt; last, if open { Err(36) } else { Ok(1) }, "at {gate}");
    }
    Ok(())
}

// Adds an open gate and a record of so many bytes.
fn add_record(file: &mut Vec<u8>, count: u32) -> Result<(), Fail> {
    file.push(1)?;
    file.extend_from_slice(&count.to_be_bytes())?;
    let len = file.len().saturating_add(count as usize);
    file.resize(len, b'x')?;
    Ok(())
}

#[test]
fn lengths_have_bounds(rt: HostRuntime) -> Result<(), Fail> {
    for (count, found) in [(0, Err(8)), (1, Ok(1)), (65_700, Ok(1)), (65_701, Err(8))] {
        let mut file = Vec::from_slice(rt.alloc(), b"RWJRNL1\n")?;
        add_record(&mut file, count)?;
        file.push(0)?;
        assert_eq!(rt; look(&rt, &file)?, found, "at {count}");
    }
    Ok(())
}

// The 1021 longest records end at 9 + 1021 * 65,705 = 67,084,814, and 24,050 more bytes reach the limit.
#[test]
fn a_full_journal_takes_no_byte(rt: HostRuntime) -> Result<(), Fail> {
    let mut file = Vec::from_slice(rt.alloc(), b"RWJRNL1\n")?;
    for _ in 0..1021 {
        add_record(&mut file, 65_700)?;
    }
    file.push(0)?;
    let mut disk = MemoryDisk::new(rt.alloc(), &file, 30_000, 4_000, &[])?;
    let mut journal = Journal::open(rt.alloc(), &mut disk)?;
    journal.prepare(&mut disk)?;
    assert!(rt; journal.fits(24_045));
    assert!(rt; !journal.fits(24_046));
    let mut last = Vec::new(rt.alloc());
    last.resize(24_045, b'y')?;
    journal.append(&mut disk, &last)?;
    assert_eq!(rt; disk.contents().len(), 67_108_864);
    assert!(rt; matches!(journal.append(&mut disk, b"z"), Err(JournalError::Full)));
    assert_eq!(rt; disk.contents().len(), 67_108_864);
    Ok(())
}

// Opens, makes ready and appends one record; at a fault it stops.
fn run(rt: &HostRuntime, disk: &mut MemoryDisk) -> Result<(), JournalError> {
    let mut journal = Journal::open(rt.alloc(), disk)?;
    journal.prepare(disk)?;
    journal.append(disk, PAYLOAD)
}

#[test]
fn appends_the_bytes(rt: HostRuntime) -> Result<(), Fail> {
    let mut disk = MemoryDisk::new(rt.alloc(), b"", 99, 99, &[])?;
    let mut journal = Journal::open(rt.alloc(), &mut disk)?;
    journal.prepare(&mut disk)?;
    assert_eq!(rt; disk.contents(), EMPTY);
    journal.append(&mut disk, PAYLOAD)?;
    assert_eq!(rt; disk.contents(), ONE);
    journal.append(&mut disk, b"x")?;
    assert_eq!(rt; disk.contents(), TWO);
    assert_eq!(rt; journal.records().len(), 0);
    Ok(())
}

#[test]
fn makes_short_files_ready(rt: HostRuntime) -> Result<(), Fail> {
    for (file, ready) in [
        (b"".as_slice(), EMPTY),
        (b"12", EMPTY),
        (b"123456789", EMPTY),
        (b"RWJRNL1\n\x01", EMPTY),
        (b"RWJRNL1\n\x00\x01", b"RWJRNL1\n\x00\x01"),
        (ONE, ONE),
    ] {
        let mut disk = MemoryDisk::new(rt.alloc(), file, 9, 99, &[])?;
        let mut journal = Journal::open(rt.alloc(), &mut disk)?;
        journal.prepare(&mut disk)?;
        assert_eq!(rt; disk.contents(), ready);
    }
    Ok(())
}

// Looks at a file whose front is sure, then as many bytes of a write as were kept, then others.
fn look_torn(
    rt: &HostRuntime,
    front: &[u8],
    kept: &[u8],
    others: usize,
    byte: u8,
) -> Result<Result<usize, u64>, Fail> {
    let mut file = Vec::from_slice(rt.alloc(), front)?;
    file.extend_from_slice(kept)?;
    let len = file.len().saturating_add(others);
    file.resize(len, byte)?;
    look(rt, &file)
}

// Whether each file that a torn write behind a front may leave, with these bytes for what was not kept, has no record.
fn all_are_empty(rt: &HostRuntime, front: &[u8], written: &[u8]) -> Result<bool, Fail> {
    for count in 0..=written.len() {
        let kept = written.get(..count).unwrap_or(&[]);
        for others in 0..=written.len().saturating_sub(count) {
            for byte in [0, 1, 23, 255] {
                if look_torn(rt, front, kept, others, byte)? != Ok(0) {
                    return Ok(false);
                }
            }
        }
    }
    Ok(true)
}

// Calls 1 and 2 are those of `open`, 3 to 7 those of `prepare`, 8 to 11 those of `append`.
#[test]
fn a_fault_at_each_call_leaves_no_record_or_one(rt: HostRuntime) -> Result<(), Fail> {
    for at in 1..=12u32 {
        let mut disk = MemoryDisk::new(rt.alloc(), b"", 99, 99, &[at])?;
        let ended = run(&rt, &mut disk);
        assert_eq!(rt; ended.is_ok(), at == 12, "at call {at}");
        // what a read gives
        let found = look(&rt, disk.contents())?;
        assert_eq!(rt; found, Ok(if at < 11 { 0 } else { 1 }), "at call {at}");
        // what a crash may leave
        match at {
            1..=4 => assert_eq!(rt; disk.contents(), b"".as_slice()),
            5..=7 => assert!(rt; all_are_empty(&rt, b"", EMPTY)?),
            8 | 9 => assert!(rt; all_are_empty(&rt, EMPTY, ONE.get(9..).unwrap_or(&[]))?),
            // the record and any gate, at which `only_01_is_an_open_gate` looks
            10 | 11 => assert_eq!(rt; disk.contents().get(9..), ONE.get(9..)),
            _ => assert_eq!(rt; disk.contents(), ONE),
        }
    }
    Ok(())
}
