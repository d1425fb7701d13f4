// A disk in memory with a call that fails, and a file as a disk.
use super::*;
use rw_io::{Disk, Failed};
use std::fs;
use std::test::Fail;

#[test]
fn a_disk_holds_what_was_written(rt: HostRuntime) -> Result<(), Fail> {
    let mut disk = MemoryDisk::new(rt.alloc(), b"abc", 6, 8, &[4])?;
    assert_eq!(rt; disk.attach("journal"), Ok(()));
    assert_eq!(rt; disk.write_at(1, b"xy"), Ok(()));
    assert_eq!(rt; disk.write_at(5, b"z"), Ok(()));
    assert_eq!(rt; disk.contents(), b"axy\0\0z".as_slice());
    assert_eq!(rt; disk.sync(), Err(Failed));
    assert_eq!(rt; disk.cut(2), Ok(()));
    assert_eq!(rt; disk.write_at(0, b"qqq"), Err(Failed));
    assert_eq!(rt; disk.len(), Ok(2));
    let mut into = [0; 1];
    assert_eq!(rt; disk.read_at(1, &mut into), Ok(()));
    assert_eq!(rt; into, *b"x");
    assert_eq!(rt; disk.sync(), Err(Failed));
    Ok(())
}

#[test]
fn a_file_is_a_disk(rt: HostRuntime) -> Result<(), Fail> {
    let mut disk = FileDisk::new(&rt);
    assert_eq!(rt; disk.attach("rw_disk_test"), Ok(()));
    assert_eq!(rt; disk.cut(0), Ok(()));
    assert_eq!(rt; disk.write_at(0, b"abcd"), Ok(()));
    assert_eq!(rt; disk.cut(3), Ok(()));
    assert_eq!(rt; disk.sync(), Ok(()));
    assert_eq!(rt; disk.len(), Ok(3));
    let mut into = [0; 2];
    assert_eq!(rt; disk.read_at(1, &mut into), Ok(()));
    assert_eq!(rt; into, *b"bc");
    assert_eq!(rt; disk.read_at(2, &mut into), Err(Failed));
    fs::remove_file(&rt, "rw_disk_test")?;
    Ok(())
}
