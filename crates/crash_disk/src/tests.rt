use super::*;
use std::alloc::Global;
use std::env::temp_dir;
use std::fs::File;
use std::test::Fail;
use std::{fs, process};

// An empty disk of 8 bytes, with ample room for its record, of which these calls fail.
fn disk_of_8(alloc: Global, failing: &[u64]) -> Result<MemDisk, Fail> {
    let mut named = Vec::new(alloc);
    named.extend_from_slice(failing)?;
    Ok(MemDisk::new(alloc, 8, 1_000, named)?)
}

// How many bytes a write and a sync leave, through the trait alone.
fn length_after<D: Disk>(disk: &mut D, at: u64, bytes: &[u8]) -> Result<u64, Failed> {
    disk.write_at(at, bytes)?;
    disk.sync()?;
    disk.len()
}

// A write past the end leaves zeros before it; a read gives as many bytes as there are.
#[test]
fn memory_disk_reads_what_was_written(rt: HostRuntime) -> Result<(), Fail> {
    let mut disk = disk_of_8(rt.alloc(), &[])?;
    assert_eq!(rt; length_after(&mut disk, 0, b"ABC"), Ok(3));
    assert_eq!(rt; length_after(&mut disk, 5, b"Z"), Ok(6));
    assert_eq!(rt; length_after(&mut disk, 1, b"b"), Ok(6));
    assert_eq!(rt; disk.bytes(), b"AbC\0\0Z".as_slice());
    let mut buf = [b'.'; 4];
    assert_eq!(rt; disk.read_at(1, &mut buf), Ok(4));
    assert_eq!(rt; buf.as_slice(), b"bC\0\0".as_slice());
    assert_eq!(rt; disk.read_at(5, &mut buf), Ok(1));
    assert_eq!(rt; buf[0], b'Z');
    assert_eq!(rt; disk.read_at(6, &mut buf), Ok(0));
    assert_eq!(rt; disk.faults(), 0);
    Ok(())
}

// Named calls fail, and a write past the capacity; neither changes what a read gives.
#[test]
fn memory_disk_fails_the_calls_that_are_named(rt: HostRuntime) -> Result<(), Fail> {
    let mut disk = disk_of_8(rt.alloc(), &[2, 4])?;
    assert_eq!(rt; disk.write_at(0, b"ABC"), Ok(()));
    assert_eq!(rt; disk.write_at(0, b"D"), Err(Failed));
    assert_eq!(rt; disk.len(), Ok(3));
    assert_eq!(rt; disk.sync(), Err(Failed));
    assert_eq!(rt; disk.write_at(7, b"EF"), Err(Failed));
    assert_eq!(rt; disk.write_at(u64::MAX, b"G"), Err(Failed));
    assert_eq!(rt; disk.write_at(7, b"H"), Ok(()));
    assert_eq!(rt; disk.bytes(), b"ABC\0\0\0\0H".as_slice());
    assert_eq!(rt; disk.calls(), 7);
    assert_eq!(rt; disk.faults(), 4);
    Ok(())
}

// A call costs 32 bytes of the record's room and those of its piece, also where it fails.
#[test]
fn memory_disk_fails_where_the_record_is_full(rt: HostRuntime) -> Result<(), Fail> {
    let mut failing = Vec::new(rt.alloc());
    failing.push(2)?;
    let mut disk = MemDisk::new(rt.alloc(), 8, 32 + 32 + 34, failing)?;
    assert_eq!(rt; disk.len(), Ok(0));
    assert_eq!(rt; disk.len(), Err(Failed));
    assert_eq!(rt; disk.write_at(0, b"ABC"), Err(Failed));
    assert_eq!(rt; disk.write_at(0, b"AB"), Ok(()));
    assert_eq!(rt; disk.len(), Err(Failed));
    assert_eq!(rt; disk.bytes(), b"AB".as_slice());
    Ok(())
}

// What was synced stays; a write that failed counts as one. Each disk is new but for its bytes.
#[test]
fn crashes_leave_old_new_or_filled_bytes(rt: HostRuntime) -> Result<(), Fail> {
    let mut disk = disk_of_8(rt.alloc(), &[8])?;
    assert_eq!(rt; length_after(&mut disk, 0, b"ABCD"), Ok(4));
    assert_eq!(rt; disk.write_at(1, b"bc"), Ok(()));
    assert_eq!(rt; disk.write_at(6, b"g"), Ok(()));
    let table = [
        (Kept::Old, b"ABCD".as_slice()),
        (Kept::New, b"AbcD\0\0g".as_slice()),
        (Kept::Fill(b'#'), b"A##D###".as_slice()),
    ];
    for (kept, bytes) in &table {
        assert_eq!(rt; disk.after_crash(*kept)?.bytes(), *bytes);
    }
    assert_eq!(rt; disk.sync(), Ok(()));
    for (kept, _) in &table {
        assert_eq!(rt; disk.after_crash(*kept)?.bytes(), b"AbcD\0\0g".as_slice());
    }
    assert_eq!(rt; disk.len(), Ok(7));
    assert_eq!(rt; disk.write_at(3, b"d"), Err(Failed));
    let mut after = disk.after_crash(Kept::Fill(b'#'))?;
    assert_eq!(rt; after.bytes(), b"Abc#\0\0g".as_slice());
    assert_eq!(rt; length_after(&mut after, 7, b"h"), Ok(8));
    Ok(())
}

// A fuse passes its calls, and then fails each call and leaves the disk as it is.
#[test]
fn fuse_stops_after_its_calls(rt: HostRuntime) -> Result<(), Fail> {
    let mut fuse = FuseDisk::new(disk_of_8(rt.alloc(), &[])?, 4);
    assert_eq!(rt; length_after(&mut fuse, 0, b"AB"), Ok(2));
    assert_eq!(rt; length_after(&mut fuse, 2, b"C"), Err(Failed));
    assert_eq!(rt; fuse.write_at(3, b"D"), Err(Failed));
    let disk = fuse.inner();
    assert_eq!(rt; disk.bytes(), b"ABC".as_slice());
    assert_eq!(rt; disk.calls(), 4);
    assert_eq!(rt; disk.after_crash(Kept::Old)?.bytes(), b"AB".as_slice());
    Ok(())
}

// A file keeps what is written to it. While one disk has it, another over the same file fails.
#[test]
fn file_disk_reads_what_was_written(rt: HostRuntime) -> Result<(), Fail> {
    let name = format!(in rt.alloc(); "crash_disk_{}", process::id(rt.process()))?;
    let path = temp_dir(&rt)?.join(rt.alloc(), name.as_str())?;
    let mut missing = FileDisk::new(
        File::options()
            .read(true)
            .write(true)
            .open(&rt, path.as_path()),
    );
    assert_eq!(rt; missing.len(), Err(Failed));
    assert_eq!(rt; missing.sync(), Err(Failed));
    let created = File::options()
        .read(true)
        .write(true)
        .create_new(true)
        .open(&rt, path.as_path());
    let mut disk = FileDisk::new(created);
    assert_eq!(rt; length_after(&mut disk, 0, b"ABC"), Ok(3));
    let mut buf = [b'.'; 4];
    assert_eq!(rt; disk.read_at(1, &mut buf), Ok(2));
    assert_eq!(rt; buf.as_slice(), b"BC..".as_slice());
    let mut second = FileDisk::new(
        File::options()
            .read(true)
            .write(true)
            .open(&rt, path.as_path()),
    );
    assert_eq!(rt; second.read_at(0, &mut buf), Err(Failed));
    assert_eq!(rt; second.write_at(0, b"D"), Err(Failed));
    fs::remove_file(&rt, path.as_path())?;
    Ok(())
}
