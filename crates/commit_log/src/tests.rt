//! A log of short frames on a disk in memory.
ghost use Rattle.std.specs.Prelude.{◌≡◌, slice_index_or};
ghost use Rattle.commit_log.specs.LogState.{body_of};

use crate::{AppendFault, BodyReader, FormatFault, Log, OpenFault, format};
use ali_base::NoMemory;
use crash_disk::{Disk, Kept, MemDisk};
use std::alloc::Global;
use std::test::Fail;

const HEAD: [u8; 7] = *b"LOGHEAD";

const ROOM: u64 = 64;

const RECORD: u64 = 4096;

/// Counts bodies that begin with the number of their frame.
#[derive(Drop)]
struct Counter {
    count: u32,
}

impl BodyReader for Counter {
    ghost use Rattle.std.specs.Prelude.{◌≡◌, ◌-◌, ◌^◌, nat_eq, slice_index_or, length};

    ghost is_body = { λ number bytes. nat_eq (slice_index_or bytes 0 0) number };

    ghost holds = { λ counter bodies. counter.count ≡ length bodies };

    ghost room = { λ counter. 2 ^ 32 - 1 - counter.count };

    ghost capacity = { λ counter. 2 ^ 32 - 1 };

    fn read(&mut self, number: u32, bytes: &[u8]) -> bool {
        self.count += 1;
        first_of(bytes) as u32 == number
    }
}

// The first byte, or 0 where there is none.
fn first_of(bytes: &[u8]) -> u8
    ensures { result ≡ slice_index_or bytes.now 0 0 }
{
    match bytes {
        [] => 0,
        [first, ..] => *first,
    }
}

// The body of a frame, and room for the commit byte behind it.
fn block(number: u8, mark: u8) -> [u8; 8]
    ensures { slice_index_or (body_of result) 0 0 ≡ number }
{
    [number, mark, mark, mark, mark, mark, mark, 0xEE]
}

// A disk with a log without frames, of whose calls one fails; 0 for none.
fn formatted(alloc: Global, failing: u64) -> Result<MemDisk, NoMemory> {
    let mut disk = MemDisk::new(alloc, ROOM, RECORD, vec![in alloc; failing]?)?;
    let mut first = *b"LOGHEAD\xEE";
    let _ = format::<MemDisk, Counter>(&mut disk, &mut first);
    Ok(disk)
}

// Opens a log of at most so many frames, through a buffer of two.
fn open(disk: MemDisk, limit: u32) -> Result<Log<MemDisk, Counter>, OpenFault> {
    if limit > 100 {
        return Err(OpenFault::Foreign);
    }
    let mut counter = Counter { count: 0 };
    match Log::open(disk, &HEAD, limit, &mut [0; 16], &mut counter) {
        Ok(log) => Ok(log),
        Err((_, fault)) => Err(fault),
    }
}

// Adds a frame of this mark, where bodies have 7 bytes and the log is usable.
fn add(log: &mut Log<MemDisk, Counter>, mark: u8) -> Option<Result<u32, AppendFault>> {
    if !log.usable() || log.body_len() != 7 || log.len() > 100 {
        return None;
    }
    let number = log.len() as u8 + 1;
    Some(log.append(&mut block(number, mark)))
}

// Cuts the log from a frame on, where it has that frame.
fn cut(log: &mut Log<MemDisk, Counter>, k: u32) -> bool {
    log.usable() && 1 <= k && k <= log.len() && log.cut_from(k).is_ok()
}

// The body of a frame, where the log has that frame.
fn body(log: &mut Log<MemDisk, Counter>, k: u32) -> Option<[u8; 7]> {
    let mut body = [0; 7];
    if !log.usable() || log.body_len() != 7 || k < 1 || k > log.len() {
        return None;
    }
    log.read(k, &mut body).ok()?;
    Some(body)
}

#[test]
fn a_log_keeps_its_frames(rt: HostRuntime) -> Result<(), Fail> {
    let alloc = rt.alloc();
    let mut log = open(formatted(alloc, 0)?, 3)
        .ok()
        .expect(&rt, "it is opened");
    assert_eq!(rt; add(&mut log, 1), Some(Ok(1)));
    assert_eq!(rt; add(&mut log, 2), Some(Ok(2)));
    assert_eq!(rt; add(&mut log, 3), Some(Ok(3)));
    assert_eq!(rt; add(&mut log, 4), Some(Err(AppendFault::Full(3))));
    assert!(rt; cut(&mut log, 2));
    assert_eq!(rt; log.len(), 1);
    assert_eq!(rt; add(&mut log, 5), Some(Ok(2)));
    assert_eq!(rt; body(&mut log, 2), Some([2, 5, 5, 5, 5, 5, 5]));
    assert!(rt; cut(&mut log, 2));
    let disk = log.close();
    let wanted =
        b"LOGHEAD\xA5\x01\x01\x01\x01\x01\x01\x01\x00\x02\x05\x05\x05\x05\x05\x05\x00\x03\x03\x03\x03\x03\x03\x03\x00";
    assert_eq!(rt; disk.bytes(), wanted.as_slice());
    Ok(())
}

// The frames that are left after a crash, where a call failed in an append behind one frame (calls
// 10 to 13) or in a cut of that frame (calls 14 and 15).
#[test]
fn a_crash_leaves_the_frames_before_or_after(rt: HostRuntime) -> Result<(), Fail> {
    let table = [
        (10, Kept::New, 1),
        (10, Kept::Fill(0xA5), 1),
        (11, Kept::Old, 1),
        (11, Kept::New, 1),
        (12, Kept::New, 1),
        (12, Kept::Fill(0xA5), 2),
        (13, Kept::Old, 1),
        (13, Kept::New, 2),
        (13, Kept::Fill(0), 1),
        (14, Kept::New, 2),
        (14, Kept::Fill(0), 1),
        (15, Kept::Old, 2),
        (15, Kept::New, 1),
        (15, Kept::Fill(0xA5), 2),
    ];
    let alloc = rt.alloc();
    for (call, kept, count) in table {
        let mut log = open(formatted(alloc, call)?, 3)
            .ok()
            .expect(&rt, "it is opened");
        assert_eq!(rt; add(&mut log, 1), Some(Ok(1)));
        let added = add(&mut log, 2);
        assert_eq!(rt; added == Some(Ok(2)), call > 13);
        assert_eq!(rt; cut(&mut log, 2), false);
        assert!(rt; !log.usable());
        let left = open(log.close().after_crash(kept)?, 3)
            .ok()
            .expect(&rt, "it is opened");
        assert_eq!(rt; left.len(), count, "{call}");
    }
    Ok(())
}

#[test]
fn an_opening_is_refused(rt: HostRuntime) -> Result<(), Fail> {
    let alloc = rt.alloc();
    let empty = MemDisk::new(alloc, ROOM, RECORD, Vec::new(alloc))?;
    assert_eq!(rt; open(empty, 3).err(), Some(OpenFault::Foreign));
    assert_eq!(rt;
        open(formatted(alloc, 4)?, 3).err(),
        Some(OpenFault::DiskFault)
    );
    let mut damaged = formatted(alloc, 0)?;
    damaged
        .write_at(7, b"\xA5\x02\x02\x02\x02\x02\x02\x02\x00")
        .ok()
        .expect(&rt, "it is written");
    assert_eq!(rt; open(damaged, 3).err(), Some(OpenFault::Damaged(1)));
    let mut log = open(formatted(alloc, 0)?, 3)
        .ok()
        .expect(&rt, "it is opened");
    assert_eq!(rt; add(&mut log, 1), Some(Ok(1)));
    assert_eq!(rt; add(&mut log, 2), Some(Ok(2)));
    assert_eq!(rt; open(log.close(), 1).err(), Some(OpenFault::Damaged(2)));
    let mut again = formatted(alloc, 0)?;
    let mut first = *b"LOGHEAD\xEE";
    let refused = format::<MemDisk, Counter>(&mut again, &mut first);
    assert_eq!(rt; refused, Err(FormatFault::NotEmpty(8)));
    Ok(())
}
