//! Registers on disks in memory, some of which stop.

use crate::*;
use ali_base::{NoMemory, NodeName};
use crash_disk::{Disk, FuseDisk, Kept, MemDisk};
use std::alloc::Global;
use std::test::Fail;

// Room for seven blocks.
const ROOM: u64 = 224;

const RECORD: u64 = 4_096;

// What a crash may leave of bytes that were not synced.
const KEPT: [Kept; 4] = [Kept::Old, Kept::New, Kept::Fill(0), Kept::Fill(0xA5)];

const FIRST: Duty = Duty {
    epoch: 1,
    holder: NodeName::A,
    mode: Mode::Both,
    floor: 0,
};

// The duty behind it, where the holder goes on alone.
const ALONE: Duty = Duty {
    epoch: 2,
    holder: NodeName::A,
    mode: Mode::Alone,
    floor: 7,
};

// A change of duty.
#[derive(Clone, Copy)]
enum Change {
    Take(NodeName, u32),
    Alone(u32),
    Pair(u32),
}

// An empty disk, of whose calls one fails; 0 for none.
fn empty(alloc: Global, failing: u64) -> Result<MemDisk, NoMemory> {
    MemDisk::new(alloc, ROOM, RECORD, vec![in alloc; failing]?)
}

// A disk with the first duty alone, on which 3 calls were made.
fn formatted(alloc: Global, failing: u64) -> Result<MemDisk, NoMemory> {
    let mut disk = empty(alloc, failing)?;
    let _ = format_duty(&mut disk);
    Ok(disk)
}

// The register with all epochs there may be.
fn open<D: Disk + Drop>(disk: D) -> Result<Register<D>, RegisterFault> {
    match Register::open(disk, LAST_EPOCH) {
        Ok(register) => Ok(register),
        Err((_, fault)) => Err(fault),
    }
}

// The duty that a disk is found to have.
fn found(disk: MemDisk) -> Result<Duty, RegisterFault> {
    Ok(open(disk)?.duty())
}

// Changes the duty, where the register is usable.
fn changed<D: Disk + Drop>(
    register: &mut Register<D>,
    change: Change,
) -> Option<Result<Duty, DutyFault>> {
    if !register.usable() {
        return None;
    }
    Some(match change {
        Change::Take(node, floor) => register.take(node, floor),
        Change::Alone(floor) => register.alone(floor),
        Change::Pair(floor) => register.pair(floor),
    })
}

fn duty(epoch: u32, holder: NodeName, mode: Mode, floor: u32) -> Duty {
    Duty {
        epoch,
        holder,
        mode,
        floor,
    }
}

#[test]
fn a_register_keeps_its_duties(rt: HostRuntime) -> Result<(), Fail> {
    let mut register = open(formatted(rt.alloc(), 0)?)
        .ok()
        .expect(&rt, "it is opened");
    assert_eq!(rt; register.duty(), FIRST);
    let paired = DutyFault::Paired {
        epoch: 1,
        holder: NodeName::A,
    };
    assert_eq!(rt; changed(&mut register, Change::Pair(9)), Some(Err(paired)));
    let taken = duty(2, NodeName::B, Mode::Alone, 3);
    assert_eq!(rt;
        changed(&mut register, Change::Take(NodeName::B, 3)),
        Some(Ok(taken))
    );
    let not_paired = DutyFault::NotPaired {
        epoch: 2,
        holder: NodeName::B,
    };
    assert_eq!(rt;
        changed(&mut register, Change::Take(NodeName::A, 9)),
        Some(Err(not_paired))
    );
    assert_eq!(rt;
        changed(&mut register, Change::Alone(9)),
        Some(Err(not_paired))
    );
    let both = duty(3, NodeName::B, Mode::Both, 5);
    assert_eq!(rt; changed(&mut register, Change::Pair(5)), Some(Ok(both)));
    let alone = duty(4, NodeName::B, Mode::Alone, 256);
    assert_eq!(rt; changed(&mut register, Change::Alone(256)), Some(Ok(alone)));
    assert_eq!(rt; register.duty(), alone);
    let disk = register.close();
    let front = b"ALI OFFICE DUTY1\0\0\0\0\0\0\0\0\0\0\0\0\0\0\0\xA5\0\0\0\x02bA\0\0\0\x03";
    assert_eq!(rt; disk.bytes().starts_with(front), true);
    assert_eq!(rt; disk.bytes().len(), 128);
    assert_eq!(rt; found(disk), Ok(alone));
    Ok(())
}

#[test]
fn the_last_epoch_ends_the_changes(rt: HostRuntime) -> Result<(), Fail> {
    let disk = formatted(rt.alloc(), 0)?;
    let mut register = Register::open(disk, 2).ok().expect(&rt, "it is opened");
    let taken = duty(2, NodeName::B, Mode::Alone, 1);
    assert_eq!(rt;
        changed(&mut register, Change::Take(NodeName::B, 1)),
        Some(Ok(taken))
    );
    assert_eq!(rt;
        changed(&mut register, Change::Pair(1)),
        Some(Err(DutyFault::EpochEnd(2)))
    );
    let not_paired = DutyFault::NotPaired {
        epoch: 2,
        holder: NodeName::B,
    };
    assert_eq!(rt;
        changed(&mut register, Change::Alone(1)),
        Some(Err(not_paired))
    );
    assert_eq!(rt; register.duty(), taken);
    assert!(rt; register.usable());
    let fault = match Register::open(register.close(), 1) {
        Ok(_) => None,
        Err((_, fault)) => Some(fault),
    };
    assert_eq!(rt; fault, Some(RegisterFault::Damaged(1)));
    Ok(())
}

// A register on a disk that stops after so many calls: with the first duty, or with the one after
// it where both nodes are to be in step again.
fn fused(alloc: Global, made: Change, passed: u32) -> Result<Option<Register<FuseDisk>>, NoMemory> {
    let Ok(mut register) = open(formatted(alloc, 0)?) else {
        return Ok(None);
    };
    if matches!(made, Change::Pair(_)) {
        let _ = changed(&mut register, Change::Alone(7));
    }
    Ok(open(FuseDisk::new(register.close(), passed)).ok())
}

// Whether a change that stopped after so many of its calls lasts: a write of the body, a sync, a
// write of the commit byte, and a sync.
fn lasts(passed: u32, kept: Kept) -> bool {
    match (passed, kept) {
        (3, Kept::New) => true,
        (3, Kept::Fill(0xA5)) => true,
        (4, _) => true,
        _ => false,
    }
}

// Each change of duty, and the duties before and after it.
const CHANGES: [(Change, Duty, Duty); 3] = [
    (
        Change::Take(NodeName::B, 7),
        FIRST,
        Duty {
            epoch: 2,
            holder: NodeName::B,
            mode: Mode::Alone,
            floor: 7,
        },
    ),
    (Change::Alone(7), FIRST, ALONE),
    (
        Change::Pair(8),
        ALONE,
        Duty {
            epoch: 3,
            holder: NodeName::A,
            mode: Mode::Both,
            floor: 8,
        },
    ),
];

// What a register tells of a change that stopped after so many calls: what it answers, and the duty.
#[test]
fn a_change_that_stops_leaves_the_duty_that_is_told(rt: HostRuntime) -> Result<(), Fail> {
    for (made, before, after) in CHANGES {
        for passed in 0..5u32 {
            // Opening makes a sync and a read.
            let mut register = fused(rt.alloc(), made, 2 + passed)?.expect(&rt, "it is opened");
            let (wanted, told) = if passed == 4 {
                (Ok(after), after)
            } else {
                (Err(DutyFault::DiskFault), before)
            };
            assert_eq!(rt; changed(&mut register, made), Some(wanted));
            assert_eq!(rt; register.usable(), passed == 4);
            assert_eq!(rt; register.duty(), told);
            assert_eq!(rt; register.reopen(), Err(RegisterFault::DiskFault));
            assert_eq!(rt; register.duty(), told);
        }
    }
    Ok(())
}

#[test]
fn a_crash_leaves_the_duty_before_or_after(rt: HostRuntime) -> Result<(), Fail> {
    let alloc = rt.alloc();
    for (made, before, after) in CHANGES {
        for passed in 0..5u32 {
            for kept in KEPT {
                let mut register = fused(alloc, made, 2 + passed)?.expect(&rt, "it is opened");
                let _ = changed(&mut register, made);
                let left = register.close().inner().after_crash(kept)?;
                let there = if lasts(passed, kept) { after } else { before };
                assert_eq!(rt; found(left), Ok(there), "{passed}");
            }
        }
    }
    Ok(())
}

// What a disk is found to be after a format that stopped after so many of its calls: the length, a
// write of the first block, and a sync.
#[test]
fn a_crash_leaves_no_register_or_a_formatted_one(rt: HostRuntime) -> Result<(), Fail> {
    let alloc = rt.alloc();
    for passed in 0..4u32 {
        for kept in KEPT {
            let mut disk = FuseDisk::new(empty(alloc, 0)?, passed);
            let wanted = if passed == 3 {
                Ok(())
            } else {
                Err(FormatFault::DiskFault)
            };
            assert_eq!(rt; format_duty(&mut disk), wanted);
            let lasts = match (passed, kept) {
                (2, Kept::New) => true,
                (3, _) => true,
                _ => false,
            };
            let left = disk.inner().after_crash(kept)?;
            let there = if lasts {
                Ok(FIRST)
            } else {
                Err(RegisterFault::Foreign)
            };
            assert_eq!(rt; found(left), there, "{passed}");
        }
    }
    Ok(())
}

// A call that failed in a change (6 to 9, behind a format and an opening), and the duty that is
// there once the register is opened again in place.
#[test]
fn a_register_is_opened_again_in_place(rt: HostRuntime) -> Result<(), Fail> {
    let alloc = rt.alloc();
    let taken = duty(2, NodeName::B, Mode::Alone, 4);
    for (failing, there) in [(6, FIRST), (7, FIRST), (8, FIRST), (9, taken)] {
        let mut register = open(formatted(alloc, failing)?)
            .ok()
            .expect(&rt, "it is opened");
        let refused = changed(&mut register, Change::Take(NodeName::B, 4));
        assert_eq!(rt; refused, Some(Err(DutyFault::DiskFault)));
        assert_eq!(rt; register.duty(), FIRST);
        assert!(rt; !register.usable());
        assert_eq!(rt; register.reopen(), Ok(()));
        assert!(rt; register.usable());
        assert_eq!(rt; register.duty(), there, "{failing}");
    }
    Ok(())
}

#[test]
fn an_opening_is_refused(rt: HostRuntime) -> Result<(), Fail> {
    let alloc = rt.alloc();
    assert_eq!(rt; found(empty(alloc, 0)?), Err(RegisterFault::Foreign));
    assert_eq!(rt; found(formatted(alloc, 4)?), Err(RegisterFault::DiskFault));
    let mut again = formatted(alloc, 0)?;
    assert_eq!(rt; format_duty(&mut again), Err(FormatFault::NotEmpty(32)));
    // Bytes of frame 1 at a place in the disk, which make it another one.
    let table = [
        (0, b"B".as_slice(), RegisterFault::Foreign),
        (16, b"a".as_slice(), RegisterFault::Foreign),
        (35, b"\x01".as_slice(), RegisterFault::Damaged(1)),
        (35, b"\x03".as_slice(), RegisterFault::Damaged(1)),
        (36, b"c".as_slice(), RegisterFault::Damaged(1)),
        (37, b"a".as_slice(), RegisterFault::Damaged(1)),
        (42, b"\x01".as_slice(), RegisterFault::Damaged(1)),
        (62, b"\x01".as_slice(), RegisterFault::Damaged(1)),
        (63, b"\xA5".as_slice(), RegisterFault::Damaged(2)),
    ];
    for (place, bytes, fault) in table {
        let mut register = open(formatted(alloc, 0)?).ok().expect(&rt, "it is opened");
        let taken = changed(&mut register, Change::Take(NodeName::B, 4));
        assert!(rt; matches!(taken, Some(Ok(_))));
        let mut disk = register.close();
        assert!(rt; disk.write_at(place, bytes).is_ok());
        assert_eq!(rt; found(disk), Err(fault), "{place}");
    }
    Ok(())
}

// What the front of a disk with two changes is found to be, up to a place.
fn found_up_to(alloc: Global, end: usize) -> Result<Option<Result<Duty, RegisterFault>>, NoMemory> {
    let Ok(mut register) = open(formatted(alloc, 0)?) else {
        return Ok(None);
    };
    let _ = changed(&mut register, Change::Alone(7));
    let _ = changed(&mut register, Change::Pair(8));
    let disk = register.close();
    let Some(front) = disk.bytes().get(..end) else {
        return Ok(None);
    };
    let mut left = empty(alloc, 0)?;
    let _ = left.write_at(0, front);
    Ok(Some(found(left)))
}

// Where the image ends: behind a frame, behind its body, inside it, and behind its commit byte.
#[test]
fn a_frame_that_is_cut_off_is_damaged(rt: HostRuntime) -> Result<(), Fail> {
    let table = [
        (96, Ok(duty(3, NodeName::A, Mode::Both, 8))),
        (95, Err(RegisterFault::Damaged(2))),
        (70, Err(RegisterFault::Damaged(2))),
        (64, Err(RegisterFault::Damaged(2))),
        (63, Err(RegisterFault::Damaged(1))),
        (33, Err(RegisterFault::Damaged(1))),
        (32, Err(RegisterFault::Damaged(1))),
        (31, Err(RegisterFault::Foreign)),
    ];
    for (end, wanted) in table {
        assert_eq!(rt; found_up_to(rt.alloc(), end)?, Some(wanted), "{end}");
    }
    Ok(())
}
