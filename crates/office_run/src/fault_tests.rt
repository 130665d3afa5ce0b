//! Runs in which the source or the sink fails.
use crate::tests::{REPLIES, THREE, add_file, add_records, disks, header, run, trailer};
use crate::{Status, office};
use ali_base::{MemSink, MemSource, Source, Taken};
use std::alloc::Global;
use std::test::Fail;

// The script of three requests, and a file of no records that is read and booked.
fn requests_and_file(alloc: Global) -> Result<Vec<u8>, Fail> {
    let mut script = THREE.to_vec(alloc)?;
    add_file(alloc, &mut script, &[header(b'1'), trailer(b'0')])?;
    script.extend_from_slice(b"BATCH\n")?;
    Ok(script)
}

// The source fails at its k-th take, for each k up to a run without a failure. Nothing is put where it
// fails.
#[test]
fn failures_at_each_take(rt: HostRuntime) -> Result<(), Fail> {
    let script = requests_and_file(rt.alloc())?;
    for k in 1..7 {
        let ended = run(rt.alloc(), &script, &[k], &[])?;
        let status = if k < 6 {
            Status::SourceFault
        } else {
            Status::Done
        };
        assert_eq!(rt; ended.status, status);
        assert_eq!(rt; ended.sink.bytes().is_empty(), k < 6);
    }
    Ok(())
}

// The sink fails at its k-th put, for each k up to a run without a failure. What was put is a front of
// the replies: lines and forms, the line of the file, and of the reply to its job the line, the length,
// the header, the trailer and the end of the line.
#[test]
fn failures_at_each_put(rt: HostRuntime) -> Result<(), Fail> {
    let script = requests_and_file(rt.alloc())?;
    let before_each = [
        (1, 0),
        (2, 12),
        (3, 42),
        (4, 52),
        (5, 64),
        (6, 94),
        (7, 116),
        (8, 137),
        (9, 149),
        (10, 661),
        (11, 1173),
        (12, 1174),
    ];
    let mut whole = REPLIES.to_vec(rt.alloc())?;
    whole.extend_from_slice(b"READ FILE ABC01 1 0 0\nCOMPLETE ABC01 1 0 0\nERRORS 1024\n")?;
    add_records(&mut whole, &[header(b'1'), trailer(b'0')])?;
    whole.push(b'\n')?;
    for (k, len) in before_each {
        let ended = run(rt.alloc(), &script, &[], &[k])?;
        let status = if len < 1174 {
            Status::SinkFault
        } else {
            Status::Done
        };
        assert_eq!(rt; ended.status, status);
        assert_eq!(rt; ended.sink.bytes().len(), len);
        assert!(rt; whole.starts_with(ended.sink.bytes()));
    }
    Ok(())
}

// A sink that has no room takes nothing.
#[test]
fn sink_takes_nothing(rt: HostRuntime) -> Result<(), Fail> {
    let mut source = MemSource::new(THREE.to_vec(rt.alloc())?, 300, Vec::new(rt.alloc()));
    let mut sink = MemSink::new(rt.alloc(), 0, Vec::new(rt.alloc()))?;
    let (a, b, duty) = disks(rt.alloc())?;
    let words = ["run", "DIR"];
    let (status, ..) = office(rt.alloc(), &words, &mut source, &mut sink, a, b, duty);
    assert_eq!(rt; status, Status::SinkFault);
    assert_eq!(rt; sink.faults(), 1);
    Ok(())
}

// Gives line ends without end, and counts them.
#[derive(Drop)]
struct Endless {
    given: u64,
}

impl Source for Endless {
    ghost use Rattle.std.specs.Prelude.{None};

    ghost left = { λ s. None };

    ghost faults = { λ s. 0 };

    fn take(&mut self, buf: &mut [u8]) -> Taken {
        for b in buf.iter_mut() {
            *b = b'\n';
        }
        self.given = self.given.saturating_add(buf.len() as u64);
        Taken::Took(buf.len())
    }
}

// A source without end is stopped one byte past the limit, and nothing is put.
#[test]
fn source_without_end(rt: HostRuntime) -> Result<(), Fail> {
    let mut source = Endless { given: 0 };
    let mut sink = MemSink::new(rt.alloc(), 100, Vec::new(rt.alloc()))?;
    let (a, b, duty) = disks(rt.alloc())?;
    let words = ["run", "DIR"];
    let (status, ..) = office(rt.alloc(), &words, &mut source, &mut sink, a, b, duty);
    assert_eq!(rt; status, Status::TooLong);
    assert_eq!(rt; source.given, 67_108_865);
    assert_eq!(rt; sink.bytes().len(), 0);
    Ok(())
}
