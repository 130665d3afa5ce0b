//! Runs of the generated script.
use crate::{Status, office};
use ali_base::{DiskName, MemSink, MemSource, NoMemory, NodeName};
use crash_disk::MemDisk;
use duty_register::format_duty;
use node_journal::format;
use std::alloc::Global;
use std::test::Fail;

const SUMMARY: &[u8] = b"COMMANDS 204
BOOKED 111
REFUSED 3
DIGEST 579ece5142e1ce863a05eb4d33d5c382e46d0ade9acff3fb6d75c7f0d81c1255
";

// An empty disk with room for a journal of 127 entries.
fn empty(alloc: Global) -> Result<MemDisk, NoMemory> {
    MemDisk::new(alloc, 81_920, 262_144, Vec::new(alloc))
}

// Generates ten records of seed 1, with puts that fail.
fn generate(
    alloc: Global,
    failing_puts: &[u64],
    a: MemDisk,
    b: MemDisk,
    duty: MemDisk,
) -> Result<(Status, MemSink, MemDisk, MemDisk, MemDisk), Fail> {
    let words = ["generate", "DIR", "1", "10"];
    let mut source = MemSource::new(Vec::new(alloc), 300, Vec::new(alloc));
    let mut sink = MemSink::new(alloc, 16_384, failing_puts.to_vec(alloc)?)?;
    let (status, a, b, duty) = office(alloc, &words, &mut source, &mut sink, a, b, duty);
    Ok((status, sink, a, b, duty))
}

// The script is carried out and its summary put whole, or up to a put that fails; then the disks are in
// use, and are refused.
#[test]
fn a_generated_office(rt: HostRuntime) -> Result<(), Fail> {
    let alloc = rt.alloc();
    let cases: [(&[u64], Status, usize); 2] = [
        (&[], Status::Done, SUMMARY.len()),
        (&[3], Status::SinkFault, 24),
    ];
    for (failing, ended, len) in cases {
        let (mut a, mut b, mut duty) = (empty(alloc)?, empty(alloc)?, empty(alloc)?);
        let _ = format(&mut a, NodeName::A);
        let _ = format(&mut b, NodeName::B);
        let _ = format_duty(&mut duty);
        let (status, sink, a, b, duty) = generate(alloc, failing, a, b, duty)?;
        assert_eq!(rt; status, ended);
        assert!(rt; sink.bytes().len() == len && SUMMARY.starts_with(sink.bytes()));
        let (status, sink, ..) = generate(alloc, &[], a, b, duty)?;
        assert_eq!(rt; status, Status::NotEmpty(DiskName::A));
        assert!(rt; sink.bytes().is_empty());
    }
    Ok(())
}
