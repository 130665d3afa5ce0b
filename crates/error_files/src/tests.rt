ghost use Rattle.std.specs.Prelude.{◌<◌, ◌≤◌, ◌+◌, length};

use super::*;
use ali_base::MemSink;
use batch_frame::{FrameFault, Separator, read_file};
use office_fixtures::{SentRecord, header, joined, put, trailer};
use std::alloc::{AllocError, Global};
use std::test::Fail;

// A record to be inserted at MAIN ST, with coordinates in its reserve.
fn row(number: &[u8; 10], house: &[u8; 3]) -> [u8; 512] {
    let mut row = SentRecord::new(b'I', number, house).bytes();
    put(&mut row, 276, b"39.7392 -104.9903");
    row
}

// The file of three records with CR LF: 2,570 bytes.
fn three_records(alloc: Global) -> Result<Vec<u8>, Fail> {
    let records = [
        header(b"ABC01", b"000001"),
        row(b"3035550100", b"100"),
        row(b"3035550102", b"102"),
        row(b"3035550104", b"104"),
        trailer(b"ABC01", b"000000003"),
    ];
    Ok(joined(alloc, &records, b"\r\n")?)
}

// The fault, where there is one.
fn fault_of(bytes: &[u8]) -> Option<FrameFault> {
    match read_file(bytes) {
        Ok(_) => None,
        Err(fault) => Some(fault),
    }
}

// The file of three records, cut to a length: the pieces have 514 bytes, and the last two may be missing.
fn fault_of_cut(len: usize) -> Option<FrameFault> {
    match len {
        2568 | 2570 => None,
        1026 | 1028 | 1540 | 1542 | 2054 | 2056 => Some(FrameFault::Trailer(1)),
        _ => Some(FrameFault::Length(len as u64)),
    }
}

#[test]
fn each_cut_has_its_fault(rt: HostRuntime) -> Result<(), Fail> {
    let file = three_records(rt.alloc())?;
    assert_eq!(rt; file.len(), 2570);
    for len in 0..2571 {
        assert_eq!(rt; fault_of(&file[..len]), fault_of_cut(len), "at {len}");
    }
    Ok(())
}

// The file of three records with a zero byte in the header's piece, at a column from 1.
fn fault_of_header_byte(column: usize) -> Option<FrameFault> {
    match column {
        1..=3 => Some(FrameFault::Header(1)),
        4..=9 => Some(FrameFault::Header(2)),
        10..=14 => Some(FrameFault::Header(3)),
        15..=20 => Some(FrameFault::Header(4)),
        21 => Some(FrameFault::Header(5)),
        512 => Some(FrameFault::Header(6)),
        513 | 514 => Some(FrameFault::Length(2570)),
        _ => None,
    }
}

// The same in the trailer's piece.
fn fault_of_trailer_byte(column: usize) -> Option<FrameFault> {
    match column {
        1..=3 => Some(FrameFault::Trailer(1)),
        4..=9 => Some(FrameFault::Trailer(2)),
        10..=14 => Some(FrameFault::Trailer(3)),
        15..=23 => Some(FrameFault::Trailer(4)),
        512 => Some(FrameFault::Trailer(5)),
        513 | 514 => Some(FrameFault::Separator(5)),
        _ => None,
    }
}

// The fault of a file with a zero byte at this place.
fn fault_with_zero(file: &mut [u8], at: usize) -> Option<FrameFault>
    requires { at < length file.old }
{
    let kept = file[at];
    file[at] = 0;
    let fault = fault_of(file);
    file[at] = kept;
    fault
}

#[test]
fn each_zero_byte_has_its_fault(rt: HostRuntime) -> Result<(), Fail> {
    let mut bytes = three_records(rt.alloc())?;
    let file = bytes.as_mut_slice();
    assert_eq!(rt; file.len(), 2570);
    for column in 1..515 {
        let header = fault_with_zero(file, column - 1);
        assert_eq!(rt; header, fault_of_header_byte(column), "header, {column}");
        let trailer = fault_with_zero(file, 2056 + column - 1);
        assert_eq!(rt; trailer, fault_of_trailer_byte(column), "trailer, {column}");
    }
    Ok(())
}

#[test]
fn bytes_that_are_no_file(rt: HostRuntime) -> Result<(), Fail> {
    let alloc = rt.alloc();
    assert_eq!(rt; fault_of(&[b'A'; 1500]), Some(FrameFault::Length(1500)));
    assert_eq!(rt; fault_of(&[b'A'; 1024]), Some(FrameFault::Header(1)));
    let many = vec![in alloc; b'A'; 10_003 * 512]?;
    assert_eq!(rt; fault_of(&many), Some(FrameFault::TooMany(10_001)));
    let rows = [row(b"3035550100", b"100"), row(b"3035550101", b"101")];
    let records = [
        header(b"ABC01", b"000001"),
        rows[0],
        rows[1],
        trailer(b"ABC01", b"000000003"),
    ];
    let file = joined(alloc, &records, b"")?;
    assert_eq!(rt;
        fault_of(&file),
        Some(FrameFault::Count { told: 3, found: 2 })
    );
    Ok(())
}

// What is written for a file with these codes, where all of it is put and as long as was told.
fn written(alloc: Global, bytes: &[u8], codes: &[u16]) -> Result<Option<Vec<u8>>, Fail> {
    let file = match read_file(bytes) {
        Ok(file) => file,
        Err(_) => return Ok(None),
    };
    if file.count() as usize != codes.len() {
        return Ok(None);
    }
    let mut sink = MemSink::new(alloc, 10_000, Vec::new(alloc)).map_err(|_| AllocError)?;
    let end = write_errors(&file, codes, &mut sink);
    if end != ErrorsEnd::Done || errors_len(&file, codes) != sink.bytes().len() {
        return Ok(None);
    }
    Ok(Some(Vec::from_slice(alloc, sink.bytes())?))
}

#[test]
fn refused_records_go_back(rt: HostRuntime) -> Result<(), Fail> {
    let alloc = rt.alloc();
    let head = header(b"ABC01", b"000001");
    // All are accepted.
    let file = three_records(alloc)?;
    let want = joined(alloc, &[head, trailer(b"ABC01", b"000000000")], b"\r\n")?;
    assert_eq!(rt; want.len(), 1028);
    assert_eq!(rt; written(alloc, &file, &[0, 0, 0])?, Some(want));
    // There are none.
    let empty = joined(alloc, &[head, trailer(b"ABC01", b"000000000")], b"")?;
    let want = joined(alloc, &[head, trailer(b"ABC01", b"000000000")], b"")?;
    assert_eq!(rt; written(alloc, &empty, &[])?, Some(want));
    // The second is refused.
    let mut second = row(b"3035550101", b"101");
    let records = [
        head,
        row(b"3035550100", b"100"),
        second,
        trailer(b"ABC01", b"000000002"),
    ];
    let file = joined(alloc, &records, b"")?;
    put(&mut second, 509, b"203");
    let want = joined(alloc, &[head, second, trailer(b"ABC01", b"000000001")], b"")?;
    assert_eq!(rt; want.len(), 1536);
    assert_eq!(rt; written(alloc, &file, &[0, 203])?, Some(want));
    Ok(())
}

#[test]
fn digits_and_separators_of_an_error_file(rt: HostRuntime) -> Result<(), Fail> {
    let alloc = rt.alloc();
    let head = header(b"ABC01", b"000001");
    let mut first = row(b"3035550100", b"100");
    let mut second = row(b"3035550101", b"101");
    let mut file = joined(
        alloc,
        &[head, first, second, trailer(b"ABC01", b"000000002")],
        b"\n",
    )?;
    // The last separator may be missing, and is written.
    file.pop();
    put(&mut first, 509, b"007");
    put(&mut second, 509, b"104");
    let want = joined(
        alloc,
        &[head, first, second, trailer(b"ABC01", b"000000002")],
        b"\n",
    )?;
    assert_eq!(rt; written(alloc, &file, &[7, 50_104])?, Some(want));
    Ok(())
}

#[test]
fn parts_are_lent(rt: HostRuntime) -> Result<(), Fail> {
    let bytes = three_records(rt.alloc())?;
    match read_file(&bytes) {
        Ok(file) => {
            assert_eq!(rt; file.count(), 3);
            assert_eq!(rt; *file.header(), header(b"ABC01", b"000001"));
            assert_eq!(rt; *file.records(2), row(b"3035550102", b"102"));
            assert_eq!(rt; *file.trailer(), trailer(b"ABC01", b"000000003"));
            assert_eq!(rt; file.separator(), Separator::CrLf);
            assert_eq!(rt; file.company().text(), *b"ABC01");
            assert_eq!(rt; file.cycle().number(), 1);
            let mut sink = MemSink::new(rt.alloc(), 1_000, Vec::new(rt.alloc()))?;
            assert_eq!(rt;
                write_errors(&file, &[0, 0, 0], &mut sink),
                ErrorsEnd::SinkFault
            );
            assert_eq!(rt; sink.bytes().len(), 1_000);
        }
        Err(_) => assert!(rt; false),
    }
    Ok(())
}
