use super::*;
use std::io::Cursor;
use std::test::Fail;

// A reader's bytes are taken, and then the end comes; nothing is a fault.
#[test]
fn reader_source_takes_what_the_reader_has(rt: HostRuntime) -> Result<(), Fail> {
    let mut source = ReaderSource::new(b"ASK".as_slice());
    let mut buf = [0; 2];
    assert_eq!(rt; source.take(&mut buf), Taken::Took(2));
    assert_eq!(rt; buf.as_slice(), b"AS".as_slice());
    assert_eq!(rt; source.take(&mut buf), Taken::Took(1));
    assert_eq!(rt; buf[0], b'K');
    assert_eq!(rt; source.take(&mut buf), Taken::End);
    Ok(())
}

// A writer is given what a sink takes; a writer that is full takes nothing.
#[test]
fn writer_sink_gives_to_the_writer(rt: HostRuntime) -> Result<(), Fail> {
    let mut room = [0; 4];
    let mut sink = WriterSink::new(Cursor::new(room.as_mut_slice()));
    assert_eq!(rt; sink.put(b"BOOKED"), Put::Took(4));
    assert_eq!(rt; sink.put(b"ED"), Put::Took(0));
    Ok(())
}

// With ample memory there is room for all that is put.
#[test]
fn memory_sink_holds_what_fits(rt: HostRuntime) -> Result<(), Fail> {
    let mut sink = MemSink::new(rt.alloc(), 4, Vec::new(rt.alloc()))?;
    assert_eq!(rt; sink.put(b"AB"), Put::Took(2));
    assert_eq!(rt; sink.put(b"CDE"), Put::Took(2));
    assert_eq!(rt; sink.bytes(), b"ABCD".as_slice());
    assert_eq!(rt; sink.faults(), 0);
    assert_eq!(rt; sink.put(b"E"), Put::Took(0));
    assert_eq!(rt; sink.faults(), 1);
    Ok(())
}

// Days between dates, counted by hand: 2000 and 2024 have a 29 February, 2023 has none, and a century
// of 2000 to 2099 has 36,525 days with 25 leap days.
#[test]
fn days_between_two_days(rt: HostRuntime) {
    let counts = [
        (b"010100", b"010100", 0),
        (b"010200", b"010100", 1),
        (b"010100", b"010200", -1),
        (b"030100", b"022800", 2),
        (b"030123", b"022823", 1),
        (b"030124", b"022824", 2),
        (b"010101", b"010100", 366),
        (b"010100", b"010101", -366),
        (b"010124", b"010123", 365),
        (b"010125", b"010124", 366),
        (b"123199", b"010100", 36_524),
        (b"010224", b"123123", 2),
    ];
    for (day, other, days) in &counts {
        let day = Day::read(*day).expect(&rt, "a day");
        let other = Day::read(*other).expect(&rt, "a day");
        assert_eq!(rt; day.days_from(other), *days);
    }
}
