use super::*;
use ali_base::{House, Parity, StreetKey};
use std::test::Fail;

const MAIN: &[u8] = b"ADD DENVER|CO||MAIN|ST||100|198|E|101";

fn street() -> Option<EditKey> {
    EditKey::new(StreetKey::read(b"DENVER", b"CO", b"", b"MAIN", b"ST", b""))
}

fn main_street() -> Option<Edit> {
    Some(Edit::Add {
        key: street()?,
        low: House::new(100)?,
        high: House::new(198)?,
        parity: Parity::Even,
        esn: EsnSent::new(101)?,
    })
}

fn split() -> Option<Edit> {
    Some(Edit::Split {
        id: 4_294_967_295,
        at: House::new(999_999)?,
        esn: EsnSent::new(0)?,
    })
}

fn renumber(by: i32) -> Option<Edit> {
    Some(Edit::Renumber {
        id: 3,
        by: Difference::new(by)?,
    })
}

fn set_esn() -> Option<Edit> {
    Some(Edit::SetEsn {
        id: 3,
        esn: EsnSent::new(999_999)?,
    })
}

// Whether the text is the edit's, and the edit comes back from these bytes of its own.
fn is_edit(text: &[u8], edit: Option<Edit>, bytes: &[u8]) -> bool {
    let mut out = [0xff; 128];
    match (Edit::read_text(text), edit) {
        (Some(read), Some(edit)) => {
            let len = read.bytes(&mut out);
            read == edit && &out[..len] == bytes && Edit::from_bytes(bytes) == Some(edit)
        }
        _ => false,
    }
}

#[test]
fn add_retire_and_split_are_read_and_written(rt: HostRuntime) -> Result<(), Fail> {
    let add =
        b"ADENVER                          CO  MAIN                                                        ST    \x00\x00\x00\x64\x00\x00\x00\xc6E\x00\x00\x00\x65";
    assert_eq!(rt; add.len(), 116);
    assert!(rt; is_edit(MAIN, main_street(), add));
    assert!(rt;
        is_edit(
            b"RETIRE 7",
            Some(Edit::Retire { id: 7 }),
            b"R\x00\x00\x00\x07"
        )
    );
    assert!(rt;
        is_edit(
            b"SPLIT 4294967295 999999 0",
            split(),
            b"S\xff\xff\xff\xff\x00\x0f\x42\x3f\x00\x00\x00\x00"
        )
    );
    Ok(())
}

#[test]
fn renumber_and_setesn_are_read_and_written(rt: HostRuntime) -> Result<(), Fail> {
    assert!(rt;
        is_edit(
            b"RENUMBER 3 -2",
            renumber(-2),
            b"N\x00\x00\x00\x03\xff\xff\xff\xfe"
        )
    );
    assert!(rt;
        is_edit(
            b"RENUMBER 3 +0",
            renumber(0),
            b"N\x00\x00\x00\x03\x00\x00\x00\x00"
        )
    );
    assert!(rt;
        is_edit(
            b"RENUMBER 3 +999999",
            renumber(999_999),
            b"N\x00\x00\x00\x03\x00\x0f\x42\x3f"
        )
    );
    assert!(rt;
        is_edit(
            b"SETESN 3 999999",
            set_esn(),
            b"W\x00\x00\x00\x03\x00\x0f\x42\x3f"
        )
    );
    Ok(())
}

#[test]
fn texts_of_a_street_name_one_key(rt: HostRuntime) -> Result<(), Fail> {
    let edit = main_street();
    assert_eq!(rt;
        Edit::read_text(b"ADD denver|co||main|st||100|198|E|101"),
        edit
    );
    assert_eq!(rt;
        Edit::read_text(b"ADD DENVER  |CO|  |MAIN |ST  ||100|198|E|101"),
        edit
    );
    assert_ne!(rt;
        Edit::read_text(b"ADD  DENVER|CO||MAIN|ST||100|198|E|101"),
        edit
    );
    assert!(rt; Edit::read_text(b"ADD |||OLD MAIN|||0|0|B|0").is_some());
    Ok(())
}

#[test]
fn other_texts_are_no_edit(rt: HostRuntime) -> Result<(), Fail> {
    let texts: [&[u8]; 27] = [
        b"",
        b"ADD",
        b"RETIRE",
        b"RETIRE ",
        b"RETIRE 07",
        b"RETIRE +7",
        b"RETIRE 4294967296",
        b"RETIRE 7 ",
        b"RETIRE  7",
        b" RETIRE 7",
        b"retire 7",
        b"RETIRE 7\n",
        b"SPLIT 1 2",
        b"SPLIT 1 2 3 4",
        b"SPLIT 1 1000000 3",
        b"SETESN 1 1000000",
        b"SETESN 1",
        b"RENUMBER 3 -0",
        b"RENUMBER 3 0",
        b"RENUMBER 3 +1000000",
        b"RENUMBER 3 +-1",
        b"ADD DENVER|CO ||MAIN|ST||100|198|E|101",
        b"ADD DENVER|CO||MAIN|ST||100|198|e|101",
        b"ADD DENVER|CO||MAIN|ST||100|198|E|101|",
        b"ADD DENVER|CO||MAIN|ST||0100|198|E|101",
        b"ADD DEN\xd6ER|CO||MAIN|ST||100|198|E|101",
        b"ADD DENVER|CO||MAIN|ST|100|198|E|101",
    ];
    for text in texts {
        assert_eq!(rt; Edit::read_text(text), None);
    }
    Ok(())
}

#[test]
fn a_text_is_as_wide_as_written(rt: HostRuntime) -> Result<(), Fail> {
    assert!(rt;
        Edit::read_text(b"ADD ABCDEFGHIJKLMNOPQRSTUVWXYZ123456|CO||MAIN|ST||1|3|O|7").is_some()
    );
    assert!(rt;
        Edit::read_text(b"ADD ABCDEFGHIJKLMNOPQRSTUVWXYZ1234567|CO||MAIN|ST||1|3|O|7").is_none()
    );
    assert!(rt;
        Edit::read_text(b"ADD DENVER                          |CO||MAIN|ST||1|3|O|7").is_some()
    );
    assert!(rt;
        Edit::read_text(b"ADD DENVER                           |CO||MAIN|ST||1|3|O|7").is_none()
    );
    Ok(())
}

#[test]
fn other_bytes_are_no_edit(rt: HostRuntime) -> Result<(), Fail> {
    let edits: [&[u8]; 8] = [
        b"",
        b"R",
        b"R\x00\x00\x07",
        b"R\x00\x00\x00\x07\x00",
        b"X\x00\x00\x00\x07",
        b"W\x00\x00\x00\x03\x00\x0f\x42\x40",
        b"N\x00\x00\x00\x03\x00\x0f\x42\x40",
        b"N\x00\x00\x00\x03\x80\x00\x00\x00",
    ];
    for bytes in edits {
        assert_eq!(rt; Edit::from_bytes(bytes), None);
    }
    let mut add =
        *b"ADENVER                          CO  MAIN                                                        ST    \x00\x00\x00\x64\x00\x00\x00\xc6E\x00\x00\x00\x65";
    assert_eq!(rt; Edit::from_bytes(&add), main_street());
    add[1] = b'd';
    assert_eq!(rt; Edit::from_bytes(&add), None);
    add[1] = b'|';
    assert_eq!(rt; Edit::from_bytes(&add), None);
    Ok(())
}

// The digests are sha256sum's.
#[test]
fn digests_are_of_the_bytes(rt: HostRuntime) -> Result<(), Fail> {
    let retire = Edit::Retire { id: 7 };
    assert_eq!(rt;
        retire.digest(),
        *b"\xb3\xf6\x8c\xf8\x4a\x61\x64\x4e\x3a\x67\xac\x9d\xe5\x2c\xa3\x66\x2d\x6e\xdf\xbf\x83\x24\xd2\x77\xac\x95\xc0\x12\x82\xaf\x1a\x71"
    );
    assert_eq!(rt;
        main_street().map(|edit| edit.digest()),
        Some(
            *b"\xd1\x1b\x0d\xd4\x0c\x99\xd3\x85\xf7\xf8\xeb\xed\x41\x88\x7f\x4e\xe3\x63\x13\xb1\xea\x32\x26\x7a\x47\x8d\xb7\x64\xd2\xf0\xb0\xdb"
        )
    );
    Ok(())
}
