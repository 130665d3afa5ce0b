use super::*;
use office_commands::Command;
use office_entry::Edit;
use std::test::Fail;

// Where texts stand in the first file of seed 1 with one record; lines have 513 bytes.
const FIRST_FILE: [(usize, &[u8]); 9] = [
    (0, b"UHL010124GENCO0000011   "),
    (511, b"*\nI30000000012774            STREET 94   "),
    (600, b"ST    TESTTOWN   "),
    (638, b"CO   "),
    (699, b" CUSTOMER 1   "),
    (731, b" 10         3000000001          010124    GENCO   "),
    (1_024, b"*\nUTL010124GENCO000000001   "),
    (1_536, b" *\n"),
    (1_539, b""),
];

// Whether a text stands behind so many bytes.
fn stands(bytes: &[u8], at: usize, text: &[u8]) -> bool {
    match bytes.get(at..) {
        Some(rest) => rest.starts_with(text),
        None => false,
    }
}

#[test]
fn the_first_file_of_seed_one(rt: HostRuntime) -> Result<(), Fail> {
    let mut script = Script::new(1, 1);
    let file = script.next_file(rt.alloc())?;
    assert_eq!(rt; file.bytes.len(), 1_539);
    for (at, text) in FIRST_FILE {
        assert!(rt; stands(&file.bytes, at, text), "at {at}");
    }
    assert_eq!(rt; file.last.text(), *b"3000000001");
    Ok(())
}

#[test]
fn files_of_so_many_records(rt: HostRuntime) {
    assert_eq!(rt; Script::new(7, 1).files(), 1);
    assert_eq!(rt; Script::new(7, 1_000).files(), 1);
    assert_eq!(rt; Script::new(7, 1_001).files(), 2);
    assert_eq!(rt; Script::new(7, 50_000).files(), 50);
}

#[test]
fn the_first_street(rt: HostRuntime) {
    let read = Edit::read_text(b"ADD TESTTOWN|CO||STREET 1|ST||0|9999|B|1");
    match street_command(1) {
        Command::Edit {
            editor,
            serial,
            edit,
        } => {
            assert_eq!(rt; editor.number(), 1);
            assert_eq!(rt; serial.number(), 1);
            assert_eq!(rt; Some(edit), read);
        }
        _ => assert!(rt; false),
    }
}
