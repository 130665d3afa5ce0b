//! The lines of the generated files.
ghost use Rattle.std.specs.Prelude.{◌≡◌, ◌<◌, ◌≤◌, ◌+◌, ◌-◌, ◌*◌, ◌^◌, ◌++◌, OnOk, IfOk};
ghost use Rattle.generated_script.specs.GeneratedScript.{file_of, header_line, record_lines, record_text, state_after, trailer_line};

use crate::columns::add_line;
use crate::draws::Draws;
use crate::names::{number_of, numbered};
use ali_base::{NoMemory, write_zero_padded};
use itoa::Buffer;
use std::alloc::Global;

/// The file of this cycle, whose records are those behind `before` up to `last`.
pub(crate) fn file_text(
    alloc: Global,
    draws: &mut Draws,
    cycle: u32,
    before: u32,
    last: u32,
) -> Result<Vec<u8>, NoMemory>
    requires cycle { cycle < 10 ^ 6 }
    requires order { before ≤ last }
    requires most { last < 10 ^ 9 }
    requires state { draws.old.state ≡ state_after draws.old.seed (2 * before) }
    ensures text { IfOk result (λ bytes. bytes.items
        ≡ file_of draws.old.seed cycle before (last - before)) }
    ensures seed { OnOk result (draws.new.seed ≡ draws.old.seed) }
    ensures state { OnOk result (draws.new.state ≡ state_after draws.old.seed (2 * last)) }
{
    let mut bytes = Vec::new(alloc);
    add_header(&mut bytes, cycle)?;
    add_records(&mut bytes, draws, before, last)?;
    add_trailer(&mut bytes, last - before)?;
    Ok(bytes)
}

// Adds the header of a file, with its cycle.
fn add_header(bytes: &mut Vec<u8>, cycle: u32) -> Result<(), NoMemory>
    requires { cycle < 10 ^ 6 }
    ensures { OnOk result (bytes.new.items ≡ bytes.old.items ++ header_line cycle) }
{
    let mut digits = [b'0'; 6];
    write_zero_padded(&mut digits, cycle);
    add_line(
        bytes,
        &[
            (14, b"UHL010124GENCO"),
            (6, &digits),
            (491, b"1"),
            (1, b"*"),
        ],
    )
}

// Adds the trailer of a file with so many records.
fn add_trailer(bytes: &mut Vec<u8>, records: u32) -> Result<(), NoMemory>
    requires { records < 10 ^ 9 }
    ensures { OnOk result (bytes.new.items ≡ bytes.old.items ++ trailer_line records) }
{
    let mut digits = [b'0'; 9];
    write_zero_padded(&mut digits, records);
    add_line(bytes, &[(14, b"UTL010124GENCO"), (497, &digits), (1, b"*")])
}

// Adds the records behind `before` up to `last`, each at a house and in a street that are drawn.
fn add_records(
    bytes: &mut Vec<u8>,
    draws: &mut Draws,
    before: u32,
    last: u32,
) -> Result<(), NoMemory>
    requires order { before ≤ last }
    requires most { last < 10 ^ 9 }
    requires state { draws.old.state ≡ state_after draws.old.seed (2 * before) }
    ensures text { OnOk result (bytes.new.items
        ≡ bytes.old.items ++ record_lines draws.old.seed before (last - before)) }
    ensures seed { OnOk result (draws.new.seed ≡ draws.old.seed) }
    ensures state { OnOk result (draws.new.state ≡ state_after draws.old.seed (2 * last)) }
{
    for i in before..last {
        let house = draws.draw(12_000);
        let street = draws.draw(110) + 1;
        add_record(bytes, i + 1, house, street)?;
    }
    Ok(())
}

// Adds record `i`.
fn add_record(bytes: &mut Vec<u8>, i: u32, house: u32, street: u32) -> Result<(), NoMemory>
    requires { i < 10 ^ 9 }
    ensures { OnOk result (bytes.new.items ≡ bytes.old.items ++ record_text i house street) }
{
    let number = number_of(i).text();
    let mut house_digits = Buffer::new();
    add_line(
        bytes,
        &[
            (1, b"I"),
            (10, &number),
            (16, house_digits.format(house).as_bytes()),
            (60, numbered(b"STREET", street).bytes()),
            (6, b"ST"),
            (32, b"TESTTOWN"),
            (62, b"CO"),
            (32, numbered(b"CUSTOMER", i).bytes()),
            (11, b"10"),
            (20, &number),
            (10, b"010124"),
            (251, b"GENCO"),
            (1, b"*"),
        ],
    )
}
