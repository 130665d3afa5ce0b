//! The edits of the generated streets.
ghost use Rattle.std.specs.Prelude.{◌≡◌, ◌≤◌, All, Some};
ghost use Rattle.office_commands.specs.Commands.{IsCommand};
ghost use Rattle.generated_script.specs.GeneratedScript.{key_of_street, street_commands, street_edit};

use crate::names::numbered;
use crate::script::STREETS;
use ali_base::{Editor, House, Parity, Serial, StreetKey};
use office_commands::Command;
use office_entry::{Edit, EditKey, EsnSent};

/// The command that reads the edit of a street, 1 to `STREETS`.
pub fn street_command(street: u32) -> Command<'static>
    requires { (1 ≤ street) × (street ≤ STREETS) }
    ensures command { result ≡ Command.Edit 1 street (street_edit street) }
    ensures lawful { All IsCommand (street_commands street) }
{
    match (Editor::new(1), Serial::new(street), street_edit(street)) {
        (Some(editor), Some(serial), Some(edit)) => Command::Edit {
            editor,
            serial,
            edit,
        },
        _ => unreachable!(),
    }
}

// The edit of a street: all its houses, with its number as the ESN.
fn street_edit(street: u32) -> Option<Edit>
    requires { street ≤ STREETS }
    ensures { result ≡ Some (street_edit street) }
{
    Some(Edit::Add {
        key: EditKey::new(street_key(street))?,
        low: House::new(0)?,
        high: House::new(9_999)?,
        parity: Parity::Both,
        esn: EsnSent::new(street)?,
    })
}

// The street of this number.
fn street_key(street: u32) -> StreetKey
    ensures { result ≡ key_of_street street }
{
    let name = numbered(b"STREET", street);
    StreetKey::read(b"TESTTOWN", b"CO", b"", name.bytes(), b"ST", b"")
}
