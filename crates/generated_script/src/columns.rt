//! Lines of texts in columns.
ghost use Rattle.std.specs.Prelude.{◌≡◌, [], ◌∷◌, ◌++◌, OnOk};
ghost use Rattle.ali_base.specs.StreetKey.{padded_to};
ghost use Rattle.generated_script.specs.Columns.{columns_of};
ghost use Rattle.generated_script.specs.GeneratedScript.{line_of};

use ali_base::NoMemory;

/// Adds a line of texts, each with spaces behind it up to its width.
pub(crate) fn add_line(bytes: &mut Vec<u8>, columns: &[(usize, &[u8])]) -> Result<(), NoMemory>
    ensures { OnOk result (bytes.new.items
        ≡ bytes.old.items ++ line_of (columns_of columns.now)) }
{
    for (width, text) in columns {
        add_column(bytes, *width, text)?;
    }
    bytes.push(b'\n')?;
    Ok(())
}

// Adds a text, with spaces behind it up to this width.
fn add_column(bytes: &mut Vec<u8>, width: usize, text: &[u8]) -> Result<(), NoMemory>
    ensures { OnOk result (bytes.new.items ≡ bytes.old.items ++ padded_to width text.now) }
{
    bytes.extend_from_slice(text)?;
    for _ in text.len()..width {
        bytes.push(b' ')?;
    }
    Ok(())
}
