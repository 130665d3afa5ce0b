//! Columns of 512 bytes.
ghost use Rattle.std.specs.Prelude.{◌≡◌, ◌+◌, ◌-◌, ◌≤◌, ◌++◌, length, take, drop};

/// Writes a text over the columns from `column` on, counted from 1.
pub fn put(bytes: &mut [u8; 512], column: usize, text: &[u8])
    requires { (1 ≤ column) × (column + length text.now ≤ 513) }
    ensures { bytes.new ≡ take (column - 1) bytes.old
        ++ (text.now ++ drop (column - 1 + length text.now) bytes.old) }
{
    bytes[column - 1..column - 1 + text.len()].copy_from_slice(text);
}
