//! Editors of the street guide, and the serials of their edits.
ghost use Rattle.std.specs.Prelude.{◌≡◌, ◌&&◌, nat_le};
ghost use Rattle.ali_base.specs.Editors.{IsEditor, IsSerial};
ghost use Rattle.ali_base.specs.Steps.{when};

use std::marker::Model;

/// How many editors there are.
pub const EDITORS: u8 = 64;

/// The last serial of an editor's edits.
pub const LAST_SERIAL: u32 = 999_999_999;

/// An editor of the street guide, 1 to 64.
#[derive(Clone, Copy, Debug, PartialEq, Eq, PartialOrd, Ord)]
pub struct Editor {
    number: u8,
}

impl Model for Editor {
    ghost use Rattle.std.specs.Prelude.{ℕ};
    ghost use Rattle.ali_base.specs.Editors.{IsEditor};

    ghost Value = { ℕ };

    ghost view = { λ e. e.number };

    ghost invariant = { λ e. IsEditor e.number };

    ghost inverse = { λ n. record { number = n } };
}

impl Editor {
    /// The editor of this number, 1 to 64.
    pub fn new(number: u8) -> Option<Self>
        ensures { result ≡ when (nat_le 1 number && nat_le number EDITORS) number }
    {
        if 1 <= number && number <= EDITORS {
            Some(Editor { number })
        } else {
            None
        }
    }

    /// The number, 1 to 64.
    pub fn number(self) -> u8
        ensures same { result ≡ self }
        ensures editor { IsEditor result }
    {
        self.number
    }
}

/// The serial of an edit, 1 to 999,999,999: the edits of an editor are numbered one after the other.
#[derive(Clone, Copy, Debug, PartialEq, Eq, PartialOrd, Ord)]
pub struct Serial {
    number: u32,
}

impl Model for Serial {
    ghost use Rattle.std.specs.Prelude.{ℕ};
    ghost use Rattle.ali_base.specs.Editors.{IsSerial};

    ghost Value = { ℕ };

    ghost view = { λ s. s.number };

    ghost invariant = { λ s. IsSerial s.number };

    ghost inverse = { λ n. record { number = n } };
}

impl Serial {
    /// The serial of this number, 1 to 999,999,999.
    pub fn new(number: u32) -> Option<Self>
        ensures { result ≡ when (nat_le 1 number && nat_le number LAST_SERIAL) number }
    {
        if 1 <= number && number <= LAST_SERIAL {
            Some(Serial { number })
        } else {
            None
        }
    }

    /// The number, 1 to 999,999,999.
    pub fn number(self) -> u32
        ensures same { result ≡ self }
        ensures serial { IsSerial result }
    {
        self.number
    }
}
