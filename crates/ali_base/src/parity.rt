//! Which numbers of a street a range holds.
ghost use Rattle.std.specs.Prelude.{◌≡◌};
ghost use Rattle.ali_base.specs.Parity.{parity_of, parity_text};

/// The parity of a range: which of the numbers between its ends it holds.
#[derive(Clone, Copy, Debug, PartialEq, Eq)]
pub enum Parity {
    Odd,
    Even,
    Both,
}

impl Parity {
    /// The parity that one letter writes, `O`, `E` or `B`, and no other bytes.
    pub fn read(bytes: &[u8]) -> Option<Self>
        ensures { result ≡ parity_of bytes.now }
    {
        match bytes {
            [b'O'] => Some(Parity::Odd),
            [b'E'] => Some(Parity::Even),
            [b'B'] => Some(Parity::Both),
            _ => None,
        }
    }

    /// Its letter.
    pub fn text(self) -> [u8; 1]
        ensures { result ≡ parity_text self }
    {
        match self {
            Parity::Odd => [b'O'],
            Parity::Even => [b'E'],
            Parity::Both => [b'B'],
        }
    }
}
