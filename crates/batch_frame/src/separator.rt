//! What follows each record of a file.
ghost use Rattle.std.specs.Prelude.{◌≡◌, ◌≤◌, length};
ghost use Rattle.batch_frame.specs.CarrierFile.{separator_bytes, piece_size};

/// What follows each record of a carrier's file.
#[derive(Clone, Copy, Debug, PartialEq, Eq)]
pub enum Separator {
    /// Nothing.
    Bare,
    /// A line feed.
    Lf,
    /// A carriage return and a line feed.
    CrLf,
}

impl Separator {
    /// Its bytes.
    pub fn bytes(self) -> &'static [u8]
        ensures bytes { result.now ≡ separator_bytes self }
        ensures few { length result.now ≤ 2 }
    {
        match self {
            Separator::Bare => b"",
            Separator::Lf => b"\n",
            Separator::CrLf => b"\r\n",
        }
    }

    /// The bytes of a record with its separator.
    pub fn piece_size(self) -> usize
        ensures value { result ≡ piece_size self }
    {
        512 + self.bytes().len()
    }
}
