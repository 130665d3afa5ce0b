//! What an edit got.
ghost use Rattle.std.specs.Prelude.{◌≡◌};
ghost use Rattle.msag_edits.specs.EditRules.{done, refused};

/// What an edit of the street guide got.
#[derive(Clone, Copy, Debug, PartialEq, Eq)]
pub struct EditVerdict {
    /// 0 where it was done.
    pub code: u16,
    /// What the code says more about, else 0: the new id of an ADD or a SPLIT, how many rows a
    /// RENUMBER moved or a SETESN wrote, the range that is in the way of 502, the least telephone
    /// number of 504.
    pub detail: u64,
}

impl EditVerdict {
    /// The edit is done.
    pub(crate) fn done(detail: u64) -> Self
        ensures { result ≡ done detail }
    {
        EditVerdict { code: 0, detail }
    }

    /// The edit is refused, and the detail is 0.
    pub(crate) fn refused(code: u16) -> Self
        ensures { result ≡ refused code }
    {
        EditVerdict { code, detail: 0 }
    }
}
