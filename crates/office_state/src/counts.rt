//! What is counted of the booked entries.
ghost use Rattle.std.specs.Prelude.{◌≡◌, ◌+◌, ◌<◌, ◌^◌, slice_index};
ghost use Rattle.office_state.specs.Counted.{no_codes, no_counts, with_code};
ghost use Rattle.office_state.specs.declared.counts.Counts.{Counts as AnyCounts};

/// How many codes there are: 0 to 999.
pub const CODES: usize = 1000;

/// How many of the booked entries are openings, lines and edits, and how often a line or an edit got
/// each code.
#[derive(Drop)]
pub struct Counts {
    pub(crate) opens: u32,
    pub(crate) lines: u32,
    pub(crate) edits: u32,
    pub(crate) codes: [u32; CODES],
}

impl Counts {
    /// Nothing was counted yet.
    pub(crate) fn new() -> Self
        ensures { result ≡ no_counts }
    {
        Counts {
            opens: 0,
            lines: 0,
            edits: 0,
            codes: no_codes(),
        }
    }

    /// One opening more.
    pub(crate) fn count_opening(&mut self)
        requires { self.old.opens + 1 < 2 ^ 32 }
        ensures { self.new ≡ record self.old { opens = self.old.opens + 1 } }
    {
        self.opens += 1;
    }

    /// One line more, which got this code.
    pub(crate) fn count_line(&mut self, code: u16)
        requires code { code < CODES }
        requires lines { self.old.lines + 1 < 2 ^ 32 }
        requires times { slice_index self.old.codes code + 1 < 2 ^ 32 }
        ensures { self.new ≡ record self.old {
          lines = self.old.lines + 1;
          codes = with_code self.old.codes code;
        } }
    {
        self.lines += 1;
        self.count_code(code);
    }

    /// One edit more, which got this code.
    pub(crate) fn count_edit(&mut self, code: u16)
        requires code { code < CODES }
        requires edits { self.old.edits + 1 < 2 ^ 32 }
        requires times { slice_index self.old.codes code + 1 < 2 ^ 32 }
        ensures { self.new ≡ record self.old {
          edits = self.old.edits + 1;
          codes = with_code self.old.codes code;
        } }
    {
        self.edits += 1;
        self.count_code(code);
    }

    // A code was got once more.
    fn count_code(&mut self, code: u16)
        requires code { code < CODES }
        requires times { slice_index self.old.codes code + 1 < 2 ^ 32 }
        ensures { self.new ≡ record self.old { codes = with_code self.old.codes code } }
    {
        self.codes[code as usize] += 1;
    }
}

// No code was got yet.
#[tactic(auto, unfolding(crate::specs::Counted::no_codes))]
fn no_codes() -> [u32; CODES]
    ensures { result ≡ no_codes }
{
    [0; CODES]
}
