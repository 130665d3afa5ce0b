//! What one look at the board shows, and the word that shows it.
ghost use Rattle.std.specs.Prelude.{◌≡◌};
ghost use Rattle.board.specs.FrontWord as word;

use ali_base::{Duty, Mode, NodeName};

/// The most entries that a board's history has.
pub const MOST_BOOKED: u32 = 1_000_000;

/// The place of the duty in the word, above the count.
const DUTY_PLACE: u64 = 1 << 24;

/// The place of the epoch in the word, above the duty.
const EPOCH_PLACE: u64 = 1 << 26;

/// The duty and the number of booked entries that the board showed at one moment.
#[derive(Clone, Copy, Debug, PartialEq, Eq)]
pub struct Front {
    /// The epoch of the duty.
    pub epoch: u32,
    /// The one node that may write.
    pub holder: NodeName,
    pub mode: Mode,
    /// How many entries are booked.
    pub count: u32,
}

impl Front {
    /// What a look shows under this duty, where so many entries are booked.
    pub fn under(duty: &Duty, count: u32) -> Front
        ensures { result ≡ word.front_under duty.now count }
    {
        Front {
            epoch: duty.epoch,
            holder: duty.holder,
            mode: duty.mode,
            count,
        }
    }

    /// The word that shows it.
    pub(crate) fn word(&self) -> u64
        ensures { result ≡ word.word_of self.now }
    {
        u64::from(self.epoch) * EPOCH_PLACE
            + duty_number(self.holder, self.mode) * DUTY_PLACE
            + u64::from(self.count)
    }

    /// What a word shows.
    pub(crate) fn shown_by(shown: u64) -> Front
        requires { word.FitsWord (word.front_of shown) }
        ensures { result ≡ word.front_of shown }
    {
        Front {
            epoch: (shown / EPOCH_PLACE) as u32,
            holder: if shown / DUTY_PLACE % 2 == 0 {
                NodeName::A
            } else {
                NodeName::B
            },
            mode: if shown / DUTY_PLACE % 4 < 2 {
                Mode::Both
            } else {
                Mode::Alone
            },
            count: (shown % DUTY_PLACE) as u32,
        }
    }
}

fn duty_number(holder: NodeName, mode: Mode) -> u64
    ensures { result ≡ word.duty_number holder mode }
{
    match (holder, mode) {
        (NodeName::A, Mode::Both) => 0,
        (NodeName::B, Mode::Both) => 1,
        (NodeName::A, Mode::Alone) => 2,
        (NodeName::B, Mode::Alone) => 3,
    }
}
