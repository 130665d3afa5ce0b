//! How a number stands for a company.
ghost use Rattle.std.specs.Prelude.{◌≡◌};
ghost use Rattle.std.specs.Option.{option_copied};

use crate::row::Row;
use ali_base::Day;
use ali_record::Field;

/// How a number stands for a company: it has no row, or one of its own or of another's, which is
/// locked or unlocked.
#[derive(Clone, Copy, Debug, PartialEq, Eq)]
pub enum NumberStanding {
    Absent,
    OwnLocked,
    OwnUnlocked,
    OthersLocked,
    OthersUnlocked,
}

impl NumberStanding {
    ghost use Rattle.number_life.specs.NumberLife.{number_standing, own, others};

    /// The standing of a number that has this row or none.
    pub(crate) fn of(current: Option<&Row>, company: &[u8]) -> Self
        ensures { result ≡ number_standing (option_copied current.entry) company.now }
    {
        match current {
            None => NumberStanding::Absent,
            Some(row) => {
                if row.rec.field(Field::Company) == company {
                    NumberStanding::own(row.unlocked)
                } else {
                    NumberStanding::others(row.unlocked)
                }
            }
        }
    }

    fn own(unlocked: Option<Day>) -> Self
        ensures { result ≡ own unlocked }
    {
        match unlocked {
            None => NumberStanding::OwnLocked,
            Some(_) => NumberStanding::OwnUnlocked,
        }
    }

    fn others(unlocked: Option<Day>) -> Self
        ensures { result ≡ others unlocked }
    {
        match unlocked {
            None => NumberStanding::OthersLocked,
            Some(_) => NumberStanding::OthersUnlocked,
        }
    }
}
