//! Which rows a report lists.
ghost use Rattle.std.specs.Prelude.{◌≡◌};
ghost use Rattle.number_table.specs.HeldRows.{holds_row};
ghost use Rattle.audit_reports.specs.Listings.{is_listed};

use ali_base::{Company, Esn};
use ali_record::Field;
use msag_ranges::{Range, holds};
use number_life::Row;

/// Which rows a report lists.
#[derive(Clone, Copy, Debug)]
pub(crate) enum Listed {
    /// Those of a company.
    Company(Company),
    /// Those with an emergency service number.
    Esn(Esn),
    /// Those that a range of the street guide holds.
    InRange(Range),
}

impl Listed {
    /// Whether this row is listed.
    pub(crate) fn has(&self, row: &Row) -> bool
        ensures { result ≡ is_listed self.now row.now }
    {
        match self {
            Listed::Company(company) => {
                row.rec.field(Field::Company) == company.text().as_slice()
            }
            Listed::Esn(esn) => row.rec.field(Field::Esn) == esn.text().as_slice(),
            Listed::InRange(range) => is_held(range, row),
        }
    }
}

// Whether the range holds the address of the row.
fn is_held(range: &Range, row: &Row) -> bool
    ensures { result ≡ holds_row range.now row.now }
{
    match row.rec.house() {
        Some(house) => holds(range, &row.rec.key(), house),
        None => false,
    }
}
