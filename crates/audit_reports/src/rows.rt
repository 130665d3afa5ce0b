//! The fields of a row.
ghost use Rattle.std.specs.Prelude.{◌≡◌, [], ◌∷◌, ◌++◌, map};
ghost use Rattle.std.specs.Fmt.{decimal};
ghost use Rattle.retrieval.specs.AnswerForm.{lock_word};
ghost use Rattle.audit_reports.specs.Listings.{row_house, street_text, community_text, row_fields};

use ali_record::{Field, Record};
use number_life::Row;
use text_line::Line;

/// The fields of a row that do not stand in its record as they are.
#[derive(Drop)]
pub(crate) struct MadeFields {
    house: Line,
    street: Line,
    community: Line,
}

impl MadeFields {
    /// Those of this row.
    pub(crate) fn of(row: &Row) -> Self
        ensures house { result.house ≡ decimal (row_house row.now) }
        ensures street { result.street ≡ street_text row.now.rec }
        ensures community { result.community ≡ community_text row.now.rec }
    {
        MadeFields {
            house: house_line(row),
            street: street_line(&row.rec),
            community: community_line(&row.rec),
        }
    }

    /// All fields of the row that they are of.
    pub(crate) fn with<'a>(&'a self, row: &'a Row) -> [&'a [u8]; 7]
        requires house { self.now.house ≡ decimal (row_house row.now) }
        requires street { self.now.street ≡ street_text row.now.rec }
        requires community { self.now.community ≡ community_text row.now.rec }
        ensures { map (λ f. f.now) result ≡ row_fields row.now }
    {
        [
            row.rec.text(Field::TelephoneNumber),
            row.rec.text(Field::Company),
            lock_word(row),
            row.rec.text(Field::Esn),
            self.house.bytes(),
            self.street.bytes(),
            self.community.bytes(),
        ]
    }

    /// All fields of the row that they are of, and then the days since it was unlocked.
    pub(crate) fn with_days<'a>(&'a self, row: &'a Row, days: &'a [u8]) -> [&'a [u8]; 8]
        requires house { self.now.house ≡ decimal (row_house row.now) }
        requires street { self.now.street ≡ street_text row.now.rec }
        requires community { self.now.community ≡ community_text row.now.rec }
        ensures { map (λ f. f.now) result ≡ row_fields row.now ++ days.now ∷ [] }
    {
        let [tn, company, state, esn, house, street, community] = self.with(row);
        [tn, company, state, esn, house, street, community, days]
    }
}

// Whether a row is locked.
fn lock_word(row: &Row) -> &[u8]
    ensures { result.now ≡ lock_word row.now.unlocked }
{
    match row.unlocked {
        None => b"LOCKED",
        Some(_) => b"UNLOCKED",
    }
}

// The house number; 0 where its columns are blank.
fn house_line(row: &Row) -> Line
    ensures { result ≡ decimal (row_house row.now) }
{
    let number = match row.rec.house() {
        Some(house) => house.number(),
        None => 0,
    };
    let mut line = Line::new();
    line.add_number(u64::from(number));
    line
}

// Prefix, name, suffix and post of the street.
fn street_line(rec: &Record) -> Line
    ensures { result ≡ street_text rec.now }
{
    let mut line = Line::new();
    line.add_word(rec.text(Field::PrefixDirectional));
    line.add_word(rec.text(Field::StreetName));
    line.add_word(rec.text(Field::StreetSuffix));
    line.add_word(rec.text(Field::PostDirectional));
    line
}

// Community and state.
fn community_line(rec: &Record) -> Line
    ensures { result ≡ community_text rec.now }
{
    let mut line = Line::new();
    line.add_word(rec.text(Field::Community));
    line.add_word(rec.text(Field::State));
    line
}
