//! The form that answers a request.
ghost use Rattle.std.specs.Prelude.{◌≡◌, ◌+◌, ◌≤◌, ◌++◌, length, max, take, unwrap_or};
ghost use Rattle.std.specs.Option.{option_copied};
ghost use Rattle.ali_base.specs.HouseNumber.{house_of};
ghost use Rattle.ali_base.specs.declared.house.TheConstants.{HIGHEST_HOUSE};
ghost use Rattle.ali_record.specs.Layout.{field_of};
ghost use Rattle.text_line.specs.WordLines.{line_of};
ghost use Rattle.retrieval.specs.AnswerForm.{printed_house, missing_line, number_line, name_line, address_line, city_line, location_line, lock_word, company_line, row_form, form};
ghost use Rattle.retrieval.specs.WordLists.{texts, widths};

use ali_base::Tn;
use ali_record::{Field, Record};
use itoa::Buffer;
use number_life::Row;
use text_line::Line;

/// The most bytes of a form.
pub const LONGEST_FORM: usize = 290;

// The words as a line.
fn line_of(words: &[&[u8]]) -> Line
    requires { 1 + widths words.now ≤ 160 }
    ensures line { result ≡ line_of (texts words.now) }
    ensures len { length result ≤ max 1 (widths words.now) }
{
    let mut line = Line::new();
    for word in words {
        line.add_word(word);
    }
    line.end();
    line
}

// The house number, 0 where its columns have none.
fn house_number(rec: &Record) -> u32
    ensures number { result ≡ unwrap_or (house_of (field_of rec.now Field.HouseNumber)) 0 }
    ensures limit { result ≤ HIGHEST_HOUSE }
{
    match rec.house() {
        Some(house) => house.number(),
        None => 0,
    }
}

// The house number in decimal digits; nothing where its columns are blank.
fn printed_house<'a>(rec: &Record, buffer: &'a mut Buffer) -> &'a [u8]
    ensures text { result.now ≡ printed_house rec.now }
    ensures len { length result.now ≤ 6 }
{
    if rec.house_blank() {
        &[]
    } else {
        buffer.format(house_number(rec)).as_bytes()
    }
}

fn number_line(rec: &Record) -> Line
    ensures line { result ≡ number_line rec.now }
    ensures len { length result ≤ 29 }
{
    line_of(&[
        b"TN",
        rec.text(Field::TelephoneNumber),
        b"CLASS",
        rec.text(Field::ClassOfService),
        b"TYPE",
        rec.text(Field::TypeOfService),
    ])
}

fn name_line(rec: &Record) -> Line
    ensures line { result ≡ name_line rec.now }
    ensures len { length result ≤ 38 }
{
    line_of(&[b"NAME", rec.text(Field::CustomerName)])
}

fn address_line(rec: &Record) -> Line
    ensures line { result ≡ address_line rec.now }
    ensures len { length result ≤ 89 }
{
    let mut buffer = Buffer::new();
    line_of(&[
        b"ADDR",
        printed_house(rec, &mut buffer),
        rec.text(Field::HouseSuffix),
        rec.text(Field::PrefixDirectional),
        rec.text(Field::StreetName),
        rec.text(Field::StreetSuffix),
        rec.text(Field::PostDirectional),
    ])
}

fn city_line(rec: &Record) -> Line
    ensures line { result ≡ city_line rec.now }
    ensures len { length result ≤ 41 }
{
    line_of(&[b"CITY", rec.text(Field::Community), rec.text(Field::State)])
}

fn location_line(rec: &Record) -> Line
    ensures line { result ≡ location_line rec.now }
    ensures len { length result ≤ 65 }
{
    line_of(&[b"LOC", rec.text(Field::Location)])
}

// Whether a row is locked.
fn lock_word(row: &Row) -> &[u8]
    ensures word { result.now ≡ lock_word row.now.unlocked }
    ensures len { length result.now ≤ 8 }
{
    match row.unlocked {
        None => b"LOCKED",
        Some(_) => b"UNLOCKED",
    }
}

fn company_line(row: &Row) -> Line
    ensures line { result ≡ company_line row.now }
    ensures len { length result ≤ 28 }
{
    line_of(&[
        b"ESN",
        row.rec.text(Field::Esn),
        b"CO",
        row.rec.text(Field::Company),
        lock_word(row),
    ])
}

fn missing_line(tn: Tn) -> Line
    ensures line { result ≡ missing_line tn }
    ensures len { length result ≤ 30 }
{
    line_of(&[b"TN", &tn.text(), b"NO", b"RECORD", b"FOUND"])
}

// Puts a line after the first `at` bytes, and answers where it ends.
fn put_line(out: &mut [u8; 640], at: usize, line: &Line) -> usize
    requires { at + length line.now ≤ 640 }
    ensures text { take result out.new ≡ take at out.old ++ line.now }
    ensures end { result ≡ at + length line.now }
{
    let text = line.bytes();
    let end = at + text.len();
    out[at..end].copy_from_slice(text);
    end
}

// Writes the six lines of a row.
#[tactic(auto, unfolding(crate::specs::AnswerForm::row_form))]
fn row_form(row: &Row, out: &mut [u8; 640]) -> usize
    ensures text { take result out.new ≡ row_form row.now }
    ensures len { result ≤ LONGEST_FORM }
{
    let rec = &row.rec;
    let at = put_line(out, 0, &number_line(rec));
    let at = put_line(out, at, &name_line(rec));
    let at = put_line(out, at, &address_line(rec));
    let at = put_line(out, at, &city_line(rec));
    let at = put_line(out, at, &location_line(rec));
    put_line(out, at, &company_line(row))
}

/// Writes the form of a number, which has this row or none, at the front of `out`, and answers its
/// length, `LONGEST_FORM` at most.
#[tactic(auto, unfolding(crate::specs::AnswerForm::form))]
pub fn form(row: Option<&Row>, tn: Tn, out: &mut [u8; 640]) -> usize
    ensures text { take result out.new ≡ form (option_copied row.entry) tn }
    ensures len { result ≤ LONGEST_FORM }
{
    match row {
        Some(row) => row_form(row, out),
        None => put_line(out, 0, &missing_line(tn)),
    }
}
