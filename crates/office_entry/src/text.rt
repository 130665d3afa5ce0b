//! Reading the text of an edit.
ghost use Rattle.std.specs.Prelude.{◌≡◌, ◌≤◌, length, option_map, IfSome};
ghost use Rattle.office_entry.specs.EditReading.{small_of, difference_of, field_at, street_at, add_of, retire_of, split_of, renumber_of, set_esn_of, edit_of_text};

use crate::difference::Difference;
use crate::edit::Edit;
use crate::edit_key::EditKey;
use crate::esn_sent::EsnSent;
use ali_base::{House, Parity, StreetKey};
use text_line::{number_of, split_once};

// A house number.
#[tactic(auto, unfolding(crate::specs::EditReading::small_of))]
fn house_of(bytes: &[u8]) -> Option<House>
    ensures { result ≡ small_of bytes.now }
{
    House::new(number_of(bytes)?)
}

// An esn as sent.
#[tactic(auto, unfolding(crate::specs::EditReading::small_of))]
fn esn_of(bytes: &[u8]) -> Option<EsnSent>
    ensures { result ≡ small_of bytes.now }
{
    EsnSent::new(number_of(bytes)?)
}

// A difference: a sign and a number.
#[tactic(auto, unfolding(crate::specs::EditReading::difference_of))]
fn difference_of(bytes: &[u8]) -> Option<Difference>
    ensures { result ≡ difference_of bytes.now }
{
    match bytes {
        [b'+', digits @ ..] => Some(Difference::above(house_of(digits)?)),
        [b'-', digits @ ..] => Difference::below(house_of(digits)?),
        _ => None,
    }
}

// The bytes before the first `|`, at most so many, and those after it.
#[tactic(auto, unfolding(crate::specs::EditReading::field_at))]
fn field_at(width: usize, bytes: &[u8]) -> Option<(&[u8], &[u8])>
    ensures field { option_map (λ x. (x.0.now, x.1.now)) result ≡ field_at width bytes.now }
    ensures fits { IfSome result (λ x. length x.0.now ≤ width) }
{
    let (field, rest) = split_once(bytes, b'|')?;
    if field.len() <= width {
        Some((field, rest))
    } else {
        None
    }
}

// The key that six texts name, and what is left after the `|` behind them.
#[tactic(auto, unfolding(crate::specs::EditReading::street_at))]
fn street_at(bytes: &[u8]) -> Option<(StreetKey, &[u8])>
    ensures { option_map (λ x. (x.0, x.1.now)) result ≡ street_at bytes.now }
{
    let (community, rest) = field_at(32, bytes)?;
    let (state, rest) = field_at(2, rest)?;
    let (prefix, rest) = field_at(2, rest)?;
    let (name, rest) = field_at(60, rest)?;
    let (suffix, rest) = field_at(4, rest)?;
    let (post, rest) = field_at(2, rest)?;
    let key = StreetKey::read(community, state, prefix, name, suffix, post);
    Some((key, rest))
}

// What follows `ADD`.
#[tactic(auto, unfolding(crate::specs::EditReading::add_of))]
fn add_of(bytes: &[u8]) -> Option<Edit>
    ensures { result ≡ add_of bytes.now }
{
    let (key, rest) = street_at(bytes)?;
    let (low, rest) = split_once(rest, b'|')?;
    let (high, rest) = split_once(rest, b'|')?;
    let (parity, esn) = split_once(rest, b'|')?;
    let key = EditKey::new(key)?;
    let low = house_of(low)?;
    let high = house_of(high)?;
    let parity = Parity::read(parity)?;
    let esn = esn_of(esn)?;
    Some(Edit::Add {
        key,
        low,
        high,
        parity,
        esn,
    })
}

// What follows `RETIRE`.
#[tactic(auto, unfolding(crate::specs::EditReading::retire_of))]
fn retire_of(bytes: &[u8]) -> Option<Edit>
    ensures { result ≡ retire_of bytes.now }
{
    let id = number_of(bytes)?;
    Some(Edit::Retire { id })
}

// What follows `SPLIT`.
#[tactic(auto, unfolding(crate::specs::EditReading::split_of))]
fn split_of(bytes: &[u8]) -> Option<Edit>
    ensures { result ≡ split_of bytes.now }
{
    let (id, rest) = split_once(bytes, b' ')?;
    let (at, esn) = split_once(rest, b' ')?;
    let id = number_of(id)?;
    let at = house_of(at)?;
    let esn = esn_of(esn)?;
    Some(Edit::Split { id, at, esn })
}

// What follows `RENUMBER`.
#[tactic(auto, unfolding(crate::specs::EditReading::renumber_of))]
fn renumber_of(bytes: &[u8]) -> Option<Edit>
    ensures { result ≡ renumber_of bytes.now }
{
    let (id, by) = split_once(bytes, b' ')?;
    let id = number_of(id)?;
    let by = difference_of(by)?;
    Some(Edit::Renumber { id, by })
}

// What follows `SETESN`.
#[tactic(auto, unfolding(crate::specs::EditReading::set_esn_of))]
fn set_esn_of(bytes: &[u8]) -> Option<Edit>
    ensures { result ≡ set_esn_of bytes.now }
{
    let (id, esn) = split_once(bytes, b' ')?;
    let id = number_of(id)?;
    let esn = esn_of(esn)?;
    Some(Edit::SetEsn { id, esn })
}

/// The edit of a text.
#[tactic(auto, unfolding(crate::specs::EditReading::edit_of_text))]
pub(crate) fn edit_of_text(bytes: &[u8]) -> Option<Edit>
    ensures { result ≡ edit_of_text bytes.now }
{
    let (word, rest) = split_once(bytes, b' ')?;
    if word == b"ADD".as_slice() {
        add_of(rest)
    } else if word == b"RETIRE".as_slice() {
        retire_of(rest)
    } else if word == b"SPLIT".as_slice() {
        split_of(rest)
    } else if word == b"RENUMBER".as_slice() {
        renumber_of(rest)
    } else if word == b"SETESN".as_slice() {
        set_esn_of(rest)
    } else {
        None
    }
}
