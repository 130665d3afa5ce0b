//! Reading the bytes of an edit.
ghost use Rattle.std.specs.Prelude.{◌≡◌, option_map};
ghost use Rattle.ali_base.specs.Steps.{when};
ghost use Rattle.ali_base.specs.Columns.{is_empty};
ghost use Rattle.office_entry.specs.BytesReading.{key_at, add_from, retire_from, split_from, renumber_from, set_esn_from, edit_from};

use crate::difference::Difference;
use crate::edit::Edit;
use crate::edit_key::EditKey;
use crate::esn_sent::EsnSent;
use ali_base::{House, Parity, StreetKey, front, number_at};

// The six fields of a street.
#[tactic(auto, unfolding(crate::specs::BytesReading::key_at))]
fn key_at(bytes: &[u8]) -> Option<(StreetKey, &[u8])>
    ensures { option_map (λ x. (x.0, x.1.now)) result ≡ key_at bytes.now }
{
    let (community, rest) = front::<32>(bytes)?;
    let (state, rest) = front::<2>(rest)?;
    let (prefix, rest) = front::<2>(rest)?;
    let (name, rest) = front::<60>(rest)?;
    let (suffix, rest) = front::<4>(rest)?;
    let (post, rest) = front::<2>(rest)?;
    let key = StreetKey {
        community: *community,
        state: *state,
        prefix: *prefix,
        name: *name,
        suffix: *suffix,
        post: *post,
    };
    Some((key, rest))
}

// The edit, where nothing is left after its fields.
fn whole(rest: &[u8], edit: Edit) -> Option<Edit>
    ensures { result ≡ when (is_empty rest.now) edit }
{
    match rest {
        [] => Some(edit),
        _ => None,
    }
}

// The fields of an ADD.
#[tactic(auto, unfolding(crate::specs::BytesReading::add_from))]
fn add_from(bytes: &[u8]) -> Option<Edit>
    ensures { result ≡ add_from bytes.now }
{
    let (key, rest) = key_at(bytes)?;
    let (low, rest) = number_at(rest)?;
    let (high, rest) = number_at(rest)?;
    let (parity, rest) = front::<1>(rest)?;
    let (esn, rest) = number_at(rest)?;
    let key = EditKey::new(key)?;
    let low = House::new(low)?;
    let high = House::new(high)?;
    let parity = Parity::read(parity)?;
    let esn = EsnSent::new(esn)?;
    whole(
        rest,
        Edit::Add {
            key,
            low,
            high,
            parity,
            esn,
        },
    )
}

// The fields of a RETIRE.
#[tactic(auto, unfolding(crate::specs::BytesReading::retire_from))]
fn retire_from(bytes: &[u8]) -> Option<Edit>
    ensures { result ≡ retire_from bytes.now }
{
    let (id, rest) = number_at(bytes)?;
    whole(rest, Edit::Retire { id })
}

// The fields of a SPLIT.
#[tactic(auto, unfolding(crate::specs::BytesReading::split_from))]
fn split_from(bytes: &[u8]) -> Option<Edit>
    ensures { result ≡ split_from bytes.now }
{
    let (id, rest) = number_at(bytes)?;
    let (at, rest) = number_at(rest)?;
    let (esn, rest) = number_at(rest)?;
    let at = House::new(at)?;
    let esn = EsnSent::new(esn)?;
    whole(rest, Edit::Split { id, at, esn })
}

// The fields of a RENUMBER.
#[tactic(auto, unfolding(crate::specs::BytesReading::renumber_from))]
fn renumber_from(bytes: &[u8]) -> Option<Edit>
    ensures { result ≡ renumber_from bytes.now }
{
    let (id, rest) = number_at(bytes)?;
    let (by, rest) = number_at(rest)?;
    let by = Difference::new(by.cast_signed())?;
    whole(rest, Edit::Renumber { id, by })
}

// The fields of a SETESN.
#[tactic(auto, unfolding(crate::specs::BytesReading::set_esn_from))]
fn set_esn_from(bytes: &[u8]) -> Option<Edit>
    ensures { result ≡ set_esn_from bytes.now }
{
    let (id, rest) = number_at(bytes)?;
    let (esn, rest) = number_at(rest)?;
    let esn = EsnSent::new(esn)?;
    whole(rest, Edit::SetEsn { id, esn })
}

/// The edit that these bytes are.
#[tactic(auto, unfolding(crate::specs::BytesReading::edit_from))]
pub(crate) fn edit_from(bytes: &[u8]) -> Option<Edit>
    ensures { result ≡ edit_from bytes.now }
{
    match bytes {
        [b'A', fields @ ..] => add_from(fields),
        [b'R', fields @ ..] => retire_from(fields),
        [b'S', fields @ ..] => split_from(fields),
        [b'N', fields @ ..] => renumber_from(fields),
        [b'W', fields @ ..] => set_esn_from(fields),
        _ => None,
    }
}
