//! Streets in edits.
ghost use Rattle.std.specs.Prelude.{◌≡◌};
ghost use Rattle.std.specs.List.{list_all};
ghost use Rattle.office_entry.specs.EditKeys.{is_street_byte, is_edit_key, edit_key, IsEditKey};

use ali_base::StreetKey;
use std::marker::Model;

/// The street of an edit: a key whose bytes are from the space to the tilde, and neither `|` nor a-z.
#[derive(Clone, Copy, Debug, PartialEq, Eq, PartialOrd, Ord)]
pub struct EditKey {
    key: StreetKey,
}

impl Model for EditKey {
    ghost use Rattle.ali_base.specs.declared.street_key.StreetKey.{StreetKey};
    ghost use Rattle.office_entry.specs.EditKeys.{IsEditKey};

    ghost Value = { StreetKey };

    ghost view = { λ k. k.key };

    ghost invariant = { λ k. IsEditKey k.key };

    ghost inverse = { λ key. record { key = key } };
}

impl EditKey {
    /// This key, where an edit may have it.
    pub fn new(key: StreetKey) -> Option<Self>
        ensures { result ≡ edit_key key }
    {
        if is_edit_key(&key) {
            Some(EditKey { key })
        } else {
            None
        }
    }

    /// The key.
    pub fn key(&self) -> &StreetKey
        ensures same { result.now ≡ self.now }
        ensures bytes { IsEditKey result.now }
    {
        &self.key
    }
}

// Whether an edit may have the key.
fn is_edit_key(key: &StreetKey) -> bool
    ensures { result ≡ is_edit_key key.now }
{
    all_street_bytes(&key.community)
        && all_street_bytes(&key.state)
        && all_street_bytes(&key.prefix)
        && all_street_bytes(&key.name)
        && all_street_bytes(&key.suffix)
        && all_street_bytes(&key.post)
}

// Whether each byte is one of a street in an edit.
fn all_street_bytes(bytes: &[u8]) -> bool
    ensures { result ≡ list_all is_street_byte bytes.now }
{
    bytes.iter().all(|b| 0x20 <= *b && *b <= 0x7e && *b != b'|' && !(b'a' <= *b && *b <= b'z'))
}
