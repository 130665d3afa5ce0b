//! The bytes of an edit while they are put together.
ghost use Rattle.std.specs.Prelude.{◌≡◌, ℕ, ◌+◌, ◌≤◌, List, [], ◌∷◌, ◌++◌, length};
ghost use Rattle.ali_base.specs.Fronts.{number_bytes};
ghost use Rattle.office_entry.specs.EditKeys.{IsEditKey};
ghost use Rattle.office_entry.specs.EditBytes.{key_bytes};

use crate::edit_key::EditKey;
use std::marker::Model;

/// A letter and fields: up to 128 bytes.
#[derive(Drop)]
pub(crate) struct EditFields {
    bytes: [u8; 128],
    len: usize,
}

impl Model for EditFields {
    ghost use Rattle.std.specs.Prelude.{ℕ, ◌≤◌, List, take};

    ghost Value = { List ℕ };

    ghost view = { λ f. take f.len f.bytes };

    ghost invariant = { λ f. f.len ≤ 128 };
}

impl EditFields {
    /// The letter alone.
    pub(crate) fn new(letter: u8) -> Self
        ensures bytes { result ≡ letter ∷ [] }
        ensures len { length result ≡ 1 }
    {
        EditFields {
            bytes: [letter; 128],
            len: 1,
        }
    }

    /// The bytes so far.
    pub(crate) fn bytes(&self) -> &[u8]
        ensures same { result.now ≡ self.now }
        ensures len { length result.now ≤ 128 }
    {
        &self.bytes[..self.len]
    }

    /// Adds a field at the end.
    pub(crate) fn push(&mut self, field: &[u8])
        requires { length self.old + length field.now ≤ 128 }
        ensures bytes { self.new ≡ self.old ++ field.now }
        ensures len { length self.new ≡ length self.old + length field.now }
    {
        let end = self.len + field.len();
        self.bytes[self.len..end].copy_from_slice(field);
        self.len = end;
    }

    /// Adds a number.
    pub(crate) fn push_number(&mut self, number: u32)
        requires { length self.old + 4 ≤ 128 }
        ensures bytes { self.new ≡ self.old ++ number_bytes number }
        ensures len { length self.new ≡ length self.old + 4 }
    {
        self.push(&number.to_be_bytes());
    }

    /// Adds the six fields of a street.
    pub(crate) fn push_key(&mut self, key: &EditKey)
        requires { length self.old + 102 ≤ 128 }
        ensures bytes { self.new ≡ self.old ++ key_bytes key.now }
        ensures len { length self.new ≡ length self.old + 102 }
        ensures lawful { IsEditKey key.now }
    {
        let key = key.key();
        self.push(&key.community);
        self.push(&key.state);
        self.push(&key.prefix);
        self.push(&key.name);
        self.push(&key.suffix);
        self.push(&key.post);
    }
}
