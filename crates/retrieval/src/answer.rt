//! A form as a value.
ghost use Rattle.std.specs.Prelude.{◌≡◌, ◌≤◌, length};
ghost use Rattle.std.specs.Option.{option_copied};
ghost use Rattle.retrieval.specs.AnswerForm as forms;
ghost use Rattle.retrieval.specs.declared.forms.TheConstants.{LONGEST_FORM};

use crate::forms::form;
use ali_base::Tn;
use number_life::Row;
use std::marker::Model;

/// The form of a number: up to `LONGEST_FORM` bytes.
#[derive(Drop)]
pub struct Form {
    bytes: [u8; 640],
    len: usize,
}

impl Model for Form {
    ghost use Rattle.std.specs.Prelude.{ℕ, ◌≤◌, List, take};
    ghost use Rattle.retrieval.specs.declared.forms.TheConstants.{LONGEST_FORM};

    ghost Value = { List ℕ };

    ghost view = { λ f. take f.len f.bytes };

    ghost invariant = { λ f. f.len ≤ LONGEST_FORM };
}

impl Form {
    /// The form of a number, which has this row or none.
    pub fn of(row: Option<&Row>, tn: Tn) -> Self
        ensures { result ≡ forms.form (option_copied row.entry) tn }
    {
        let mut bytes = [0; 640];
        let len = form(row, tn, &mut bytes);
        Form { bytes, len }
    }

    /// Its bytes.
    pub fn bytes(&self) -> &[u8]
        ensures same { result.now ≡ self.now }
        ensures len { length result.now ≤ LONGEST_FORM }
    {
        &self.bytes[..self.len]
    }
}
