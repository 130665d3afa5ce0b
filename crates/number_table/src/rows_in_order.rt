//! The rows of a table, in the order of their numbers.
use ali_base::Tn;
use number_life::Row;
use std::collections::btree_map::Values;
use std::marker::Model;

/// The rows of a table that are left to be shown, in the order of their numbers.
#[derive(Drop)]
pub struct RowsInOrder<'a> {
    pub(crate) rows: Values<'a, Tn, Row>,
}

impl<'a> Model for RowsInOrder<'a> {
    ghost use Rattle.std.specs.Prelude.{List};
    ghost use Rattle.number_life.specs.declared.row.Row.{Row as AnyRow};

    ghost Value = { List AnyRow };

    ghost view = { λ r. r.rows };
}

impl<'a> Iterator for RowsInOrder<'a> {
    ghost use Rattle.std.specs.Iterator.{YieldsFirstRef, item_count};

    type Item = &'a Row;

    ghost next_gives = { YieldsFirstRef (λ rows. rows) };

    ghost remaining = { item_count (λ rows. rows) };

    fn next(&mut self) -> Option<&'a Row> {
        self.rows.next()
    }
}
