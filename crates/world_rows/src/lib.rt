//! Rows: how an event of the replicated world is answered, with the refusals in their order and where
//! a disk may fail; and the laws that bind rows to the steps of the world.
#![tactic(auto)]

mod laws;

pub use laws::{
    histories_are_legal_alike, rows_are_steps, rows_give_one_reply, steps_keep_worlds_lawful,
};
