//! The machine of commands: the row by which each command is answered, the course of its events, and
//! what the replies say.
#![tactic(auto)]

mod laws;

pub use laws::{
    batches_complete_their_jobs, catching_up_ends_in_step, commands_have_replies,
    histories_are_legal, repeated_jobs_get_the_same_reply, steps_keep_machines_lawful,
    undoubted_machines_answer_one_way,
};
