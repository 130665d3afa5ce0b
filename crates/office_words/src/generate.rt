//! The words behind `generate`.
ghost use Rattle.std.specs.Prelude.{◌≡◌, true, IfOk};
ghost use Rattle.clap.specs.Words.{app_of, first_value, found_of, kind_of};
ghost use Rattle.office_words.specs.Generate.{generate, matched_form};
ghost use Rattle.office_words.specs.Words.{generate_form, generated, is_generate, texts};

use crate::form::{Form, MOST_RECORDS};
use crate::number::number_up_to;
use ali_base::NoMemory;
use clap::error::ErrorKind;
use clap::{Arg, ArgAction, ArgMatches, Command, Error};
use std::alloc::{AllocError, Global};

/// What `generate DIR SEED COUNT` says.
pub(crate) fn read_generate(alloc: Global, words: &[&str]) -> Result<Option<Form>, NoMemory>
    requires { is_generate (texts words.now) ≡ true }
    ensures { IfOk result (λ form. form ≡ generated (texts words.now)) }
{
    let command = generate_command(alloc)?;
    match command.try_get_matches_from(words) {
        Ok(matches) => Ok(matched_form(&matches)),
        Err(error) => Err(want_of_memory(error)),
    }
}

// `generate` and its three words.
fn generate_command<'a>(alloc: Global) -> Result<Command<'a>, AllocError>
    ensures { IfOk result (λ command. app_of command ≡ generate) }
{
    let dir = Arg::new(alloc, "dir").required(true).action(ArgAction::Set);
    let seed = Arg::new(alloc, "seed")
        .required(true)
        .action(ArgAction::Set);
    let count = Arg::new(alloc, "count")
        .required(true)
        .action(ArgAction::Set);
    let plain = Command::new(alloc, "generate").disable_help_flag(true);
    let command = plain.arg(dir)?.arg(seed)?.arg(count)?;
    Ok(command)
}

// What is left of an error that only want of memory can be.
fn want_of_memory(error: Error) -> NoMemory
    requires { kind_of error ≡ ErrorKind.OutOfMemory }
{
    drop(error);
    NoMemory
}

// What the seed and the count that were read say.
fn matched_form(matches: &ArgMatches<'_>) -> Option<Form>
    ensures { result ≡ matched_form (first_value (found_of matches.now)) }
{
    generate_form(matches.get_str("seed")?, matches.get_str("count")?)
}

// What a seed and a count say.
fn generate_form(seed: &str, count: &str) -> Option<Form>
    ensures { result ≡ generate_form seed.now count.now }
{
    let seed = number_up_to(u64::MAX, seed)?;
    let count = number_up_to(u64::from(MOST_RECORDS), count)?;
    if count == 0 {
        return None;
    }
    Some(Form::Generate {
        seed,
        count: count as u32,
    })
}
