//! Reading commands from the front of a script.
ghost use Rattle.std.specs.Prelude.{◌≡◌, ◌<◌, ◌≤◌, length, option_map, IfSome};
ghost use Rattle.office_commands.specs.Commands.{File, IsCommand};
ghost use Rattle.command_desk.specs.MadeReply.{command_of};
ghost use Rattle.office_run.specs.ScriptReading.{content_at, command_of_line, command_at, line_at};

use office_commands::{Command, CommandLine};
use text_line::split_once;

/// The first command of a script, and what is left after it. None where the bytes do not begin
/// with a command.
#[tactic(auto, unfolding(crate::specs::ScriptReading::command_at))]
pub(crate) fn first_command(bytes: &[u8]) -> Option<(Command<'_>, &[u8])>
    ensures command { option_map (λ x. (command_of x.0, x.1.now)) result ≡ command_at bytes.now }
    ensures lawful { IfSome result (λ x. IsCommand (command_of x.0)) }
    ensures shorter { IfSome result (λ x. length x.1.now < length bytes.now) }
{
    let (line, rest) = line_at(bytes);
    let line = CommandLine::read(line)?;
    command_of_line(rest, &line)
}

// The command of a first line, and what is left after it.
fn command_of_line<'a>(rest: &'a [u8], line: &CommandLine) -> Option<(Command<'a>, &'a [u8])>
    ensures command { option_map (λ x. (command_of x.0, x.1.now)) result
        ≡ command_of_line rest.now line.now }
    ensures no_longer { IfSome result (λ x. length x.1.now ≤ length rest.now) }
{
    match line {
        CommandLine::Ask(ask) => Some((Command::Ask(*ask), rest)),
        CommandLine::Report { node, report } => {
            let command = Command::Report {
                node: *node,
                report: *report,
            };
            Some((command, rest))
        }
        CommandLine::File(len) => {
            let (content, rest) = content_at(*len as usize, rest)?;
            Some((Command::File(content), rest))
        }
        CommandLine::Edit {
            editor,
            serial,
            edit,
        } => {
            let command = Command::Edit {
                editor: *editor,
                serial: *serial,
                edit: *edit,
            };
            Some((command, rest))
        }
        CommandLine::Write(node) => Some((Command::Write(*node), rest)),
        CommandLine::Next => Some((Command::Next, rest)),
        CommandLine::Batch => Some((Command::Batch, rest)),
        CommandLine::CatchUp => Some((Command::CatchUp, rest)),
        CommandLine::Order(order) => Some((Command::Order(*order), rest)),
    }
}

// The first line, and what is left after its end.
#[tactic(auto, unfolding(crate::specs::ScriptReading::line_at))]
fn line_at(bytes: &[u8]) -> (&[u8], &[u8])
    ensures line { line_at bytes.now ≡ (result.0.now, result.1.now) }
    ensures shorter { 0 < length result.0.now → length result.1.now < length bytes.now }
    ensures no_longer { length result.1.now ≤ length bytes.now }
{
    match split_once(bytes, b'\n') {
        Some(parts) => parts,
        None => (bytes, &[]),
    }
}

// The file of so many bytes at the front, and what is left after it and its line's end.
#[tactic(auto, unfolding(crate::specs::ScriptReading::content_at))]
fn content_at(len: usize, bytes: &[u8]) -> Option<(&[u8], &[u8])>
    ensures content { option_map (λ x. (File x.0.now, x.1.now)) result ≡ content_at len bytes.now }
    ensures no_longer { IfSome result (λ x. length x.1.now ≤ length bytes.now) }
{
    let (content, rest) = bytes.split_at_checked(len)?;
    match rest {
        [] => Some((content, rest)),
        [b'\n', rest @ ..] => Some((content, rest)),
        _ => None,
    }
}
