//! The run of the generated script.
ghost use Rattle.std.specs.Prelude.{◌≡◌, ◌≤◌, ◌<◌, ◌+◌, ◌*◌, ◌^◌, [], ◌∷◌, length, OnOk};
ghost use Rattle.ali_base.specs.Faults.{Rose};
ghost use Rattle.command_desk.specs.MadeReply.{command_of};
ghost use Rattle.generated_script.specs.GeneratedScript.{file_commands, files, files_for, generated, number_of, records_in, street_commands, streets};
ghost use Rattle.generated_script.specs.declared.script.TheConstants.{MOST_RECORDS, STREETS};
ghost use Rattle.office_commands.specs.Commands as commands;
ghost use Rattle.office_commands.specs.Commands.{IsCommand};
ghost use Rattle.office_run.specs.Carrying.{Fills};
ghost use Rattle.office_run.specs.Disks.{disks_of};
ghost use Rattle.office_run.specs.Generated.{Generates, GeneratesFor, IsByCount};
ghost use Rattle.office_run.specs.Serving.{IsOpenDesk, disks_at};
ghost use Rattle.pair_core.specs.Pair.{count_of, handed};

use crate::run::not_opened;
use crate::status::Status;
use crate::tally::Tally;
use crate::text::Text;
use ali_base::{DiskName, NoMemory, NodeName, Sink, Tn};
use command_desk::Desk;
use crash_disk::Disk;
use duty_register::duties_are_known_from_the_image;
use generated_script::{STREETS, Script, street_command};
use node_journal::frames_are_known_from_the_image;
use office_commands::{Ask, Command};
use std::alloc::Global;

/// Opens the disks, on which nothing is to be booked, runs the generated script of this seed with so
/// many records, and puts the summary.
pub(crate) fn generate<K: Sink, D: Disk + Drop>(
    alloc: Global,
    seed: u64,
    count: u32,
    sink: &mut K,
    a: D,
    b: D,
    duty: D,
) -> (Status, D, D, D)
    requires records { (1 ≤ count) × (count ≤ MOST_RECORDS) }
    ensures generates { Generates (disks_of D.state a b duty) (disks_of D.state result.1 result.2 result.3)
        (generated seed count) (K.contents sink.old) (K.contents sink.new) result.0 }
    ensures cause { GeneratesFor D.state (handed a b duty) (handed result.1 result.2 result.3) result.0 }
    ensures sink_fault { result.0 ≡ Status.SinkFault → Rose (K.faults sink.old) (K.faults sink.new) }
{
    // An image stands for one list alone.
    frames_are_known_from_the_image();
    duties_are_known_from_the_image();
    let mut desk = match Desk::open(alloc, a, b, duty) {
        Ok(desk) => desk,
        Err((a, b, duty, end)) => return (not_opened(end), a, b, duty),
    };
    let status = generate_at(alloc, &mut desk, seed, count, sink);
    let (a, b, duty) = desk.close();
    (status, a, b, duty)
}

// Runs the generated script at a desk at which nothing is booked, and puts the summary.
fn generate_at<K: Sink, D: Disk + Drop>(
    alloc: Global,
    desk: &mut Desk<D>,
    seed: u64,
    count: u32,
    sink: &mut K,
) -> Status
    requires opened { IsOpenDesk D.state desk.old }
    requires records { (1 ≤ count) × (count ≤ MOST_RECORDS) }
    ensures generates { Generates (disks_at D.state desk.old) (disks_at D.state desk.new)
        (generated seed count) (K.contents sink.old) (K.contents sink.new) result }
    ensures by_count { IsByCount (count_of desk.old.pair) result }
    ensures sink_fault { result ≡ Status.SinkFault → Rose (K.faults sink.old) (K.faults sink.new) }
{
    if desk.count() > 0 {
        return Status::NotEmpty(DiskName::A);
    }
    let script = Script::new(seed, count);
    let commands = 2 * STREETS + 4 * script.files();
    let mut tally = Tally::new();
    match fill(alloc, desk, script, &mut tally) {
        Ok(()) => match tally.put(commands, desk.count(), sink) {
            Ok(()) => Status::Done,
            Err(_) => Status::SinkFault,
        },
        Err(NoMemory) => Status::NoMemory,
    }
}

// Carries the whole script out.
fn fill<D: Disk + Drop>(
    alloc: Global,
    desk: &mut Desk<D>,
    script: Script,
    tally: &mut Tally,
) -> Result<(), NoMemory>
    requires first { script.made ≡ 0 }
    requires records { script.count ≤ MOST_RECORDS }
    requires room { tally.old.refused ≡ 0 }
    ensures { Fills D.state desk.old desk.new (generated (script.seed) (script.count))
        tally.old tally.new result }
{
    fill_streets(alloc, desk, tally)?;
    fill_files(alloc, desk, script, tally)
}

// Edits the streets.
fn fill_streets<D: Disk + Drop>(
    alloc: Global,
    desk: &mut Desk<D>,
    tally: &mut Tally,
) -> Result<(), NoMemory>
    requires room { tally.old.refused ≡ 0 }
    ensures fills { Fills D.state desk.old desk.new (streets STREETS) tally.old tally.new result }
    ensures room { tally.new.refused ≤ 2 ^ 40 }
{
    for street in 1..STREETS + 1 {
        fill_street(alloc, desk, street, tally)?;
    }
    Ok(())
}

// Edits one street.
fn fill_street<D: Disk + Drop>(
    alloc: Global,
    desk: &mut Desk<D>,
    street: u32,
    tally: &mut Tally,
) -> Result<(), NoMemory>
    requires street { (1 ≤ street) × (street ≤ STREETS) }
    requires room { tally.old.refused ≤ 2 ^ 40 }
    ensures fills { Fills D.state desk.old desk.new (street_commands street) tally.old tally.new result }
    ensures room { tally.new.refused ≤ tally.old.refused + 2 ^ 33 }
{
    carry(alloc, desk, &street_command(street), tally)?;
    carry(alloc, desk, &Command::Batch, tally)
}

// Reads and books the files one after the other.
fn fill_files<D: Disk + Drop>(
    alloc: Global,
    desk: &mut Desk<D>,
    script: Script,
    tally: &mut Tally,
) -> Result<(), NoMemory>
    requires first { script.made ≡ 0 }
    requires records { script.count ≤ MOST_RECORDS }
    requires room { tally.old.refused ≤ 2 ^ 40 }
    ensures { Fills D.state desk.old desk.new
        (files (script.seed) (script.count) (files_for (script.count)))
        tally.old tally.new result }
{
    let mut script = script;
    for _ in 0..script.files() {
        fill_file(alloc, desk, &mut script, tally)?;
    }
    Ok(())
}

// Reads and books the next file, and asks both nodes for its last number.
fn fill_file<D: Disk + Drop>(
    alloc: Global,
    desk: &mut Desk<D>,
    script: &mut Script,
    tally: &mut Tally,
) -> Result<(), NoMemory>
    requires more { script.old.made < files_for (script.old.count) }
    requires room { tally.old.refused ≤ 2 ^ 50 }
    ensures fills { Fills D.state desk.old desk.new
        (file_commands (script.old.seed) (script.old.count) (script.old.made + 1))
        tally.old tally.new result }
    ensures same { (script.new.seed ≡ script.old.seed) × (script.new.count ≡ script.old.count) }
    ensures made { OnOk result (script.new.made ≡ script.old.made + 1) }
    ensures room { tally.new.refused ≤ tally.old.refused + 2 ^ 34 }
{
    let file = script.next_file(alloc)?;
    carry(alloc, desk, &Command::File(&file.bytes), tally)?;
    carry(alloc, desk, &Command::Batch, tally)?;
    carry(alloc, desk, &ask(NodeName::A, 1, file.last), tally)?;
    carry(alloc, desk, &ask(NodeName::B, 2, file.last), tally)
}

// The request of a position for this number, however much is booked.
fn ask(node: NodeName, position: u32, tn: Tn) -> Command<'static>
    ensures { command_of result ≡ commands.Ask node position tn 0 }
{
    Command::Ask(Ask {
        node,
        position,
        tn,
        since: 0,
    })
}

// Carries a command out, and counts what is told of it.
fn carry<D: Disk + Drop>(
    alloc: Global,
    desk: &mut Desk<D>,
    command: &Command<'_>,
    tally: &mut Tally,
) -> Result<(), NoMemory>
    requires command { IsCommand (command_of command.now) }
    requires room { tally.old.refused ≤ 2 ^ 60 }
    ensures fills { Fills D.state desk.old desk.new (command_of command.now ∷ [])
        tally.old tally.new result }
    ensures room { tally.new.refused ≤ tally.old.refused + 2 ^ 32 }
{
    let told = desk.carry_out(alloc, command)?;
    let mut text = Text::new(alloc);
    if desk.put(&told, &mut text).is_err() {
        return Err(NoMemory);
    }
    tally.add(desk.refused_lines(&told), &text.bytes);
    Ok(())
}
