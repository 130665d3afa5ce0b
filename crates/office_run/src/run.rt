//! The call that does all that the program does.
ghost use Rattle.std.specs.Prelude.{◌≡◌, ◌≤◌, ℕ, length, Some, None};
ghost use Rattle.ali_base.specs.Faults.{Rose};
ghost use Rattle.command_desk.specs.OpenedDesk.{Keeps as KeepsDesk};
ghost use Rattle.office_run.specs.Disks.{disks_of, counts_of};
ghost use Rattle.office_run.specs.Exit.{Exit, DiskCause, Completes, IsNoForm};
ghost use Rattle.generated_script.specs.GeneratedScript.{generated};
ghost use Rattle.office_run.specs.Formatted.{Formats};
ghost use Rattle.office_run.specs.Generated.{Generates, GeneratesFor, GeneratesAll};
ghost use Rattle.office_run.specs.Serving.{IsOpenDesk, IsServed, Serves, disks_at, end_status};
ghost use Rattle.office_words.specs.Words.{form_of, texts};
ghost use Rattle.office_words.specs.declared.form.Form.TheVariants as Form;
ghost use Rattle.office_run.specs.declared.input.TheConstants.{SCRIPT_LIMIT};
ghost use Rattle.pair_core.specs.Pair.{handed};
ghost use Rattle.world_rows.specs.Counts.{NoneRose};

use crate::command::first_command;
use crate::formatting::format;
use crate::generate::generate;
use crate::input::{InputFault, read_all};
use crate::status::Status;
use ali_base::{NoMemory, Sink, Source};
use command_desk::Desk;
use crash_disk::Disk;
use duty_register::{duties_are_counted, duties_are_known_from_the_image};
use node_journal::frames_are_known_from_the_image;
use office_words::{Form, read_words};
use pair_core::OpenEnd;
use std::alloc::Global;

/// Does what the words say, and hands the disks a, b and duty back with the status.
///
/// `run DIR` opens the register, then node a, then node b, reads the source to its end, and then answers
/// the commands of the script one after the other, each reply put whole before the next command.
/// `format DIR` formats the three disks, in the same order. `generate DIR SEED COUNT` opens the disks as
/// `run` does, and runs the generated script on them. DIR is where `main` finds the disks.
pub fn office<S: Source, K: Sink, D: Disk + Drop>(
    alloc: Global,
    words: &[&str],
    source: &mut S,
    sink: &mut K,
    a: D,
    b: D,
    duty: D,
) -> (Status, D, D, D)
    // The words decide whether anything is called.
    ensures usage { result.0 ≡ Status.Usage → form_of (texts words.now) ≡ None }
    ensures only { form_of (texts words.now) ≡ None → IsNoForm (texts words.now) result.0 }
    ensures untouched { form_of (texts words.now) ≡ None
        → (source.new ≡ source.old) × (sink.new ≡ sink.old)
        × (result.1 ≡ a) × (result.2 ≡ b) × (result.3 ≡ duty) }

    // Of a run, what was taken, put and done is what the status says: over honest disks the replies
    // are those of one machine over one booked history, and whatever a crash may leave keeps it.
    ensures exit { form_of (texts words.now) ≡ Some Form.Run
        → Exit (disks_of D.state a b duty) (disks_of D.state result.1 result.2 result.3)
        (S.left source.old) (S.left source.new) (K.contents sink.old) (K.contents sink.new) result.0 }

    // A fault is answered only where it shows in the count of its object, and what is said of a disk
    // only where its bytes show it.
    ensures source_fault { result.0 ≡ Status.SourceFault
        → Rose (S.faults source.old) (S.faults source.new) }
    ensures sink_fault { result.0 ≡ Status.SinkFault → Rose (K.faults sink.old) (K.faults sink.new) }
    ensures disk_cause { form_of (texts words.now) ≡ Some Form.Run
        → DiskCause D.state (handed a b duty) (handed result.1 result.2 result.3) result.0 }

    // Where nothing fails, all of a script is done.
    ensures complete { form_of (texts words.now) ≡ Some Form.Run
        → Completes (S.left source.old) (disks_of D.state a b duty)
        (Rose (S.faults source.old) (S.faults source.new))
        (Rose (K.faults sink.old) (K.faults sink.new))
        (NoneRose (counts_of (disks_of D.state a b duty))
        (counts_of (disks_of D.state result.1 result.2 result.3)))
        result.0 }

    // Formatting takes empty disks, and leaves the source untouched.
    ensures formats { form_of (texts words.now) ≡ Some Form.Format
        → (source.new ≡ source.old)
        × Formats (disks_of D.state a b duty) (disks_of D.state result.1 result.2 result.3)
        (K.contents sink.old) (K.contents sink.new) result.0 }

    // The generated script is run as any other, from disks on which nothing is booked; it leaves the
    // source untouched, and puts the summary in place of the replies.
    ensures generates { (seed count : ℕ) → form_of (texts words.now) ≡ Some (Form.Generate seed count)
        → (source.new ≡ source.old)
        × Generates (disks_of D.state a b duty) (disks_of D.state result.1 result.2 result.3)
        (generated seed count) (K.contents sink.old) (K.contents sink.new) result.0 }
    ensures generates_for { (seed count : ℕ) → form_of (texts words.now) ≡ Some (Form.Generate seed count)
        → GeneratesFor D.state (handed a b duty) (handed result.1 result.2 result.3) result.0 }
    ensures generates_all { (seed count : ℕ) → form_of (texts words.now) ≡ Some (Form.Generate seed count)
        → GeneratesAll (disks_of D.state a b duty)
        (Rose (K.faults sink.old) (K.faults sink.new))
        (NoneRose (counts_of (disks_of D.state a b duty))
        (counts_of (disks_of D.state result.1 result.2 result.3)))
        result.0 }
{
    // Each image stands for one list, or shows why it stands for none.
    frames_are_known_from_the_image();
    duties_are_known_from_the_image();
    duties_are_counted();
    node_journal::an_image_is_read_one_way();
    duty_register::an_image_is_read_one_way();
    match read_words(alloc, words) {
        Ok(Some(Form::Run)) => run(alloc, source, sink, a, b, duty),
        Ok(Some(Form::Format)) => formatted(sink, a, b, duty),
        Ok(Some(Form::Generate { seed, count })) => generate(alloc, seed, count, sink, a, b, duty),
        Ok(None) => (Status::Usage, a, b, duty),
        Err(NoMemory) => (Status::NoMemory, a, b, duty),
    }
}

// Formats the disks.
fn formatted<K: Sink, D: Disk>(sink: &mut K, a: D, b: D, duty: D) -> (Status, D, D, D)
    ensures formats { Formats (disks_of D.state a b duty) (disks_of D.state result.1 result.2 result.3)
        (K.contents sink.old) (K.contents sink.new) result.0 }
    ensures sink_fault { result.0 ≡ Status.SinkFault → Rose (K.faults sink.old) (K.faults sink.new) }
{
    let (mut a, mut b, mut duty) = (a, b, duty);
    let status = format(sink, &mut a, &mut b, &mut duty);
    (status, a, b, duty)
}

// Opens the disks, reads the source to its end, and runs what it held.
fn run<S: Source, K: Sink, D: Disk + Drop>(
    alloc: Global,
    source: &mut S,
    sink: &mut K,
    a: D,
    b: D,
    duty: D,
) -> (Status, D, D, D)
    ensures exit { Exit (disks_of D.state a b duty) (disks_of D.state result.1 result.2 result.3)
        (S.left source.old) (S.left source.new) (K.contents sink.old) (K.contents sink.new) result.0 }
    ensures source_fault { result.0 ≡ Status.SourceFault
        → Rose (S.faults source.old) (S.faults source.new) }
    ensures sink_fault { result.0 ≡ Status.SinkFault → Rose (K.faults sink.old) (K.faults sink.new) }
    ensures disk_cause { DiskCause D.state (handed a b duty) (handed result.1 result.2 result.3) result.0 }
{
    // An image stands for one list alone.
    frames_are_known_from_the_image();
    duties_are_known_from_the_image();
    let mut desk = match Desk::open(alloc, a, b, duty) {
        Ok(desk) => desk,
        Err((a, b, duty, end)) => return (not_opened(end), a, b, duty),
    };
    let status = serve(alloc, &mut desk, source, sink);
    let (a, b, duty) = desk.close();
    (status, a, b, duty)
}

// The status where the disks are not opened.
pub(crate) fn not_opened(end: OpenEnd) -> Status
    ensures { result ≡ end_status end }
{
    match end {
        OpenEnd::OpenFault(disk) => Status::OpenFault(disk),
        OpenEnd::Foreign(disk) => Status::Foreign(disk),
        OpenEnd::Damaged(disk, frame) => Status::Damaged(disk, frame),
        OpenEnd::Short { node, have, floor } => Status::Short { node, have, floor },
        OpenEnd::NoMemory => Status::NoMemory,
    }
}

// Reads the source to its end, and runs the script at the desk.
fn serve<S: Source, K: Sink, D: Disk + Drop>(
    alloc: Global,
    desk: &mut Desk<D>,
    source: &mut S,
    sink: &mut K,
) -> Status
    requires opened { IsOpenDesk D.state desk.old }
    ensures exit { Exit (disks_at D.state desk.old) (disks_at D.state desk.new)
        (S.left source.old) (S.left source.new) (K.contents sink.old) (K.contents sink.new) result }
    ensures served { IsServed result }
    ensures keeps { KeepsDesk D.state desk.old desk.new }
    ensures source_fault { result ≡ Status.SourceFault
        → Rose (S.faults source.old) (S.faults source.new) }
    ensures sink_fault { result ≡ Status.SinkFault → Rose (K.faults sink.old) (K.faults sink.new) }
{
    match read_all(alloc, source) {
        Ok(script) => answer_all(alloc, desk, &script, sink),
        Err(InputFault::NoMemory) => Status::NoMemory,
        Err(InputFault::Failed) => Status::SourceFault,
        Err(InputFault::TooLong) => Status::TooLong,
    }
}

// Answers the commands one after the other, and puts each reply whole before the next command.
fn answer_all<K: Sink, D: Disk + Drop>(
    alloc: Global,
    desk: &mut Desk<D>,
    script: &[u8],
    sink: &mut K,
) -> Status
    requires opened { IsOpenDesk D.state desk.old }
    requires limit { length script.now ≤ SCRIPT_LIMIT }
    ensures serves { Serves (disks_at D.state desk.old) (disks_at D.state desk.new)
        script.now (K.contents sink.old) (K.contents sink.new) result }
    ensures keeps { KeepsDesk D.state desk.old desk.new }
    ensures sink_fault { result ≡ Status.SinkFault → Rose (K.faults sink.old) (K.faults sink.new) }
{
    let mut rest = script;
    let mut count: u32 = 0;
    while !rest.is_empty() {
        let (command, after) = match first_command(rest) {
            Some(found) => found,
            None => return Status::Script(count + 1),
        };
        let told = match desk.carry_out(alloc, &command) {
            Ok(told) => told,
            Err(NoMemory) => return Status::NoMemory,
        };
        if desk.put(&told, sink).is_err() {
            return Status::SinkFault;
        }
        rest = after;
        count += 1;
    }
    Status::Done
}
