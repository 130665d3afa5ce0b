//! The program of the office: the standard streams, the files of the directory and the words of the
//! command line, handed to the call that does all the work.
#![tactic(auto)]

use ali_base::{NoMemory, ReaderSource, WriterSink};
use crash_disk::FileDisk;
use office_run::{Status, office};
use std::fs::{File, Files, OpenOptions};
use std::path::Path;
use std::process::ExitCode;
use std::{env, io};

fn main(rt: HostRuntime) -> ExitCode {
    ExitCode::from(status(&rt).number())
}

// Words that are no text are none of the program's forms.
fn status<R: AllocGlobal + env::Env + Files<File = File> + Input + Print>(rt: &R) -> Status {
    let Ok(args) = env::args(rt) else {
        return Status::Usage;
    };
    match words(rt, args) {
        Ok(words) => run(rt, &words).unwrap_or(Status::NoMemory),
        Err(NoMemory) => Status::NoMemory,
    }
}

// The words after the program's name.
fn words<R: AllocGlobal>(rt: &R, args: env::Args) -> Result<Vec<String>, NoMemory> {
    let mut words = Vec::new(rt.alloc());
    for word in args.skip(1) {
        words.push(word)?;
    }
    Ok(words)
}

// Runs the words over the standard streams and the files.
fn run<R: AllocGlobal + Files<File = File> + Input + Print>(
    rt: &R,
    words: &Vec<String>,
) -> Result<Status, NoMemory> {
    let mut texts = Vec::new(rt.alloc());
    for word in words {
        texts.push(word.as_str())?;
    }
    let a = disk(rt, &texts, "a.jnl")?;
    let b = disk(rt, &texts, "b.jnl")?;
    let duty = disk(rt, &texts, "duty.jnl")?;
    let mut source = ReaderSource::new(rt.reader());
    let mut sink = WriterSink::new(io::writer(rt));
    let (status, ..) = office(rt.alloc(), &texts, &mut source, &mut sink, a, b, duty);
    Ok(status)
}

// The disk over a file of the directory that the words name; for other words one whose every call
// fails. `format` makes the files, where the directory is there.
fn disk<R: AllocGlobal + Files<File = File>>(
    rt: &R,
    words: &[&str],
    name: &str,
) -> Result<FileDisk, NoMemory> {
    let mut options = File::options();
    let dir = match words {
        ["run", dir] | ["generate", dir, _, _] => dir,
        ["format", dir] => {
            options.create(true);
            dir
        }
        _ => return Ok(FileDisk::new(options.open(rt, Path::new("")))),
    };
    let path = Path::new(dir).join(rt.alloc(), name)?;
    Ok(FileDisk::new(options.read(true).write(true).open(rt, path.as_path())))
}
