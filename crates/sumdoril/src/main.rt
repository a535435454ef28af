//! The job system's program: its words are a command, its settings are a file, its input and output are the command's, and
//! its disk is a journal in two files.
#![tactic(auto)]

use queue_cli::{End, is_command, run};
use sq_outside::{FileDisk, HostClock, OptionalFile, StreamSink, StreamSource};
use std::fs::{File, OpenOptions};
use std::io::ErrorKind;
use std::path::Path;
use std::process::ExitCode;
use std::{env, fs, io};

/// The settings' file, in the current folder.
const SETTINGS: &str = "queue.toml";

/// The journal, in the current folder.
const JOURNAL: &str = "queue.journal";

/// The file beside it.
const ALTERNATE: &str = "queue.alternate";

fn main(rt: HostRuntime) -> ExitCode {
    let status = run_with(&rt).unwrap_or(End::NoMemory.exit_status());
    ExitCode::from(status)
}

// There is an `Err` where there is no memory for the words or the clock.
fn run_with(rt: &HostRuntime) -> io::Result<u8> {
    let words = words_of(rt)?;
    let lock = if is_command(&words) {
        lock_journal(rt)
    } else {
        None
    };
    let mut disk = disk_of(rt, &lock);
    let mut config = StreamSource::new(OptionalFile::of(fs::open(rt, SETTINGS)));
    let mut input = StreamSource::new(rt.reader());
    let mut output = StreamSink::new(io::writer(rt));
    let mut clock = HostClock::new(rt.clone()?);
    Ok(run(
        rt.alloc(),
        &words,
        &mut config,
        &mut input,
        &mut output,
        &mut disk,
        &mut clock,
    ))
}

// The words after the program's name. Where one isn't UTF-8 they are no command, as no words are none.
fn words_of(rt: &HostRuntime) -> io::Result<Vec<String>> {
    match env::args(rt) {
        Ok(args) => Ok(args.skip(1).collect(rt.alloc())?),
        Err(error) if error.kind() == ErrorKind::InvalidData => Ok(Vec::new(rt.alloc())),
        Err(error) => Err(error),
    }
}

// The journal's file while this process holds its lock, which keeps others from the journal. Where it can't be had, standard
// error says why.
fn lock_journal(rt: &HostRuntime) -> Option<File> {
    let locked = try_lock_journal(rt);
    if let Err(error) = &locked {
        let _ = match error.kind() {
            ErrorKind::WouldBlock => eprintln!(rt; "{JOURNAL} is in use by another process"),
            _ => eprintln!(rt; "{JOURNAL}: {error}"),
        };
    }
    locked.ok()
}

fn try_lock_journal(rt: &HostRuntime) -> io::Result<File> {
    let mut how = OpenOptions::new();
    how.read(true).write(true).create(true);
    let file = how.open(rt, JOURNAL)?;
    file.try_lock()?;
    Ok(file)
}

// The disk of the journal's files. Without the lock each call on it fails.
fn disk_of(rt: &HostRuntime, lock: &Option<File>) -> FileDisk<File> {
    match lock {
        Some(_) => FileDisk::open(rt, Path::new("."), [JOURNAL, ALTERNATE]),
        None => FileDisk::new(
            Err(ErrorKind::WouldBlock.into()),
            Err(ErrorKind::WouldBlock.into()),
        ),
    }
}
