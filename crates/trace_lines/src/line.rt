ghost use Rattle.std.specs.Prelude.{◌≡◌, map, IfOk};
ghost use Rattle.job_states.specs.Judged.{Gives};
ghost use Rattle.job_states.specs.Moment.{IsMoment};
ghost use Rattle.trace_lines.specs.Lines as spec;
ghost use Rattle.trace_lines.specs.Lines.{Reads};
ghost use Rattle.trace_lines.specs.Ranges.{IsFitLine};

use crate::command::command_in;
use crate::words::{moment_in, parts_of, seat_in};
use job_states::{Command, Moment, NoMemory};
use std::alloc::{AllocError, Global};
use std::str;
use thiserror::Error;

/// What a line asks for. A seat is 0 to 63.
#[derive(Drop)]
pub enum Line {
    /// That the command is opened at the seat.
    Begin {
        moment: Moment,
        seat: u32,
        command: Command,
    },
    /// That the command is opened at the seat and committed.
    Do {
        moment: Moment,
        seat: u32,
        command: Command,
    },
    /// That what is open at the seat is committed.
    Commit(u32),
    /// That what is open at the seat is closed.
    Rollback(u32),
    /// That what is open is dropped, and the disk is opened anew.
    Reopen,
}

/// Why no line was read.
#[derive(Clone, Copy, Debug, PartialEq, Eq, Error)]
pub enum LineFault {
    /// The bytes have no form of a line.
    #[error("no line")]
    NotALine,
    /// There was no memory for it.
    #[error("out of memory")]
    NoMemory,
}

impl From<AllocError> for LineFault {
    ghost use Rattle.std.specs.Prelude.{◌≡◌};
    ghost use Rattle.trace_lines.specs.declared.line.LineFault.TheVariants as fault;

    ghost from_gives = { λ _ e. e ≡ fault.NoMemory };

    fn from(_: AllocError) -> Self {
        LineFault::NoMemory
    }
}

impl From<NoMemory> for LineFault {
    ghost use Rattle.std.specs.Prelude.{◌≡◌};
    ghost use Rattle.trace_lines.specs.declared.line.LineFault.TheVariants as fault;

    ghost from_gives = { λ _ e. e ≡ fault.NoMemory };

    fn from(_: NoMemory) -> Self {
        LineFault::NoMemory
    }
}

/// The greatest length of a line in bytes.
pub(crate) const MAX_LEN: usize = 4096;

/// The line that the bytes spell, which come without their line feed: at most 4096 bytes of UTF-8, whose words one space
/// separates.
pub fn read_line(alloc: Global, bytes: &[u8]) -> Result<Line, LineFault>
    ensures exact { Reads result (spec.line_of bytes.now) }
    ensures fit { IfOk result IsFitLine }
{
    judged_line(alloc, bytes)
}

fn judged_line(alloc: Global, bytes: &[u8]) -> Result<Line, LineFault>
    ensures exact { Gives LineFault.NoMemory result (spec.judged_line bytes.now) }
    ensures fit { IfOk result IsFitLine }
{
    if bytes.len() > MAX_LEN {
        return Err(LineFault::NotALine);
    }
    let Ok(text) = str::from_utf8(bytes) else {
        return Err(LineFault::NotALine);
    };
    line_of_words(alloc, &parts_of(alloc, text, ' ')?)
}

fn line_of_words(alloc: Global, words: &[&str]) -> Result<Line, LineFault>
    ensures exact { Gives LineFault.NoMemory result (spec.line_of_words (map (λ w. w.now) words.now)) }
    ensures fit { IfOk result IsFitLine }
{
    match *words {
        [word] => reopening(word),
        [seat, end] => ending(seat, end),
        [moment, seat, verb, ref command @ ..] => beginning(alloc, moment, seat, verb, command),
        [] => Err(LineFault::NotALine),
    }
}

fn reopening(word: &str) -> Result<Line, LineFault>
    ensures exact { Gives LineFault.NoMemory result (spec.reopening word.now) }
    ensures fit { IfOk result IsFitLine }
{
    match word {
        "reopen" => Ok(Line::Reopen),
        _ => Err(LineFault::NotALine),
    }
}

fn ending(seat: &str, end: &str) -> Result<Line, LineFault>
    ensures exact { Gives LineFault.NoMemory result (spec.ending seat.now end.now) }
    ensures fit { IfOk result IsFitLine }
{
    match end {
        "commit" => Ok(Line::Commit(seat_in(seat)?)),
        "rollback" => Ok(Line::Rollback(seat_in(seat)?)),
        _ => Err(LineFault::NotALine),
    }
}

fn beginning(
    alloc: Global,
    moment: &str,
    seat: &str,
    verb: &str,
    command: &[&str],
) -> Result<Line, LineFault>
    ensures exact { Gives LineFault.NoMemory result (spec.beginning moment.now seat.now verb.now (map (λ w. w.now) command.now)) }
    ensures fit { IfOk result IsFitLine }
{
    match verb {
        "begin" => Ok(Line::Begin {
            moment: moment_in(moment)?,
            seat: seat_in(seat)?,
            command: command_in(alloc, command)?,
        }),
        "do" => Ok(Line::Do {
            moment: moment_in(moment)?,
            seat: seat_in(seat)?,
            command: command_in(alloc, command)?,
        }),
        _ => Err(LineFault::NotALine),
    }
}
