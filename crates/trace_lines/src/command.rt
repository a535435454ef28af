//! Commands, by how many words stand after their own.
ghost use Rattle.std.specs.Prelude.{◌≡◌, map, IfOk};
ghost use Rattle.job_states.specs.Judged.{Gives};
ghost use Rattle.trace_lines.specs.Lines as spec;
ghost use Rattle.trace_lines.specs.Ranges.{IsFit};

use crate::LineFault;
use crate::job::job_in;
use crate::words::{kind_in, limit_in, name_in, number_in, queues_in};
use job_states::{Command, Text};
use std::alloc::Global;

/// The command that the words spell.
pub(crate) fn command_in(alloc: Global, words: &[&str]) -> Result<Command, LineFault>
    ensures exact { Gives LineFault.NoMemory result (spec.command_of (map (λ w. w.now) words.now)) }
    ensures fit { IfOk result IsFit }
{
    match *words {
        [name] => alone(name),
        [name, word] => with_one(alloc, name, word),
        [name, first, second] => with_two(alloc, name, first, second),
        [name, first, second, third] => with_three(alloc, name, first, second, third),
        [name, class, queue, priority, argument, at] => {
            with_job(alloc, name, class, queue, priority, argument, at)
        }
        _ => Err(LineFault::NotALine),
    }
}

fn alone(name: &str) -> Result<Command, LineFault>
    ensures exact { Gives LineFault.NoMemory result (spec.alone name.now) }
    ensures fit { IfOk result IsFit }
{
    match name {
        "dispatch" => Ok(Command::Dispatch),
        "expire" => Ok(Command::Expire),
        "unblock" => Ok(Command::Unblock),
        "prune" => Ok(Command::Prune),
        "clear" => Ok(Command::ClearFinished),
        _ => Err(LineFault::NotALine),
    }
}

fn with_one(alloc: Global, name: &str, word: &str) -> Result<Command, LineFault>
    ensures exact { Gives LineFault.NoMemory result (spec.with_one name.now word.now) }
    ensures fit { IfOk result IsFit }
{
    match name {
        "beat" => Ok(Command::Beat {
            pid: number_in(word)?,
        }),
        "deregister" => Ok(Command::Deregister {
            pid: number_in(word)?,
        }),
        "retry" => Ok(Command::Retry {
            id: number_in(word)?,
        }),
        "discard" => Ok(Command::Discard {
            id: number_in(word)?,
        }),
        "pause" => Ok(Command::Pause {
            queue: name_in(alloc, word)?,
        }),
        "resume" => Ok(Command::Resume {
            queue: name_in(alloc, word)?,
        }),
        "run" => Ok(Command::RunNow {
            task: name_in(alloc, word)?,
        }),
        _ => Err(LineFault::NotALine),
    }
}

fn with_two(alloc: Global, name: &str, first: &str, second: &str) -> Result<Command, LineFault>
    ensures exact { Gives LineFault.NoMemory result (spec.with_two name.now first.now second.now) }
    ensures fit { IfOk result IsFit }
{
    match name {
        "register" => Ok(Command::Register {
            kind: kind_in(first)?,
            name: name_in(alloc, second)?,
        }),
        "done" => {
            let (pid, id) = (number_in(first)?, number_in(second)?);
            Ok(Command::Done { pid, id })
        }
        "release" => {
            let (pid, id) = (number_in(first)?, number_in(second)?);
            Ok(Command::Release { pid, id })
        }
        "tick" => Ok(Command::Tick {
            pid: number_in(first)?,
            task: name_in(alloc, second)?,
        }),
        _ => Err(LineFault::NotALine),
    }
}

fn with_three(
    alloc: Global,
    name: &str,
    first: &str,
    second: &str,
    third: &str,
) -> Result<Command, LineFault>
    ensures exact { Gives LineFault.NoMemory result (spec.with_three name.now first.now second.now third.now) }
    ensures fit { IfOk result IsFit }
{
    match name {
        "poll" => poll(alloc, first, second, third),
        "raised" => Ok(Command::Raised {
            pid: number_in(first)?,
            id: number_in(second)?,
            error: name_in(alloc, third)?,
            message: Text::read(alloc, "")?,
        }),
        _ => Err(LineFault::NotALine),
    }
}

fn poll(alloc: Global, pid: &str, limit: &str, queues: &str) -> Result<Command, LineFault>
    ensures exact { Gives LineFault.NoMemory result (spec.poll_of pid.now limit.now queues.now) }
    ensures fit { IfOk result IsFit }
{
    let pid = number_in(pid)?;
    let limit = limit_in(limit)?;
    let list = queues_in(alloc, queues)?;
    Ok(Command::Poll { pid, list, limit })
}

fn with_job(
    alloc: Global,
    name: &str,
    class: &str,
    queue: &str,
    priority: &str,
    argument: &str,
    at: &str,
) -> Result<Command, LineFault>
    ensures exact { Gives LineFault.NoMemory result (spec.with_job name.now class.now queue.now priority.now argument.now at.now) }
    ensures fit { IfOk result IsFit }
{
    match name {
        "enqueue" => Ok(Command::Enqueue {
            job: job_in(alloc, class, queue, priority, argument, at)?,
        }),
        _ => Err(LineFault::NotALine),
    }
}
