ghost use Rattle.std.specs.Prelude.{◌≤◌};
ghost use Rattle.queue_engine.specs.Calls.{StaysStanding};
ghost use Rattle.queue_engine.specs.Running.{IsGoodRunning, running};
ghost use Rattle.queue_engine.specs.Standing.{IsStanding};
ghost use Rattle.queue_http.specs.Service.{DiskState, disk_state};
ghost use Rattle.queue_trace.specs.Begun.{BeginsOr};
ghost use Rattle.queue_trace.specs.Traced.{IsPrinted, PerformsFrom};
ghost use Rattle.trace_lines.specs.Printed.{not_built_text, printed_text};
ghost use Rattle.trace_lines.specs.Ranges.{IsFitLine};

use job_states::{Command, Moment};
use queue_engine::{Engine, is_built};
use queue_http::is_in_range;
use sq_outside::Disk;
use std::alloc::Global;
use trace_lines::{Line, Printed};

/// Does what the line asks for, and answers what is printed for it. Nothing changes where the seat isn't as the line needs it, where
/// the command, or a line that opens the disk anew, isn't built yet, where the command is refused, and where there is no memory to begin it. Where the disk fails, the store is as it
/// was, and where there is no memory for the text of what was committed, that is kept.
pub fn perform<D: Disk>(alloc: Global, engine: &mut Engine, disk: &mut D, line: Line) -> Printed
    requires fit { IsFitLine line }
    requires standing { IsStanding engine.old (D.history disk.old) }
    ensures performs { PerformsFrom engine.old (disk_state (D.history disk.old) (D.faults disk.old)) line (printed_text result)
        engine.new (disk_state (D.history disk.new) (D.faults disk.new)) }
    ensures good { IsGoodRunning (running engine.new None) }
    ensures faults { D.faults disk.old ≤ D.faults disk.new }
{
    let printed = match line {
        Line::Begin {
            moment,
            seat,
            command,
        } => begin(alloc, engine, seat, command, moment),
        Line::Do {
            moment,
            seat,
            command,
        } => begin_and_commit(alloc, engine, disk, seat, command, moment),
        Line::Commit(seat) => commit(alloc, engine, disk, seat),
        Line::Rollback(seat) => rollback(engine, seat),
        Line::Reopen => not_built(alloc),
    };
    engine.view();
    printed
}

fn begin(alloc: Global, engine: &mut Engine, seat: u32, command: Command, now: Moment) -> Printed
    requires { IsFitLine (Line.Begin now seat command) }
    ensures { (disk : DiskState) → PerformsFrom engine.old disk (Line.Begin now seat command) (printed_text result) engine.new disk }
{
    match opened(alloc, engine, seat, command, now) {
        Ok(()) => Printed::Open,
        Err(printed) => printed,
    }
}

// Nothing between the begin and its commit takes memory.
fn begin_and_commit<D: Disk>(
    alloc: Global,
    engine: &mut Engine,
    disk: &mut D,
    seat: u32,
    command: Command,
    now: Moment,
) -> Printed
    requires fit { IsFitLine (Line.Do now seat command) }
    requires standing { IsStanding engine.old (D.history disk.old) }
    ensures performs { PerformsFrom engine.old (disk_state (D.history disk.old) (D.faults disk.old)) (Line.Do now seat command) (printed_text result)
        engine.new (disk_state (D.history disk.new) (D.faults disk.new)) }
    ensures faults { D.faults disk.old ≤ D.faults disk.new }
{
    match opened(alloc, engine, seat, command, now) {
        Ok(()) => commit(alloc, engine, disk, seat),
        Err(printed) => printed,
    }
}

// What is printed for what isn't built yet.
fn not_built(alloc: Global) -> Printed
    ensures { IsPrinted not_built_text (printed_text result) }
{
    Printed::not_built(alloc).unwrap_or(Printed::NoMemory)
}

// Begins the command, or answers what is printed in place of that.
fn opened(
    alloc: Global,
    engine: &mut Engine,
    seat: u32,
    command: Command,
    now: Moment,
) -> Result<(), Printed>
    requires { IsFitLine (Line.Begin now seat command) }
    ensures begins { BeginsOr seat engine.old command now result engine.new }
    ensures standing { StaysStanding engine.old engine.new }
{
    if engine.is_open(seat) {
        return Err(Printed::SeatOpen);
    }
    if !is_built(&command) {
        return Err(not_built(alloc));
    }
    is_in_range(engine.config(), &command);
    match engine.begin(alloc, seat, command, now) {
        Ok(()) => Ok(()),
        Err(refused) => Err(Printed::refused(alloc, &refused).unwrap_or(Printed::NoMemory)),
    }
}

fn commit<D: Disk>(alloc: Global, engine: &mut Engine, disk: &mut D, seat: u32) -> Printed
    requires { IsStanding engine.old (D.history disk.old) }
    ensures performs { PerformsFrom engine.old (disk_state (D.history disk.old) (D.faults disk.old)) (Line.Commit seat) (printed_text result)
        engine.new (disk_state (D.history disk.new) (D.faults disk.new)) }
    ensures faults { D.faults disk.old ≤ D.faults disk.new }
{
    if !engine.is_open(seat) {
        return Printed::SeatEmpty;
    }
    match engine.commit(disk, seat) {
        Ok(answer) => Printed::answer(alloc, &answer).unwrap_or(Printed::NoMemory),
        Err(_) => Printed::DiskFault,
    }
}

fn rollback(engine: &mut Engine, seat: u32) -> Printed
    ensures { (disk : DiskState) → PerformsFrom engine.old disk (Line.Rollback seat) (printed_text result) engine.new disk }
{
    if !engine.is_open(seat) {
        return Printed::SeatEmpty;
    }
    engine.rollback(seat);
    Printed::RolledBack
}
