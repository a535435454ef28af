ghost use Rattle.std.specs.Prelude.{◌≡◌, ◌<◌, ◌≤◌, IsTrue, IsSome, IfSome};
ghost use Rattle.job_states.specs.Moment.{IsMoment};
ghost use Rattle.http_wire.specs.Reply.{is_reply_status};
ghost use Rattle.queue_model.specs.Map as map;
ghost use Rattle.queue_engine.specs.Running.{IsGoodRunning, running};
ghost use Rattle.queue_engine.specs.Standing.{IsStanding};
ghost use Rattle.queue_replies.specs.Refusals.{HasReply, refused_reply};
ghost use Rattle.queue_http.specs.Asked.{IsAskable};
ghost use Rattle.queue_http.specs.Ended.{EndsFrom, IsReply, PerformsFrom};
ghost use Rattle.queue_http.specs.Service.{disk_state, IsIdle, ServesFrom};

use crate::asked::{Asked, asked_of};
use crate::ranges::is_in_range;
use http_wire::{Reply, Request};
use job_states::{Command, Moment, NoMemory, Refused};
use queue_engine::Engine;
use queue_replies::{reply_disk, reply_memory, reply_of, reply_refused};
use sq_outside::{Clock, Disk};
use std::alloc::Global;

/// Answers one request. A command takes one moment of the clock, begins at the seat and commits there. Where it is refused
/// nothing changes, where the disk fails the store is as it was, and where there is no memory for the reply to what was
/// committed, that is kept.
pub fn answer<D: Disk, C: Clock>(
    alloc: Global,
    engine: &mut Engine,
    disk: &mut D,
    clock: &mut C,
    seat: u32,
    request: &Request,
) -> Reply
    requires seat { seat < 64 }
    requires idle { IsIdle engine.old.book }
    requires standing { IsStanding engine.old (D.history disk.old) }
    ensures serves { ServesFrom seat engine.old (C.moments clock.old) (disk_state (D.history disk.old) (D.faults disk.old)) request.now result
        engine.new (C.moments clock.new) (disk_state (D.history disk.new) (D.faults disk.new)) }
    ensures idle { IsIdle engine.new.book }
    ensures good { IsGoodRunning (running engine.new None) }
    ensures status { IsTrue (is_reply_status result.status) }
    ensures faults { D.faults disk.old ≤ D.faults disk.new }
{
    let reply = match asked_of(alloc, request) {
        Ok(Asked::Command(command)) => perform(alloc, engine, disk, seat, command, clock.now()),
        Ok(Asked::Known(reply)) => reply,
        Err(NoMemory) => reply_memory(),
    };
    engine.view();
    reply
}

// Nothing between a begin and its commit takes memory.
fn perform<D: Disk>(
    alloc: Global,
    engine: &mut Engine,
    disk: &mut D,
    seat: u32,
    command: Command,
    now: Moment,
) -> Reply
    requires seat { seat < 64 }
    requires idle { IsIdle engine.old.book }
    requires standing { IsStanding engine.old (D.history disk.old) }
    requires command { IsAskable command }
    requires now { IsMoment now }
    ensures performs { PerformsFrom seat engine.old (disk_state (D.history disk.old) (D.faults disk.old)) command now result
        engine.new (disk_state (D.history disk.new) (D.faults disk.new)) }
    ensures idle { IsIdle engine.new.book }
    ensures status { IsTrue (is_reply_status result.status) }
    ensures faults { D.faults disk.old ≤ D.faults disk.new }
{
    is_in_range(engine.config(), &command);
    match engine.begin(alloc, seat, command, now) {
        Ok(()) => commit(alloc, engine, disk, seat),
        Err(refused) => refuse(alloc, &refused),
    }
}

fn commit<D: Disk>(alloc: Global, engine: &mut Engine, disk: &mut D, seat: u32) -> Reply
    requires open { IsSome (map.get engine.old.book.open_plans seat) }
    requires standing { IsStanding engine.old (D.history disk.old) }
    ensures ends { EndsFrom seat engine.old (disk_state (D.history disk.old) (D.faults disk.old)) result
        engine.new (disk_state (D.history disk.new) (D.faults disk.new)) }
    ensures status { IsTrue (is_reply_status result.status) }
    ensures faults { D.faults disk.old ≤ D.faults disk.new }
{
    match engine.commit(disk, seat) {
        Ok(answer) => match reply_of(alloc, &answer) {
            Ok(reply) => reply,
            Err(NoMemory) => reply_memory(),
        },
        Err(_) => reply_disk(),
    }
}

fn refuse(alloc: Global, refused: &Refused) -> Reply
    requires { HasReply refused.now }
    ensures reply { IfSome (refused_reply refused.now) (IsReply result) }
    ensures status { IsTrue (is_reply_status result.status) }
{
    match reply_refused(alloc, refused) {
        Ok(reply) => reply,
        Err(NoMemory) => reply_memory(),
    }
}
