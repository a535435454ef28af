//! What a request asks for.
ghost use Rattle.std.specs.Prelude.{◌≡◌, IfOk};
ghost use Rattle.job_states.specs.Judged.{Gives};
ghost use Rattle.queue_routes.specs.Ask as spec;

use crate::bodies::{
    job_of, jobs_of, kind_at, limit_at, message_at, name_at, object_of, queues_at,
};
use crate::fault::NoCommand;
use crate::routes::{Place, place_of};
use crate::{BodyFault, BodyMember};
use http_wire::Request;
use job_states::{Command, JobId, NoMemory, Pid};
use std::alloc::Global;

/// What a request asks for.
#[derive(Drop)]
pub enum Ask {
    /// That this is done.
    Command(Command),
    /// Nothing that is built: there is no such path, or the path doesn't take the method.
    NotBuilt,
    /// Nothing, since the body has a fault.
    Refused(BodyFault),
}

/// What a request asks for: a path is judged first, then the method, then the body. Where a path needs no body it isn't
/// looked at.
pub fn ask_of(alloc: Global, request: &Request) -> Result<Ask, NoMemory>
    ensures exact { IfOk result (λ ask. ask ≡ spec.ask_of request.now) }
    ensures fit { IfOk result spec.AsksFit }
{
    match command_of(alloc, request) {
        Ok(command) => Ok(Ask::Command(command)),
        Err(NoCommand::NoPath | NoCommand::OtherMethod) => Ok(Ask::NotBuilt),
        Err(NoCommand::Body(fault)) => Ok(Ask::Refused(fault)),
        Err(NoCommand::NoMemory) => Err(NoMemory),
    }
}

fn command_of(alloc: Global, request: &Request) -> Result<Command, NoCommand>
    ensures exact { Gives NoCommand.NoMemory result (spec.command_of request.now) }
    ensures fit { IfOk result spec.IsFit }
{
    let place = place_of(alloc, request.method.as_str(), request.path.as_str())?;
    command_at(alloc, place, request.body.as_slice())
}

fn command_at(alloc: Global, place: Place, body: &[u8]) -> Result<Command, NoCommand>
    ensures exact { Gives NoCommand.NoMemory result (spec.command_at place body.now) }
    ensures fit { IfOk result spec.IsFit }
{
    match place {
        Place::Jobs => Ok(Command::Enqueue {
            job: job_of(alloc, body)?,
        }),
        Place::Bulk => Ok(Command::Bulk {
            jobs: jobs_of(alloc, body)?,
        }),
        Place::Processes => register(alloc, body),
        Place::Beat { pid } => Ok(Command::Beat { pid }),
        Place::Process { pid } => Ok(Command::Deregister { pid }),
        Place::Poll { pid } => poll(alloc, pid, body),
        Place::Done { pid, id } => Ok(Command::Done { pid, id }),
        Place::Raised { pid, id } => raised(alloc, pid, id, body),
        Place::Release { pid, id } => Ok(Command::Release { pid, id }),
        Place::Tick { pid, task } => Ok(Command::Tick { pid, task }),
        Place::Dispatch => Ok(Command::Dispatch),
        Place::Expire => Ok(Command::Expire),
        Place::Unblock => Ok(Command::Unblock),
        Place::Prune => Ok(Command::Prune),
        Place::Clear => Ok(Command::ClearFinished),
    }
}

#[tactic(auto, unfolding(crate::specs::Ask::register_of))]
fn register(alloc: Global, body: &[u8]) -> Result<Command, NoCommand>
    ensures exact { Gives NoCommand.NoMemory result (spec.register_of body.now) }
    ensures fit { IfOk result spec.IsFit }
{
    let body = object_of(alloc, body)?;
    let kind = kind_at(&body)?;
    let name = name_at(alloc, &body, BodyMember::Name)?;
    Ok(Command::Register { kind, name })
}

#[tactic(auto, unfolding(crate::specs::Ask::poll_of))]
fn poll(alloc: Global, pid: Pid, body: &[u8]) -> Result<Command, NoCommand>
    ensures exact { Gives NoCommand.NoMemory result (spec.poll_of pid body.now) }
    ensures fit { IfOk result spec.IsFit }
{
    let body = object_of(alloc, body)?;
    let limit = limit_at(&body)?;
    let list = queues_at(alloc, &body)?;
    Ok(Command::Poll { pid, list, limit })
}

#[tactic(auto, unfolding(crate::specs::Ask::raised_of))]
fn raised(alloc: Global, pid: Pid, id: JobId, body: &[u8]) -> Result<Command, NoCommand>
    ensures exact { Gives NoCommand.NoMemory result (spec.raised_of pid id body.now) }
    ensures fit { IfOk result spec.IsFit }
{
    let body = object_of(alloc, body)?;
    let error = name_at(alloc, &body, BodyMember::Error)?;
    let message = message_at(alloc, &body)?;
    Ok(Command::Raised {
        pid,
        id,
        error,
        message,
    })
}
