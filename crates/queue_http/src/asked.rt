//! What a request asks of the engine.
ghost use Rattle.std.specs.Prelude.{◌≡◌, IfOk, IsTrue};
ghost use Rattle.http_wire.specs.Reply.{is_reply_status};
ghost use Rattle.queue_http.specs.Asked as spec;

use http_wire::{Reply, Request};
use job_states::{Command, NoMemory};
use queue_engine::is_built;
use queue_replies::{body_not_json, envelope_fault, member_missing, member_wrong_kind, not_built};
use queue_routes::{Ask, BodyFault, ask_of};
use std::alloc::Global;

/// What a request asks of the engine.
#[derive(Drop)]
pub(crate) enum Asked {
    /// That this is done.
    Command(Command),
    /// Nothing: the reply is known already.
    Known(Reply),
}

pub(crate) fn asked_of(alloc: Global, request: &Request) -> Result<Asked, NoMemory>
    ensures exact { IfOk result (λ asked. asked ≡ spec.asked_of request.now) }
    ensures fit { IfOk result spec.IsSound }
{
    match ask_of(alloc, request)? {
        Ask::Command(command) if is_built(&command) => Ok(Asked::Command(command)),
        Ask::Command(_) | Ask::NotBuilt => Ok(Asked::Known(not_built(alloc)?)),
        Ask::Refused(fault) => Ok(Asked::Known(body_refused(alloc, fault)?)),
    }
}

fn body_refused(alloc: Global, fault: BodyFault) -> Result<Reply, NoMemory>
    ensures reply { IfOk result (λ reply. reply ≡ spec.body_refused fault) }
    ensures status { IfOk result (λ reply. IsTrue (is_reply_status reply.status)) }
{
    match fault {
        BodyFault::NotJson => body_not_json(alloc),
        BodyFault::Missing { member } => member_missing(alloc, member.as_str()),
        BodyFault::WrongKind { member } => member_wrong_kind(alloc, member.as_str()),
        BodyFault::Envelope { index, fault } => envelope_fault(alloc, index as usize, fault),
    }
}
