//! The reply to each refusal of a command.
ghost use Rattle.std.specs.Prelude.{◌≡◌, ◌≢◌, false, IsTrue, IfOk, IfSome};
ghost use Rattle.serde_json.specs.View.{view};
ghost use Rattle.serde_json.specs.Written.{has_float};
ghost use Rattle.http_wire.specs.Reply.{is_reply_status};
ghost use Rattle.job_states.specs.declared.answer.Refused.TheVariants as refusal;
ghost use Rattle.queue_replies.specs.Refusals as spec;
ghost use Rattle.queue_replies.specs.Refusals.{HasBody, HasReply, RepliesTo};

use crate::faults::reply_memory;
use crate::json::json_reply;
use http_wire::Reply;
use job_states::{JobId, NoMemory, Pid, Refused, Stage};
use serde_json::{Value, json};
use std::alloc::{AllocError, Global};

/// The reply to a refusal, which says its values: 404, 409, 422 or 507. That to want of memory is 500, and takes none.
/// A row that another seat holds has no reply.
pub fn reply_refused(alloc: Global, refused: &Refused) -> Result<Reply, NoMemory>
    requires { HasReply refused.now }
    ensures reply { RepliesTo refused.now result }
    ensures status { IfOk result (λ reply. IsTrue (is_reply_status reply.status)) }
{
    match refused {
        Refused::NoMemory => Ok(reply_memory()),
        _ => json_reply(alloc, status_of(refused), &body_of(alloc, refused)?),
    }
}

fn status_of(refused: &Refused) -> u16
    ensures value { IfSome (spec.refused_reply refused.now) (λ known. result ≡ known.status) }
    ensures status { IsTrue (is_reply_status result) }
{
    match refused {
        Refused::UnknownClass { .. } | Refused::KeyRefused { .. } => 422,
        Refused::NoSuchJob { .. } | Refused::NoSuchProcess { .. } | Refused::NoSuchTask { .. } => {
            404
        }
        Refused::Full { .. } | Refused::NumbersSpent { .. } => 507,
        Refused::NoMemory => 500,
        _ => 409,
    }
}

fn body_of(alloc: Global, refused: &Refused) -> Result<Value, AllocError>
    requires reply { HasReply refused.now }
    requires values { refused.now ≢ refusal.NoMemory }
    ensures body { HasBody refused.now result }
    ensures whole { IfOk result (λ body. has_float (view body) ≡ false) }
{
    match refused {
        Refused::UnknownClass { index, class } => unknown_class(alloc, *index, class.as_str()),
        Refused::KeyRefused { index } => {
            json!(in alloc; {"error": "key_refused", "index": *index})
        }
        Refused::Full { kept } => json!(in alloc; {"error": "full", "kept": *kept}),
        Refused::ClaimLimit { pid, held } => claim_limit(alloc, *pid, *held),
        Refused::NoSuchJob { id, next } => no_such_job(alloc, *id, *next),
        Refused::WrongState { id, state } => wrong_state(alloc, *id, *state),
        Refused::NotClaimant { id, by } => not_claimant(alloc, *id, *by),
        Refused::NoSuchProcess { pid, next } => no_such_process(alloc, *pid, *next),
        Refused::NoSuchTask { key } => {
            json!(in alloc; {"error": "no_such_task", "key": key.as_str()})
        }
        Refused::AlreadyRun { last } => json!(in alloc; {"error": "already_run", "last": *last}),
        Refused::SemaphoreClosed { key } => {
            json!(in alloc; {"error": "semaphore_closed", "key": key.as_str()})
        }
        Refused::NumbersSpent { next } => {
            json!(in alloc; {"error": "numbers_spent", "next": *next})
        }
        Refused::Locked { .. } | Refused::NoMemory => unreachable!(),
    }
}

fn unknown_class(alloc: Global, index: u32, class: &str) -> Result<Value, AllocError>
    ensures body { HasBody (refusal.UnknownClass index class.now) result }
    ensures whole { IfOk result (λ body. has_float (view body) ≡ false) }
{
    json!(in alloc; {"class": class, "error": "unknown_class", "index": index})
}

fn claim_limit(alloc: Global, pid: Pid, held: u64) -> Result<Value, AllocError>
    ensures body { HasBody (refusal.ClaimLimit pid held) result }
    ensures whole { IfOk result (λ body. has_float (view body) ≡ false) }
{
    json!(in alloc; {"error": "claim_limit", "held": held, "pid": pid})
}

fn no_such_job(alloc: Global, id: u64, next: u64) -> Result<Value, AllocError>
    ensures body { HasBody (refusal.NoSuchJob id next) result }
    ensures whole { IfOk result (λ body. has_float (view body) ≡ false) }
{
    json!(in alloc; {"error": "no_such_job", "id": id, "next": next})
}

fn wrong_state(alloc: Global, id: JobId, state: Stage) -> Result<Value, AllocError>
    ensures body { HasBody (refusal.WrongState id state) result }
    ensures whole { IfOk result (λ body. has_float (view body) ≡ false) }
{
    json!(in alloc; {"error": "wrong_state", "id": id, "state": stage_name(state)})
}

fn not_claimant(alloc: Global, id: JobId, by: Pid) -> Result<Value, AllocError>
    ensures body { HasBody (refusal.NotClaimant id by) result }
    ensures whole { IfOk result (λ body. has_float (view body) ≡ false) }
{
    json!(in alloc; {"by": by, "error": "not_claimant", "id": id})
}

fn no_such_process(alloc: Global, pid: u64, next: u64) -> Result<Value, AllocError>
    ensures body { HasBody (refusal.NoSuchProcess pid next) result }
    ensures whole { IfOk result (λ body. has_float (view body) ≡ false) }
{
    json!(in alloc; {"error": "no_such_process", "next": next, "pid": pid})
}

fn stage_name(stage: Stage) -> &'static str
    ensures { result.now ≡ spec.stage_name stage }
{
    match stage {
        Stage::Scheduled => "scheduled",
        Stage::Ready => "ready",
        Stage::Blocked => "blocked",
        Stage::Claimed => "claimed",
        Stage::Failed => "failed",
        Stage::Finished => "finished",
    }
}
