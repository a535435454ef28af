//! The replies to faults: of envelopes, of other bodies, of streams, and of the service itself.
ghost use Rattle.std.specs.Prelude.{◌≡◌, ◌≢◌, IsTrue, IfOk, OnOk};
ghost use Rattle.serde_json.specs.View.{view};
ghost use Rattle.http_wire.specs.Reply.{is_reply_status};
ghost use Rattle.job_envelope.specs.declared.fault.EnvelopeFault.TheVariants as envelope;
ghost use Rattle.queue_replies.specs.Faults as spec;

use crate::json::{error, json_reply};
use http_wire::{Body, BodyKind, Refusal, Reply};
use job_envelope::{EnvelopeFault, Member};
use job_states::NoMemory;
use serde_json::{Value, json};
use std::alloc::{AllocError, Global};

/// 501 `{"error":"not_built"}`
pub fn not_built(alloc: Global) -> Result<Reply, NoMemory>
    ensures { IfOk result (λ reply. reply ≡ spec.not_built) }
{
    json_reply(alloc, 501, &error(alloc, "not_built")?)
}

/// 503 `{"error":"disk_fault"}`, which takes no memory.
pub fn reply_disk() -> Reply
    ensures { result ≡ spec.disk_fault }
{
    Reply {
        status: 503,
        kind: BodyKind::Json,
        body: Body::DiskFault,
    }
}

/// 500 `{"error":"no_memory"}`, which takes no memory.
pub fn reply_memory() -> Reply
    ensures { result ≡ spec.no_memory }
{
    Reply {
        status: 500,
        kind: BodyKind::Json,
        body: Body::NoMemory,
    }
}

/// The reply to a stream that is refused at a place, with which the stream ends:
/// 400 `{"at":74,"error":"bad_request"}`, 413 `{"at":74,"error":"too_large","length":16384}` or
/// 501 `{"at":74,"error":"unsupported"}`.
pub fn fault_reply(alloc: Global, at: u64, refusal: Refusal) -> Result<Reply, NoMemory>
    ensures reply { IfOk result (λ reply. reply ≡ spec.fault_reply at refusal) }
    ensures status { IfOk result (λ reply. IsTrue (is_reply_status reply.status)) }
{
    match refusal {
        Refusal::Bad => json_reply(alloc, 400, &error_at(alloc, at, "bad_request")?),
        Refusal::TooLarge { len } => json_reply(alloc, 413, &length_error_at(alloc, at, len)?),
        Refusal::Unsupported => json_reply(alloc, 501, &error_at(alloc, at, "unsupported")?),
    }
}

/// 413 `{"error":"too_long","index":0,"length":8193}`, 400 `{"error":"missing","index":0,"member":"job_id"}` and the like,
/// with the envelope's place in its request.
pub fn envelope_fault(alloc: Global, index: usize, fault: EnvelopeFault) -> Result<Reply, NoMemory>
    ensures reply { IfOk result (λ reply. reply ≡ spec.envelope_fault index fault) }
    ensures memory { OnOk result (fault ≢ envelope.NoMemory) }
    ensures status { IfOk result (λ reply. IsTrue (is_reply_status reply.status)) }
{
    match fault {
        EnvelopeFault::TooLong { len } => json_reply(alloc, 413, &length_error(alloc, index, len)?),
        EnvelopeFault::NotJson => json_reply(alloc, 400, &job_error(alloc, index, "not_json")?),
        EnvelopeFault::Missing { member } => {
            json_reply(
                alloc,
                400,
                &job_member_error(alloc, index, "missing", member)?,
            )
        }
        EnvelopeFault::WrongKind { member } => {
            json_reply(
                alloc,
                400,
                &job_member_error(alloc, index, "wrong_kind", member)?,
            )
        }
        EnvelopeFault::DateRefused { member } => {
            json_reply(
                alloc,
                400,
                &job_member_error(alloc, index, "date_refused", member)?,
            )
        }
        EnvelopeFault::FloatArgument => {
            json_reply(alloc, 422, &job_error(alloc, index, "float_argument")?)
        }
        EnvelopeFault::NoMemory => Err(NoMemory),
    }
}

/// 400 `{"error":"not_json"}`: the body isn't JSON, or no object where its members are read.
pub fn body_not_json(alloc: Global) -> Result<Reply, NoMemory>
    ensures { IfOk result (λ reply. reply ≡ spec.not_json) }
{
    json_reply(alloc, 400, &error(alloc, "not_json")?)
}

/// 400 `{"error":"missing","member":"kind"}`
pub fn member_missing(alloc: Global, member: &str) -> Result<Reply, NoMemory>
    ensures { IfOk result (λ reply. reply ≡ spec.missing member.now) }
{
    json_reply(alloc, 400, &member_error(alloc, "missing", member)?)
}

/// 400 `{"error":"wrong_kind","member":"kind"}`
pub fn member_wrong_kind(alloc: Global, member: &str) -> Result<Reply, NoMemory>
    ensures { IfOk result (λ reply. reply ≡ spec.wrong_kind member.now) }
{
    json_reply(alloc, 400, &member_error(alloc, "wrong_kind", member)?)
}

/// `{"at":74,"error":"bad_request"}`
fn error_at(alloc: Global, at: u64, name: &str) -> Result<Value, AllocError>
    ensures { IfOk result (λ value. view value ≡ spec.error_at at name.now) }
{
    json!(in alloc; {"at": at, "error": name})
}

/// `{"at":74,"error":"too_large","length":16384}`
fn length_error_at(alloc: Global, at: u64, len: u64) -> Result<Value, AllocError>
    ensures { IfOk result (λ value. view value ≡ spec.length_error_at at len) }
{
    json!(in alloc; {"at": at, "error": "too_large", "length": len})
}

/// `{"error":"not_json","index":0}`
fn job_error(alloc: Global, index: usize, name: &str) -> Result<Value, AllocError>
    ensures { IfOk result (λ value. view value ≡ spec.job_error index name.now) }
{
    json!(in alloc; {"error": name, "index": index})
}

/// `{"error":"missing","index":0,"member":"job_id"}`
fn job_member_error(
    alloc: Global,
    index: usize,
    name: &str,
    member: Member,
) -> Result<Value, AllocError>
    ensures { IfOk result (λ value. view value ≡ spec.job_member_error index name.now member) }
{
    json!(in alloc; {"error": name, "index": index, "member": member.as_str()})
}

/// `{"error":"too_long","index":0,"length":8193}`
fn length_error(alloc: Global, index: usize, len: usize) -> Result<Value, AllocError>
    ensures { IfOk result (λ value. view value ≡ spec.length_error index len) }
{
    json!(in alloc; {"error": "too_long", "index": index, "length": len})
}

/// `{"error":"missing","member":"kind"}`
fn member_error(alloc: Global, name: &str, member: &str) -> Result<Value, AllocError>
    ensures { IfOk result (λ value. view value ≡ spec.member_error name.now member.now) }
{
    json!(in alloc; {"error": name, "member": member})
}
