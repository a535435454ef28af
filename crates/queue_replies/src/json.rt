//! Replies of JSON.
ghost use Rattle.std.specs.Prelude.{◌≡◌, false, IfOk};
ghost use Rattle.serde_json.specs.View.{view};
ghost use Rattle.serde_json.specs.Written.{has_float};
ghost use Rattle.queue_replies.specs.Json as spec;

use http_wire::{Body, BodyKind, Reply};
use job_states::{Bytes, NoMemory};
use serde_json::{Value, json};
use std::alloc::{AllocError, Global};

pub(crate) fn json_reply(alloc: Global, status: u16, value: &Value) -> Result<Reply, NoMemory>
    requires { has_float (view value.now) ≡ false }
    ensures { IfOk result (λ reply. reply ≡ spec.json_reply status (view value.now)) }
{
    Ok(Reply {
        status,
        kind: BodyKind::Json,
        body: Body::Kept(Bytes::of(value.to_vec(alloc)?)),
    })
}

/// `{"error":"not_built"}`
pub(crate) fn error(alloc: Global, name: &str) -> Result<Value, AllocError>
    ensures { IfOk result (λ value. view value ≡ spec.error name.now) }
{
    json!(in alloc; {"error": name})
}

/// The number, or null where there is none.
pub(crate) fn whole_or_null(number: Option<u64>) -> Value
    ensures { view result ≡ spec.whole_or_null number }
{
    Value::from(number)
}
