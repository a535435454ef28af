//! What is printed for a line.
ghost use Rattle.std.specs.Prelude.{◌≡◌, codes, false, IfOk, string_bytes};
ghost use Rattle.serde_json.specs.View.{view};
ghost use Rattle.serde_json.specs.Written.{compact_text, has_float};
ghost use Rattle.http_wire.specs.Reply.{body_bytes};
ghost use Rattle.queue_replies.specs.Faults.{error_at};
ghost use Rattle.trace_lines.specs.Printed as spec;

use http_wire::Body;
use job_states::{Answer, Bytes, NoMemory, Polled, Refused, Row};
use queue_replies::{not_built, reply_of, reply_refused};
use serde_json::{Value, json};
use std::alloc::{AllocError, Global};

/// A printed line, without its line feed.
#[derive(Drop)]
pub enum Printed {
    /// `open`
    Open,
    /// `rolled back`
    RolledBack,
    /// `reopened`
    Reopened,
    /// `{"error":"seat_open"}`
    SeatOpen,
    /// `{"error":"seat_empty"}`
    SeatEmpty,
    /// `{"error":"disk_fault"}`
    DiskFault,
    /// `{"error":"no_memory"}`
    NoMemory,
    /// What is said of an answer, of a refusal, of a bad line or of a command that isn't built yet.
    Json(Bytes),
}

impl Printed {
    /// The line's bytes.
    pub fn as_slice(&self) -> &[u8]
        ensures { result.now ≡ spec.printed_text self.now }
    {
        match self {
            Printed::Open => b"open",
            Printed::RolledBack => b"rolled back",
            Printed::Reopened => b"reopened",
            Printed::SeatOpen => br#"{"error":"seat_open"}"#,
            Printed::SeatEmpty => br#"{"error":"seat_empty"}"#,
            Printed::DiskFault => br#"{"error":"disk_fault"}"#,
            Printed::NoMemory => br#"{"error":"no_memory"}"#,
            Printed::Json(bytes) => bytes.as_slice(),
        }
    }

    /// The body of the reply to an answer. A poll prints the numbers of the jobs alone: `{"ids":[1,2]}`.
    pub fn answer(alloc: Global, answer: &Answer) -> Result<Self, NoMemory>
        ensures { IfOk result (λ printed. spec.printed_text printed ≡ spec.answer_text answer.now) }
    {
        match answer {
            Answer::Polled(jobs) => printed_json(alloc, &claimed_ids(alloc, jobs.as_slice())?),
            _ => Ok(printed_body(reply_of(alloc, answer)?.body)),
        }
    }

    /// The body of the reply to a refusal. A row that the seat `by` holds prints `{"by":0,"error":"locked","row":"job 1"}`.
    pub fn refused(alloc: Global, refused: &Refused) -> Result<Self, NoMemory>
        ensures { IfOk result (λ printed. spec.printed_text printed ≡ spec.refused_text refused.now) }
    {
        match refused {
            Refused::Locked { row, by } => printed_json(alloc, &locked_error(alloc, row, *by)?),
            _ => Ok(printed_body(reply_refused(alloc, refused)?.body)),
        }
    }

    /// `{"at":74,"error":"bad_line"}`, with the place of the line's first byte.
    pub fn bad_line(alloc: Global, at: u64) -> Result<Self, NoMemory>
        ensures { IfOk result (λ printed. spec.printed_text printed ≡ spec.bad_line_text at) }
    {
        printed_json(alloc, &bad_line(alloc, at)?)
    }

    /// `{"error":"not_built"}`, for a command that isn't built yet.
    pub fn not_built(alloc: Global) -> Result<Self, NoMemory>
        ensures { IfOk result (λ printed. spec.printed_text printed ≡ spec.not_built_text) }
    {
        Ok(printed_body(not_built(alloc)?.body))
    }
}

fn printed_body(body: Body) -> Printed
    ensures { spec.printed_text result ≡ body_bytes body }
{
    match body {
        Body::Kept(bytes) => Printed::Json(bytes),
        Body::DiskFault => Printed::DiskFault,
        Body::NoMemory => Printed::NoMemory,
    }
}

fn printed_json(alloc: Global, value: &Value) -> Result<Printed, NoMemory>
    requires { has_float (view value.now) ≡ false }
    ensures { IfOk result (λ printed. spec.printed_text printed ≡ compact_text (view value.now)) }
{
    Ok(Printed::Json(Bytes::of(value.to_vec(alloc)?)))
}

fn claimed_ids(alloc: Global, jobs: &[Polled]) -> Result<Value, AllocError>
    ensures { IfOk result (λ value. view value ≡ spec.claimed_ids jobs.now) }
{
    let mut ids = Vec::new(alloc);
    for job in jobs {
        ids.push(Value::from(job.id))?;
    }
    json!(in alloc; {"ids": ids})
}

fn locked_error(alloc: Global, row: &Row, by: u32) -> Result<Value, AllocError>
    ensures value { IfOk result (λ value. view value ≡ spec.locked_error row.now by) }
    ensures whole { IfOk result (λ value. has_float (view value) ≡ false) }
{
    let row = row_text(alloc, row)?;
    json!(in alloc; {"by": by, "error": "locked", "row": row.as_str()})
}

fn row_text(alloc: Global, row: &Row) -> Result<String, AllocError>
    ensures { IfOk result (λ text. string_bytes text ≡ spec.row_text row.now) }
{
    match row {
        Row::Job(id) => format!(in alloc; "job {id}"),
        Row::Key(key) => format!(in alloc; "key {}", key.as_str()),
        Row::Process(pid) => format!(in alloc; "process {pid}"),
        Row::Queue(queue) => format!(in alloc; "queue {}", queue.as_str()),
        Row::Task(task) => format!(in alloc; "task {}", task.as_str()),
    }
}

fn bad_line(alloc: Global, at: u64) -> Result<Value, AllocError>
    ensures value { IfOk result (λ value. view value ≡ error_at at (codes "bad_line")) }
    ensures whole { IfOk result (λ value. has_float (view value) ≡ false) }
{
    json!(in alloc; {"at": at, "error": "bad_line"})
}
