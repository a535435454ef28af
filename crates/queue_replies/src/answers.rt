//! The reply to each answer.
ghost use Rattle.std.specs.Prelude.{◌≡◌, map, IsTrue, IfOk};
ghost use Rattle.serde_json.specs.View.{view};
ghost use Rattle.http_wire.specs.Reply.{is_reply_status};
ghost use Rattle.job_states.specs.declared.answer.Answer.TheVariants as answers;
ghost use Rattle.queue_replies.specs.Answers as spec;

use crate::json::{json_reply, whole_or_null};
use http_wire::Reply;
use job_states::{Answer, JobId, Made, Moment, NoMemory, Outcome, Polled};
use serde_json::{Value, json};
use std::alloc::{AllocError, Global};

/// The reply to an answer: 201 where it names a new job or process and to a bulk, else 200.
pub fn reply_of(alloc: Global, answer: &Answer) -> Result<Reply, NoMemory>
    ensures reply { IfOk result (λ reply. reply ≡ spec.reply_of answer.now) }
    ensures status { IfOk result (λ reply. IsTrue (is_reply_status reply.status)) }
{
    json_reply(alloc, status_of(answer), &body_of(alloc, answer)?)
}

fn status_of(answer: &Answer) -> u16
    ensures { result ≡ spec.answer_status answer.now }
{
    match answer {
        Answer::Enqueued(made) => created_with(made.id),
        Answer::Ticked { id, .. } => created_with(*id),
        Answer::Bulk(_) | Answer::Registered { .. } => 201,
        _ => 200,
    }
}

fn created_with(id: Option<JobId>) -> u16
    ensures { result ≡ spec.created_with id }
{
    match id {
        Some(_) => 201,
        None => 200,
    }
}

fn body_of(alloc: Global, answer: &Answer) -> Result<Value, AllocError>
    ensures { IfOk result (λ body. view body ≡ spec.answer_body answer.now) }
{
    match answer {
        Answer::Enqueued(made) => job_state(alloc, made.id, made.state),
        Answer::Bulk(jobs) => bulk(alloc, jobs.as_slice()),
        Answer::Polled(jobs) => polled(alloc, jobs.as_slice()),
        Answer::Done { id, unblocked } => ended_job(alloc, *id, Outcome::Finished, *unblocked),
        Answer::Raised {
            id,
            next,
            state,
            unblocked,
        } => raised(alloc, *id, *next, *state, *unblocked),
        Answer::Released { id } => job_state(alloc, Some(*id), Outcome::Ready),
        Answer::Retried { id, state } => job_state(alloc, Some(*id), *state),
        Answer::Discarded { id, unblocked } => {
            ended_job(alloc, *id, Outcome::Discarded, *unblocked)
        }
        Answer::Count { count } => json!(in alloc; {"count": *count}),
        Answer::Paused { paused, queue } => {
            json!(in alloc; {"paused": *paused, "queue": queue.as_str()})
        }
        Answer::Registered { pid } | Answer::Beaten { pid } => json!(in alloc; {"pid": *pid}),
        Answer::Deregistered { pid, released } => {
            json!(in alloc; {"pid": *pid, "released": *released})
        }
        Answer::Pruned { failed, pid } => {
            json!(in alloc; {"failed": *failed, "pid": whole_or_null(*pid)})
        }
        Answer::Ticked { id, run_at, state } => ticked(alloc, *id, *run_at, *state),
        Answer::NotDue => json!(in alloc; {"state": "not_due"}),
    }
}

fn outcome_name(outcome: Outcome) -> &'static str
    ensures { result.now ≡ spec.outcome_name outcome }
{
    match outcome {
        Outcome::Ready => "ready",
        Outcome::Scheduled => "scheduled",
        Outcome::Blocked => "blocked",
        Outcome::Discarded => "discarded",
        Outcome::Failed => "failed",
        Outcome::Finished => "finished",
    }
}

/// `{"id":1,"state":"ready"}`, `{"id":null,"state":"discarded"}`
fn job_state(alloc: Global, id: Option<JobId>, state: Outcome) -> Result<Value, AllocError>
    ensures { IfOk result (λ body. view body ≡ spec.job_state id state) }
{
    json!(in alloc; {"id": whole_or_null(id), "state": outcome_name(state)})
}

/// `{"id":1,"state":"finished","unblocked":2}`
fn ended_job(
    alloc: Global,
    id: JobId,
    state: Outcome,
    unblocked: Option<JobId>,
) -> Result<Value, AllocError>
    ensures { IfOk result (λ body. view body ≡ spec.ended_job id state unblocked) }
{
    json!(in alloc; {
        "id": id,
        "state": outcome_name(state),
        "unblocked": whole_or_null(unblocked),
    })
}

/// `{"id":1,"next":2,"state":"finished","unblocked":null}`
fn raised(
    alloc: Global,
    id: JobId,
    next: Option<JobId>,
    state: Outcome,
    unblocked: Option<JobId>,
) -> Result<Value, AllocError>
    ensures { IfOk result (λ body. view body ≡ spec.answer_body (answers.Raised id next state unblocked)) }
{
    json!(in alloc; {
        "id": id,
        "next": whole_or_null(next),
        "state": outcome_name(state),
        "unblocked": whole_or_null(unblocked),
    })
}

/// `{"id":1,"run_at":60000000,"state":"ready"}`
fn ticked(
    alloc: Global,
    id: Option<JobId>,
    run_at: Moment,
    state: Outcome,
) -> Result<Value, AllocError>
    ensures { IfOk result (λ body. view body ≡ spec.answer_body (answers.Ticked id run_at state)) }
{
    json!(in alloc; {"id": whole_or_null(id), "run_at": run_at, "state": outcome_name(state)})
}

/// `{"jobs":[{"id":1,"state":"ready"}]}`
fn bulk(alloc: Global, jobs: &[Made]) -> Result<Value, AllocError>
    ensures { IfOk result (λ body. view body ≡ spec.several (map spec.made_job jobs.now)) }
{
    let mut made = Vec::new(alloc);
    for job in jobs {
        made.push(job_state(alloc, job.id, job.state)?)?;
    }
    several(alloc, made)
}

fn polled(alloc: Global, jobs: &[Polled]) -> Result<Value, AllocError>
    ensures { IfOk result (λ body. view body ≡ spec.several (map spec.polled_job jobs.now)) }
{
    let mut claimed = Vec::new(alloc);
    for job in jobs {
        claimed.push(polled_job(alloc, job)?)?;
    }
    several(alloc, claimed)
}

/// `{"jobs":[..]}`
fn several(alloc: Global, jobs: Vec<Value>) -> Result<Value, AllocError>
    ensures { IfOk result (λ body. view body ≡ spec.several (map view jobs.items)) }
{
    json!(in alloc; {"jobs": jobs})
}

fn polled_job(alloc: Global, job: &Polled) -> Result<Value, AllocError>
    ensures { IfOk result (λ body. view body ≡ spec.polled_job job.now) }
{
    json!(in alloc; {
        "active_job_id": job.active_id.as_str(),
        "class": job.class.as_str(),
        "envelope": job.envelope.as_str(),
        "executions": job.executions,
        "id": job.id,
        "priority": job.priority,
        "queue": job.queue.as_str(),
    })
}
