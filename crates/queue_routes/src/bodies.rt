//! What is read of a request's body.
ghost use Rattle.std.specs.Prelude.{◌≡◌, ◌≤◌, length, All, IfOk};
ghost use Rattle.serde_json.specs.View.{view, items_view};
ghost use Rattle.job_states.specs.Judged.{Gives, GivesAs};
ghost use Rattle.job_states.specs.Length.{IsName};
ghost use Rattle.job_envelope.specs.Ranges.{IsInRange};
ghost use Rattle.queue_routes.specs.Bodies as spec;

use crate::fault::NoCommand;
use crate::{BodyFault, BodyMember};
use job_envelope::{Envelope, EnvelopeFault};
use job_states::{Kind, List, Name, NameFault, NewJob, Text};
use serde_json::Value;
use std::alloc::Global;

/// The most jobs that a bulk enqueues.
const MOST_JOBS: usize = 100;

/// The most jobs that a poll claims.
const MOST_CLAIMS: u64 = 100;

/// The most items of a queue list.
const MOST_QUEUES: usize = 64;

fn wrong_kind(member: BodyMember) -> NoCommand
    ensures { result ≡ NoCommand.Body (BodyFault.WrongKind member) }
{
    NoCommand::Body(BodyFault::WrongKind { member })
}

/// The JSON of a body.
fn json_of(alloc: Global, body: &[u8]) -> Result<Value, NoCommand>
    ensures { GivesAs NoCommand.NoMemory view result (spec.json_of body.now) }
{
    match Value::from_slice(alloc, body) {
        Ok(value) => Ok(value),
        Err(e) if e.is_memory() => Err(NoCommand::NoMemory),
        Err(_) => Err(NoCommand::Body(BodyFault::NotJson)),
    }
}

/// The JSON object of a body.
pub(crate) fn object_of(alloc: Global, body: &[u8]) -> Result<Value, NoCommand>
    ensures { GivesAs NoCommand.NoMemory view result (spec.object_of body.now) }
{
    let value = json_of(alloc, body)?;
    if !value.is_object() {
        return Err(NoCommand::Body(BodyFault::NotJson));
    }
    Ok(value)
}

/// The value of a member.
fn needed<'v>(object: &'v Value, member: BodyMember) -> Result<&'v Value, NoCommand>
    ensures { GivesAs NoCommand.NoMemory (λ v. view v.now) result (spec.needed member (view object.now)) }
{
    match object.get(member.as_str()) {
        Some(value) => Ok(value),
        None => Err(NoCommand::Body(BodyFault::Missing { member })),
    }
}

fn text_in<'v>(member: BodyMember, value: &'v Value) -> Result<&'v str, NoCommand>
    ensures { GivesAs NoCommand.NoMemory (λ s. s.now) result (spec.text_in member (view value.now)) }
{
    match value.as_str() {
        Some(text) => Ok(text),
        None => Err(wrong_kind(member)),
    }
}

fn kind_named(text: &str) -> Option<Kind>
    ensures { result ≡ spec.kind_named text.now }
{
    match text {
        "worker" => Some(Kind::Worker),
        "dispatcher" => Some(Kind::Dispatcher),
        "scheduler" => Some(Kind::Scheduler),
        "supervisor" => Some(Kind::Supervisor),
        _ => None,
    }
}

/// The items of an array that isn't empty and has at most so many.
fn items_in<'v>(member: BodyMember, most: usize, value: &'v Value) -> Result<&'v [Value], NoCommand>
    ensures exact { GivesAs NoCommand.NoMemory (λ v. items_view v.now) result (spec.items_in member most (view value.now)) }
    ensures few { IfOk result (λ items. spec.IsFew most items.now) }
{
    let Some(items) = value.as_array() else {
        return Err(wrong_kind(member));
    };
    if items.is_empty() || items.len() > most {
        return Err(wrong_kind(member));
    }
    Ok(items)
}

// ---- members

#[tactic(auto, unfolding(crate::specs::Bodies::kind_at))]
pub(crate) fn kind_at(body: &Value) -> Result<Kind, NoCommand>
    ensures { Gives NoCommand.NoMemory result (spec.kind_at (view body.now)) }
{
    let member = BodyMember::Kind;
    let text = text_in(member, needed(body, member)?)?;
    match kind_named(text) {
        Some(kind) => Ok(kind),
        None => Err(wrong_kind(member)),
    }
}

#[tactic(auto, unfolding(crate::specs::Bodies::name_at))]
pub(crate) fn name_at(alloc: Global, body: &Value, member: BodyMember) -> Result<Name, NoCommand>
    ensures { Gives NoCommand.NoMemory result (spec.name_at member (view body.now)) }
{
    let text = text_in(member, needed(body, member)?)?;
    match Name::read(alloc, text) {
        Ok(name) => Ok(name),
        Err(NameFault::NoMemory) => Err(NoCommand::NoMemory),
        Err(NameFault::Empty | NameFault::TooLong { .. }) => Err(wrong_kind(member)),
    }
}

#[tactic(auto, unfolding(crate::specs::Bodies::message_at))]
pub(crate) fn message_at(alloc: Global, body: &Value) -> Result<Text, NoCommand>
    ensures { Gives NoCommand.NoMemory result (spec.message_at (view body.now)) }
{
    let member = BodyMember::Message;
    let text = text_in(member, needed(body, member)?)?;
    Ok(Text::read(alloc, text)?)
}

/// From 1 to 100.
#[tactic(auto, unfolding(crate::specs::Bodies::limit_at))]
pub(crate) fn limit_at(body: &Value) -> Result<u32, NoCommand>
    ensures exact { Gives NoCommand.NoMemory result (spec.limit_at (view body.now)) }
    ensures range { IfOk result (λ limit. (1 ≤ limit) × (limit ≤ 100)) }
{
    let member = BodyMember::Limit;
    match needed(body, member)?.as_u64() {
        Some(limit) if limit >= 1 && limit <= MOST_CLAIMS => Ok(limit as u32),
        _ => Err(wrong_kind(member)),
    }
}

/// From 1 to 64 texts of 1 to 128 bytes.
#[tactic(auto, unfolding(crate::specs::Bodies::queues_at))]
pub(crate) fn queues_at(alloc: Global, body: &Value) -> Result<List<Text>, NoCommand>
    ensures exact { Gives NoCommand.NoMemory result (spec.queues_at (view body.now)) }
    ensures few { IfOk result (spec.IsFew 64) }
    ensures names { IfOk result (All IsName) }
{
    let member = BodyMember::Queues;
    let items = items_in(member, MOST_QUEUES, needed(body, member)?)?;
    queues_in(alloc, items)
}

fn queues_in(alloc: Global, items: &[Value]) -> Result<List<Text>, NoCommand>
    ensures exact { Gives NoCommand.NoMemory result (spec.each_from spec.queue_in 0 (items_view items.now)) }
    ensures each { IfOk result (λ queues. length queues ≡ length items.now) }
    ensures names { IfOk result (All IsName) }
{
    let mut queues = Vec::new(alloc);
    for item in items {
        queues.push(queue_in(alloc, item)?)?;
    }
    Ok(List::of(queues))
}

fn queue_in(alloc: Global, value: &Value) -> Result<Text, NoCommand>
    ensures exact { Gives NoCommand.NoMemory result (spec.name_in BodyMember.Queues (view value.now)) }
    ensures name { IfOk result IsName }
{
    let member = BodyMember::Queues;
    let text = text_in(member, value)?;
    if text.is_empty() || text.len() > Name::MAX_LEN {
        return Err(wrong_kind(member));
    }
    Ok(Text::read(alloc, text)?)
}

// ---- jobs

/// Why the envelope at this place of a request isn't accepted.
fn refused(index: u32, fault: EnvelopeFault) -> NoCommand
    ensures memory { fault ≡ EnvelopeFault.NoMemory → result ≡ NoCommand.NoMemory }
    ensures fault { (fault ≡ EnvelopeFault.NoMemory → ⊥) → result ≡ NoCommand.Body (BodyFault.Envelope index fault) }
{
    match fault {
        EnvelopeFault::NoMemory => NoCommand::NoMemory,
        fault => NoCommand::Body(BodyFault::Envelope { index, fault }),
    }
}

/// The job of a body that is one envelope.
pub(crate) fn job_of(alloc: Global, body: &[u8]) -> Result<NewJob, NoCommand>
    ensures exact { Gives NoCommand.NoMemory result (spec.job_of body.now) }
    ensures range { IfOk result IsInRange }
{
    match Envelope::read(alloc, body) {
        Ok(job) => Ok(job),
        Err(fault) => Err(refused(0, fault)),
    }
}

fn job_in(alloc: Global, index: u32, value: &Value) -> Result<NewJob, NoCommand>
    ensures exact { Gives NoCommand.NoMemory result (spec.job_in index (view value.now)) }
    ensures range { IfOk result IsInRange }
{
    match Envelope::read_value(alloc, value) {
        Ok(job) => Ok(job),
        Err(fault) => Err(refused(index, fault)),
    }
}

/// The jobs of a body that is an array of 1 to 100 envelopes.
#[tactic(auto, unfolding(crate::specs::Bodies::jobs_of))]
pub(crate) fn jobs_of(alloc: Global, body: &[u8]) -> Result<List<NewJob>, NoCommand>
    ensures exact { Gives NoCommand.NoMemory result (spec.jobs_of body.now) }
    ensures few { IfOk result (spec.IsFew 100) }
    ensures ranges { IfOk result (All IsInRange) }
{
    let value = json_of(alloc, body)?;
    let items = items_in(BodyMember::Jobs, MOST_JOBS, &value)?;
    jobs_in(alloc, items)
}

fn jobs_in(alloc: Global, items: &[Value]) -> Result<List<NewJob>, NoCommand>
    requires { length items.now ≤ 100 }
    ensures exact { Gives NoCommand.NoMemory result (spec.each_from spec.job_in 0 (items_view items.now)) }
    ensures each { IfOk result (λ jobs. length jobs ≡ length items.now) }
    ensures ranges { IfOk result (All IsInRange) }
{
    let mut jobs = Vec::new(alloc);
    for (index, item) in items.iter().enumerate() {
        jobs.push(job_in(alloc, index as u32, item)?)?;
    }
    Ok(List::of(jobs))
}
