ghost use Rattle.std.specs.Prelude.{◌≡◌, ◌<◌, ◌≤◌, length, false, true, IfOk, OnOk, IfSome, IsSomeAnd, IsTrue};
ghost use Rattle.std.specs.Str.{is_utf8};
ghost use Rattle.serde_json.specs.Data.{Data, depth};
ghost use Rattle.serde_json.specs.Read.{read};
ghost use Rattle.serde_json.specs.View.{view, items_view};
ghost use Rattle.serde_json.specs.Written.{compact_text, has_float};
ghost use Rattle.job_states.specs.Judged.{Gives, GivesAs};
ghost use Rattle.job_states.specs.Moment.{IsMoment};
ghost use Rattle.job_states.specs.Ranges.{is_count, is_envelope};
ghost use Rattle.job_envelope.specs.Envelope as spec;
ghost use Rattle.job_envelope.specs.Ranges.{AreEnvelopeCounts, IsInRange};
ghost use Rattle.job_envelope.specs.Written.{IsEnvelopeOf, ReadsBack};

use crate::arguments::first_args;
use crate::counts::counts_in;
use crate::float::{holds_float, items_hold_float};
use crate::kind::{
    count_in, items_in, moment_in, name_from, name_in, needed, optional, optional_or_null,
    priority_in,
};
use crate::written::envelope_value;
use crate::{EnvelopeFault, Member};
use job_states::{Bytes, Counted, List, Moment, Name, NewJob, NoMemory};
use serde_json::Value;
use std::alloc::Global;

/// The JSON object of the bytes.
fn object_of(alloc: Global, bytes: &[u8]) -> Result<Value, EnvelopeFault>
    ensures exact { GivesAs EnvelopeFault.NoMemory view result (spec.object_of bytes.now) }
    ensures utf8 { OnOk result (IsTrue (is_utf8 bytes.now)) }
{
    let value = match Value::from_slice(alloc, bytes) {
        Ok(value) => value,
        Err(e) if e.is_memory() => return Err(EnvelopeFault::NoMemory),
        Err(_) => return Err(EnvelopeFault::NotJson),
    };
    if !value.is_object() {
        return Err(EnvelopeFault::NotJson);
    }
    Ok(value)
}

#[tactic(auto, unfolding(crate::specs::Envelope::name_at))]
fn name_at(alloc: Global, envelope: &Value, member: Member) -> Result<Name, EnvelopeFault>
    ensures { Gives EnvelopeFault.NoMemory result (spec.name_at member (view envelope.now)) }
{
    name_in(alloc, member, needed(envelope, member)?)
}

#[tactic(auto, unfolding(crate::specs::Envelope::queue_at))]
fn queue_at(alloc: Global, envelope: &Value) -> Result<Name, EnvelopeFault>
    ensures { Gives EnvelopeFault.NoMemory result (spec.queue_at (view envelope.now)) }
{
    let member = Member::QueueName;
    match optional_or_null(envelope, member) {
        Some(value) => name_in(alloc, member, value),
        None => name_from(alloc, member, "default"),
    }
}

#[tactic(auto, unfolding(crate::specs::Envelope::priority_at))]
fn priority_at(envelope: &Value) -> Result<i32, EnvelopeFault>
    ensures { Gives EnvelopeFault.NoMemory result (spec.priority_at (view envelope.now)) }
{
    let member = Member::Priority;
    match optional_or_null(envelope, member) {
        Some(value) => priority_in(member, value),
        None => Ok(0),
    }
}

#[tactic(auto, unfolding(crate::specs::Envelope::arguments_at))]
fn arguments_at<'v>(envelope: &'v Value) -> Result<&'v [Value], EnvelopeFault>
    ensures { GivesAs EnvelopeFault.NoMemory (λ items. items_view items.now) result (spec.arguments_at (view envelope.now)) }
{
    let member = Member::Arguments;
    match optional(envelope, member) {
        Some(value) => items_in(member, value),
        None => Ok(&[]),
    }
}

#[tactic(auto, unfolding(crate::specs::Envelope::executions_at))]
fn executions_at(envelope: &Value) -> Result<u32, EnvelopeFault>
    ensures exact { Gives EnvelopeFault.NoMemory result (spec.executions_at (view envelope.now)) }
    ensures range { IfOk result (λ n. IsTrue (is_count n)) }
{
    let member = Member::Executions;
    match optional(envelope, member) {
        Some(value) => count_in(member, value),
        None => Ok(0),
    }
}

#[tactic(auto, unfolding(crate::specs::Envelope::counts_at))]
fn counts_at(alloc: Global, envelope: &Value) -> Result<List<Counted>, EnvelopeFault>
    ensures exact { Gives EnvelopeFault.NoMemory result (spec.counts_at (view envelope.now)) }
    ensures ranges { IfOk result AreEnvelopeCounts }
{
    let member = Member::ExceptionExecutions;
    match optional(envelope, member) {
        Some(value) => counts_in(alloc, member, value),
        None => Ok(List::of(Vec::new(alloc))),
    }
}

#[tactic(auto, unfolding(crate::specs::Envelope::moment_at))]
fn moment_at(envelope: &Value) -> Result<Option<Moment>, EnvelopeFault>
    ensures exact { Gives EnvelopeFault.NoMemory result (spec.moment_at (view envelope.now)) }
    ensures last { IfOk result (λ at. IfSome at IsMoment) }
{
    let member = Member::ScheduledAt;
    match optional_or_null(envelope, member) {
        Some(value) => Ok(Some(moment_in(member, value)?)),
        None => Ok(None),
    }
}

/// The class, the job's name at Active Job, and the queue.
#[tactic(auto, unfolding(crate::specs::Envelope::names_of))]
fn names_of(alloc: Global, envelope: &Value) -> Result<(Name, Name, Name), EnvelopeFault>
    ensures { Gives EnvelopeFault.NoMemory result (spec.names_of (view envelope.now)) }
{
    let class = name_at(alloc, envelope, Member::JobClass)?;
    let active_id = name_at(alloc, envelope, Member::JobId)?;
    let queue = queue_at(alloc, envelope)?;
    Ok((class, active_id, queue))
}

/// The job that an object asks for, with the bytes that came as its envelope.
#[tactic(auto, unfolding(crate::specs::Envelope::job_of))]
fn job_of(alloc: Global, bytes: &[u8], envelope: &Value) -> Result<NewJob, EnvelopeFault>
    ensures exact { Gives EnvelopeFault.NoMemory result (spec.job_of bytes.now (view envelope.now)) }
    ensures ranges { IsTrue (is_envelope bytes.now) → IfOk result IsInRange }
{
    let names = names_of(alloc, envelope)?;
    let priority = priority_at(envelope)?;
    let arguments = arguments_at(envelope)?;
    let executions = executions_at(envelope)?;
    let counts = counts_at(alloc, envelope)?;
    let at = moment_at(envelope)?;
    if items_hold_float(arguments) {
        return Err(EnvelopeFault::FloatArgument);
    }
    let args = first_args(alloc, arguments)?;
    let envelope = Bytes::read(alloc, bytes)?;
    let (class, active_id, queue) = names;
    Ok(NewJob {
        class,
        queue,
        priority,
        active_id,
        envelope,
        executions,
        counts,
        at,
        args,
    })
}

/// Active Job's serialized jobs.
pub struct Envelope;

impl Envelope {
    /// The greatest length in bytes.
    pub const MAX_LEN: usize = 8192;

    /// The job that the bytes ask for. They are its envelope as they came.
    #[tactic(auto, unfolding(crate::specs::Envelope::envelope_of))]
    pub fn read(alloc: Global, bytes: &[u8]) -> Result<NewJob, EnvelopeFault>
        ensures exact { Gives EnvelopeFault.NoMemory result (spec.envelope_of bytes.now) }
        ensures too_long { 8192 < length bytes.now → result ≡ Err (EnvelopeFault.TooLong (length bytes.now)) }
        ensures ranges { IfOk result IsInRange }
    {
        if bytes.len() > Envelope::MAX_LEN {
            return Err(EnvelopeFault::TooLong { len: bytes.len() });
        }
        let envelope = object_of(alloc, bytes)?;
        job_of(alloc, bytes, &envelope)
    }

    /// The job that a JSON value asks for. Its envelope is the value's compact text.
    #[tactic(auto, unfolding(crate::specs::Envelope::value_envelope))]
    pub fn read_value(alloc: Global, value: &Value) -> Result<NewJob, EnvelopeFault>
        ensures exact { Gives EnvelopeFault.NoMemory result (spec.value_envelope (view value.now)) }
        ensures float { has_float (view value.now) ≡ true → result ≡ Err EnvelopeFault.FloatArgument }
        ensures ranges { IfOk result IsInRange }
    {
        if holds_float(value) {
            return Err(EnvelopeFault::FloatArgument);
        }
        let text = value.to_vec(alloc)?;
        Envelope::read(alloc, &text)
    }

    /// The envelope of a job with these arguments: compact JSON with the members that Active Job writes, in byte order of
    /// their names. `enqueued_at`, `locale`, `provider_job_id` and `timezone` are null. A moment past [`LAST`] is written
    /// as [`LAST`]. The digits of a float are left open, and so is what arguments that nest more than 126 deep are read as.
    ///
    /// [`LAST`]: job_states::LAST
    pub fn write(alloc: Global, job: &NewJob, args: &Value) -> Result<Bytes, NoMemory>
        ensures compact { has_float (view args.now) ≡ false → IfOk result
            (λ text. (d : Data) × IsEnvelopeOf job.now (view args.now) d × (text ≡ compact_text d)) }
        ensures json { depth (view args.now) ≤ 126 → IfOk result
            (λ text. IsSomeAnd (read text) (IsEnvelopeOf job.now (view args.now))) }
        ensures reads_back { IfOk result (ReadsBack job.now (view args.now)) }
    {
        let envelope = envelope_value(alloc, job, args)?;
        Ok(Bytes::of(envelope.to_vec(alloc)?))
    }
}
