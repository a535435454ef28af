//! The job that an enqueue asks for.
ghost use Rattle.std.specs.Prelude.{◌≡◌, ◌≤◌, length, None, Some, IfErr, IfOk, IfSome, IsTrue};
ghost use Rattle.std.specs.Option.{option_map};
ghost use Rattle.serde_json.specs.Data.{array};
ghost use Rattle.serde_json.specs.View.{view};
ghost use Rattle.job_states.specs.Judged.{Gives};
ghost use Rattle.job_states.specs.Moment.{IsMoment};
ghost use Rattle.job_states.specs.Ranges.{is_envelope};
ghost use Rattle.trace_lines.specs.Jobs as spec;
ghost use Rattle.trace_lines.specs.Ranges.{IsFitJob};

use crate::LineFault;
use crate::words::{argument_in, due_in, name_in, priority_in};
use job_envelope::Envelope;
use job_states::{Arg, Bytes, List, Moment, Name, NewJob, NoMemory, Text};
use serde_json::{Value, json};
use std::alloc::{AllocError, Global};

/// The job that the words after `enqueue` ask for.
#[tactic(auto, unfolding(crate::specs::Jobs::job_of))]
pub(crate) fn job_in(
    alloc: Global,
    class: &str,
    queue: &str,
    priority: &str,
    argument: &str,
    at: &str,
) -> Result<NewJob, LineFault>
    ensures exact { Gives LineFault.NoMemory result (spec.job_of class.now queue.now priority.now argument.now at.now) }
    ensures fit { IfOk result IsFitJob }
{
    let class = name_in(alloc, class)?;
    let queue = name_in(alloc, queue)?;
    let priority = priority_in(priority)?;
    let argument = argument_in(argument)?;
    let at = due_in(at)?;
    whole_job(
        alloc,
        plain_job(alloc, class, queue, priority)?,
        argument,
        at,
    )
}

fn plain_job(alloc: Global, class: Name, queue: Name, priority: i32) -> Result<NewJob, LineFault>
    ensures job { IfOk result (λ job. job ≡ spec.plain_job class queue priority) }
    ensures memory { IfErr result (λ fault. fault ≡ LineFault.NoMemory) }
{
    Ok(NewJob {
        class,
        queue,
        priority,
        active_id: name_in(alloc, "trace")?,
        envelope: Bytes::of(Vec::new(alloc)),
        executions: 0,
        counts: List::of(Vec::new(alloc)),
        at: None,
        args: List::of(Vec::new(alloc)),
    })
}

/// The job with its envelope, its argument and its moment.
fn whole_job(
    alloc: Global,
    job: NewJob,
    argument: Option<&str>,
    at: Option<Moment>,
) -> Result<NewJob, LineFault>
    requires plain { spec.IsPlain job }
    requires fit { IsFitJob job }
    requires moment { IfSome at IsMoment }
    ensures exact { Gives LineFault.NoMemory result (spec.whole_job job (option_map (λ s. s.now) argument.entry) at) }
    ensures fit { IfOk result IsFitJob }
{
    let envelope = envelope_for(alloc, &job, argument)?;
    if envelope.len() > Envelope::MAX_LEN {
        return Err(LineFault::NotALine);
    }
    Ok(NewJob {
        envelope,
        at,
        args: arguments(alloc, argument)?,
        ..job
    })
}

/// The envelope of a job with this argument.
fn envelope_for(alloc: Global, job: &NewJob, argument: Option<&str>) -> Result<Bytes, NoMemory>
    requires { spec.IsPlain job.now }
    ensures text { IfOk result (λ text. text ≡ spec.envelope_for job.now (option_map (λ s. s.now) argument.entry)) }
    ensures range { IfOk result (λ text. length text ≤ 8192 → IsTrue (is_envelope text)) }
{
    Envelope::write(alloc, job, &arguments_value(alloc, argument)?)
}

fn arguments_value(alloc: Global, argument: Option<&str>) -> Result<Value, AllocError>
    ensures { IfOk result (λ value. view value ≡ array (spec.argument_items (option_map (λ s. s.now) argument.entry))) }
{
    match argument {
        Some(text) => json!(in alloc; [text]),
        None => json!(in alloc; []),
    }
}

fn arguments(alloc: Global, argument: Option<&str>) -> Result<List<Arg>, NoMemory>
    ensures args { IfOk result (λ args. args ≡ spec.argument_list (option_map (λ s. s.now) argument.entry)) }
    ensures few { IfOk result (λ args. length args ≤ 1) }
{
    let mut args = Vec::new(alloc);
    if let Some(text) = argument {
        args.push(Arg::Text(Text::read(alloc, text)?))?;
    }
    Ok(List::of(args))
}
