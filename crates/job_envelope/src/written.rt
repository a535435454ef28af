ghost use Rattle.std.specs.Prelude.{◌≡◌, IfOk, OnOk, string_bytes, FitsSigned};
ghost use Rattle.std.specs.Int.{w32};
ghost use Rattle.serde_json.specs.Data.{number, string, object, no_members};
ghost use Rattle.serde_json.specs.Find.{of_integer};
ghost use Rattle.serde_json.specs.View.{view};
ghost use Rattle.job_states.specs.Length.{IsName};
ghost use Rattle.job_envelope.specs.Written.{IsMomentText, IsScheduledAt, IsEnvelopeOf, HasRanges, with_counts};

use jiff_core::Timestamp;
use jiff_fmt::temporal::DateTimePrinter;
use job_states::{Counted, LAST, Moment, Name, NewJob, NoMemory};
use serde_json::{Map, Value, put};
use std::alloc::Global;

/// The instant of a moment, in RFC 3339.
fn moment_text(alloc: Global, moment: Moment) -> Result<String, NoMemory>
    ensures { IfOk result (λ text. IsMomentText moment (string_bytes text)) }
{
    let nanos = moment.min(LAST) as i128 * 1000;
    let instant = Timestamp::from_nanosecond(nanos).unwrap();
    let text = DateTimePrinter::new().timestamp_text(instant);
    Ok(String::from_str(alloc, text.as_str())?)
}

fn moment_value(alloc: Global, moment: Option<Moment>) -> Result<Value, NoMemory>
    ensures { IfOk result (λ value. IsScheduledAt moment (view value)) }
{
    match moment {
        Some(moment) => Ok(Value::String(moment_text(alloc, moment)?)),
        None => Ok(Value::Null),
    }
}

fn name_value(alloc: Global, name: &Name) -> Result<Value, NoMemory>
    ensures value { IfOk result (λ value. view value ≡ string name.now) }
    ensures name { OnOk result (IsName name.now) }
{
    Ok(Value::try_from_str(alloc, name.as_str())?)
}

fn priority_value(job: &NewJob) -> Value
    ensures value { view result ≡ number (of_integer job.now.priority) }
    ensures fits { FitsSigned w32 job.now.priority }
{
    Value::from(job.priority)
}

fn counts_value(alloc: Global, counts: &[Counted]) -> Result<Value, NoMemory>
    ensures { IfOk result (λ value. view value ≡ object (with_counts counts.now no_members)) }
{
    let mut members = Map::new(alloc);
    for counted in counts {
        let count = Value::from(counted.count);
        put(&mut members, alloc, counted.list.as_str(), count)?;
    }
    Ok(Value::Object(members))
}

/// The envelope of a job with these arguments.
pub(crate) fn envelope_value(alloc: Global, job: &NewJob, args: &Value) -> Result<Value, NoMemory>
    ensures value { IfOk result (λ value. IsEnvelopeOf job.now (view args.now) (view value)) }
    ensures ranges { OnOk result (HasRanges job.now) }
{
    let mut members = Map::new(alloc);
    let all = &mut members;
    put(all, alloc, "arguments", args.clone()?)?;
    put(all, alloc, "enqueued_at", Value::Null)?;
    let counts = counts_value(alloc, job.counts.as_slice())?;
    put(all, alloc, "exception_executions", counts)?;
    put(all, alloc, "executions", Value::from(job.executions))?;
    put(all, alloc, "job_class", name_value(alloc, &job.class)?)?;
    put(all, alloc, "job_id", name_value(alloc, &job.active_id)?)?;
    put(all, alloc, "locale", Value::Null)?;
    put(all, alloc, "priority", priority_value(job))?;
    put(all, alloc, "provider_job_id", Value::Null)?;
    put(all, alloc, "queue_name", name_value(alloc, &job.queue)?)?;
    put(all, alloc, "scheduled_at", moment_value(alloc, job.at)?)?;
    put(all, alloc, "timezone", Value::Null)?;
    Ok(Value::Object(members))
}
