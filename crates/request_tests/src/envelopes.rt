use crate::tables::{row, same};
use job_envelope::{Envelope, EnvelopeFault};
use job_states::{Arg, Bytes, NewJob};
use serde_json::Value;
use std::alloc::Global;
use std::fmt::Write;
use std::process::Abort;

fn write_arg(rt: &impl Abort, text: &mut String, arg: &Arg) {
    let written = match arg {
        Arg::Null => write!(text, " null"),
        Arg::Text(words) => write!(text, " '{}'", words.as_str()),
        Arg::Whole(n) => write!(text, " {n}"),
        Arg::Other => write!(text, " other"),
    };
    written.expect(rt, "memory");
}

/// Class, id, queue, priority, executions, counts, moment and arguments.
fn shown_job(rt: &impl Abort, alloc: Global, job: &NewJob) -> String {
    let (class, id) = (job.class.as_str(), job.active_id.as_str());
    let (queue, priority, executions) = (job.queue.as_str(), job.priority, job.executions);
    let mut text = format!(in alloc; "{class} {id} {queue} {priority} {executions}").expect(
        rt, "memory",
    );
    for counted in job.counts.as_slice() {
        write!(text, " {}={}", counted.list.as_str(), counted.count).expect(rt, "memory");
    }
    if let Some(moment) = job.at {
        write!(text, " @{moment}").expect(rt, "memory");
    }
    for arg in job.args.as_slice() {
        write_arg(rt, &mut text, arg);
    }
    text
}

/// The job, or the fault.
fn shown(rt: &impl Abort, alloc: Global, outcome: &Result<NewJob, EnvelopeFault>) -> String {
    match outcome {
        Ok(job) => shown_job(rt, alloc, job),
        Err(fault) => format!(in alloc; "{fault}").expect(rt, "memory"),
    }
}

/// A body, ` => `, and what is shown of it.
const BODIES: &str =
    r#"{"job_class":"A","job_id":"8bd5b1c0-3e6e-4e4a-9d8c-1d2f6a1f5a10","provider_job_id":null,"queue_name":"default","priority":null,"arguments":[{"_aj_globalid":"gid://app/User/1"}],"executions":0,"exception_executions":{},"locale":"en","timezone":"UTC","enqueued_at":"2026-03-06T00:00:00.000000000Z","scheduled_at":null} => A 8bd5b1c0-3e6e-4e4a-9d8c-1d2f6a1f5a10 default 0 0 other
{"job_class":"A","job_id":"1",} => no JSON object
{"job_class":"\ud800","job_id":"1"} => no JSON object
{"job_class":"A","job_id":"1","more":1e999} => no JSON object
{"job_class":"A","job_id":"1","priority":05} => no JSON object
{} => job_class is missing
 {"job_id" : "1", "job_class":"\u0041\u00e9"} => Aé 1 default 0 0
{"job_class":"A","job_id":"1","job_class":"B"} => B 1 default 0 0
{"job_class":"A","job_id":"1","job_class":7} => job_class is of the wrong kind or out of its range
{"job_class":"A","job_id":"1","priority":-0} => priority is of the wrong kind or out of its range
{"job_class":"A","job_id":"1","priority":1.0} => priority is of the wrong kind or out of its range
{"job_class":"A","job_id":"1","priority":1e3} => priority is of the wrong kind or out of its range
{"job_class":"A","job_id":"1","arguments":[null,"é",-9223372036854775808,18446744073709551615,true,[],{}]} => A 1 default 0 0 null 'é' -9223372036854775808 18446744073709551615 other other other
{"job_class":"A","job_id":"1","arguments":[18446744073709551616]} => arguments hold a number that isn't whole, or isn't from -2^63 to 2^64-1
{"job_class":"A","job_id":"1","arguments":[-9223372036854775809]} => arguments hold a number that isn't whole, or isn't from -2^63 to 2^64-1
{"job_class":"A","job_id":"1","arguments":[1.5]} => arguments hold a number that isn't whole, or isn't from -2^63 to 2^64-1
{"job_class":"A","job_id":"1","exception_executions":{"[B]":2,"[A, C]":65535,"[B]":3}} => A 1 default 0 0 [A, C]=65535 [B]=3
{"job_class":"A","job_id":"1","scheduled_at":"2026-03-06T00:00:00.000001999Z"} => A 1 default 0 0 @1772755200000001
{"job_class":"A","job_id":"1","scheduled_at":"2026-03-06 01:00:00+01:00"} => A 1 default 0 0 @1772755200000000
{"job_class":"A","job_id":"1","scheduled_at":"1970-01-01T00:00:00Z"} => A 1 default 0 0 @0
{"job_class":"A","job_id":"1","scheduled_at":"1969-12-31T23:59:59.999999999Z"} => scheduled_at is no instant from 1970 to 9998
{"job_class":"A","job_id":"1","scheduled_at":"9998-12-31T23:59:59.999999999Z"} => A 1 default 0 0 @253370764799999999
{"job_class":"A","job_id":"1","scheduled_at":"9999-01-01T00:00:00Z"} => scheduled_at is no instant from 1970 to 9998
{"job_class":"A","job_id":"1","scheduled_at":"2026-03-06"} => scheduled_at is no instant from 1970 to 9998
{"job_class":"A","job_id":"1","scheduled_at":"2026-03-06T00:00:00"} => scheduled_at is no instant from 1970 to 9998
{"job_class":"A","job_id":"1","scheduled_at":"2026-02-30T00:00:00Z"} => scheduled_at is no instant from 1970 to 9998
{"job_class":"A","job_id":"1","scheduled_at":"2026-03-06T24:00:00Z"} => scheduled_at is no instant from 1970 to 9998
{"job_class":"A","job_id":"1","scheduled_at":"2026-03-06T00:00:00.0000000001Z"} => scheduled_at is no instant from 1970 to 9998"#;

fn expect_shown(
    rt: &impl Abort,
    alloc: Global,
    outcome: &Result<NewJob, EnvelopeFault>,
    expected: &str,
    of: &str,
) {
    let found = shown(rt, alloc, outcome);
    same(rt, found.as_str(), expected, of);
}

/// What is read of a body.
fn expect(rt: &impl Abort, alloc: Global, body: &str, expected: &str) {
    let outcome = Envelope::read(alloc, body.as_bytes());
    expect_shown(rt, alloc, &outcome, expected, body);
}

#[test]
fn envelopes_are_read_by_the_table(rt: HostRuntime) {
    for line in BODIES.lines() {
        let (body, expected) = row(&rt, line);
        expect(&rt, rt.alloc(), body, expected);
    }
}

/// What is read of a body of 30 bytes and so many blanks.
fn expect_blanks(rt: &impl Abort, alloc: Global, count: usize, expected: &str) {
    let blanks = " ".repeat(alloc, count).expect(rt, "memory");
    let body = format!(in alloc; r#"{{"job_class":"A","job_id":"1"}}{blanks}"#).expect(
        rt, "memory",
    );
    expect(rt, alloc, body.as_str(), expected);
}

#[test]
fn an_envelope_has_at_most_8192_bytes(rt: HostRuntime) {
    let refused = "8193 bytes are too many for an envelope";
    expect_blanks(&rt, rt.alloc(), 8162, "A 1 default 0 0");
    expect_blanks(&rt, rt.alloc(), 8163, refused);
}

/// A job's body, other arguments, and what is written for the job with these.
const BODY: &[u8] =
    br#"{"job_class":"A","job_id":"1","queue_name":"low","priority":-1,"executions":2,"exception_executions":{"[B]":3},"scheduled_at":"2026-03-06T00:00:00.000001Z"}"#;

const ARGUMENTS: &str = r#"["x", {"_aj_globalid": "gid://app/User/1"}]"#;

const WRITTEN: &str =
    r#"{"arguments":["x",{"_aj_globalid":"gid://app/User/1"}],"enqueued_at":null,"exception_executions":{"[B]":3},"executions":2,"job_class":"A","job_id":"1","locale":null,"priority":-1,"provider_job_id":null,"queue_name":"low","scheduled_at":"2026-03-06T00:00:00.000001Z","timezone":null}"#;

fn written(rt: &impl Abort, alloc: Global) -> Bytes {
    let job = Envelope::read(alloc, BODY).expect(rt, "a job");
    let args = Value::from_str(alloc, ARGUMENTS).expect(rt, "a value");
    Envelope::write(alloc, &job, &args).expect(rt, "an envelope")
}

fn expect_value(rt: &impl Abort, alloc: Global, text: &[u8], expected: &str) {
    let value = Value::from_slice(alloc, text).expect(rt, "a value");
    let outcome = Envelope::read_value(alloc, &value);
    expect_shown(rt, alloc, &outcome, expected, "a value");
}

#[test]
fn an_envelope_is_written_and_read_as_a_value(rt: HostRuntime) {
    let text = written(&rt, rt.alloc());
    assert_eq!(rt; text.as_slice(), WRITTEN.as_bytes());
    let expected = "A 1 low -1 2 [B]=3 @1772755200000001 'x' other";
    expect_value(&rt, rt.alloc(), text.as_slice(), expected);
}
