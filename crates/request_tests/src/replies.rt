use crate::tables::{name, text};
use http_wire::{Refusal, Reply};
use job_envelope::EnvelopeFault;
use job_states::{Answer, List, Made, NoMemory, Outcome, Polled, Refused, Stage};
use queue_replies::{envelope_fault, fault_reply, reply_disk, reply_of, reply_refused};
use std::process::Abort;

fn expect(rt: &impl Abort, reply: Result<Reply, NoMemory>, status: u16, body: &str) {
    let reply = reply.expect(rt, "memory");
    assert_eq!(rt;
        (reply.status, reply.body.as_slice()),
        (status, body.as_bytes()),
        "{body}"
    );
}

#[test]
fn claimed_jobs_are_handed_out(rt: HostRuntime) {
    const ENVELOPE: &str = r#"{"job_class":"A","job_id":"j1"}"#;
    const POLLED: &str =
        r#"{"jobs":[{"active_job_id":"j1","class":"A","envelope":"{\"job_class\":\"A\",\"job_id\":\"j1\"}","executions":3,"id":7,"priority":-5,"queue":"default"}]}"#;
    let alloc = rt.alloc();
    let job = Polled {
        active_id: name(&rt, alloc, "j1"),
        class: name(&rt, alloc, "A"),
        envelope: text(&rt, alloc, ENVELOPE),
        executions: 3,
        id: 7,
        priority: -5,
        queue: name(&rt, alloc, "default"),
    };
    let jobs = List::of(vec![in alloc; job].expect(&rt, "memory"));
    expect(&rt, reply_of(alloc, &Answer::Polled(jobs)), 200, POLLED);
}

#[test]
fn answers_are_reported(rt: HostRuntime) {
    let discarded = Answer::Enqueued(Made {
        id: None,
        state: Outcome::Discarded,
    });
    let text = r#"{"id":null,"state":"discarded"}"#;
    expect(&rt, reply_of(rt.alloc(), &discarded), 200, text);
    let raised = Answer::Raised {
        id: 1,
        next: Some(2),
        state: Outcome::Finished,
        unblocked: None,
    };
    let text = r#"{"id":1,"next":2,"state":"finished","unblocked":null}"#;
    expect(&rt, reply_of(rt.alloc(), &raised), 200, text);
}

#[test]
fn refusals_and_faults_are_reported(rt: HostRuntime) {
    let alloc = rt.alloc();
    let wrong = Refused::WrongState {
        id: 1,
        state: Stage::Claimed,
    };
    let text = r#"{"error":"wrong_state","id":1,"state":"claimed"}"#;
    expect(&rt, reply_refused(alloc, &wrong), 409, text);
    let long = envelope_fault(alloc, 1, EnvelopeFault::TooLong { len: 8193 });
    expect(
        &rt,
        long,
        413,
        r#"{"error":"too_long","index":1,"length":8193}"#,
    );
    let bad = fault_reply(alloc, 74, Refusal::Bad);
    expect(&rt, bad, 400, r#"{"at":74,"error":"bad_request"}"#);
    expect(&rt, Ok(reply_disk()), 503, r#"{"error":"disk_fault"}"#);
}
