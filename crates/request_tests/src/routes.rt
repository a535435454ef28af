use crate::tables::{row, same, text};
use http::Method;
use http_wire::Request;
use job_states::{Bytes, Command};
use queue_routes::{Ask, BodyFault, ask_of};
use std::alloc::Global;
use std::process::Abort;

fn command_name(command: &Command) -> &'static str {
    match command {
        Command::Enqueue { .. } => "enqueue",
        Command::Bulk { .. } => "bulk",
        Command::Poll { .. } => "poll",
        Command::Done { pid: 1, id: 2 } => "done 1 2",
        Command::Raised { pid: 1, id: 2, .. } => "raised 1 2",
        Command::Release { pid: 1, id: 2 } => "release 1 2",
        Command::Register { .. } => "register",
        Command::Beat { pid: 7 } => "beat 7",
        Command::Deregister { pid: 7 } => "deregister 7",
        Command::Deregister { pid: u64::MAX } => "deregister the last",
        Command::Tick { pid: 1, .. } => "tick 1",
        Command::Dispatch => "dispatch",
        Command::Expire => "expire",
        Command::Unblock => "unblock",
        Command::Prune => "prune",
        Command::ClearFinished => "clear",
        _ => "another",
    }
}

fn shown(rt: &impl Abort, alloc: Global, ask: &Ask) -> String {
    let shown = match ask {
        Ask::Command(command) => String::from_str(alloc, command_name(command)),
        Ask::NotBuilt => String::from_str(alloc, "not built"),
        Ask::Refused(BodyFault::NotJson) => String::from_str(alloc, "not json"),
        Ask::Refused(BodyFault::Missing { member }) => {
            format!(in alloc; "missing {}", member.as_str())
        }
        Ask::Refused(BodyFault::WrongKind { member }) => {
            format!(in alloc; "wrong kind {}", member.as_str())
        }
        Ask::Refused(BodyFault::Envelope { index, fault }) => format!(in alloc; "{index}: {fault}"),
    };
    shown.expect(rt, "memory")
}

/// The request of a method, a path and a body, with a blank between them.
fn request_of(rt: &impl Abort, alloc: Global, words: &str) -> Request {
    let (method, rest) = words.split_once(" ").expect(rt, words);
    let (path, body) = rest.split_once(" ").expect(rt, words);
    Request {
        method: Method::from_bytes(alloc, method.as_bytes()).expect(rt, words),
        path: text(rt, alloc, path),
        query: text(rt, alloc, ""),
        body: Bytes::read(alloc, body.as_bytes()).expect(rt, "memory"),
    }
}

/// A request, and after ` => ` what it asks for.
const REQUESTS: &str = r#"POST /jobs {"job_class":"A","job_id":"1"} => enqueue
POST /jobs [] => 0: no JSON object
POST /jobs {"job_class":"A"} => 0: job_id is missing
GET /jobs {"job_class":"A","job_id":"1"} => not built
POST jobs {"job_class":"A","job_id":"1"} => not built
POST /jobs/ {"job_class":"A","job_id":"1"} => not built
POST /jobs/bulk [{"job_class":"A","job_id":"1"}, {"job_class":"Z","job_id":"2"}] => bulk
POST /jobs/bulk [{"job_class":"A","job_id":"1"},{"job_class":7}] => 1: job_class is of the wrong kind or out of its range
POST /jobs/bulk [{"job_class":"A","job_id":"1"},{"more":1.0}] => 1: arguments hold a number that isn't whole, or isn't from -2^63 to 2^64-1
POST /jobs/bulk [] => wrong kind jobs
POST /jobs/bulk {} => wrong kind jobs
POST /jobs/bulk [1 => not json
POST /processes {"name":"host-1","kind":"worker"} => register
POST /processes {"kind":"Worker"} => wrong kind kind
POST /processes {"kind":"supervisor","name":null} => wrong kind name
POST /processes {"name":7} => missing kind
POST /processes ["kind"] => not json
POST /processes/7/beat no body => beat 7
DELETE /processes/7  => deregister 7
POST /processes/7  => not built
DELETE /processes/07  => deregister 7
DELETE /processes/00000000000000000007  => deregister 7
DELETE /processes/000000000000000000007  => not built
DELETE /processes/18446744073709551615  => deregister the last
DELETE /processes/18446744073709551616  => not built
DELETE /processes/+7  => not built
DELETE /processes/  => not built
POST /processes/7/poll {"limit":100,"queues":["real_time*","*"]} => poll
POST /processes/1/poll {"limit":0,"queues":["*"]} => wrong kind limit
POST /processes/1/poll {"limit":101,"queues":7} => wrong kind limit
POST /processes/1/poll {"limit":1.0,"queues":["*"]} => wrong kind limit
POST /processes/1/poll {"limit":1,"queues":[]} => wrong kind queues
POST /processes/1/poll {"limit":1,"queues":["a",""]} => wrong kind queues
POST /processes/1/poll {"limit":1} => missing queues
POST /processes/1/jobs/2/done {"ignored":true} => done 1 2
POST /processes/1/jobs/2/raised {"error":"Net::ReadTimeout","message":"no route"} => raised 1 2
POST /processes/1/jobs/2/raised {"error":"","message":null} => wrong kind error
POST /processes/1/jobs/2/raised {"error":"E","message":null} => wrong kind message
POST /processes/1/jobs/2/release  => release 1 2
POST /processes/1/jobs/x/release  => not built
POST /processes/1/jobs/2  => not built
POST /processes/1/tick/clean%20up  => tick 1
POST /processes/1/tick/  => not built
POST /upkeep/dispatch  => dispatch
POST /upkeep/expire  => expire
POST /upkeep/unblock  => unblock
POST /upkeep/prune  => prune
POST /upkeep/clear  => clear
POST /upkeep/all  => not built"#;

/// What the request of these words asks for.
fn expect(rt: &impl Abort, alloc: Global, request: &Request, expected: &str, words: &str) {
    let ask = ask_of(alloc, request).expect(rt, "memory");
    let found = shown(rt, alloc, &ask);
    same(rt, found.as_str(), expected, words);
}

#[test]
fn requests_ask_by_the_table(rt: HostRuntime) {
    for line in REQUESTS.lines() {
        let (words, expected) = row(&rt, line);
        let request = request_of(&rt, rt.alloc(), words);
        expect(&rt, rt.alloc(), &request, expected, words);
    }
}
