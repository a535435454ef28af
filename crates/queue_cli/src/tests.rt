ghost use Rattle.std.specs.Prelude.{◌<◌};

use crate::run;
use sq_outside::{MemClock, MemDisk, MemSink, MemSource, Source, SureSource};
use std::alloc::Global;
use std::process::Abort;

const SETTINGS: &str = r#"
[[classes]]
name = "A"
[[classes]]
name = "B"
limit = { key_argument = 0 }
[[classes]]
name = "C"
limit = { key = "k", on_conflict = "discard" }
"#;

/// A request, and after ` => ` its reply.
const QUEUES: &str =
    r#"POST /jobs {"job_class":"A","job_id":"1","queue_name":"background","priority":0} => 201 {"id":1,"state":"ready"}
POST /jobs {"job_class":"A","job_id":"2","queue_name":"real_time","priority":10} => 201 {"id":2,"state":"ready"}
POST /jobs {"job_class":"A","job_id":"3","queue_name":"backend","priority":0} => 201 {"id":3,"state":"ready"}
POST /jobs {"job_class":"A","job_id":"4","queue_name":"real_time","priority":5} => 201 {"id":4,"state":"ready"}
POST /processes {"kind":"worker","name":"w"} => 201 {"pid":1}
POST /processes/1/poll {"limit":3,"queues":["real_time","back*"]} => 200 {"jobs":[{"active_job_id":"4","class":"A","envelope":"{\"job_class\":\"A\",\"job_id\":\"4\",\"queue_name\":\"real_time\",\"priority\":5}","executions":0,"id":4,"priority":5,"queue":"real_time"},{"active_job_id":"2","class":"A","envelope":"{\"job_class\":\"A\",\"job_id\":\"2\",\"queue_name\":\"real_time\",\"priority\":10}","executions":0,"id":2,"priority":10,"queue":"real_time"},{"active_job_id":"3","class":"A","envelope":"{\"job_class\":\"A\",\"job_id\":\"3\",\"queue_name\":\"backend\",\"priority\":0}","executions":0,"id":3,"priority":0,"queue":"backend"}]}
POST /processes/1/jobs/4/release  => 200 {"id":4,"state":"ready"}
POST /processes/1/jobs/2/raised {"error":"NetError","message":"no route"} => 200 {"id":2,"next":null,"state":"failed","unblocked":null}
POST /processes/9/poll {"limit":1,"queues":["*"]} => 404 {"error":"no_such_process","next":2,"pid":9}
POST /processes/1/poll {"limit":0,"queues":["*"]} => 400 {"error":"wrong_kind","member":"limit"}
POST /jobs/bulk [{"job_class":"A","job_id":"1"},{"job_class":"Z","job_id":"2"}] => 422 {"class":"Z","error":"unknown_class","index":1}
POST /jobs {"job_class":"A","job_id":"5"} => 201 {"id":5,"state":"ready"}
POST /jobs/bulk [{"job_class":"A","job_id":"6"},{"job_class":"A","job_id":"7"}] => 201 {"jobs":[{"id":6,"state":"ready"},{"id":7,"state":"ready"}]}
GET /jobs  => 501 {"error":"not_built"}"#;

const CLAIMS: &str = r#"POST /jobs {"job_class":"A","job_id":"1"} => 201 {"id":1,"state":"ready"}
POST /processes {"kind":"worker","name":"v"} => 201 {"pid":1}
POST /processes {"kind":"worker","name":"w"} => 201 {"pid":2}
POST /processes/1/poll {"limit":1,"queues":["*"]} => 200 {"jobs":[{"active_job_id":"1","class":"A","envelope":"{\"job_class\":\"A\",\"job_id\":\"1\"}","executions":0,"id":1,"priority":0,"queue":"default"}]}
POST /processes/2/jobs/1/done  => 409 {"by":1,"error":"not_claimant","id":1}
POST /processes/1/jobs/9/done  => 404 {"error":"no_such_job","id":9,"next":2}
POST /processes/1/jobs/1/done  => 200 {"id":1,"state":"finished","unblocked":null}
POST /processes/1/jobs/1/done  => 409 {"error":"wrong_state","id":1,"state":"finished"}
POST /processes/9/beat  => 404 {"error":"no_such_process","next":3,"pid":9}
POST /processes/2/beat  => 200 {"pid":2}
POST /upkeep/dispatch  => 200 {"count":0}
POST /upkeep/expire  => 200 {"count":0}
POST /upkeep/unblock  => 200 {"count":0}
POST /upkeep/prune  => 200 {"failed":0,"pid":null}
POST /upkeep/clear  => 200 {"count":0}
DELETE /processes/1  => 200 {"pid":1,"released":0}"#;

const FULL: &str = r#"POST /jobs {"job_class":"A","job_id":"1"} => 201 {"id":1,"state":"ready"}
POST /jobs {"job_class":"A","job_id":"2"} => 507 {"error":"full","kept":1}"#;

const BLOCKED: &str =
    r#"POST /jobs {"arguments":["x"],"job_class":"B","job_id":"1"} => 201 {"id":1,"state":"ready"}
POST /jobs {"arguments":["x"],"job_class":"B","job_id":"2"} => 201 {"id":2,"state":"blocked"}
POST /processes {"kind":"worker","name":"w"} => 201 {"pid":1}
POST /processes/1/poll {"limit":5,"queues":["*"]} => 200 {"jobs":[{"active_job_id":"1","class":"B","envelope":"{\"arguments\":[\"x\"],\"job_class\":\"B\",\"job_id\":\"1\"}","executions":0,"id":1,"priority":0,"queue":"default"}]}
POST /processes/1/jobs/1/done  => 200 {"id":1,"state":"finished","unblocked":2}"#;

const DISCARDED: &str = r#"POST /jobs {"job_class":"C","job_id":"1"} => 201 {"id":1,"state":"ready"}
POST /jobs {"job_class":"C","job_id":"2"} => 200 {"id":null,"state":"discarded"}"#;

/// Settings for traces: also classes with rules on errors.
const RULES: &str = r#"
[jobs]
clear_after = 1
[[classes]]
name = "A"
[[classes]]
name = "B"
limit = { key_argument = 0 }
[[classes]]
name = "C"
limit = { key = "k", on_conflict = "discard" }
[[classes]]
name = "R"
rules = [{ on = ["NetError"], do = "retry", wait = "polynomially_longer", attempts = 4 }]
[[classes]]
name = "S"
rules = [{ on = ["NetError"], do = "retry" }, { on = ["StandardError"], do = "discard" }]
"#;

/// Traces: a line, and after ` => ` what is printed for it.
const TRACES: [&str; 12] = [
    // a permit of a generation that lapsed isn't given back
    r#"@0 0 do enqueue B q 0 x - => {"id":1,"state":"ready"}
@0 0 do register worker w => {"pid":1}
@1 0 do poll 1 1 q => {"ids":[1]}
@180000000 0 do expire => {"count":1}
@180000000 0 do enqueue B q 0 x - => {"id":2,"state":"ready"}
@180000000 0 do enqueue B q 0 x - => {"id":3,"state":"blocked"}
@180000001 0 do done 1 1 => {"id":1,"state":"finished","unblocked":null}
@360000000 0 do expire => {"count":1}
@360000000 0 do unblock => {"count":1}"#,
    // a process whose rows another seat holds isn't pruned
    r#"@20 0 do enqueue A q 0 - - => {"id":1,"state":"ready"}
@20 0 do register worker w => {"pid":1}
@300000020 0 begin poll 1 1 * => open
@300000020 1 do prune => {"failed":0,"pid":null}
0 commit => {"ids":[1]}
@300000021 1 do prune => {"failed":1,"pid":1}"#,
    r#"@1000 0 do register worker w => {"pid":1}
@300000999 0 do prune => {"failed":0,"pid":null}
@300001000 0 do prune => {"failed":0,"pid":1}"#,
    r#"@1000 0 do register worker w => {"pid":1}
@2000 0 do beat 1 => {"pid":1}
@300001999 0 do prune => {"failed":0,"pid":null}
@300002000 0 do prune => {"failed":0,"pid":1}"#,
    // a key that another seat holds doesn't lapse
    r#"@0 0 do enqueue B q 0 x - => {"id":1,"state":"ready"}
@0 0 do enqueue B q 0 x - => {"id":2,"state":"blocked"}
@1 0 begin discard 1 => open
@180000000 1 do expire => {"count":0}
0 commit => {"id":1,"state":"discarded","unblocked":2}
@180000001 0 do register worker w => {"pid":1}
@180000001 0 do poll 1 5 * => {"ids":[2]}"#,
    // a poll leaves out what another seat holds
    r#"@0 0 do enqueue A q 0 - - => {"id":1,"state":"ready"}
@0 0 do enqueue A q 0 - - => {"id":2,"state":"ready"}
@0 0 do enqueue A q 0 - - => {"id":3,"state":"ready"}
@0 0 do enqueue A q 0 - - => {"id":4,"state":"ready"}
@0 0 do register worker w => {"pid":1}
@30 0 begin poll 1 2 * => open
@30 1 begin poll 1 2 * => open
1 commit => {"ids":[3,4]}
0 rollback => rolled back
@40 2 begin poll 1 2 * => open
2 commit => {"ids":[1,2]}"#,
    r#"@0 0 do enqueue A background 0 - - => {"id":1,"state":"ready"}
@0 0 do enqueue A real_time 10 - - => {"id":2,"state":"ready"}
@0 0 do enqueue A backend 0 - - => {"id":3,"state":"ready"}
@0 0 do enqueue A real_time 5 - - => {"id":4,"state":"ready"}
@0 0 do register worker w => {"pid":1}
@1 0 do poll 1 3 real_time,back* => {"ids":[4,2,3]}"#,
    r#"@0 0 do enqueue A a 0 - - => {"id":1,"state":"ready"}
@0 0 do enqueue A b 5 - - => {"id":2,"state":"ready"}
@0 0 do register worker w => {"pid":1}
@0 0 do pause a => {"paused":true,"queue":"a"}
@1 0 do poll 1 2 * => {"ids":[2]}
@1 0 do resume a => {"paused":false,"queue":"a"}
@1 0 do poll 1 2 * => {"ids":[1]}"#,
    // the seats
    r#"@1 0 begin enqueue B q 0 x - => open
@1 0 do expire => {"error":"seat_open"}
@1 1 begin enqueue B q 0 x - => {"by":0,"error":"locked","row":"key B/x"}
0 commit => {"id":1,"state":"ready"}
@2 1 do enqueue B q 0 x - => {"id":2,"state":"blocked"}
1 commit => {"error":"seat_empty"}
reopen => {"error":"not_built"}
@3 1 do discard 1 => {"id":1,"state":"discarded","unblocked":2}"#,
    // a retry by hand needs the permit
    r#"@0 0 do enqueue C q 0 - - => {"id":1,"state":"ready"}
@0 0 do register worker w => {"pid":1}
@0 0 do poll 1 1 * => {"ids":[1]}
@0 0 do raised 1 1 Oops => {"id":1,"next":null,"state":"failed","unblocked":null}
@0 0 do enqueue C q 0 - - => {"id":2,"state":"ready"}
@0 0 do enqueue C q 0 - - => {"id":null,"state":"discarded"}
@0 0 do retry 1 => {"error":"semaphore_closed","key":"C/k"}
@0 0 do discard 2 => {"id":2,"state":"discarded","unblocked":null}
@0 0 do retry 1 => {"id":1,"state":"ready"}"#,
    // retries wait the longer the more there were
    r#"@0 0 do register worker w => {"pid":1}
@0 0 do enqueue R q 0 - - => {"id":1,"state":"ready"}
@1 0 do poll 1 1 * => {"ids":[1]}
@2 0 do raised 1 1 NetError => {"id":1,"next":2,"state":"finished","unblocked":null}
@3000001 0 do dispatch => {"count":0}
@3000002 0 do dispatch => {"count":1}
@3000003 0 do poll 1 1 * => {"ids":[2]}
@3000003 0 do raised 1 2 NetError => {"id":2,"next":3,"state":"finished","unblocked":null}
@21000002 0 do dispatch => {"count":0}
@21000003 0 do dispatch => {"count":1}
@21000004 0 do poll 1 1 * => {"ids":[3]}
@21000004 0 do raised 1 3 NetError => {"id":3,"next":4,"state":"finished","unblocked":null}
@104000003 0 do dispatch => {"count":0}
@104000004 0 do dispatch => {"count":1}
@104000005 0 do poll 1 1 * => {"ids":[4]}
@104000005 0 do raised 1 4 NetError => {"id":4,"next":null,"state":"failed","unblocked":null}"#,
    // the rule that was declared last is found first
    r#"@0 0 do register worker w => {"pid":1}
@0 0 do enqueue S q 0 - - => {"id":1,"state":"ready"}
@1 0 do poll 1 1 * => {"ids":[1]}
@2 0 do raised 1 1 NetError => {"id":1,"next":null,"state":"finished","unblocked":null}"#,
];

/// Two runs over one disk, and what the second one finds.
const KEPT: [&str; 2] = [
    r#"POST /jobs {"job_class":"A","job_id":"1"} => 201 {"id":1,"state":"ready"}"#,
    r#"POST /jobs {"job_class":"A","job_id":"2"} => 201 {"id":2,"state":"ready"}
POST /processes {"kind":"worker","name":"w"} => 201 {"pid":1}
POST /processes/1/poll {"limit":1,"queues":["*"]} => 200 {"jobs":[{"active_job_id":"1","class":"A","envelope":"{\"job_class\":\"A\",\"job_id\":\"1\"}","executions":0,"id":1,"priority":0,"queue":"default"}]}"#,
];

/// The same where the disk failed at the commit of the first job.
const LOST: [&str; 2] = [
    r#"POST /jobs {"job_class":"A","job_id":"1"} => 503 {"error":"disk_fault"}
POST /jobs {"job_class":"A","job_id":"2"} => 201 {"id":2,"state":"ready"}"#,
    r#"POST /jobs {"job_class":"A","job_id":"3"} => 201 {"id":3,"state":"ready"}"#,
];

/// The header of a journal.
const HEADER: &[u8] = b"SQJRNAL\n\0\0\0\x01\0\0\0\0";
/// What stands after the gate of the first record, an enqueue at moment 1000: a length, a payload with its envelope, and a
/// closed gate.
const RECORD: [&[u8]; 3] = [
    b"\0\0\0\x4d\x01\x01\0\0\0\0\0\0\x03\xe8\0\x01\x01\0\0\0\0\0\0\0\x01\x01A\x07default\0\0\0\0\x02j1\0\x1f",
    b"{\"job_class\":\"A\",\"job_id\":\"j1\"}",
    b"\0\0\0\0\x01\0\0",
];

/// The bytes of a method, a path and a body, with a blank between them.
fn push_request(rt: &impl Abort, text: &mut String, row: &str) {
    let (method, rest) = row.split_once(" ").expect(rt, row);
    let (path, body) = rest.split_once(" ").expect(rt, row);
    let len = body.len();
    write!(
        text,
        "{method} {path} HTTP/1.1\r\nContent-Length: {len}\r\n\r\n{body}"
    )
    .expect(rt, row);
}

fn reason(status: &str) -> &'static str {
    match status {
        "200" => "OK",
        "201" => "Created",
        "400" => "Bad Request",
        "404" => "Not Found",
        "409" => "Conflict",
        "422" => "Unprocessable Entity",
        "501" => "Not Implemented",
        "503" => "Service Unavailable",
        "507" => "Insufficient Storage",
        _ => "no reason",
    }
}

/// The bytes of a status and a body.
fn push_reply(rt: &impl Abort, text: &mut String, row: &str) {
    let (status, body) = row.split_once(" ").expect(rt, row);
    let (reason, len) = (reason(status), body.len());
    write!(
        text,
        "HTTP/1.1 {status} {reason}\r\nContent-Type: application/json\r\nContent-Length: {len}\r\n\r\n{body}"
    )
    .expect(rt, row);
}

fn source(rt: &impl Abort, alloc: Global, text: &str) -> SureSource {
    SureSource::new(Vec::from_slice(alloc, text.as_bytes()).expect(rt, "memory"))
}

/// A disk with this file 0, whose call of this number fails.
fn disk_of(rt: &impl Abort, alloc: Global, file: Vec<u8>, fail: u64) -> MemDisk {
    let fail = vec![in alloc; (fail, 0)].expect(rt, "memory");
    MemDisk::new(alloc, [file, Vec::new(alloc)], fail).expect(rt, "memory")
}

fn new_disk(rt: &impl Abort, alloc: Global) -> MemDisk {
    disk_of(rt, alloc, Vec::new(alloc), 0)
}

/// The first bytes of the journal of one job, with this byte at the gate of its record.
fn journal(rt: &impl Abort, alloc: Global, gate: u8, len: usize) -> Vec<u8> {
    let mut file = Vec::from_slice(alloc, HEADER).expect(rt, "memory");
    file.push(gate).expect(rt, "memory");
    for part in RECORD {
        file.extend_from_slice(part).expect(rt, "memory");
    }
    file.truncate(len);
    file
}

/// Runs a command at moment 1000 and later, and answers its status.
fn command<S: Source>(
    rt: &impl Abort,
    alloc: Global,
    word: &str,
    settings: &str,
    input: &mut S,
    sink: &mut MemSink,
    disk: &mut MemDisk,
) -> u8 {
    let word = String::from_str(alloc, word).expect(rt, "memory");
    let words = vec![in alloc; word].expect(rt, "memory");
    let mut clock = MemClock::new(vec![in alloc; 1000, 1001, 1002].expect(rt, "memory"));
    let mut settings = source(rt, alloc, settings);
    run(alloc, &words, &mut settings, input, sink, disk, &mut clock)
}

/// Runs a command, which writes this and ends with this status.
fn expect_run(
    rt: &impl Abort,
    alloc: Global,
    word: &str,
    settings: &str,
    input: &str,
    disk: &mut MemDisk,
    status: u8,
    expected: &str,
) {
    let mut sink = MemSink::new(alloc, Vec::new(alloc));
    let mut input = source(rt, alloc, input);
    let ended = command(rt, alloc, word, settings, &mut input, &mut sink, disk);
    let written = str::from_utf8(sink.bytes()).expect(rt, "UTF-8");
    assert_eq!(rt; written, expected);
    assert_eq!(rt; ended, status);
}

/// The same on a new disk whose call of this number fails.
fn expect_anew(
    rt: &impl Abort,
    alloc: Global,
    word: &str,
    settings: &str,
    input: &str,
    fail: u64,
    status: u8,
    expected: &str,
) {
    let mut disk = disk_of(rt, alloc, Vec::new(alloc), fail);
    expect_run(
        rt, alloc, word, settings, input, &mut disk, status, expected,
    );
}

/// Runs `exec` over the requests of a session, which are answered as it says.
fn answers(rt: &impl Abort, alloc: Global, settings: &str, session: &str, disk: &mut MemDisk) {
    let mut input = String::new(alloc);
    let mut expected = String::new(alloc);
    for row in session.lines() {
        let (request, reply) = row.split_once(" => ").expect(rt, row);
        push_request(rt, &mut input, request);
        push_reply(rt, &mut expected, reply);
    }
    expect_run(rt, alloc, "exec", settings, &input, disk, 0, &expected);
}

/// Runs `exec` over a session on a new disk.
fn answers_anew(rt: &impl Abort, alloc: Global, settings: &str, session: &str) {
    answers(rt, alloc, settings, session, &mut new_disk(rt, alloc));
}

/// Plays a trace on a new disk, which prints what its rows say.
fn plays(rt: &impl Abort, alloc: Global, trace: &str) {
    let mut lines = String::new(alloc);
    let mut expected = String::new(alloc);
    for row in trace.lines() {
        let (line, printed) = row.split_once(" => ").expect(rt, row);
        writeln!(lines, "{line}").expect(rt, row);
        writeln!(expected, "{printed}").expect(rt, row);
    }
    expect_anew(rt, alloc, "trace", RULES, &lines, 0, 0, &expected);
}

/// What `status` prints where there are so many ready jobs and nothing else.
fn ready_text(rt: &impl Abort, alloc: Global, ready: u64) -> String {
    format!(in alloc;
        "scheduled 0\nready {ready}\nblocked 0\nclaimed 0\nfailed 0\nfinished 0\nprocesses 0\nsemaphores 0\n"
    ).expect(rt, "memory")
}

#[test]
fn sessions_are_answered_by_the_tables(rt: HostRuntime) {
    let alloc = rt.alloc();
    let small = format!(in alloc; "[jobs]\nkept_max = 1\n{SETTINGS}").expect(&rt, "memory");
    answers_anew(&rt, alloc, SETTINGS, QUEUES);
    answers_anew(&rt, alloc, SETTINGS, CLAIMS);
    answers_anew(&rt, alloc, &small, FULL);
    answers_anew(&rt, alloc, SETTINGS, BLOCKED);
    answers_anew(&rt, alloc, SETTINGS, DISCARDED);
}

/// Two runs over a disk whose call of this number fails. Between them there is one ready job.
fn outlasts(rt: &impl Abort, alloc: Global, fail: u64, runs: [&str; 2]) {
    let [before, after] = runs;
    let mut disk = disk_of(rt, alloc, Vec::new(alloc), fail);
    answers(rt, alloc, SETTINGS, before, &mut disk);
    let ready = ready_text(rt, alloc, 1);
    expect_run(rt, alloc, "status", SETTINGS, "", &mut disk, 0, &ready);
    answers(rt, alloc, SETTINGS, after, &mut disk);
}

#[test]
fn jobs_outlast_the_run(rt: HostRuntime) {
    let alloc = rt.alloc();
    outlasts(&rt, alloc, 0, KEPT);
    // the eighteenth call of the disk syncs the gate of the first record, once it is open
    outlasts(&rt, alloc, 18, LOST);
}

/// After a session on a new disk file 0 is so many bytes of the journal of one job.
fn leaves(rt: &impl Abort, alloc: Global, session: &str, gate: u8, len: usize) {
    let mut disk = new_disk(rt, alloc);
    answers(rt, alloc, SETTINGS, session, &mut disk);
    assert_eq!(rt; disk.bytes(0), journal(rt, alloc, gate, len).as_slice());
}

#[test]
fn the_journal_has_the_bytes_of_its_format(rt: HostRuntime) {
    const ENQUEUE: &str =
        r#"POST /jobs {"job_class":"A","job_id":"j1"} => 201 {"id":1,"state":"ready"}"#;
    leaves(&rt, rt.alloc(), "", 0, 17);
    leaves(&rt, rt.alloc(), ENQUEUE, b'R', 99);
}

/// What `status` writes over this file 0, and how it ends.
fn expect_status(rt: &impl Abort, alloc: Global, file: Vec<u8>, status: u8, expected: &str) {
    let mut disk = disk_of(rt, alloc, file, 0);
    expect_run(
        rt, alloc, "status", SETTINGS, "", &mut disk, status, expected,
    );
}

#[test]
fn status_tells_what_an_opening_finds(rt: HostRuntime) {
    let alloc = rt.alloc();
    let (none, one) = (ready_text(&rt, alloc, 0), ready_text(&rt, alloc, 1));
    expect_status(&rt, alloc, journal(&rt, alloc, b'R', 99), 0, &one);
    expect_status(&rt, alloc, journal(&rt, alloc, 0, 99), 0, &none);
    expect_status(&rt, alloc, journal(&rt, alloc, b'R', 98), 0, &one);
    let cut = journal(&rt, alloc, b'R', 97);
    expect_status(&rt, alloc, cut, 8, "journal bad record at 16\n");
    let hello = Vec::from_slice(alloc, b"hello journal world!").expect(&rt, "memory");
    expect_status(&rt, alloc, hello, 8, "journal not a journal in file 0\n");
}

#[test]
fn each_run_ends_with_its_status(rt: HostRuntime) {
    const BAD: &str = "[[classes]]\ncolour = 1\n";
    const CUT: &str =
        "HTTP/1.1 400 Bad Request\r\nContent-Type: application/json\r\nContent-Length: 30\r\n\r\n{\"at\":0,\"error\":\"bad_request\"}";
    let alloc = rt.alloc();
    let open = "GET / HTTP/1.1\r\n";
    let refused = "settings 2 classes[0].colour\n";
    expect_anew(&rt, alloc, "exec", SETTINGS, "", 0, 0, "");
    expect_anew(&rt, alloc, "exec", SETTINGS, open, 0, 1, CUT);
    expect_anew(&rt, alloc, "exec", BAD, "", 0, 3, refused);
    expect_anew(&rt, alloc, "exec", SETTINGS, "", 1, 6, "disk fault\n");
}

#[test]
fn a_stream_that_fails_ends_the_run(rt: HostRuntime) {
    let alloc = rt.alloc();
    let mut disk = new_disk(&rt, alloc);
    let mut full = MemSink::new(alloc, vec![in alloc; 1].expect(&rt, "memory"));
    let mut get = source(&rt, alloc, "GET / HTTP/1.1\r\n\r\n");
    let ended = command(&rt, alloc, "exec", SETTINGS, &mut get, &mut full, &mut disk);
    assert_eq!(rt; ended, 5);
    let mut sink = MemSink::new(alloc, Vec::new(alloc));
    for (word, status) in [("exec", 4), ("Exec", 2)] {
        let fail = vec![in alloc; 1].expect(&rt, "memory");
        let mut input = MemSource::new(Vec::new(alloc), fail);
        let ended = command(&rt, alloc, word, SETTINGS, &mut input, &mut sink, &mut disk);
        assert_eq!(rt; ended, status);
    }
    assert_eq!(rt; sink.bytes(), b"usage\n".as_slice());
}

#[test]
fn traces_are_played_by_the_tables(rt: HostRuntime) {
    for trace in TRACES {
        plays(&rt, rt.alloc(), trace);
    }
}

/// The rows in which each of so many seats begins this command.
fn push_begins(rt: &impl Abort, trace: &mut String, moment: u64, seats: u64, command: &str) {
    for seat in 0..seats {
        writeln!(trace, "@{moment} {seat} begin {command} => open").expect(rt, "memory");
    }
}

/// The row of a seat's commit, which claims the hundred jobs after those of the seats before it.
fn push_claims(rt: &impl Abort, trace: &mut String, seat: u64)
    requires { seat < 3 }
{
    write!(trace, r#"{seat} commit => {{"ids":["#).expect(rt, "memory");
    for place in 1..101_u64 {
        let id = 100 * seat + place;
        let end = if place < 100 { "," } else { "]}\n" };
        write!(trace, "{id}{end}").expect(rt, "memory");
    }
}

/// A process that has 500 claims, with those of two seats that are open, may claim no more.
#[test]
fn open_polls_count_as_claims(rt: HostRuntime) {
    let mut trace = String::new(rt.alloc());
    for id in 1..502_u64 {
        writeln!(
            trace,
            r#"@0 0 do enqueue A q 0 - - => {{"id":{id},"state":"ready"}}"#
        )
        .expect(&rt, "memory");
    }
    writeln!(trace, r#"@0 0 do register worker w => {{"pid":1}}"#).expect(&rt, "memory");
    push_begins(&rt, &mut trace, 1, 5, "poll 1 100 *");
    for seat in 0..3_u64 {
        push_claims(&rt, &mut trace, seat);
    }
    writeln!(
        trace,
        r#"@1 5 do poll 1 1 * => {{"error":"claim_limit","held":500,"pid":1}}"#
    )
    .expect(&rt, "memory");
    plays(&rt, rt.alloc(), &trace);
}

/// The rows of a round in which each seat enqueues a job, but for one that rolls back.
fn push_enqueues(rt: &impl Abort, trace: &mut String, round: u64)
    requires { round < 8 }
{
    push_begins(rt, trace, round, 8, "enqueue A q 0 - -");
    for turn in 0..8_u64 {
        let seat = (3 * turn + round) % 8;
        let id = 8 * round + seat + 1;
        let row = if seat == round {
            writeln!(trace, "{seat} rollback => rolled back")
        } else {
            writeln!(trace, r#"{seat} commit => {{"id":{id},"state":"ready"}}"#)
        };
        row.expect(rt, "memory");
    }
}

/// The rows of a round in which each seat claims a job and is done with it. Of each eight numbers in turn the one of the seat
/// that rolled back is missing.
fn push_polls(rt: &impl Abort, trace: &mut String, round: u64)
    requires { round < 7 }
{
    push_begins(rt, trace, 9, 8, "poll 1 1 *");
    for turn in 0..8_u64 {
        let seat = (5 * turn + round) % 8;
        let place = 8 * round + seat;
        let (block, offset) = (place / 7, place % 7);
        let id = 8 * block + offset + if offset < block { 1 } else { 2 };
        writeln!(trace, r#"{seat} commit => {{"ids":[{id}]}}"#).expect(rt, "memory");
        writeln!(
            trace,
            r#"@10 {seat} do done 1 {id} => {{"id":{id},"state":"finished","unblocked":null}}"#
        )
        .expect(rt, "memory");
    }
}

/// Eight seats open their transactions side by side and end them in another order. Numbers are given at the begin, and a poll
/// leaves out what is held; a rollback lets go, and loses its number.
#[test]
fn eight_seats_take_turns(rt: HostRuntime) {
    let mut trace = String::new(rt.alloc());
    for round in 0..8_u64 {
        push_enqueues(&rt, &mut trace, round);
    }
    writeln!(trace, r#"@8 0 do register worker w => {{"pid":1}}"#).expect(&rt, "memory");
    for round in 0..7_u64 {
        push_polls(&rt, &mut trace, round);
    }
    plays(&rt, rt.alloc(), &trace);
}

#[test]
fn a_bad_line_ends_a_trace(rt: HostRuntime) {
    let alloc = rt.alloc();
    let lines = "0 commit\n0  commit\n0 commit\n";
    let second = "{\"error\":\"seat_empty\"}\n{\"at\":9,\"error\":\"bad_line\"}\n";
    let first = "{\"at\":0,\"error\":\"bad_line\"}\n";
    expect_anew(&rt, alloc, "trace", RULES, lines, 0, 1, second);
    expect_anew(&rt, alloc, "trace", RULES, "0 commit", 0, 1, first);
}
