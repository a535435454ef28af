ghost use Rattle.std.specs.Prelude.{◌≡◌};

use http_wire::{Body, BodyKind, Reply, write_reply};
use job_states::Bytes;
use sq_outside::{MemSink, Trickle};
use std::alloc::Global;
use std::process::Abort;

const CREATED: &[u8] =
    b"HTTP/1.1 201 Created\r\nContent-Type: application/json\r\nContent-Length: 24\r\n\r\n{\"id\":1,\"state\":\"ready\"}";

const SHORT: &[u8] = br#"{"id":1,"state":"ready"}"#;

fn created(rt: &impl Abort, alloc: Global, body: &[u8]) -> Reply
    ensures { result.status ≡ 201 }
{
    Reply {
        status: 201,
        kind: BodyKind::Json,
        body: Body::Kept(Bytes::read(alloc, body).expect(rt, "memory")),
    }
}

#[test]
fn a_reply_is_a_status_line_two_fields_and_a_body(rt: HostRuntime) {
    let alloc = rt.alloc();
    let reply = created(&rt, alloc, SHORT);
    let mut sink = MemSink::new(alloc, Vec::new(alloc));
    write_reply(&mut sink, &reply).expect(&rt, "written");
    assert_eq!(rt; sink.bytes(), CREATED);
}

#[test]
fn a_reply_is_written_to_a_sink_that_takes_one_byte_at_a_time(rt: HostRuntime) {
    let alloc = rt.alloc();
    let reply = created(&rt, alloc, SHORT);
    let mut trickle = Trickle::new(MemSink::new(alloc, Vec::new(alloc)), 1);
    write_reply(&mut trickle, &reply).expect(&rt, "written");
    assert_eq!(rt; trickle.inner().bytes(), CREATED);
}

#[test]
fn two_bodies_take_no_memory(rt: HostRuntime) {
    let (disk, memory) = (Body::DiskFault, Body::NoMemory);
    assert!(rt; disk.as_slice() == br#"{"error":"disk_fault"}"#.as_slice());
    assert!(rt; memory.as_slice() == br#"{"error":"no_memory"}"#.as_slice());
}

fn sink_failing(rt: &impl Abort, alloc: Global, call: u64) -> MemSink {
    MemSink::new(alloc, vec![in alloc; call].expect(rt, "memory"))
}

/// How many bytes are written of a reply where the write of this number fails, or all of them.
fn written(rt: &impl Abort, alloc: Global, reply: &Reply, call: u64) -> Option<usize>
    requires { reply.now.status ≡ 201 }
{
    let mut sink = sink_failing(rt, alloc, call);
    let failed = write_reply(&mut sink, reply).is_err();
    failed.then_some(sink.bytes().len())
}

#[test]
fn a_short_reply_is_written_at_once(rt: HostRuntime) {
    let reply = created(&rt, rt.alloc(), SHORT);
    assert_eq!(rt; written(&rt, rt.alloc(), &reply, 1), Some(0));
    assert_eq!(rt; written(&rt, rt.alloc(), &reply, 2), None);
}

#[test]
fn a_long_body_is_written_after_the_head(rt: HostRuntime) {
    let reply = created(&rt, rt.alloc(), &[b'x'; 2000]);
    // The length of the body has two digits more.
    let head = CREATED.len() - SHORT.len() + 2;
    assert_eq!(rt; written(&rt, rt.alloc(), &reply, 1), Some(0));
    assert_eq!(rt; written(&rt, rt.alloc(), &reply, 2), Some(head));
    assert_eq!(rt; written(&rt, rt.alloc(), &reply, 3), None);
}
