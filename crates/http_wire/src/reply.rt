ghost use Rattle.std.specs.Prelude.{◌≡◌, ◌≤◌, ◌++◌, [], length, unwrap_or, IsTrue, IfSome, OnOk, OnErr};
ghost use Rattle.http.specs.StatusCode.{reason_phrase};
ghost use Rattle.std.specs.Io.KnownBytes.{Appends};
ghost use Rattle.sq_outside.specs.Fault.{Rose};
ghost use Rattle.http_wire.specs.Reply.{head_text, reply_text, is_reply_status, AppendsPrefix};

use arrayvec::{ArrayString, ArrayVec};
use http::StatusCode;
use itoa::Buffer;
use job_states::Bytes;
use sq_outside::Sink;
use thiserror::Error;

// How many bytes are short enough to be put together on the stack.
const ONE_PIECE: usize = 1152;

/// A reply.
#[derive(Drop)]
pub struct Reply {
    /// 200, 201, 400, 404, 405, 409, 413, 422, 500, 501, 503 or 507.
    pub status: u16,
    pub kind: BodyKind,
    pub body: Body,
}

/// What a body is.
#[derive(Clone, Copy)]
pub enum BodyKind {
    /// `application/json`
    Json,
    /// `application/octet-stream`
    Raw,
}

impl BodyKind {
    ghost use Rattle.std.specs.Prelude.{◌≡◌, ◌≤◌, length};
    ghost use Rattle.http_wire.specs.Reply as text;

    /// The media type (RFC 9110).
    pub fn media_type(self) -> &'static str
        ensures value { result.now ≡ text.media_type self }
        ensures short { length result.now ≤ 24 }
    {
        match self {
            BodyKind::Json => "application/json",
            BodyKind::Raw => "application/octet-stream",
        }
    }
}

/// The body of a reply.
#[derive(Drop)]
pub enum Body {
    Kept(Bytes),
    /// `{"error":"disk_fault"}`, which takes no memory.
    DiskFault,
    /// `{"error":"no_memory"}`, which takes no memory.
    NoMemory,
}

/// The sink failed, or took nothing.
#[derive(Clone, Copy, Debug, Error)]
#[error("the output failed, or took nothing")]
pub struct WriteFault;

impl Body {
    ghost use Rattle.std.specs.Prelude.{◌≡◌};
    ghost use Rattle.http_wire.specs.Reply.{body_bytes};

    /// The body's bytes.
    pub fn as_slice(&self) -> &[u8]
        ensures { result.now ≡ body_bytes self.now }
    {
        match self {
            Body::Kept(bytes) => bytes.as_slice(),
            Body::DiskFault => br#"{"error":"disk_fault"}"#,
            Body::NoMemory => br#"{"error":"no_memory"}"#,
        }
    }
}

/// Writes a reply. It takes no memory.
pub fn write_reply<K: Sink>(sink: &mut K, reply: &Reply) -> Result<(), WriteFault>
    requires { IsTrue (is_reply_status reply.now.status) }
    ensures whole { OnOk result (Appends (K.sink_state sink.old).written (K.sink_state sink.new).written (reply_text reply.now)) }
    ensures prefix { OnErr result (AppendsPrefix (K.sink_state sink.old).written (K.sink_state sink.new).written (reply_text reply.now)) }
    ensures cause { OnErr result (Rose (K.sink_state sink.old).faults (K.sink_state sink.new).faults) }
    ensures count { (K.sink_state sink.old).faults ≤ (K.sink_state sink.new).faults }
{
    let head = head_of(reply);
    write_two(sink, head.as_str().as_bytes(), reply.body.as_slice())
}

/// Writes two pieces, one after the other: at once where they are short, since the second of two writes may wait for an
/// answer to the first. It takes no memory.
pub fn write_two<K: Sink>(sink: &mut K, first: &[u8], second: &[u8]) -> Result<(), WriteFault>
    ensures whole { OnOk result (Appends (K.sink_state sink.old).written (K.sink_state sink.new).written (first.now ++ second.now)) }
    ensures prefix { OnErr result (AppendsPrefix (K.sink_state sink.old).written (K.sink_state sink.new).written (first.now ++ second.now)) }
    ensures cause { OnErr result (Rose (K.sink_state sink.old).faults (K.sink_state sink.new).faults) }
    ensures count { (K.sink_state sink.old).faults ≤ (K.sink_state sink.new).faults }
{
    if let Some(whole) = one_piece(first, second) {
        return write_all(sink, whole.as_slice());
    }
    write_all(sink, first)?;
    write_all(sink, second)
}

fn one_piece(first: &[u8], second: &[u8]) -> Option<ArrayVec<u8, ONE_PIECE>>
    ensures { IfSome result (λ whole. whole.items ≡ first.now ++ second.now) }
{
    let mut whole = ArrayVec::new();
    whole.try_extend_from_slice(first).ok()?;
    whole.try_extend_from_slice(second).ok()?;
    Some(whole)
}

// What stands before the body.
fn head_of(reply: &Reply) -> ArrayString<128>
    requires { IsTrue (is_reply_status reply.now.status) }
    ensures { result.bytes ≡ head_text reply.now }
{
    let mut number = Buffer::new();
    let mut head = ArrayString::new();
    head.push_str("HTTP/1.1 ");
    head.push_str(number.format(reply.status));
    head.push_str(" ");
    head.push_str(reason(reply.status));
    head.push_str("\r\nContent-Type: ");
    head.push_str(reply.kind.media_type());
    head.push_str("\r\nContent-Length: ");
    head.push_str(number.format(reply.body.as_slice().len()));
    head.push_str("\r\n\r\n");
    head
}

// The phrase that the crate `http` gives to a status.
fn reason(status: u16) -> &'static str
    requires { IsTrue (is_reply_status status) }
    ensures phrase { result.now ≡ unwrap_or (reason_phrase status) [] }
    ensures short { length result.now ≤ 21 }
{
    let Ok(status) = StatusCode::from_u16(status) else {
        unreachable!()
    };
    status.canonical_reason().unwrap_or("")
}

/// Writes all of a piece.
#[tactic(auto, using(crate::proofs::Appended::writing))]
pub fn write_all<K: Sink>(sink: &mut K, piece: &[u8]) -> Result<(), WriteFault>
    ensures whole { OnOk result (Appends (K.sink_state sink.old).written (K.sink_state sink.new).written piece.now) }
    ensures prefix { OnErr result (AppendsPrefix (K.sink_state sink.old).written (K.sink_state sink.new).written piece.now) }
    ensures cause { OnErr result (Rose (K.sink_state sink.old).faults (K.sink_state sink.new).faults) }
    ensures count { (K.sink_state sink.old).faults ≤ (K.sink_state sink.new).faults }
{
    let mut done = 0;
    while done < piece.len() {
        let Ok(taken) = sink.write(&piece[done..]) else {
            return Err(WriteFault);
        };
        if taken == 0 {
            return Err(WriteFault);
        }
        done += taken;
    }
    Ok(())
}
