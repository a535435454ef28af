use crate::tables::{row, same};
use http_wire::{Carry, Request, WireFault, read_request};
use sq_outside::{MemSource, Source, SureSource, Trickle};
use std::alloc::Global;
use std::process::Abort;

const GET: &[u8] = b"GET / HTTP/1.1\r\n\r\n";

const POST: &[u8] =
    b"POST /jobs HTTP/1.1\r\nContent-Length: 31\r\n\r\n{\"job_class\":\"A\",\"job_id\":\"j1\"}";

const LISTED_POST: &str = "POST [/jobs] [] [{\"job_class\":\"A\",\"job_id\":\"j1\"}], ";

fn list_request(rt: &impl Abort, alloc: Global, listed: &mut String, request: &Request) {
    let (method, path) = (request.method.as_str(), request.path.as_str());
    let query = request.query.as_str();
    let body = String::from_utf8_lossy(alloc, request.body.as_slice()).expect(rt, "memory");
    write!(listed, "{method} [{path}] [{query}] [{body}], ").expect(rt, "memory");
}

// The requests of a stream and how it ends, as text.
fn listed<S: Source>(rt: &impl Abort, alloc: Global, source: &mut S) -> String {
    let mut carry = Carry::new(alloc);
    let mut listed = String::new(alloc);
    for _ in 0..9 {
        match read_request(alloc, source, &mut carry) {
            Ok(Some(request)) => list_request(rt, alloc, &mut listed, &request),
            Ok(None) => {
                listed.push_str("end").expect(rt, "memory");
                break;
            }
            Err(fault) => {
                write!(listed, "{fault:?}").expect(rt, "memory");
                break;
            }
        }
    }
    listed
}

fn expect_listed<S: Source>(
    rt: &impl Abort,
    alloc: Global,
    source: &mut S,
    expected: &str,
    of: &str,
) {
    let found = listed(rt, alloc, source);
    same(rt, found.as_str(), expected, of);
}

fn expect(rt: &impl Abort, alloc: Global, stream: &[u8], expected: &str, of: &str) {
    let bytes = Vec::from_slice(alloc, stream).expect(rt, "memory");
    expect_listed(rt, alloc, &mut SureSource::new(bytes), expected, of);
}

// A head that has no end yet, of this length.
fn open_head(rt: &impl Abort, alloc: Global, len: usize) -> Vec<u8> {
    let mut head = Vec::from_slice(alloc, b"GET / HTTP/1.1\r\nA: ").expect(rt, "memory");
    head.resize(len, b'x').expect(rt, "memory");
    head
}

fn joined(rt: &impl Abort, alloc: Global, first: &[u8], second: &[u8]) -> Vec<u8> {
    let mut whole = Vec::from_slice(alloc, first).expect(rt, "memory");
    whole.extend_from_slice(second).expect(rt, "memory");
    whole
}

/// The bytes of a text in which `|` stands for a carriage return and a line feed, `^` for the one and `~` for the other.
fn stream_of(rt: &impl Abort, alloc: Global, text: &str) -> String {
    let text = text.replace(alloc, "|", "^~").expect(rt, "memory");
    let text = text.replace(alloc, "^", "\r").expect(rt, "memory");
    text.replace(alloc, "~", "\n").expect(rt, "memory")
}

/// Streams, and their requests and ends.
const STREAMS: &str = " => end
GET / HTTP/1.1|| => GET [/] [] [], end
GET / HTTP/1.0|| => GET [/] [] [], end
GET / HTTP/1.2|| => BadRequest { at: 0 }
GET /jobs?queue=a?b HTTP/1.1|| => GET [/jobs] [queue=a?b] [], end
GET * HTTP/1.1|| => BadRequest { at: 0 }
GET * HTTP/1.1|Transfer-Encoding: chunked|| => BadRequest { at: 0 }
PUT / HTTP/1.1~content-length: 2~~abGET / HTTP/1.1~~ => PUT [/] [] [ab], GET [/] [] [], end
PUT / HTTP/1.1|Content-Length: 0000000000000000002||ab => PUT [/] [] [ab], end
PUT / HTTP/1.1|Content-Length: 00000000000000000002||ab => BadRequest { at: 0 }
PUT / HTTP/1.1|Content-Length: +5||hello => BadRequest { at: 0 }
PUT / HTTP/1.1|Content-Length:|| => BadRequest { at: 0 }
PUT / HTTP/1.1|Content-Length: 0|content-length: 0|| => BadRequest { at: 0 }
PUT / HTTP/1.1|Content-Length: 1048577|| => TooLarge { at: 0, len: 1048577 }
PUT / HTTP/1.1|Content-Length: 9999999999999999999|| => TooLarge { at: 0, len: 9999999999999999999 }
PUT / HTTP/1.1|Content-Length: +5|Transfer-Encoding: chunked|| => Unsupported { at: 0 }
||GET /a HTTP/1.1||||GET * HTTP/1.1|| => GET [/a] [] [], BadRequest { at: 23 }
GET / HTTP/1.1||^^ => GET [/] [] [], end
^^ => end
^GET / HTTP/1.1|| => BadRequest { at: 0 }";

#[test]
fn heads_are_read_or_refused_at_their_place(rt: HostRuntime) {
    let alloc = rt.alloc();
    for line in STREAMS.lines() {
        let (text, expected) = row(&rt, line);
        let stream = stream_of(&rt, alloc, text);
        expect(&rt, alloc, stream.as_bytes(), expected, text);
    }
    let target = b"GET /\xff HTTP/1.1\r\n\r\n";
    expect(&rt, alloc, target, "BadRequest { at: 0 }", "no UTF-8");
}

fn expect_fields(rt: &impl Abort, alloc: Global, count: usize, expected: &str) {
    let fields = "A: b\r\n".repeat(alloc, count).expect(rt, "memory");
    let head = format!(in alloc; "GET / HTTP/1.1\r\n{fields}\r\n").expect(rt, "memory");
    let of = format!(in alloc; "{count} fields").expect(rt, "memory");
    expect(rt, alloc, head.as_bytes(), expected, of.as_str());
}

/// A head that has no end yet, and what follows it.
fn expect_open(rt: &impl Abort, alloc: Global, len: usize, rest: &[u8], expected: &str) {
    let stream = joined(rt, alloc, &open_head(rt, alloc, len), rest);
    let of = format!(in alloc; "{len} bytes").expect(rt, "memory");
    expect(rt, alloc, &stream, expected, of.as_str());
}

#[test]
fn a_head_has_64_fields_and_16384_bytes_at_most(rt: HostRuntime) {
    let alloc = rt.alloc();
    let taken = "GET [/] [] [], end";
    let refused = "BadRequest { at: 0 }";
    let too_large = "TooLarge { at: 0, len: 16384 }";
    expect_fields(&rt, alloc, 64, taken);
    expect_fields(&rt, alloc, 65, refused);
    expect_open(&rt, alloc, 16_383, b"", refused);
    expect_open(&rt, alloc, 16_384, b"", too_large);
    expect_open(&rt, alloc, 16_385, b"", too_large);
    expect_open(&rt, alloc, 16_380, b"\r\n\r\n", taken);
    expect_open(&rt, alloc, 16_381, b"\r\n\r\n", too_large);
}

/// So many line ends, and then a request or nothing.
fn expect_after(
    rt: &impl Abort,
    alloc: Global,
    line_end: &str,
    count: usize,
    rest: &[u8],
    expected: &str,
) {
    let line_ends = line_end.repeat(alloc, count).expect(rt, "memory");
    let stream = joined(rt, alloc, line_ends.as_bytes(), rest);
    let of = format!(in alloc; "{count} line ends and {} bytes", rest.len()).expect(rt, "memory");
    expect(rt, alloc, &stream, expected, of.as_str());
}

#[test]
fn line_ends_before_a_request_count_as_its_head(rt: HostRuntime) {
    let alloc = rt.alloc();
    let too_large = "TooLarge { at: 0, len: 16384 }";
    // `GET` has 18 bytes.
    expect_after(&rt, alloc, "\r\n", 8183, GET, "GET [/] [] [], end");
    expect_after(&rt, alloc, "\n", 16_367, GET, too_large);
    expect_after(&rt, alloc, "\r\n", 10_000, GET, too_large);
    expect_after(&rt, alloc, "\r\n", 10_000, b"", "end");
}

#[test]
fn a_body_of_1048576_bytes_is_taken(rt: HostRuntime) {
    let alloc = rt.alloc();
    let body = "x".repeat(alloc, 1_048_576).expect(&rt, "memory");
    let head = b"PUT / HTTP/1.1\r\nContent-Length: 1048576\r\n\r\n";
    let stream = joined(&rt, alloc, head, body.as_bytes());
    let stream = joined(&rt, alloc, &stream, GET);
    let listed = format!(in alloc; "PUT [/] [] [{body}], GET [/] [] [], end").expect(&rt, "memory");
    expect(&rt, alloc, &stream, listed.as_str(), "the longest body");
}

#[test]
fn a_request_that_is_cut_is_refused(rt: HostRuntime) {
    let alloc = rt.alloc();
    expect(&rt, alloc, b"", "end", "0 bytes");
    for len in 1..POST.len() {
        let of = format!(in alloc; "{len} bytes").expect(&rt, "memory");
        expect(
            &rt,
            alloc,
            &POST[..len],
            "BadRequest { at: 0 }",
            of.as_str(),
        );
    }
}

/// What may follow whole requests, and how the stream ends then.
const ENDS: &str = " => end
|| => end
GET / HTTP/1.1| => BadRequest { at: 116 }
|GET * HTTP/1.1|| => BadRequest { at: 116 }
PUT / HTTP/1.1|Transfer-Encoding: chunked|| => Unsupported { at: 116 }
PUT / HTTP/1.1|Content-Length: 1048577|| => TooLarge { at: 116, len: 1048577 }";

/// Requests and what follows them, in one piece and in pieces of one byte.
fn expect_in_pieces(rt: &impl Abort, alloc: Global, requests: &[u8], rest: &str, end: &str) {
    let expected = format!(in alloc; "GET [/a] [] [], {LISTED_POST}GET [/b] [x] [], {end}").expect(
        rt, "memory",
    );
    let stream = joined(rt, alloc, requests, rest.as_bytes());
    expect(rt, alloc, &stream, expected.as_str(), rest);
    let mut pieces = Trickle::new(SureSource::new(stream), 1);
    expect_listed(rt, alloc, &mut pieces, expected.as_str(), rest);
}

#[test]
fn pieces_of_one_byte_are_read_as_one_piece_is(rt: HostRuntime) {
    let alloc = rt.alloc();
    let requests = joined(&rt, alloc, b"GET /a HTTP/1.1\r\n\r\n", POST);
    let requests = joined(&rt, alloc, &requests, b"\r\nGET /b?x HTTP/1.1\r\n\r\n");
    assert_eq!(rt; requests.len(), 116);
    for line in ENDS.lines() {
        let (rest, end) = row(&rt, line);
        let rest = stream_of(&rt, alloc, rest);
        expect_in_pieces(&rt, alloc, &requests, rest.as_str(), end);
    }
}

/// A stream whose read of this number fails, and what is given before that.
fn expect_failing(rt: &impl Abort, alloc: Global, stream: &[u8], call: u64, given: &str) {
    let bytes = Vec::from_slice(alloc, stream).expect(rt, "memory");
    let calls = vec![in alloc; call].expect(rt, "memory");
    let mut source = MemSource::new(bytes, calls);
    let expected = format!(in alloc; "{given}{:?}", WireFault::ReadFault).expect(rt, "memory");
    let of = format!(in alloc; "{} bytes, read {call}", stream.len()).expect(rt, "memory");
    expect_listed(rt, alloc, &mut source, expected.as_str(), of.as_str());
}

#[test]
fn requests_before_a_read_that_fails_are_given(rt: HostRuntime) {
    let alloc = rt.alloc();
    expect_failing(&rt, alloc, POST, 1, "");
    expect_failing(&rt, alloc, POST, 2, LISTED_POST);
    let two = joined(&rt, alloc, GET, POST);
    let listed_two = format!(in alloc; "GET [/] [] [], {LISTED_POST}").expect(&rt, "memory");
    expect_failing(&rt, alloc, &two, 2, listed_two.as_str());
}

#[test]
fn nothing_is_given_of_a_request_whose_read_fails(rt: HostRuntime) {
    let alloc = rt.alloc();
    let open = open_head(&rt, alloc, 9000);
    expect_failing(&rt, alloc, &open, 2, "");
    let head = b"PUT / HTTP/1.1\r\nContent-Length: 9000\r\n\r\n";
    expect_failing(&rt, alloc, &joined(&rt, alloc, head, &open), 2, "");
    let line_ends = "\r\n".repeat(alloc, 10_000).expect(&rt, "memory");
    expect_failing(&rt, alloc, line_ends.as_bytes(), 3, "");
}

#[test]
fn a_whole_request_is_not_kept_waiting_for_one_more_byte(rt: HostRuntime) {
    let alloc = rt.alloc();
    let bytes = Vec::from_slice(alloc, GET).expect(&rt, "memory");
    let source = MemSource::new(bytes, vec![in alloc; 19].expect(&rt, "memory"));
    let mut pieces = Trickle::new(source, 1);
    let expected = format!(in alloc; "GET [/] [] [], {:?}", WireFault::ReadFault).expect(
        &rt, "memory",
    );
    let of = "pieces of one byte";
    expect_listed(&rt, alloc, &mut pieces, expected.as_str(), of);
}
