ghost use Rattle.std.specs.Prelude.{◌≡◌, ◌<◌, ◌≤◌, [], ◌∷◌, length, map, All, MatchOption, IfOk, IfErr, IfSome, IfNone, IsUtf8, if◌then◌else◌};
ghost use Rattle.std.specs.Char.{is_ascii_digit};
ghost use Rattle.std.specs.List.{list_all};
ghost use Rattle.httparse.specs.Grammar.{IsToken};
ghost use Rattle.httparse.specs.Spans.{IsHeaderWithin, header_bytes};
ghost use Rattle.http_wire.specs.Head as spec;
ghost use Rattle.http_wire.specs.Head.{values_of, framed, is_path, path_of, query_of};
ghost use Rattle.http_wire.specs.Limits.{head_limit};
ghost use Rattle.http_wire.specs.Stream.{IsOpen};
ghost use Rattle.http_wire.specs.Reading.{IsHeadOf, HasHeadCause};

use crate::WireFault;
use http::Method;
use http::method::MethodError;
use httparse::Status;
use httparse::spans::{EMPTY_HEADER_SPAN, HeaderSpan, parse_request};
use job_states::{NoMemory, Text};
use std::alloc::Global;
use std::str;

/// The greatest length of a request's head in bytes, empty lines before it included.
pub const MAX_HEAD: usize = 16_384;

/// The greatest number of fields of a request.
pub const MAX_FIELDS: usize = 64;

/// The greatest length of a request's body in bytes.
pub const MAX_BODY: u64 = 1_048_576;

/// Why what stands on a stream isn't taken as a request.
#[derive(Clone, Copy)]
pub enum Refusal {
    /// It isn't a request, or is cut short.
    Bad,
    /// The head has no end within [`MAX_HEAD`] bytes (then `len` is this number), or the body would have `len` bytes, more
    /// than [`MAX_BODY`].
    TooLarge { len: u64 },
    /// It has a `Transfer-Encoding`.
    Unsupported,
}

impl Refusal {
    ghost use Rattle.std.specs.Prelude.{◌≡◌};
    ghost use Rattle.http_wire.specs.Stream.{fault_at};

    // The fault that it is at this place.
    pub(crate) fn at(self, at: u64) -> WireFault
        ensures { result ≡ fault_at at self }
    {
        match self {
            Refusal::Bad => WireFault::BadRequest { at },
            Refusal::TooLarge { len } => WireFault::TooLarge { at, len },
            Refusal::Unsupported => WireFault::Unsupported { at },
        }
    }
}

/// A head that some bytes begin with.
#[derive(Drop)]
pub(crate) struct Head {
    pub method: Method,
    pub path: Text,
    pub query: Text,
    /// How many bytes it has.
    pub len: usize,
    /// How many bytes its body has.
    pub body: usize,
}

/// The head that the first bytes of a stream begin with, which stand at the place `at`, or nothing where it has no end
/// there.
pub(crate) fn read_head_at(alloc: Global, at: u64, prefix: &[u8]) -> Result<Option<Head>, WireFault>
    requires { length prefix.now ≤ head_limit }
    ensures head { IfOk result (λ answer. IfSome answer (IsHeadOf prefix.now)) }
    ensures open { IfOk result (λ answer. IfNone answer (IsOpen prefix.now)) }
    ensures fault { IfErr result (HasHeadCause at prefix.now) }
{
    let mut spans = [EMPTY_HEADER_SPAN; MAX_FIELDS];
    match parse_request(prefix, &mut spans) {
        Ok(Status::Complete(found)) => {
            let target = found.path.of(prefix);
            let body = match body_length(prefix, target, &spans[..found.headers]) {
                Ok(body) => body,
                Err(refusal) => return Err(refusal.at(at)),
            };
            let (path, query) = split_target(alloc, target)?;
            Ok(Some(Head {
                method: method_of(alloc, found.method.of(prefix))?,
                path,
                query,
                len: found.len,
                body: body as usize,
            }))
        }
        Ok(Status::Partial) => Ok(None),
        Err(_) => Err(WireFault::BadRequest { at }),
    }
}

fn method_of(alloc: Global, token: &[u8]) -> Result<Method, NoMemory>
    requires { IsToken token.now }
    ensures { IfOk result (λ method. method ≡ token.now) }
{
    match Method::from_bytes(alloc, token) {
        Ok(method) => Ok(method),
        Err(MethodError::OutOfMemory) => Err(NoMemory),
        Err(MethodError::Invalid) => unreachable!(),
    }
}

// The path, and the query after its `?`.
fn split_target(alloc: Global, target: &[u8]) -> Result<(Text, Text), NoMemory>
    requires { IsUtf8 target.now }
    ensures path { IfOk result (λ parts. parts.0 ≡ path_of target.now) }
    ensures query { IfOk result (λ parts. parts.1 ≡ query_of target.now) }
{
    let target = str::from_utf8(target).unwrap();
    let (path, query) = target.split_once('?').unwrap_or((target, ""));
    Ok((Text::read(alloc, path)?, Text::read(alloc, query)?))
}

// The length of the body that a head announces.
fn body_length(head: &[u8], target: &[u8], fields: &[HeaderSpan]) -> Result<u64, Refusal>
    requires { All (IsHeaderWithin (length head.now)) fields.now }
    ensures { result ≡ (if is_path target.now then framed (map (header_bytes head.now) fields.now) else Err Refusal.Bad) }
{
    if target.first() != Some(&b'/') {
        return Err(Refusal::Bad);
    }
    if first_named(head, fields, b"transfer-encoding").is_some() {
        return Err(Refusal::Unsupported);
    }
    let Some((value, after)) = first_named(head, fields, b"content-length") else {
        return Ok(0);
    };
    if first_named(head, after, b"content-length").is_some() {
        return Err(Refusal::Bad);
    }
    match number_of(value) {
        None => Err(Refusal::Bad),
        Some(len) if len <= MAX_BODY => Ok(len),
        Some(len) => Err(Refusal::TooLarge { len }),
    }
}

// The value of the first field of a name, and the fields after it.
fn first_named<'a, 'b>(
    head: &'a [u8],
    fields: &'b [HeaderSpan],
    name: &[u8],
) -> Option<(&'a [u8], &'b [HeaderSpan])>
    requires { All (IsHeaderWithin (length head.now)) fields.now }
    ensures first { MatchOption result (values_of name.now (map (header_bytes head.now) fields.now) ≡ [])
        (λ found. values_of name.now (map (header_bytes head.now) fields.now)
        ≡ found.0.now ∷ values_of name.now (map (header_bytes head.now) found.1.now)) }
    ensures within { MatchOption result (Unit {0}) (λ found. All (IsHeaderWithin (length head.now)) found.1.now) }
{
    for (i, field) in fields.iter().enumerate() {
        if field.name.of(head).eq_ignore_ascii_case(name) {
            return Some((field.value.of(head), &fields[i + 1..]));
        }
    }
    None
}

// The number that 1 to 19 digits write.
fn number_of(text: &[u8]) -> Option<u64>
    ensures { result ≡ spec.number_of text.now }
{
    if text.is_empty() || text.len() > 19 || !is_digits(text) {
        return None;
    }
    str::from_utf8(text).unwrap().parse().ok()
}

fn is_digits(text: &[u8]) -> bool
    ensures { result ≡ list_all is_ascii_digit text.now }
{
    text.iter().all(|b| b.is_ascii_digit())
}
