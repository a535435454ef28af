//! Reads of an input that count what was taken of it.
ghost use Rattle.std.specs.Prelude.{◌≡◌, ◌<◌, ◌≤◌, ◌+◌, [], length, take, IfOk, IfErr, IfSome, IfNone};
ghost use Rattle.std.specs.Io.KnownBytes.{Consumes};
ghost use Rattle.std.specs.List.{list_all};
ghost use Rattle.http_wire.specs.Limits.{input_limit};
ghost use Rattle.http_wire.specs.Stream.{HasReadAll, is_line_byte};
ghost use Rattle.http_wire.specs.Reading.{StopsReading, FillsWhole, SkipsLines, ReadsBody, LacksBody, HasBodyCause};

use crate::{MAX_INPUT, WireFault};
use job_states::NoMemory;
use sq_outside::{Failed, Source};
use std::alloc::Global;

// How much is read at a time of line ends that nothing keeps.
const CHUNK: usize = 8192;

/// Reads some of the bytes from the place `taken` of the stream on, straight into `buf`; 0 is the end.
pub(crate) fn read_some<S: Source>(
    source: &mut S,
    taken: u64,
    buf: &mut [u8],
) -> Result<usize, WireFault>
    requires room { 0 < length buf.old }
    requires within { taken ≤ input_limit }
    ensures within { IfOk result (λ n. (n ≤ length buf.old) × (taken + n ≤ input_limit)) }
    ensures bytes { IfOk result (λ n. Consumes (S.source_state source.old).left (S.source_state source.new).left (take n buf.new)) }
    ensures end { IfOk result (λ n. n ≡ 0 → HasReadAll (S.source_state source.old).left []) }
    ensures fault { IfErr result (λ fault. StopsReading taken (S.source_state source.old) fault (S.source_state source.new) (λ read. read ≡ []) (Unit {0})) }
    ensures count { (S.source_state source.old).faults ≤ (S.source_state source.new).faults }
{
    let left = (MAX_INPUT - taken) as usize;
    let room = buf.len().min(left.max(1));
    match source.read(&mut buf[..room]) {
        Ok(n) if n > left => Err(WireFault::InputTooLong),
        Ok(n) => Ok(n),
        Err(Failed) => Err(WireFault::ReadFault),
    }
}

/// Are all of these bytes line ends?
pub(crate) fn is_blank(bytes: &[u8]) -> bool
    ensures { result ≡ list_all is_line_byte bytes.now }
{
    bytes.iter().all(|b| *b == b'\r' || *b == b'\n')
}

/// Passes over line ends from the place `taken` of the stream on. Where nothing else comes before its end, how many bytes were
/// taken then?
pub(crate) fn skip_line_ends<S: Source>(
    source: &mut S,
    mut taken: u64,
) -> Result<Option<u64>, WireFault>
    requires { taken ≤ input_limit }
    ensures { SkipsLines taken (S.source_state source.old) result (S.source_state source.new) }
{
    let mut chunk = [0; CHUNK];
    'line_ends: loop {
        let n = read_some(source, taken, &mut chunk)?;
        if n == 0 {
            return Ok(Some(taken));
        }
        if !is_blank(&chunk[..n]) {
            return Ok(None);
        }
        taken += n as u64;
    }
}

/// The `n` bytes that begin with those held and go on from the place `taken` of the stream, if there are as many.
pub(crate) fn read_body<S: Source>(
    alloc: Global,
    source: &mut S,
    taken: u64,
    held: &[u8],
    n: usize,
) -> Result<Option<Vec<u8>>, WireFault>
    requires within { taken ≤ input_limit }
    requires fits { length held.now ≤ n }
    ensures whole { IfOk result (λ whole. IfSome whole (λ body. ReadsBody held.now taken (S.source_state source.old) n body.items (S.source_state source.new))) }
    ensures short { IfOk result (λ whole. IfNone whole (LacksBody held.now taken (S.source_state source.old) n (S.source_state source.new))) }
    ensures fault { IfErr result (HasBodyCause held.now taken (S.source_state source.old) n (S.source_state source.new)) }
{
    let mut body = body_of(alloc, held, n)?;
    if fill_whole(source, taken, &mut body[held.len()..])? {
        Ok(Some(body))
    } else {
        Ok(None)
    }
}

// Room for `n` bytes that begins with those held.
fn body_of(alloc: Global, held: &[u8], n: usize) -> Result<Vec<u8>, NoMemory>
    requires { length held.now ≤ n }
    ensures size { IfOk result (λ body. length body.items ≡ n) }
    ensures held { IfOk result (λ body. take (length held.now) body.items ≡ held.now) }
{
    let mut body = Vec::from_slice(alloc, held)?;
    body.resize(n, 0)?;
    Ok(body)
}

// Fills all of `buf` with the bytes from the place `taken` of the stream on. Are there enough?
fn fill_whole<S: Source>(source: &mut S, taken: u64, buf: &mut [u8]) -> Result<bool, WireFault>
    requires { taken ≤ input_limit }
    ensures read { IfOk result (λ whole. FillsWhole taken (S.source_state source.old) whole buf.new (S.source_state source.new)) }
    ensures fault { IfErr result (λ fault. StopsReading taken (S.source_state source.old) fault (S.source_state source.new) (λ read. length read < length buf.old) (0 < length buf.old)) }
{
    let mut done = 0;
    while done < buf.len() {
        let n = read_some(source, taken + done as u64, &mut buf[done..])?;
        if n == 0 {
            return Ok(false);
        }
        done += n;
    }
    Ok(true)
}
