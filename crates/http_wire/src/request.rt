ghost use Rattle.std.specs.Prelude.{◌≡◌, ◌⊎◌, ◌++◌, ℕ, List, IfSome, IfNone};
ghost use Rattle.http_wire.specs.Stream.{input_of, ReadsNext, over_after, IsRequest, IsEnd, IsUnfinished, IsRefused, IsRefusedTwice, IsJudged};

use crate::{Carry, Refusal};
use http::Method;
use job_states::{Bytes, NoMemory, Text};
use sq_outside::Source;
use std::alloc::Global;
use thiserror::Error;

/// The greatest number of bytes that are taken from one input: 2^30.
pub const MAX_INPUT: u64 = 1_073_741_824;

/// A request.
#[derive(Drop)]
pub struct Request {
    pub method: Method,
    /// The target before its first `?`.
    pub path: Text,
    /// The target after its first `?`, or nothing.
    pub query: Text,
    pub body: Bytes,
}

/// Why no request was read.
#[derive(Clone, Copy, Debug, Error)]
pub enum WireFault {
    /// What stands at this place of the stream isn't a request, or is cut short.
    #[error("no request at byte {at}: malformed or cut short")]
    BadRequest { at: u64 },
    /// The head at this place has no end within [`MAX_HEAD`](crate::MAX_HEAD) bytes (then `len` is this number), or
    /// announces a body of `len` bytes, more than [`MAX_BODY`](crate::MAX_BODY).
    #[error("the request at byte {at} is too large: {len} bytes of head or body")]
    TooLarge { at: u64, len: u64 },
    /// The request at this place has a `Transfer-Encoding`.
    #[error("the request at byte {at} has a Transfer-Encoding")]
    Unsupported { at: u64 },
    /// The source failed.
    #[error("the input failed")]
    ReadFault,
    /// [`MAX_INPUT`] bytes were taken, and the input goes on.
    #[error("the input is longer than {} bytes", MAX_INPUT)]
    InputTooLong,
    /// There was no memory.
    #[error("no memory")]
    NoMemory,
}

impl From<NoMemory> for WireFault {
    ghost use Rattle.std.specs.Prelude.{◌≡◌};
    ghost use Rattle.http_wire.specs.declared.request.WireFault.TheVariants as faults;

    ghost from_gives = { λ _ fault. fault ≡ faults.NoMemory };

    fn from(_: NoMemory) -> Self {
        WireFault::NoMemory
    }
}

/// Reads the next request, or finds the end of the input: a rest of CR and LF bytes alone. After want of memory a later call
/// goes on from the same place; each call after another fault answers that fault again.
pub fn read_request<S: Source>(
    alloc: Global,
    source: &mut S,
    carry: &mut Carry,
) -> Result<Option<Request>, WireFault>
    ensures answer { IfNone carry.old.over (ReadsNext (input_of carry.old (S.source_state source.old)) result (input_of carry.new (S.source_state source.new))) }
    ensures then { IfNone carry.old.over (carry.new.over ≡ over_after result) }
    ensures over { IfSome carry.old.over (λ fault. (result ≡ Err fault) × (input_of carry.new (S.source_state source.new) ≡ input_of carry.old (S.source_state source.old))) }
{
    carry.next(alloc, source)
}

/// A stream is read in one way: what is a request is one request, and neither the end nor unfinished nor refused, and it is the
/// same request whatever follows.
pub fn reads_one_way()
    ensures one { (bytes : List ℕ) (request other : Request) (rest more : List ℕ) → IsRequest bytes request rest → IsRequest bytes other more
        → (request ≡ other) × (rest ≡ more) }
    ensures goes_on { (bytes : List ℕ) (request : Request) (rest : List ℕ) → IsRequest bytes request rest → IsEnd bytes → ⊥ }
    ensures finished { (bytes : List ℕ) (request : Request) (rest : List ℕ) → IsRequest bytes request rest → IsUnfinished bytes → ⊥ }
    ensures taken { (bytes : List ℕ) (request : Request) (rest : List ℕ) (refusal : Refusal) → IsRequest bytes request rest → IsRefused bytes refusal → ⊥ }
    ensures longer { (bytes : List ℕ) (request : Request) (rest more : List ℕ) → IsRequest bytes request rest → IsRequest (bytes ++ more) request (rest ++ more) }
{}

/// No stream is left unjudged, and none is refused in two ways but in two corners.
pub fn judges_each()
    ensures judged { (bytes : List ℕ) → (IsJudged bytes → ⊥) → ⊥ }
    ensures once { (bytes : List ℕ) (refusal other : Refusal) → IsRefused bytes refusal → IsRefused bytes other → (refusal ≡ other) ⊎ IsRefusedTwice bytes }
{}
