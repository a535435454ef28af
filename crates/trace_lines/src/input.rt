//! The lines of a trace, one after another from a source.
ghost use Rattle.std.specs.Prelude.{◌≡◌, ◌≢◌, ◌<◌, ◌+◌, ◌⊎◌, ◌++◌, ℕ, List, length, take, drop, position, IfSome, IfNone};
ghost use Rattle.trace_lines.specs.Input.{line_limit, is_feed, HasNoFeed, BeginsWith, IsLine, IsUnfinished, IsBad, IsJudged};

use crate::line::MAX_LEN;
use crate::{Line, LineFault, read_line};
use http_wire::{Buffer, MAX_INPUT, WireFault};
use sq_outside::Source;
use std::alloc::Global;
use std::marker::Model;
use thiserror::Error;

/// Why no line was read.
#[derive(Clone, Copy, Debug, PartialEq, Eq, Error)]
pub enum InputFault {
    /// The line at this place has no form of a line, is longer than 4096 bytes, or isn't ended by a line feed.
    #[error("no line at byte {at}")]
    BadLine { at: u64 },
    /// The source failed.
    #[error("the input failed")]
    ReadFault,
    /// [`MAX_INPUT`] bytes were taken, and the input goes on.
    #[error("the input is longer than {} bytes", MAX_INPUT)]
    InputTooLong,
    /// There was no memory.
    #[error("no memory")]
    NoMemory,
}

/// What was read ahead of a trace, and where it stands in the input.
#[derive(Drop)]
pub struct Lines {
    ahead: Buffer,
    at: u64,
}

impl Model for Lines {
    ghost use Rattle.std.specs.Prelude.{◌+◌, ◌≤◌, length};
    ghost use Rattle.http_wire.specs.Limits.{input_limit};
    ghost use Rattle.trace_lines.specs.Input.{Ahead};

    ghost Value = { Ahead };

    ghost view = { λ l. record { bytes = l.ahead; at = l.at } };

    ghost invariant = { λ l. l.at + length l.ahead ≤ input_limit };
}

impl Lines {
    ghost use Rattle.std.specs.Prelude.{◌≡◌, ◌≤◌, [], IfOk, IfErr};
    ghost use Rattle.http_wire.specs.Limits.{input_limit};
    ghost use Rattle.trace_lines.specs.Input.{IsUnfinished, input_of, taken_of, ReadsNext, FailsWith, LooksAhead, ReadsOn, EndsAhead};

    /// At the start of an input, with nothing read.
    pub fn new(alloc: Global) -> Self
        ensures { result ≡ record { bytes = []; at = 0 } }
    {
        Lines {
            ahead: Buffer::new(alloc),
            at: 0,
        }
    }

    /// The next line, or nothing where the input is at its end. After want of memory a later call goes on from the same
    /// place.
    pub fn next<S: Source>(
        &mut self,
        alloc: Global,
        source: &mut S,
    ) -> Result<Option<Line>, InputFault>
        ensures { ReadsNext (input_of self.old (S.source_state source.old)) result (input_of self.new (S.source_state source.new)) }
    {
        'pieces: loop {
            if let Some(line) = self.line_ahead(alloc)? {
                return Ok(Some(line));
            }
            if !self.read_on(source)? {
                return self.end_ahead();
            }
        }
    }

    // Takes the line that stands first ahead, if it is there whole.
    fn line_ahead(&mut self, alloc: Global) -> Result<Option<Line>, InputFault>
        ensures answer { LooksAhead self.old result self.new }
        ensures within { taken_of self.old ≤ input_limit }
    {
        let ahead = self.ahead.as_slice();
        let Some(len) = text_len(ahead) else {
            if ahead.len() > MAX_LEN {
                return Err(self.bad_line());
            }
            return Ok(None);
        };
        match read_line(alloc, &ahead[..len]) {
            Ok(line) => {
                self.ahead.drop_prefix(len + 1);
                self.at += (len + 1) as u64;
                Ok(Some(line))
            }
            Err(LineFault::NotALine) => Err(self.bad_line()),
            Err(LineFault::NoMemory) => Err(InputFault::NoMemory),
        }
    }

    // Reads more after bytes that are unfinished. Was there more?
    fn read_on<S: Source>(&mut self, source: &mut S) -> Result<bool, InputFault>
        requires { IsUnfinished self.old.bytes }
        ensures read { IfOk result (λ more. ReadsOn (input_of self.old (S.source_state source.old)) more (input_of self.new (S.source_state source.new))) }
        ensures fault { IfErr result (λ fault. FailsWith (input_of self.old (S.source_state source.old)) fault (input_of self.new (S.source_state source.new))) }
    {
        let taken = self.at + self.ahead.as_slice().len() as u64;
        match self.ahead.fill(source, taken) {
            Ok(more) => Ok(more),
            Err(WireFault::ReadFault) => Err(InputFault::ReadFault),
            Err(WireFault::InputTooLong) => Err(InputFault::InputTooLong),
            Err(WireFault::NoMemory) => Err(InputFault::NoMemory),
            Err(_) => unreachable!(),
        }
    }

    // The source is at its end: so is the input, or its last line isn't ended.
    fn end_ahead(&self) -> Result<Option<Line>, InputFault>
        ensures { EndsAhead self.now result }
    {
        if self.ahead.as_slice().is_empty() {
            Ok(None)
        } else {
            Err(self.bad_line())
        }
    }

    // What stands first ahead is no line.
    fn bad_line(&self) -> InputFault
        ensures { result ≡ InputFault.BadLine self.now.at }
    {
        InputFault::BadLine { at: self.at }
    }
}

// The length of the text before the first line feed, if that comes where the longest line has its own, or before.
fn text_len(bytes: &[u8]) -> Option<usize>
    ensures some { IfSome result (λ len. (len < length bytes.now) × BeginsWith bytes.now (take len bytes.now) (drop (len + 1) bytes.now)) }
    ensures none { IfNone result (HasNoFeed (take (line_limit + 1) bytes.now)) }
{
    first_feed(&bytes[..(MAX_LEN + 1).min(bytes.len())])
}

fn first_feed(bytes: &[u8]) -> Option<usize>
    ensures { result ≡ position is_feed bytes.now }
{
    bytes.iter().position(|b| *b == b'\n')
}

/// A trace is read in one way: what begins with a line begins with one line, is neither unfinished nor bad, and begins with the
/// same line whatever follows.
pub fn reads_one_way()
    ensures one { (bytes : List ℕ) (line other : Line) (rest more : List ℕ) → IsLine bytes line rest → IsLine bytes other more
        → (line ≡ other) × (rest ≡ more) }
    ensures finished { (bytes : List ℕ) (line : Line) (rest : List ℕ) → IsLine bytes line rest → IsUnfinished bytes → ⊥ }
    ensures good { (bytes : List ℕ) (line : Line) (rest : List ℕ) → IsLine bytes line rest → IsBad bytes → ⊥ }
    ensures longer { (bytes : List ℕ) (line : Line) (rest more : List ℕ) → IsLine bytes line rest → IsLine (bytes ++ more) line (rest ++ more) }
{}

/// No input is left unjudged: it is empty, begins with a line, or is bad.
pub fn judges_each()
    ensures { (bytes : List ℕ) → IsJudged bytes }
{}
