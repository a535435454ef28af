ghost use Rattle.std.specs.Prelude.{◌≡◌};
ghost use Rattle.http_wire.specs.Limits.{head_limit};
ghost use Rattle.http_wire.specs.Stream.{over_after};

use crate::buffer::Buffer;
use crate::head::{Head, read_head_at};
use crate::read::{is_blank, read_body, skip_line_ends};
use crate::{MAX_HEAD, MAX_INPUT, Request, WireFault};
use job_states::Bytes;
use sq_outside::Source;
use std::alloc::Global;
use std::marker::Model;

// Why reading on for a head paused.
#[derive(Clone, Copy)]
enum Pause {
    Line,
    End,
    Fault,
}

/// What was read ahead of a stream, and where it stands there: nothing that was read is lost between two requests. After a fault
/// other than want of memory the stream is over.
#[derive(Drop)]
pub struct Carry {
    ahead: Buffer,
    at: u64,
    over: Option<WireFault>,
}

impl Model for Carry {
    ghost use Rattle.std.specs.Prelude.{◌+◌, ◌≤◌, length};
    ghost use Rattle.http_wire.specs.Ahead.{Ahead};
    ghost use Rattle.http_wire.specs.Limits.{input_limit};

    ghost Value = { Ahead };

    ghost view = { λ c. record { bytes = c.ahead; at = c.at; over = c.over } };

    ghost invariant = { λ c. c.at + length c.ahead ≤ input_limit };
}

impl Carry {
    ghost use Rattle.std.specs.Prelude.{◌≡◌, ◌≢◌, ◌≤◌, ◌<◌, ◌+◌, ◌⊎◌, [], length, take, false, None, IfOk, IfErr, IfSome, IfNone};
    ghost use Rattle.http_wire.specs.Limits.{head_limit, input_limit};
    ghost use Rattle.sq_outside.specs.Streams.{SourceState};
    ghost use Rattle.http_wire.specs.Stream.{IsEnd, IsOpen, IsUnfinished, Input, input_of, taken_of, ReadsNext, FailsWith, over_after};
    ghost use Rattle.http_wire.specs.Reading.{IsHeadOf, HasHeadCause, IsRefusalAt, FindsHead, ReadsOn, EndsAhead, TakesBody};

    /// At the start of a stream, with nothing read.
    pub fn new(alloc: Global) -> Self
        ensures { result ≡ record { bytes = []; at = 0; over = None } }
    {
        Carry {
            ahead: Buffer::new(alloc),
            at: 0,
            over: None,
        }
    }

    /// The next request, or nothing where the stream is at its end.
    pub(crate) fn next<S: Source>(
        &mut self,
        alloc: Global,
        source: &mut S,
    ) -> Result<Option<Request>, WireFault>
        ensures answer { IfNone self.old.over (ReadsNext (input_of self.old (S.source_state source.old)) result (input_of self.new (S.source_state source.new))) }
        ensures then { IfNone self.old.over (self.new.over ≡ over_after result) }
        ensures over { IfSome self.old.over (λ fault. (result ≡ Err fault) × (input_of self.new (S.source_state source.new) ≡ input_of self.old (S.source_state source.old))) }
    {
        if let Some(fault) = self.over {
            return Err(fault);
        }
        let answer = self.read_on(alloc, source);
        self.over = ending_of(&answer);
        answer
    }

    fn read_on<S: Source>(
        &mut self,
        alloc: Global,
        source: &mut S,
    ) -> Result<Option<Request>, WireFault>
        ensures { ReadsNext (input_of self.old (S.source_state source.old)) result (input_of self.new (S.source_state source.new)) }
    {
        let Some(head) = self.next_head(alloc, source)? else {
            return Ok(None);
        };
        let body = self.take_body(alloc, source, &head)?;
        Ok(Some(Request {
            method: head.method,
            path: head.path,
            query: head.query,
            body: Bytes::of(body),
        }))
    }

    // The head of the next request, which stays ahead; nothing where the stream is at its end.
    fn next_head<S: Source>(
        &mut self,
        alloc: Global,
        source: &mut S,
    ) -> Result<Option<Head>, WireFault>
        ensures { FindsHead (input_of self.old (S.source_state source.old)) result (input_of self.new (S.source_state source.new)) }
    {
        'lines: loop {
            if let Some(head) = self.head_ahead(alloc)? {
                return Ok(Some(head));
            }
            if self.ahead.as_slice().len() >= MAX_HEAD {
                return self.end_in_full(alloc, source);
            }
            match self.read_on_for_head(source)? {
                Pause::Line => {}
                pause => return self.last_head(alloc, pause),
            }
        }
    }

    // Reads more for the head that is partly ahead, up to where a look at it is due. A head ends in a line feed, so none is due
    // before one comes.
    fn read_on_for_head<S: Source>(&mut self, source: &mut S) -> Result<Pause, WireFault>
        requires short { length self.old.bytes < head_limit }
        requires partly { IsUnfinished self.old.bytes }
        ensures pause { IfOk result (λ pause. ReadsOn (input_of self.old (S.source_state source.old)) pause (input_of self.new (S.source_state source.new))) }
        ensures fault { IfErr result (λ fault. FailsWith (input_of self.old (S.source_state source.old)) fault (input_of self.new (S.source_state source.new))) }
    {
        'pieces: loop {
            let held = self.ahead.as_slice().len();
            let taken = self.taken();
            match self.ahead.fill(source, taken) {
                Ok(true) => {}
                Ok(false) => return Ok(Pause::End),
                Err(fault) => match fault {
                    WireFault::ReadFault => return Ok(Pause::Fault),
                    _ => return Err(fault),
                },
            }
            if self.is_look_due(held) {
                return Ok(Pause::Line);
            }
        }
    }

    // Did a line end after the first `held` bytes, or is no more to be read before a look?
    fn is_look_due(&self, held: usize) -> bool
        requires { held ≤ length self.now.bytes }
        ensures { result ≡ false → (length self.now.bytes < head_limit) × (taken_of self.now < input_limit) }
    {
        let ahead = self.ahead.as_slice();
        ahead.len() >= MAX_HEAD || self.taken() >= MAX_INPUT || ahead[held..].contains(&b'\n')
    }

    // The head ahead, where no more comes.
    fn last_head(&mut self, alloc: Global, pause: Pause) -> Result<Option<Head>, WireFault>
        ensures { (old : Input) (source : SourceState) → ReadsOn old pause (input_of self.old source) → pause ≢ Pause.Line → FindsHead old result (input_of self.new source) }
    {
        if let Some(head) = self.head_ahead(alloc)? {
            return Ok(Some(head));
        }
        match pause {
            Pause::Fault => Err(WireFault::ReadFault),
            _ => self.end_ahead(),
        }
    }

    // The head ahead, if it is there whole.
    fn head_ahead(&self, alloc: Global) -> Result<Option<Head>, WireFault>
        ensures head { IfOk result (λ answer. IfSome answer (IsHeadOf (take head_limit self.now.bytes))) }
        ensures none { IfOk result (λ answer. IfNone answer (IsEnd (take head_limit self.now.bytes) ⊎ IsOpen (take head_limit self.now.bytes))) }
        ensures fault { IfErr result (λ fault. HasHeadCause self.now.at (take head_limit self.now.bytes) fault × (IsEnd (take head_limit self.now.bytes) → ⊥)) }
    {
        let prefix = self.prefix();
        if is_blank(prefix) {
            return Ok(None);
        }
        read_head_at(alloc, self.at, prefix)
    }

    // As many of the bytes ahead as the longest head has.
    fn prefix(&self) -> &[u8]
        ensures bytes { result.now ≡ take head_limit self.now.bytes }
        ensures short { length result.now ≤ head_limit }
    {
        let ahead = self.ahead.as_slice();
        &ahead[..MAX_HEAD.min(ahead.len())]
    }

    // The source is at its end: so is the stream, or it is cut short.
    fn end_ahead(&mut self) -> Result<Option<Head>, WireFault>
        ensures { EndsAhead self.old result self.new }
    {
        if !is_blank(self.ahead.as_slice()) {
            return Err(WireFault::BadRequest { at: self.at });
        }
        self.at = self.taken();
        self.ahead.clear();
        Ok(None)
    }

    // The longest head would be ahead, and none is: the stream is at its end, or is refused.
    fn end_in_full<S: Source>(
        &mut self,
        alloc: Global,
        source: &mut S,
    ) -> Result<Option<Head>, WireFault>
        requires full { head_limit ≤ length self.old.bytes }
        requires none { IsEnd (take head_limit self.old.bytes) ⊎ IsOpen (take head_limit self.old.bytes) }
        ensures { FindsHead (input_of self.old (S.source_state source.old)) result (input_of self.new (S.source_state source.new)) }
    {
        if !is_blank(self.prefix()) {
            return Err(long_head(self.at));
        }
        if !is_blank(self.ahead.as_slice()) {
            return Err(self.fault_of_line_ends(alloc));
        }
        let Some(taken) = skip_line_ends(source, self.taken())? else {
            return Err(self.fault_of_line_ends(alloc));
        };
        self.at = taken;
        self.ahead.clear();
        Ok(None)
    }

    // What as many line ends as the longest head has bytes are refused as, where other bytes follow.
    fn fault_of_line_ends(&self, alloc: Global) -> WireFault
        requires full { head_limit ≤ length self.now.bytes }
        requires blank { IsEnd (take head_limit self.now.bytes) }
        ensures { IsRefusalAt self.now.at self.now.bytes result }
    {
        match read_head_at(alloc, self.at, self.prefix()) {
            Err(fault) => fault,
            Ok(None) => long_head(self.at),
            Ok(Some(_)) => unreachable!(),
        }
    }

    // Takes the head that stands ahead and the body after it off the stream, and gives the body.
    fn take_body<S: Source>(
        &mut self,
        alloc: Global,
        source: &mut S,
        head: &Head,
    ) -> Result<Vec<u8>, WireFault>
        requires { IsHeadOf self.old.bytes head.now }
        ensures body { IfOk result (λ body. TakesBody (input_of self.old (S.source_state source.old)) head.now body.items (input_of self.new (S.source_state source.new))) }
        ensures fault { IfErr result (λ fault. FailsWith (input_of self.old (S.source_state source.old)) fault (input_of self.new (S.source_state source.new))) }
    {
        let held = head.body.min(self.ahead.as_slice().len() - head.len);
        let ahead = &self.ahead.as_slice()[head.len..head.len + held];
        let Some(body) = read_body(alloc, source, self.taken(), ahead, head.body)? else {
            return Err(WireFault::BadRequest { at: self.at });
        };
        self.ahead.drop_prefix(head.len + held);
        self.at += (head.len + head.body) as u64;
        Ok(body)
    }

    // How many bytes were taken from the input.
    fn taken(&self) -> u64
        ensures sum { result ≡ taken_of self.now }
        ensures within { result ≤ input_limit }
    {
        self.at + self.ahead.as_slice().len() as u64
    }
}

// What a head with no end within the longest one's length is refused as.
fn long_head(at: u64) -> WireFault
    ensures { result ≡ WireFault.TooLarge at head_limit }
{
    WireFault::TooLarge {
        at,
        len: MAX_HEAD as u64,
    }
}

// The fault that each later call answers.
fn ending_of(answer: &Result<Option<Request>, WireFault>) -> Option<WireFault>
    ensures { result ≡ over_after answer.now }
{
    match answer {
        Ok(_) | Err(WireFault::NoMemory) => None,
        Err(fault) => Some(*fault),
    }
}
