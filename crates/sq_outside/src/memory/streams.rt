//! Streams in memory.

use crate::buffer::copy_prefix;
use crate::memory::counts::Counts;
use crate::{Failed, Sink, Source};
use std::alloc::Global;
use std::marker::Model;

/// A source over bytes that never fails.
#[derive(Drop)]
pub struct SureSource {
    bytes: Vec<u8>,
    at: usize,
}

impl Model for SureSource {
    ghost use Rattle.std.specs.Prelude.{◌≤◌, ℕ, List, length, drop};

    ghost Value = { List ℕ };

    ghost view = { λ s. drop s.at s.bytes.items };

    ghost invariant = { λ s. s.at ≤ length s.bytes.items };
}

impl SureSource {
    ghost use Rattle.std.specs.Prelude.{◌≡◌, min, length, take, drop};

    /// A source that gives these bytes.
    pub fn new(bytes: Vec<u8>) -> Self
        ensures { result ≡ bytes.items }
    {
        SureSource { bytes, at: 0 }
    }

    fn take_prefix(&mut self, buf: &mut [u8]) -> usize
        ensures count { result ≡ min (length self.old) (length buf.old) }
        ensures prefix { take result buf.new ≡ take result self.old }
        ensures after { drop result buf.new ≡ drop result buf.old }
        ensures rest { self.new ≡ drop result self.old }
    {
        let n = copy_prefix(&self.bytes[self.at..], buf);
        self.at += n;
        n
    }
}

impl Source for SureSource {
    ghost use Rattle.std.specs.Prelude.{◌≡◌, Some, IsOkAnd, min, length, take, drop};

    ghost source_state = { λ s. record { left = Some s; faults = 0 } };

    fn read(&mut self, buf: &mut [u8]) -> Result<usize, Failed>
        ensures count { IsOkAnd result (λ n. n ≡ min (length self.old) (length buf.old)) }
        ensures prefix { IsOkAnd result (λ n. take n buf.new ≡ take n self.old) }
        ensures after { IsOkAnd result (λ n. drop n buf.new ≡ drop n buf.old) }
        ensures rest { IsOkAnd result (λ n. self.new ≡ drop n self.old) }
    {
        Ok(self.take_prefix(buf))
    }
}

/// A source over bytes whose listed calls fail.
#[derive(Drop)]
pub struct MemSource {
    source: SureSource,
    calls: Calls,
}

impl Model for MemSource {
    ghost use Rattle.sq_outside.specs.Memory.{MemoryStream};

    ghost Value = { MemoryStream };

    ghost view = { λ s. record { bytes = s.source; fail = s.calls.fail.items; calls = s.calls.counts.made; faults = s.calls.counts.failed } };
}

impl MemSource {
    ghost use Rattle.std.specs.Prelude.{◌≡◌};
    ghost use Rattle.sq_outside.specs.Memory.{untouched};

    /// A source that gives these bytes. `fail` lists the numbers of the calls that fail, counted from 1.
    pub fn new(bytes: Vec<u8>, fail: Vec<u64>) -> Self
        ensures { result ≡ untouched bytes.items fail.items }
    {
        MemSource {
            source: SureSource::new(bytes),
            calls: Calls::new(fail),
        }
    }
}

impl Source for MemSource {
    ghost use Rattle.std.specs.Prelude.{◌≡◌, ◌↔◌, Some, min, length, take, drop, IsErr, IfOk, OnErr, MatchResult};
    ghost use Rattle.sq_outside.specs.Memory.{FailsNext, called, failed};

    ghost source_state = { λ s. record { left = Some s.bytes; faults = s.faults } };

    fn read(&mut self, buf: &mut [u8]) -> Result<usize, Failed>
        ensures fails { IsErr result ↔ FailsNext self.old }
        ensures count { IfOk result (λ n. n ≡ min (length self.old.bytes) (length buf.old)) }
        ensures prefix { IfOk result (λ n. take n buf.new ≡ take n self.old.bytes) }
        ensures after { IfOk result (λ n. drop n buf.new ≡ drop n buf.old) }
        ensures rest { MatchResult result (λ n. self.new ≡ called self.old (drop n self.old.bytes)) (λ _. self.new ≡ failed self.old) }
        ensures buffer_kept { OnErr result (buf.new ≡ buf.old) }
    {
        if self.calls.next_fails() {
            self.calls.counts.count_failure();
            return Err(Failed);
        }
        Ok(self.source.take_prefix(buf))
    }
}

/// A sink that keeps what was written, and whose listed calls fail.
#[derive(Drop)]
pub struct MemSink {
    written: Vec<u8>,
    calls: Calls,
}

impl Model for MemSink {
    ghost use Rattle.sq_outside.specs.Memory.{MemoryStream};

    ghost Value = { MemoryStream };

    ghost view = { λ s. record { bytes = s.written.items; fail = s.calls.fail.items; calls = s.calls.counts.made; faults = s.calls.counts.failed } };
}

impl MemSink {
    ghost use Rattle.std.specs.Prelude.{◌≡◌, []};
    ghost use Rattle.sq_outside.specs.Memory.{untouched};

    /// A sink with nothing written. `fail` lists the numbers of the calls that fail, counted from 1.
    pub fn new(alloc: Global, fail: Vec<u64>) -> Self
        ensures { result ≡ untouched [] fail.items }
    {
        MemSink {
            written: Vec::new(alloc),
            calls: Calls::new(fail),
        }
    }

    /// What was written.
    pub fn bytes(&self) -> &[u8]
        ensures { result.now ≡ self.now.bytes }
    {
        &self.written
    }
}

impl Sink for MemSink {
    ghost use Rattle.std.specs.Prelude.{◌≡◌, ◌++◌, Some, length, IsErr, IfOk, MatchResult};
    ghost use Rattle.sq_outside.specs.Memory.{FailsNext, called, failed};

    ghost sink_state = { λ s. record { written = Some s.bytes; faults = s.faults } };

    // A call that isn't listed fails where there is no memory.
    fn write(&mut self, piece: &[u8]) -> Result<usize, Failed>
        ensures fails { FailsNext self.old → IsErr result }
        ensures count { IfOk result (λ n. n ≡ length piece.now) }
        ensures rest { MatchResult result (λ _. self.new ≡ called self.old (self.old.bytes ++ piece.now)) (λ _. self.new ≡ failed self.old) }
    {
        if self.calls.next_fails() || self.written.extend_from_slice(piece).is_err() {
            self.calls.counts.count_failure();
            return Err(Failed);
        }
        Ok(piece.len())
    }
}

/// Which calls fail, and how many have.
#[derive(Drop)]
struct Calls {
    fail: Vec<u64>,
    counts: Counts,
}

impl Calls {
    ghost use Rattle.std.specs.Prelude.{◌≡◌, ◌↔◌, IsTrue, Contains};
    ghost use Rattle.sq_outside.specs.Fault.{raised};

    fn new(fail: Vec<u64>) -> Self
        ensures list { result.fail ≡ fail }
        ensures made { result.counts.made ≡ 0 }
        ensures failed { result.counts.failed ≡ 0 }
    {
        Calls {
            fail,
            counts: Counts::new(),
        }
    }

    // Counts the call that begins. Is it one of those that fail?
    fn next_fails(&mut self) -> bool
        ensures fails { IsTrue result ↔ Contains self.old.fail.items (raised self.old.counts.made) }
        ensures list { self.new.fail ≡ self.old.fail }
        ensures made { self.new.counts.made ≡ raised self.old.counts.made }
        ensures failed { self.new.counts.failed ≡ self.old.counts.failed }
    {
        let call = self.counts.begin();
        self.fail.contains(&call)
    }
}

#[cfg(test)]
mod tests {
    use super::*;
    use std::test::Fail;

    #[test]
    fn listed_reads_fail_and_take_nothing(rt: HostRuntime) -> Result<(), Fail> {
        let mut source = MemSource::new(vec![in rt.alloc(); 1, 2, 3]?, vec![in rt.alloc(); 2]?);
        let mut buf = [9; 2];
        assert_eq!(rt; source.read(&mut buf), Ok(2));
        assert_eq!(rt; buf, [1, 2]);
        assert_eq!(rt; source.read(&mut buf), Err(Failed));
        assert_eq!(rt; source.read(&mut buf), Ok(1));
        assert_eq!(rt; buf, [3, 2]);
        assert_eq!(rt; source.read(&mut buf), Ok(0));

        let mut sure = SureSource::new(vec![in rt.alloc(); 7]?);
        assert_eq!(rt; sure.read(&mut buf), Ok(1));
        assert_eq!(rt; sure.read(&mut buf), Ok(0));
        Ok(())
    }

    #[test]
    fn listed_writes_fail_and_the_others_are_kept(rt: HostRuntime) -> Result<(), Fail> {
        let mut sink = MemSink::new(rt.alloc(), vec![in rt.alloc(); 1, 3]?);
        assert_eq!(rt; sink.write(b"a"), Err(Failed));
        assert_eq!(rt; sink.write(b"bc"), Ok(2));
        assert_eq!(rt; sink.write(b"d"), Err(Failed));
        assert_eq!(rt; sink.write(b"e"), Ok(1));
        assert_eq!(rt; sink.bytes(), b"bce".as_slice());
        Ok(())
    }
}
