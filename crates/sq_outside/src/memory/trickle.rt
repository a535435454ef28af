//! A stream that moves few bytes a call.
ghost use Rattle.std.specs.Prelude.{◌≡◌, ◌≤◌};

use crate::{Failed, Sink, Source};

/// A source or a sink over another one, that moves at most `most` bytes a call. It exposes what the other one exposes.
#[derive(Drop)]
pub struct Trickle<S: Drop> {
    inner: S,
    most: usize,
    ghost moves: { 1 ≤ most },
}

impl<S: Drop> Trickle<S> {
    /// A stream over `inner`.
    pub fn new(inner: S, most: usize) -> Self
        requires { 1 ≤ most }
        ensures inner { result.inner ≡ inner }
        ensures most { result.most ≡ most }
    {
        Trickle { inner, most }
    }

    /// The stream whose bytes are moved.
    pub fn inner(&self) -> &S
        ensures { result.now ≡ self.now.inner }
    {
        &self.inner
    }
}

impl<S: Source + Drop> Source for Trickle<S> {
    ghost use Rattle.std.specs.Prelude.{◌≡◌, ◌<◌, ◌≤◌, ◌↔◌, [], min, length, take, drop, IfOk, IfSome, OnErr};
    ghost use Rattle.std.specs.Io.KnownBytes.{Consumes, Keeps};
    ghost use Rattle.sq_outside.specs.Fault.{HasCause};

    ghost source_state = { λ s. S.source_state s.inner };

    fn read(&mut self, buf: &mut [u8]) -> Result<usize, Failed>
        ensures within { IfOk result (λ n. n ≤ min self.old.most (length buf.old)) }
        ensures most { self.new.most ≡ self.old.most }
        ensures taken { IfOk result (λ n. Consumes (S.source_state self.old.inner).left (S.source_state self.new.inner).left (take n buf.new)) }
        ensures after { IfOk result (λ n. drop n buf.new ≡ drop n buf.old) }
        ensures end { IfOk result (λ n. IfSome (S.source_state self.old.inner).left (λ bytes. 0 < length buf.old → (n ≡ 0) ↔ (bytes ≡ []))) }

        ensures kept { OnErr result (Keeps (S.source_state self.old.inner).left (S.source_state self.new.inner).left) }
        ensures buffer_kept { OnErr result (buf.new ≡ buf.old) }
        ensures cause { HasCause (S.source_state self.old.inner).faults (S.source_state self.new.inner).faults result }
    {
        let room = buf.len().min(self.most);
        self.inner.read(&mut buf[..room])
    }
}

impl<S: Sink + Drop> Sink for Trickle<S> {
    ghost use Rattle.std.specs.Prelude.{◌≡◌, ◌<◌, ◌≤◌, min, length, take, IfOk, OnErr};
    ghost use Rattle.std.specs.Io.KnownBytes.{Appends, Keeps};
    ghost use Rattle.sq_outside.specs.Fault.{HasCause, Rose};

    ghost sink_state = { λ s. S.sink_state s.inner };

    fn write(&mut self, piece: &[u8]) -> Result<usize, Failed>
        ensures within { IfOk result (λ n. n ≤ min self.old.most (length piece.now)) }
        ensures most { self.new.most ≡ self.old.most }
        ensures added { IfOk result (λ n. Appends (S.sink_state self.old.inner).written (S.sink_state self.new.inner).written (take n piece.now)) }
        ensures stuck { IfOk result (λ n. n ≡ 0 → 0 < length piece.now → Rose (S.sink_state self.old.inner).faults (S.sink_state self.new.inner).faults) }

        ensures kept { OnErr result (Keeps (S.sink_state self.old.inner).written (S.sink_state self.new.inner).written) }
        ensures cause { HasCause (S.sink_state self.old.inner).faults (S.sink_state self.new.inner).faults result }
    {
        let room = piece.len().min(self.most);
        self.inner.write(&piece[..room])
    }
}

#[cfg(test)]
mod tests {
    use super::*;
    use crate::{MemSink, SureSource};
    use std::test::Fail;

    #[test]
    fn few_bytes_are_moved_a_call(rt: HostRuntime) -> Result<(), Fail> {
        let mut source = Trickle::new(SureSource::new(vec![in rt.alloc(); 1, 2, 3]?), 2);
        let mut buf = [9; 4];
        assert_eq!(rt; source.read(&mut buf), Ok(2));
        assert_eq!(rt; buf, [1, 2, 9, 9]);
        assert_eq!(rt; source.read(&mut buf), Ok(1));
        assert_eq!(rt; source.read(&mut buf), Ok(0));

        let mut sink = Trickle::new(MemSink::new(rt.alloc(), Vec::new(rt.alloc())), 2);
        assert_eq!(rt; sink.write(b"abc"), Ok(2));
        assert_eq!(rt; sink.inner().bytes(), b"ab".as_slice());
        Ok(())
    }
}
