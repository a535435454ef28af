ghost use Rattle.std.specs.Prelude.{◌≡◌, ◌<◌, ◌≤◌, length, take, IfOk, OnErr};
ghost use Rattle.std.specs.Io.KnownBytes.{Appends, Keeps};
ghost use Rattle.sq_outside.specs.Fault.{HasCause, Rose};
ghost use Rattle.sq_outside.specs.Streams.{SinkState};

use crate::Failed;

/// A stream of bytes that is written at its end.
pub trait Sink {
    /// The bytes that were written, and how many calls have failed or taken nothing.
    ghost sink_state: { Self → SinkState };

    /// Writes bytes from the beginning of `piece`, and answers how many: at most `piece.len()`.
    /// 0 for a piece that isn't empty counts as a fault. A failed write adds nothing.
    fn write(&mut self, piece: &[u8]) -> Result<usize, Failed>
        ensures within { IfOk result (λ n. n ≤ length piece.now) }
        ensures added { IfOk result (λ n. Appends (sink_state self.old).written (sink_state self.new).written (take n piece.now)) }
        ensures stuck { IfOk result (λ n. n ≡ 0 → 0 < length piece.now → Rose (sink_state self.old).faults (sink_state self.new).faults) }

        ensures kept { OnErr result (Keeps (sink_state self.old).written (sink_state self.new).written) }
        ensures cause { HasCause (sink_state self.old).faults (sink_state self.new).faults result };
}
