ghost use Rattle.std.specs.Prelude.{◌≡◌, ◌<◌, ◌≤◌, ◌↔◌, [], length, take, drop, IfOk, IfSome, OnErr};
ghost use Rattle.std.specs.Io.KnownBytes.{Consumes, Keeps};
ghost use Rattle.sq_outside.specs.Fault.{HasCause};
ghost use Rattle.sq_outside.specs.Streams.{SourceState};

use crate::Failed;

/// A stream of bytes that is read from its beginning.
pub trait Source {
    /// The bytes that are left, and how many calls have failed.
    ghost source_state: { Self → SourceState };

    /// Moves bytes from the beginning of what is left to the beginning of `buf`, and answers how many: at most `buf.len()`.
    /// 0 for a buffer that isn't empty is the end. A failed read takes nothing.
    fn read(&mut self, buf: &mut [u8]) -> Result<usize, Failed>
        ensures within { IfOk result (λ n. n ≤ length buf.old) }
        ensures taken { IfOk result (λ n. Consumes (source_state self.old).left (source_state self.new).left (take n buf.new)) }
        ensures after { IfOk result (λ n. drop n buf.new ≡ drop n buf.old) }
        ensures end { IfOk result (λ n. IfSome (source_state self.old).left (λ bytes. 0 < length buf.old → (n ≡ 0) ↔ (bytes ≡ []))) }

        ensures kept { OnErr result (Keeps (source_state self.old).left (source_state self.new).left) }
        ensures buffer_kept { OnErr result (buf.new ≡ buf.old) }
        ensures cause { HasCause (source_state self.old).faults (source_state self.new).faults result };
}
