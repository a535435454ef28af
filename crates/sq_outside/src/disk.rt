ghost use Rattle.std.specs.Prelude.{◌≡◌, ◌+◌, ◌-◌, ◌^◌, ◌<◌, ◌≤◌, ℕ, length, take, drop, min, Option, IfSome, IfOk, OnOk, OnErr};
ghost use Rattle.sq_outside.specs.Fault.{HasCause};
ghost use Rattle.sq_outside.specs.Disk.{History, nth, GoesOn, MayGoOn, AreSound};
ghost use Rattle.sq_outside.specs.File.{Writes, HalfWrites, Cuts, HalfCuts, Syncs, HalfSyncs};

use crate::Failed;

/// The greatest length of a file.
pub const GREATEST_LENGTH: u64 = (1 << 63) - 1;

/// Two files, numbered 0 and 1, of up to 2^63 - 1 bytes each. What is written is certain to outlast a crash only once
/// its file is synced. A call on one file leaves the other one as it is.
pub trait Disk {
    /// How the files stood and stand, where this disk exposes it.
    ghost history: { Self → Option History };

    /// How many calls have failed, up to the greatest `u64`.
    ghost faults: { Self → ℕ };

    /// How many bytes a read gives.
    fn len(&mut self, file: u8) -> Result<u64, Failed>
        requires { file ≤ 1 }
        ensures length { IfOk result (λ n. IfSome (history self.old) (λ h. n ≡ length (nth file h.now).reads)) }
        ensures kept { history self.new ≡ history self.old }
        ensures cause { HasCause (faults self.old) (faults self.new) result };

    /// Copies the bytes from `at` on to the beginning of `buf`, as many as there are and as fit, and answers how many.
    /// After a failure the buffer may hold anything.
    fn read_at(&mut self, file: u8, at: u64, buf: &mut [u8]) -> Result<usize, Failed>
        requires { file ≤ 1 }
        ensures within { IfOk result (λ n. n ≤ length buf.old) }
        ensures count { IfOk result (λ n. IfSome (history self.old) (λ h. n ≡ min (length (nth file h.now).reads - at) (length buf.old))) }
        ensures prefix { IfOk result (λ n. IfSome (history self.old) (λ h. take n buf.new ≡ take n (drop at (nth file h.now).reads))) }
        ensures after { IfOk result (λ n. drop n buf.new ≡ drop n buf.old) }
        ensures kept { history self.new ≡ history self.old }
        ensures cause { HasCause (faults self.old) (faults self.new) result };

    /// Writes over what is there, and past the end. Where the file would pass its greatest length it fails. What a failed
    /// write did is not known: until the next sync a crash may leave any bytes where it was to write.
    fn write_at(&mut self, file: u8, at: u64, piece: &[u8]) -> Result<(), Failed>
        requires file { file ≤ 1 }
        requires within { IfSome (history self.old) (λ h. at ≤ length (nth file h.now).reads) }
        ensures fits { OnOk result (at + length piece.now < 2 ^ 63) }
        ensures written { OnOk result (GoesOn file (Writes at piece.now) (history self.old) (history self.new)) }
        ensures in_doubt { OnErr result (MayGoOn file (HalfWrites at (length piece.now)) (history self.old) (history self.new)) }
        ensures cause { HasCause (faults self.old) (faults self.new) result };

    /// Cuts the file to its first `len` bytes.
    fn cut(&mut self, file: u8, len: u64) -> Result<(), Failed>
        requires file { file ≤ 1 }
        requires within { IfSome (history self.old) (λ h. len ≤ length (nth file h.now).reads) }
        ensures cut { OnOk result (GoesOn file (Cuts len) (history self.old) (history self.new)) }
        ensures in_doubt { OnErr result (MayGoOn file (HalfCuts len) (history self.old) (history self.new)) }
        ensures cause { HasCause (faults self.old) (faults self.new) result };

    /// After it a crash leaves of this file what a read gives. A failed sync makes nothing certain, and what was written may
    /// be lost even to reads: what a read then gives is open, and what was synced is untouched.
    fn sync(&mut self, file: u8) -> Result<(), Failed>
        requires { file ≤ 1 }
        ensures certain { OnOk result (GoesOn file Syncs (history self.old) (history self.new)) }
        ensures in_doubt { OnErr result (MayGoOn file HalfSyncs (history self.old) (history self.new)) }
        ensures cause { HasCause (faults self.old) (faults self.new) result };

    /// A disk as it reads is one of its images.
    ghost sound: { (disk : Self) → IfSome (history disk) (λ h. AreSound h.now) };
}
