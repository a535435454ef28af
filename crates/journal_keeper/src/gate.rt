//! Writes that change a synced file and sync it. What is written first goes after a closed gate, which is opened then.
ghost use Rattle.std.specs.Prelude.{◌≡◌, ◌≢◌, ◌+◌, ◌^◌, ◌<◌, ◌≤◌, ◌++◌, ◌∷◌, [], ℕ, List, length, slice_index, IfSome, IfOk, OnOk, OnErr, MatchBool};
ghost use Rattle.sq_outside.specs.Fault.{HasCause};
ghost use Rattle.sq_outside.specs.File.{IsImage, settled, in_doubt, overwritten};
ghost use Rattle.sq_outside.specs.Disk.{nth, LeavesOnly, LeavesRising};
ghost use Rattle.journal_format.specs.Records.{framed};
ghost use Rattle.journal_keeper.specs.Kept.{IsAjar};
ghost use Rattle.journal_keeper.specs.Records.{IsPayload};
ghost use Rattle.journal_keeper.specs.Stages.{IsReclosed};
ghost use Rattle.journal_keeper.specs.Texts.{IsSettled, IsClosed, HoldsAt, with_record};
ghost use Rattle.journal_keeper.specs.Writes.{IsReplaced, IsOtherKept};

use sq_outside::{Disk, Failed};

/// An open gate. Any other byte, and the end of the file, is a closed one.
pub(crate) const OPEN: u8 = 0x52;

/// Writes a piece into file 0, and syncs it.
pub(crate) fn put<D: Disk>(disk: &mut D, place: u64, piece: &[u8]) -> Result<(), Failed>
    requires { IfSome (D.history disk.old) (λ h. place ≤ length h.now.0.reads) }
    ensures any_moment { IfSome (D.history disk.old) (λ h. LeavesOnly
        (λ image. IsImage (in_doubt (record { at = place; count = length piece.now }) h.now.0.unsynced) image.0) (D.history disk.old) (D.history disk.new)) }
    ensures put { OnOk result (IfSome (D.history disk.old) (λ h. IfSome (D.history disk.new) (λ new.
        new.now.0 ≡ settled (overwritten h.now.0.reads place piece.now)))) }
    ensures fits { OnOk result (place + length piece.now < 2 ^ 63) }
    ensures other { IsOtherKept (D.history disk.old) (D.history disk.new) }
    ensures cause { HasCause (D.faults disk.old) (D.faults disk.new) result }
{
    disk.write_at(0, place, piece)?;
    disk.sync(0)?;
    Ok(())
}

/// Adds a record at the closed gate of a file at rest. The gate is opened once the record is synced.
pub(crate) fn add<D: Disk>(disk: &mut D, gate: u64, record_text: &[u8]) -> Result<(), Failed>
    requires place { gate < 2 ^ 63 }
    requires settled { IfSome (D.history disk.old) (λ h. IsSettled h.now.0) }
    requires within { IfSome (D.history disk.old) (λ h. gate < length h.now.0.reads) }
    ensures moments { (text payload : List ℕ) → length text ≡ gate → IsPayload payload → record_text.now ≡ framed payload ++ 0 ∷ []
        → IfSome (D.history disk.old) (λ h. IsClosed text h.now.0.reads
        → LeavesRising (λ n image. HoldsAt text payload n image.0) 0 1 (D.history disk.old) (D.history disk.new)) }
    ensures added { OnOk result ((text payload : List ℕ) → length text ≡ gate → IsPayload payload → record_text.now ≡ framed payload ++ 0 ∷ []
        → IfSome (D.history disk.old) (λ h. IsClosed text h.now.0.reads
        → IfSome (D.history disk.new) (λ new. IsSettled new.now.0 × IsClosed (with_record text payload) new.now.0.reads))) }
    ensures fits { OnOk result (gate + length record_text.now < 2 ^ 63) }
    ensures other { IsOtherKept (D.history disk.old) (D.history disk.new) }
    ensures cause { HasCause (D.faults disk.old) (D.faults disk.new) result }
{
    put(disk, gate + 1, record_text)?;
    put(disk, gate, &[OPEN])?;
    Ok(())
}
