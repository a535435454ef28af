//! Closing a byte that a crash or a failure may have left open: it is looked at once its file is synced.
ghost use Rattle.std.specs.Prelude.{◌≡◌, ◌≢◌, ◌+◌, ◌^◌, ◌<◌, ◌≤◌, ◌++◌, ◌∷◌, [], ℕ, List, length, slice_index, IfSome, IfOk, OnOk, OnErr, MatchBool};
ghost use Rattle.sq_outside.specs.Fault.{HasCause};
ghost use Rattle.sq_outside.specs.File.{IsImage, settled, in_doubt, overwritten};
ghost use Rattle.sq_outside.specs.Disk.{nth, LeavesOnly, LeavesRising};
ghost use Rattle.journal_format.specs.Records.{framed};
ghost use Rattle.journal_keeper.specs.Kept.{IsAjar};
ghost use Rattle.journal_keeper.specs.Records.{IsPayload};
ghost use Rattle.journal_keeper.specs.Stages.{IsReclosed};
ghost use Rattle.journal_keeper.specs.Texts.{IsSettled, IsClosed, HoldsAt, with_record};
ghost use Rattle.journal_keeper.specs.Writes.{IsReplaced, IsOtherKept};

use crate::gate::put;
use sq_outside::{Disk, Failed};

/// Is there a byte at this place of file 0, and is it `00`?
fn is_shut<D: Disk>(disk: &mut D, place: u64) -> Result<bool, Failed>
    ensures shut { IfOk result (λ shut. IfSome (D.history disk.old) (λ h.
        MatchBool shut ((place < length h.now.0.reads) × (slice_index h.now.0.reads place ≡ 0)) (place ≤ length h.now.0.reads → IsAjar place h.now.0.reads))) }
    ensures kept { D.history disk.new ≡ D.history disk.old }
    ensures cause { HasCause (D.faults disk.old) (D.faults disk.new) result }
{
    let mut byte = [1];
    disk.read_at(0, place, &mut byte)?;
    Ok(byte[0] == 0)
}

/// Writes `00` at this place of the synced file 0, where another byte stands there or the file ends, and syncs it.
pub(crate) fn shut<D: Disk>(disk: &mut D, place: u64) -> Result<(), Failed>
    requires settled { IfSome (D.history disk.old) (λ h. IsSettled h.now.0) }
    requires within { IfSome (D.history disk.old) (λ h. place ≤ length h.now.0.reads) }
    ensures any_moment { IfSome (D.history disk.old) (λ h. LeavesOnly
        (λ image. IsReplaced place h.now.0.reads image.0) (D.history disk.old) (D.history disk.new)) }
    ensures shut { OnOk result (IfSome (D.history disk.old) (λ h. IfSome (D.history disk.new) (λ new.
        new.now.0 ≡ settled (overwritten h.now.0.reads place (0 ∷ []))))) }
    ensures other { IsOtherKept (D.history disk.old) (D.history disk.new) }
    ensures cause { HasCause (D.faults disk.old) (D.faults disk.new) result }
{
    if !is_shut(disk, place)? {
        put(disk, place, &[0])?;
    }
    Ok(())
}

/// Closes a gate of file 0 that is in doubt. What stands there is read once it is synced.
pub(crate) fn close<D: Disk>(disk: &mut D, gate: u64) -> Result<(), Failed>
    requires { IfSome (D.history disk.old) (λ h. (image : List ℕ) → IsImage h.now.0.unsynced image → gate ≤ length image) }
    ensures any_moment { IfSome (D.history disk.old) (λ h. LeavesOnly
        (λ image. IsReclosed gate h.now.0.unsynced image.0) (D.history disk.old) (D.history disk.new)) }
    ensures closed { OnOk result (IfSome (D.history disk.old) (λ h. IfSome (D.history disk.new) (λ new.
        (was : List ℕ) × (IsImage h.now.0.unsynced was × (new.now.0 ≡ settled (overwritten was gate (0 ∷ []))))))) }
    ensures other { IsOtherKept (D.history disk.old) (D.history disk.new) }
    ensures cause { HasCause (D.faults disk.old) (D.faults disk.new) result }
{
    disk.sync(0)?;
    shut(disk, gate)?;
    Ok(())
}
