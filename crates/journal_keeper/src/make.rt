//! Making file 0 where it isn't in use.
ghost use Rattle.std.specs.Prelude.{◌≡◌, ◌⊎◌, ◌≤◌, ◌++◌, ◌∷◌, [], ℕ, List, length, drop, IfSome, OnOk};
ghost use Rattle.sq_outside.specs.Fault.{HasCause};
ghost use Rattle.sq_outside.specs.File.{settled};
ghost use Rattle.sq_outside.specs.Disk.{nth, LeavesOnly};
ghost use Rattle.journal_keeper.specs.Making.{IsMaking, IsUnmade, new_journal};
ghost use Rattle.journal_keeper.specs.Texts.{IsSettled};
ghost use Rattle.journal_keeper.specs.Writes.{IsOtherKept};

use crate::gate::put;
use crate::loose::shut;
use journal_format::header;
use sq_outside::{Disk, Failed};

// Cuts the file to its first byte, which is `00`, and writes all of a journal without records after it.
fn lay<D: Disk>(disk: &mut D) -> Result<(), Failed>
    requires { IfSome (D.history disk.old) (λ h. (rest : List ℕ) × (h.now.0 ≡ settled (0 ∷ rest))) }
    ensures any_moment { LeavesOnly (λ image. IsUnmade image.0) (D.history disk.old) (D.history disk.new) }
    ensures laid { OnOk result (IfSome (D.history disk.old) (λ _. IfSome (D.history disk.new) (λ new. new.now.0 ≡ settled (0 ∷ drop 1 new_journal)))) }
    ensures other { IsOtherKept (D.history disk.old) (D.history disk.new) }
    ensures cause { HasCause (D.faults disk.old) (D.faults disk.new) result }
{
    disk.cut(0, 1)?;
    disk.sync(0)?;
    let mut text = [0; 17];
    text[..16].copy_from_slice(&header(0));
    put(disk, 1, &text[1..])?;
    Ok(())
}

/// Makes a journal without records of the synced file 0, which isn't in use. Its first byte is `00` until all else is synced.
pub(crate) fn make<D: Disk>(disk: &mut D) -> Result<(), Failed>
    requires { IfSome (D.history disk.old) (λ h. IsSettled h.now.0) }
    ensures any_moment { IfSome (D.history disk.old) (λ h. LeavesOnly
        (λ image. IsMaking h.now.0.reads image.0) (D.history disk.old) (D.history disk.new)) }
    ensures made { OnOk result (IfSome (D.history disk.old) (λ _. IfSome (D.history disk.new) (λ new. new.now.0 ≡ settled new_journal))) }
    ensures other { IsOtherKept (D.history disk.old) (D.history disk.new) }
    ensures cause { HasCause (D.faults disk.old) (D.faults disk.new) result }
{
    shut(disk, 0)?;
    lay(disk)?;
    put(disk, 0, b"S")?;
    Ok(())
}
