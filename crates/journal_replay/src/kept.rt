//! What callers need to know of files and disks that are kept for a world, as functions whose contracts say it.
ghost use Rattle.std.specs.Prelude.{List, ℕ, [], None, Option};
ghost use Rattle.job_states.specs.declared.transition.Transaction.{Transaction};
ghost use Rattle.journal_replay.specs.Kept.{AreKeptFor, IsKeptFor, MayFollow, RecoversEither};
ghost use Rattle.queue_model.specs.World.{World, empty};
ghost use Rattle.sq_outside.specs.Disk.{AreImages, Two};
ghost use Rattle.sq_outside.specs.File.{File, settled};

use journal_keeper::kept_laws;

/// A file that is kept for a world and a record in doubt recovers the world, or what the record makes of it.
pub fn kept_recovers()
    ensures { (w : World) (doubt : Option (List Transaction)) (file : List ℕ) → IsKeptFor w doubt file → RecoversEither w doubt file }
{
    kept_laws();
}

/// Each crash leaves a disk that is kept, and a new disk is kept for the empty world.
pub fn crashes_leave_kept()
    ensures image { (w : World) (doubt : Option (List Transaction)) (files : Two File) (image : Two (List ℕ))
        → AreKeptFor w doubt files → AreImages files image → IsKeptFor w doubt image.0 }
    ensures disk { (w : World) (doubt : Option (List Transaction)) (image : Two (List ℕ))
        → IsKeptFor w doubt image.0 → AreKeptFor w doubt (settled image.0, settled image.1) }
    ensures first { (other : List ℕ) → AreKeptFor empty None (settled [], settled other) }
    ensures weaker { (w : World) (doubt : Option (List Transaction)) (file : List ℕ) → MayFollow w doubt → IsKeptFor w None file → IsKeptFor w doubt file }
{
    kept_laws();
}
