//! What callers need to know of a file's verdict, as a function whose contract says it.
ghost use Rattle.std.specs.Prelude.{◌≡◌, ℕ, List};
ghost use Rattle.journal_keeper.specs.Files.{IsForeignFile, IsVersionFile};
ghost use Rattle.journal_replay.specs.Records.{IsBadAt, RecoversWorld};
ghost use Rattle.queue_model.specs.World.{World};

use journal_format::one_text;
use journal_keeper::one_recovery;

/// A file's bytes give one verdict: one world, or one place of a bad record. A file that stands for a world is a journal of this
/// version, or isn't in use.
pub fn one_verdict()
    ensures world { (file : List ℕ) (w v : World) → RecoversWorld file w → RecoversWorld file v → w ≡ v }
    ensures refused { (file : List ℕ) (w : World) (at : ℕ) → RecoversWorld file w → IsBadAt file at → ⊥ }
    ensures place { (file : List ℕ) (at to : ℕ) → IsBadAt file at → IsBadAt file to → at ≡ to }
    ensures foreign { (file : List ℕ) (w : World) → RecoversWorld file w → IsForeignFile file → ⊥ }
    ensures version { (file : List ℕ) (n : ℕ) (w : World) → RecoversWorld file w → IsVersionFile n file → ⊥ }
{
    one_recovery();
    one_text();
}
