//! What callers need to know of files that are kept, as functions whose contracts say it.
ghost use Rattle.std.specs.Prelude.{◌≡◌, ◌++◌, ◌∷◌, [], ℕ, true, List, Option, None, Some};
ghost use Rattle.sq_outside.specs.Disk.{History, Leaves};
ghost use Rattle.journal_format.specs.Records.{framed};
ghost use Rattle.journal_keeper.specs.Kept.{Recovers, RecoversWith, IsKept};
ghost use Rattle.journal_keeper.specs.Stands.{Keeper, StandsOn, is_read};
ghost use Rattle.journal_keeper.specs.Texts.{IsText, Holds};

use journal_format::one_list_of_records;

/// A file recovers one list of payloads.
pub fn one_recovery()
    ensures { (a b : List (List ℕ)) (file : List ℕ) → Recovers a file → Recovers b file → a ≡ b }
{
    one_list_of_records();
}

/// What is kept recovers its payloads, with the one in doubt or without. It is kept too where one more is in doubt, and what is
/// accepted was kept with it in doubt. An empty file is kept for no payloads.
pub fn kept_laws()
    ensures recovers { (payloads : List (List ℕ)) (doubt : Option (List ℕ)) (file : List ℕ) → IsKept payloads doubt file → RecoversWith payloads doubt file }
    ensures weaker { (payloads : List (List ℕ)) (doubt : Option (List ℕ)) (file : List ℕ) → IsKept payloads None file → IsKept payloads doubt file }
    ensures accepted { (payloads : List (List ℕ)) (added file : List ℕ) → IsKept (payloads ++ added ∷ []) None file → IsKept payloads (Some added) file }
    ensures empty { IsKept [] None [] }
{}

/// The shape in which the keeper leaves a file is kept, whatever becomes of loose bytes.
pub fn shape_kept()
    ensures { (payloads : List (List ℕ)) (doubt : Option (List ℕ)) (text file : List ℕ) → IsText payloads text → Holds text doubt file → IsKept payloads doubt file }
{
    one_list_of_records();
}

/// Where a journal stands on a disk and all was read, each image is kept for its payloads and doubt.
pub fn stands_kept()
    ensures { (keeper : Keeper) (payloads : List (List ℕ)) (doubt : Option (List ℕ)) (history : History) → is_read keeper.stage ≡ true → StandsOn keeper payloads doubt history.now.0
        → Leaves (λ image. IsKept payloads doubt image.0) history.now }
{
    one_list_of_records();
}
