//! What the definitions of takings mean.
ghost use Rattle.std.specs.Prelude.{◌≡◌, ◌≢◌, ◌↔◌, ◌⊎◌, ◌==◌, ℕ, List, not, filter, Contains};
ghost use Rattle.job_states.specs.declared.row.Row.{Row};
ghost use Rattle.job_states.specs.declared.row.Mode.{Mode};
ghost use Rattle.row_locks.specs.Footprints.{AreCompatible};
ghost use Rattle.row_locks.specs.Locks.{Holds, HoldsAll, Lock, TakesRows};

/// Who holds which row after a taking and after a seat let go, and that what a seat takes goes together with what any other
/// seat holds.
pub fn who_holds()
    ensures taken { (old new : List Lock) (seat : ℕ) (rows : List (Row × Mode)) → TakesRows old new seat rows
        → (by : ℕ) (row : Row) (mode : Mode) → Holds new by row mode ↔ (Holds old by row mode ⊎ ((by ≡ seat) × Contains rows (row, mode))) }
    ensures freed { (locks : List Lock) (seat by : ℕ) (row : Row) (mode : Mode)
        → Holds (filter (λ lock. not (lock.seat == seat)) locks) by row mode ↔ (Holds locks by row mode × (by ≢ seat)) }
    ensures compatible { (old new : List Lock) (seat : ℕ) (rows : List (Row × Mode)) → TakesRows old new seat rows
        → (by : ℕ) (theirs : List (Row × Mode)) → by ≢ seat → HoldsAll old by theirs → AreCompatible theirs rows }
{}
