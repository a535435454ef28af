ghost use Rattle.std.specs.Prelude.{◌≡◌, ◌≢◌, ◌+◌, ◌≤◌, ℕ, List, Option, None, Some, Ok, All, AllPairs};
ghost use Rattle.job_states.specs.Moment.{IsMoment};
ghost use Rattle.job_states.specs.States.{check_of};
ghost use Rattle.job_states.specs.declared.row.Mode.{Mode};
ghost use Rattle.job_states.specs.declared.row.Row.{Row};
ghost use Rattle.job_states.specs.declared.transition.Transaction.{Transaction};
ghost use Rattle.job_states.specs.declared.transition.Transition.{Transition};
ghost use Rattle.job_states.specs.declared.transition.Transition.TheVariants.{Run};
ghost use Rattle.queue_model.specs.Footprints.{IsPlanned, Same, new_claims};
ghost use Rattle.queue_model.specs.GoodWorld.{IsGood};
ghost use Rattle.queue_model.specs.Map as map;
ghost use Rattle.queue_model.specs.Replay.{after, replay, runs_of, IsNewRun};
ghost use Rattle.queue_model.specs.Transitions.{step, stage_before};
ghost use Rattle.queue_model.specs.World.{World, claims, empty};
ghost use Rattle.row_locks.specs.Footprints.{AreCompatible};

/// The empty world is good.
pub fn empty_is_good()
    ensures { IsGood empty }
{}

/// What is legal leads from a good world to a good one: a transition, a transaction, a replay.
pub fn worlds_stay_good()
    ensures transition { (w end : World) (moment : ℕ) (t : Transition)
        → IsGood w → IsMoment moment → step w moment t ≡ Some end → IsGood end }
    ensures transaction { (w end : World) (tx : Transaction) → IsGood w → after w tx ≡ Some end → IsGood end }
    ensures replay { (w end : World) (txs : List Transaction) → IsGood w → replay w txs ≡ Some end → IsGood end }
{}

/// What was planned stays legal. Two transactions are planned in one world, their footprints go together, and for each
/// process the claims there and the new claims of both are at most 500. Then the second one, once the first is applied,
/// is still legal and covered, and leaves its rows as it would have left them. Neither the next numbers nor the last
/// moment nor recurring executions need a premise: no transition reads them.
pub fn plans_stay_legal()
    ensures legal { (w first_end second_end : World) (first second : Transaction)
        (first_rows second_rows : List (Row × Mode))
        → IsPlanned w first first_rows first_end → IsPlanned w second second_rows second_end
        → AreCompatible first_rows second_rows
        → ((pid : ℕ) → claims w pid + new_claims pid first.steps + new_claims pid second.steps ≤ 500)
        → (end : World) × IsPlanned first_end second second_rows end × Same second_end end second_rows }

    // It changes nothing at rows that go together with its own.
    ensures untouched { (w end : World) (tx : Transaction) (rows others : List (Row × Mode))
        → IsPlanned w tx rows end → AreCompatible rows others → Same w end others }

    // A process gains no more claims than there are Claim transitions for it.
    ensures claims { (w end : World) (tx : Transaction) (rows : List (Row × Mode)) (pid : ℕ)
        → IsPlanned w tx rows end → claims end pid ≤ claims w pid + new_claims pid tx.steps }
{}

/// A legal transition finds its job at the stage that `job_states::Transition::check` asks for.
pub fn legal_passes_check()
    ensures { (w end : World) (moment : ℕ) (t : Transition)
        → step w moment t ≡ Some end → check_of t (stage_before w t) ≡ Ok tt }
{}

/// In a replay no two runs are of the same task and time, and each is after the last run of its task in the first world.
pub fn tasks_run_once()
    ensures once { (w end : World) (txs : List Transaction)
        → replay w txs ≡ Some end → AllPairs (λ a b. a ≢ b) (runs_of txs) }
    ensures new { (w end : World) (txs : List Transaction) → replay w txs ≡ Some end → All (IsNewRun w) (runs_of txs) }

    // In a good world a run finds no recurring execution of its task and time, so none is overwritten.
    ensures recurring { (w end : World) (moment time : ℕ) (task : List ℕ) (id : Option ℕ)
        → IsGood w → step w moment (Run task time id) ≡ Some end → map.get w.recurring (task, time) ≡ None }
{}
