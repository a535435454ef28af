ghost use Rattle.std.specs.Prelude.{◌≡◌, ◌≢◌, ℕ, List, Some, None, Ok, Err, All, max};
ghost use Rattle.job_states.specs.declared.answer.Refused.{Refused};
ghost use Rattle.job_states.specs.declared.command.Command.{Command};
ghost use Rattle.queue_config.specs.Ranges.{IsConfig};
ghost use Rattle.queue_config.specs.declared.config.Config.{Config};
ghost use Rattle.queue_model.specs.GoodWorld.{IsGood};
ghost use Rattle.queue_model.specs.Replay.{after, replay};
ghost use Rattle.queue_model.specs.World.{World};
ghost use Rattle.plan_model.specs.Plans.{Plan};
ghost use Rattle.situation_model.specs.GoodSituation.{DiffersAt, IsGoodSituation, Makes, job_made, pid_made};
ghost use Rattle.situation_model.specs.Situations.{Situation, answer_at, begins, begun, committed, open_at, rolled_back, situation_over};
ghost use Rattle.situation_model.specs.Steps.{IsElsewhere, IsInRange, Step, accepted, after_step, after_steps};

use plan_model::{books_stay_good, plans_may_open};
use queue_model::{plans_stay_legal, worlds_stay_good};

/// Whatever steps come, in whatever order and at whatever moments, a good situation leads to a good one.
pub fn steps_stay_good()
    ensures first { (w : World) → IsGood w → IsGoodSituation (situation_over w) }
    ensures step { (settings : Config) → IsConfig settings → (s end : Situation) (step : Step)
        → IsInRange settings step → IsGoodSituation s → after_step settings s step ≡ Some end → IsGoodSituation end }
    ensures steps { (settings : Config) → IsConfig settings → (s end : Situation) (steps : List Step)
        → All (IsInRange settings) steps → IsGoodSituation s → after_steps settings s steps ≡ Some end → IsGoodSituation end }
{
    books_stay_good();
    plans_may_open();
    plans_stay_legal();
    worlds_stay_good();
}

/// What was opened is what commits: it stands at its seat until it ends there or the store is reopened, and in a good
/// situation it is legal, whatever was committed since.
pub fn commits_are_legal()
    ensures opened { (s : Situation) (seat : ℕ) (plan : Plan) → open_at (begun s seat (Ok plan)) seat ≡ Some plan }
    ensures stands { (settings : Config) (s end : Situation) (steps : List Step) (seat : ℕ) (plan : Plan)
        → All (IsElsewhere seat) steps → open_at s seat ≡ Some plan → after_steps settings s steps ≡ Some end → open_at end seat ≡ Some plan }
    ensures legal { (s : Situation) (seat : ℕ) (plan : Plan) → IsGoodSituation s → open_at s seat ≡ Some plan
        → (end : Situation) × (committed s seat ≡ Some end) × (after s.book.world plan.tx ≡ Some end.book.world) }
    ensures answer { (s : Situation) (seat : ℕ) (plan : Plan) → open_at s seat ≡ Some plan → answer_at s seat ≡ Some plan.answer }
{}

/// The world after steps is the replay of the transactions that they accepted, in order, on the world before them.
pub fn worlds_are_replays()
    ensures { (settings : Config) (s end : Situation) (steps : List Step)
        → after_steps settings s steps ≡ Some end → replay s.book.world (accepted settings s steps) ≡ Some end.book.world }
{}

/// The moment of a plan is the clock's, or the greatest one given before where that is greater; from then on it is the
/// greatest one given.
pub fn moments_never_fall()
    ensures moment { (settings : Config) (s : Situation) (now : ℕ) (c : Command) (plan : Plan)
        → begins settings s c now ≡ Ok plan → plan.tx.moment ≡ max now s.book.given.moment }
    ensures given { (settings : Config) (s : Situation) (seat now : ℕ) (c : Command) (plan : Plan)
        → begins settings s c now ≡ Ok plan → (begun s seat (Ok plan)).book.given.moment ≡ plan.tx.moment }
{}

/// In a good situation no two open plans make one job, or one process.
pub fn new_numbers_differ()
    ensures jobs { (s : Situation) (seat other : ℕ) (plan theirs : Plan) (id : ℕ) → IsGoodSituation s → seat ≢ other
        → open_at s seat ≡ Some plan → open_at s other ≡ Some theirs → Makes job_made id plan → ¬ Makes job_made id theirs }
    ensures processes { (s : Situation) (seat other : ℕ) (plan theirs : Plan) (pid : ℕ) → IsGoodSituation s → seat ≢ other
        → open_at s seat ≡ Some plan → open_at s other ≡ Some theirs → Makes pid_made pid plan → ¬ Makes pid_made pid theirs }
{}

/// A command that is refused or locked changes nothing, and a rollback only what is open at its seat.
pub fn refusals_change_nothing()
    ensures refused { (settings : Config) (s : Situation) (seat now : ℕ) (c : Command) (refused : Refused)
        → begins settings s c now ≡ Err refused → begun s seat (begins settings s c now) ≡ s }
    ensures rolled_back { (s end : Situation) (seat : ℕ) → rolled_back s seat ≡ Some end → DiffersAt seat s end }
    ensures vacant { (s end : Situation) (seat : ℕ) → rolled_back s seat ≡ Some end → open_at end seat ≡ None }
{}
