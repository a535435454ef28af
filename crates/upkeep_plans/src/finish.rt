//! The draft of a command becomes its plan.
ghost use Rattle.job_states.specs.Judged.{Gives};
ghost use Rattle.job_states.specs.declared.command.Command.{Command};
ghost use Rattle.plan_model.specs.UpkeepCommands.{upkeep_plan};
ghost use Rattle.upkeep_plans.specs.Done.{IsDone};

use book_core::Plan;
use job_states::{Answer, Refused};
use plan_drafts::Draft;
use plan_scenes::{Scene, plans_are_told, refusals_come_first};

/// The plan of a command that isn't refused, of the draft that has come to what it does, unless numbers are spent.
pub fn finish(scene: &Scene, draft: Draft, answer: Answer) -> Result<Plan, Refused>
    requires { (command : Command) × IsDone scene.now draft answer command }
    ensures { (command : Command) → IsDone scene.now draft.entry answer command → Gives Refused.NoMemory result (upkeep_plan scene.now command) }
{
    scene.is_good();
    plans_are_told();
    refusals_come_first();
    draft.finish(answer)
}
