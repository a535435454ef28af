//! Finished jobs go.
ghost use Rattle.std.specs.Prelude.{◌≡◌, map, OnOk};
ghost use Rattle.job_states.specs.Judged.{Gives};
ghost use Rattle.job_states.specs.declared.command.Command.TheVariants.{ClearFinished};
ghost use Rattle.plan_model.specs.UpkeepCommands.{clear_case, is_over, upkeep_plan};
ghost use Rattle.upkeep_plans.specs.Standing.{StandJobs, itself};
ghost use Rattle.upkeep_plans.specs.Taking.{IsTaking, with_cases};

use crate::each_free::{EachFree, MOST};
use crate::finish::finish;
use crate::walks::Over;
use book_core::Plan;
use job_states::{Answer, NoMemory, Refused, Transition};
use plan_scenes::Scene;
use std::alloc::Global;

/// The jobs that finished long ago go, those that are free and at most 500: how many.
pub fn clear_finished<'a>(alloc: Global, scene: &'a Scene<'a>) -> Result<Plan, Refused>
    ensures { Gives Refused.NoMemory result (upkeep_plan scene.now ClearFinished) }
{
    scene.is_good();
    let mut cases = EachFree::begin(alloc, scene, MOST);
    clear_each(&mut cases, Over::new(scene)).map_err(|_| Refused::NoMemory)?;
    let (draft, count) = cases.into_parts();
    finish(scene, draft, Answer::Count { count })
}

fn clear_each(cases: &mut EachFree, mut jobs: Over) -> Result<(), NoMemory>
    requires taking { IsTaking cases.old }
    requires standing { StandJobs itself (is_over cases.old.scene) cases.old.scene jobs cases.old.drafting.draft }
    ensures { OnOk result (cases.new ≡ with_cases cases.old (map (clear_case cases.old.scene.moment) jobs.entry)) }
{
    while let Some(job) = jobs.next_job() {
        if cases.is_full() {
            return Ok(());
        }
        cases.take(Transition::Clear { id: job.row.id })?;
    }
    Ok(())
}
