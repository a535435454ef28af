//! Due jobs become ready, or what their keys let them be.
ghost use Rattle.std.specs.Prelude.{◌≡◌, map, OnOk};
ghost use Rattle.job_states.specs.Judged.{Gives};
ghost use Rattle.job_states.specs.declared.command.Command.TheVariants.{Dispatch};
ghost use Rattle.plan_model.specs.UpkeepCommands.{dispatch_case, upkeep_plan};
ghost use Rattle.upkeep_plans.specs.Standing.{StandJobs, is_due_at, itself};
ghost use Rattle.upkeep_plans.specs.Taking.{IsTaking, with_cases};

use crate::each_free::EachFree;
use crate::finish::finish;
use crate::walks::Due;
use book_core::Plan;
use job_states::{Answer, NoMemory, Refused, Transition};
use plan_scenes::Scene;
use std::alloc::Global;

/// The due jobs that are free are put where their keys let them stand, at most a batch of them: how many.
pub fn dispatch<'a>(alloc: Global, scene: &'a Scene<'a>) -> Result<Plan, Refused>
    ensures { Gives Refused.NoMemory result (upkeep_plan scene.now Dispatch) }
{
    scene.is_good();
    let mut cases = EachFree::begin(alloc, scene, scene.config().dispatcher.batch_size);
    let jobs = Due::new(scene.book().tables(), scene.moment());
    dispatch_each(&mut cases, jobs).map_err(|_| Refused::NoMemory)?;
    let (draft, count) = cases.into_parts();
    finish(scene, draft, Answer::Count { count })
}

fn dispatch_each(cases: &mut EachFree, mut jobs: Due) -> Result<(), NoMemory>
    requires taking { IsTaking cases.old }
    requires standing { StandJobs itself (is_due_at cases.old.scene.moment) cases.old.scene jobs cases.old.drafting.draft }
    ensures { OnOk result (cases.new ≡ with_cases cases.old (map (dispatch_case cases.old.scene.moment) jobs.entry)) }
{
    while let Some(job) = jobs.next_job() {
        if cases.is_full() {
            return Ok(());
        }
        let draft = cases.draft();
        draft.is_fresh();
        let put = draft.meets(job.row.limited.as_ref());
        cases.take(Transition::Dispatch {
            id: job.row.id,
            put,
        })?;
    }
    Ok(())
}
