//! Expired semaphores go.
ghost use Rattle.std.specs.Prelude.{◌≡◌, map, OnOk};
ghost use Rattle.job_states.specs.Judged.{Gives};
ghost use Rattle.job_states.specs.declared.command.Command.TheVariants.{Expire};
ghost use Rattle.plan_model.specs.UpkeepCommands.{expire_case, upkeep_plan};
ghost use Rattle.upkeep_plans.specs.Standing.{AreExpired};
ghost use Rattle.upkeep_plans.specs.Taking.{IsTaking, with_cases};

use crate::each_free::{EachFree, MOST};
use crate::finish::finish;
use crate::walks::Expired;
use book_core::Plan;
use job_states::{Answer, Copied, NoMemory, Refused, Transition};
use plan_scenes::Scene;
use std::alloc::Global;

/// The expired semaphores that are free go, at most 500: how many.
pub fn expire<'a>(alloc: Global, scene: &'a Scene<'a>) -> Result<Plan, Refused>
    ensures { Gives Refused.NoMemory result (upkeep_plan scene.now Expire) }
{
    let mut cases = EachFree::begin(alloc, scene, MOST);
    let keys = Expired::new(scene.book().tables(), scene.moment());
    expire_each(&mut cases, keys).map_err(|_| Refused::NoMemory)?;
    let (draft, count) = cases.into_parts();
    finish(scene, draft, Answer::Count { count })
}

fn expire_each(cases: &mut EachFree, mut keys: Expired) -> Result<(), NoMemory>
    requires taking { IsTaking cases.old }
    requires standing { AreExpired cases.old.scene keys cases.old.drafting.draft }
    ensures { OnOk result (cases.new ≡ with_cases cases.old (map (expire_case cases.old.scene.moment) keys.entry)) }
{
    while let Some(key) = keys.next_key() {
        if cases.is_full() {
            return Ok(());
        }
        cases.take(Transition::Expire { key: key.copy()? })?;
    }
    Ok(())
}
