//! Blocked jobs whose time is over become ready, where their keys are open.
ghost use Rattle.std.specs.Prelude.{◌≡◌, ◌||◌, OnOk};
ghost use Rattle.job_states.specs.Judged.{Gives};
ghost use Rattle.job_states.specs.declared.command.Command.TheVariants.{Unblock};
ghost use Rattle.queue_model.specs.Map as map;
ghost use Rattle.plan_model.specs.UpkeepCommands as model;
ghost use Rattle.plan_model.specs.UpkeepCommands.{overdue, unblock_case, upkeep_plan};
ghost use Rattle.semaphores.specs.Semaphore as semaphore;
ghost use Rattle.upkeep_plans.specs.Left.{late_from, late_left};
ghost use Rattle.upkeep_plans.specs.SoFar.{IsSoFar};
ghost use Rattle.upkeep_plans.specs.Standing.{StandLate};
ghost use Rattle.upkeep_plans.specs.Taking as taking;
ghost use Rattle.upkeep_plans.specs.Taking.{IsTaking, with_cases};
ghost use Rattle.std.specs.Prelude.{map as mapped, None, Some};

use crate::each_free::{EachFree, MOST};
use crate::finish::finish;
use book_core::Plan;
use job_states::{Answer, Moment, NoMemory, Refused, State, Text, Transition};
use job_walks::Waiting;
use plan_scenes::Scene;
use queue_model::Job;
use semaphores::is_closed;
use std::alloc::Global;

/// The overdue jobs that are free become ready, where their keys are open, at most 500: how many.
pub fn unblock<'a>(alloc: Global, scene: &'a Scene<'a>) -> Result<Plan, Refused>
    ensures { Gives Refused.NoMemory result (upkeep_plan scene.now Unblock) }
{
    scene.is_good();
    let mut cases = EachFree::begin(alloc, scene, MOST);
    unblock_each(&mut cases).map_err(|_| Refused::NoMemory)?;
    let (draft, count) = cases.into_parts();
    finish(scene, draft, Answer::Count { count })
}

// Key by key.
fn unblock_each(cases: &mut EachFree) -> Result<(), NoMemory>
    requires taking { IsTaking cases.old }
    requires standing { StandLate cases.old.scene (overdue cases.old.scene.book.world cases.old.scene.moment) cases.old.drafting.draft }
    ensures { OnOk result (cases.new ≡ with_cases cases.old (mapped (unblock_case cases.old.scene.moment) (overdue cases.old.scene.book.world cases.old.scene.moment))) }
{
    let scene = cases.scene();
    scene.is_good();
    let tables = scene.book().tables();
    let mut past = None;
    while let Some(key) = tables.blocked_key_after(past) {
        if cases.is_full() {
            return Ok(());
        }
        past = Some(key);
        unblock_at(cases, key, Waiting::new(tables, key))?;
    }
    Ok(())
}

// The overdue ones among these jobs, which wait for the key. Once it is closed, no more are let go.
fn unblock_at(cases: &mut EachFree, key: &Text, mut jobs: Waiting) -> Result<(), NoMemory>
    requires taking { IsTaking cases.old }
    requires standing { StandLate cases.old.scene (late_from cases.old.scene key.now jobs) cases.old.drafting.draft }
    ensures { OnOk result (IsSoFar unblock_case StandLate cases.old (late_from cases.old.scene key.now jobs.entry) cases.new (late_left cases.old.scene.book.world cases.old.scene.moment (Some key.now))) }
{
    let moment = cases.scene().moment();
    while let Some(job) = jobs.next_job() {
        if is_shut(cases, key) {
            return Ok(());
        }
        if !is_overdue(job, moment) {
            continue;
        }
        let draft = cases.draft();
        draft.is_fresh();
        let generation = draft.generation_at(key);
        cases.take(Transition::Unblock {
            id: job.row.id,
            generation,
        })?;
    }
    Ok(())
}

// Can't any more job of the key be let go?
fn is_shut(cases: &EachFree, key: &Text) -> bool
    ensures { result ≡ (taking.is_full cases.now || semaphore.is_closed (map.get cases.now.drafting.draft.world.semaphores key.now)) }
{
    cases.is_full() || is_closed(&cases.draft().semaphore(key))
}

// Is the job's time over?
fn is_overdue(job: &Job, moment: Moment) -> bool
    ensures { result ≡ model.is_overdue moment job.now }
{
    match job.state {
        State::Blocked(until) => until <= moment,
        _ => false,
    }
}
