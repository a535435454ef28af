//! The plan of a command about jobs and queues, which is that of `plan_model`.
#![tactic(auto)]

mod discard;
mod enqueue;
mod queues;
mod retry;

ghost use Rattle.std.specs.Prelude.{IsTrue};
ghost use Rattle.job_plans.specs.Built as built;
ghost use Rattle.job_states.specs.Judged.{Gives};
ghost use Rattle.job_states.specs.Moment.{IsMoment};
ghost use Rattle.plan_model.specs.GoodScene.{IsWithinRanges};
ghost use Rattle.plan_model.specs.JobCommands.{job_plan};
ghost use Rattle.plan_model.specs.Scenes.{scene};
ghost use Rattle.queue_config.specs.Ranges.{IsConfig};

use book_core::{Book, Plan};
use claim_plans::plan_claim;
use discard::plan_discard;
use enqueue::{plan_bulk, plan_enqueue};
use job_states::{Command, Moment, Refused};
use plan_scenes::Scene;
use queue_config::Config;
use queues::{plan_pause, plan_resume};
use retry::plan_retry;
use std::alloc::Global;

/// The plan of the command at this moment, or its first refusal.
pub fn plan_job(
    alloc: Global,
    book: &Book,
    config: &Config,
    command: Command,
    moment: Moment,
) -> Result<Plan, Refused>
    requires is_built { IsTrue (built.is_built command) }
    requires config { IsConfig config.now }
    requires moment { IsMoment moment }
    requires ranges { IsWithinRanges (scene book.now config.now moment) command }
    ensures { Gives Refused.NoMemory result (job_plan (scene book.now config.now moment) command) }
{
    let scene = Scene::new(book, config, moment);
    match command {
        Command::Enqueue { job } => plan_enqueue(alloc, &scene, job),
        Command::Bulk { jobs } => plan_bulk(alloc, &scene, jobs),
        Command::Retry { id } => plan_retry(alloc, &scene, id),
        Command::Discard { id } => plan_discard(alloc, &scene, id),
        Command::Pause { queue } => plan_pause(alloc, &scene, queue),
        Command::Resume { queue } => plan_resume(alloc, &scene, queue),
        command => plan_claim(alloc, &scene, command),
    }
}
