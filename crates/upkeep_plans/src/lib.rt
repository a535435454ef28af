//! The plan of a command of maintenance, which is that of `plan_model`.
#![tactic(auto)]

mod clear;
mod dispatch;
mod each_free;
mod expire;
mod finish;
mod processes;
mod prune;
mod times;
mod unblock;
mod walks;

ghost use Rattle.std.specs.Prelude.{IsTrue};
ghost use Rattle.upkeep_plans.specs.Built as built;
ghost use Rattle.job_states.specs.Judged.{Gives};
ghost use Rattle.job_states.specs.Moment.{IsMoment};
ghost use Rattle.plan_model.specs.GoodScene.{IsWithinRanges};
ghost use Rattle.plan_model.specs.UpkeepCommands.{upkeep_plan};
ghost use Rattle.plan_model.specs.Scenes.{scene};
ghost use Rattle.queue_config.specs.Ranges.{IsConfig};

use book_core::{Book, Plan};
use job_states::{Command, Moment, Refused};
use plan_scenes::Scene;
use queue_config::Config;
use std::alloc::Global;

/// The plan of the command at this moment, or its first refusal.
pub fn plan_upkeep(
    alloc: Global,
    book: &Book,
    config: &Config,
    command: Command,
    moment: Moment,
) -> Result<Plan, Refused>
    requires is_built { IsTrue (built.is_built command) }
    requires config { IsConfig config.now }
    requires moment { IsMoment moment }
    requires ranges { IsWithinRanges (scene book.now config.now moment) command }
    ensures { Gives Refused.NoMemory result (upkeep_plan (scene book.now config.now moment) command) }
{
    let scene = Scene::new(book, config, moment);
    match command {
        Command::Register { kind, name } => processes::register(alloc, &scene, kind, name),
        Command::Beat { pid } => processes::beat(alloc, &scene, pid),
        Command::Deregister { pid } => processes::deregister(alloc, &scene, pid),
        Command::Dispatch => dispatch::dispatch(alloc, &scene),
        Command::Expire => expire::expire(alloc, &scene),
        Command::Unblock => unblock::unblock(alloc, &scene),
        Command::Prune => prune::prune(alloc, &scene),
        Command::ClearFinished => clear::clear_finished(alloc, &scene),
        _ => unreachable!(),
    }
}
