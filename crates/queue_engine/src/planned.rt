//! The plan of a command, by the crate that makes it.
ghost use Rattle.std.specs.Prelude.{◌≡◌, ◌≤◌, ℕ, None, Ok, IsTrue, length};
ghost use Rattle.job_states.specs.declared.command.Command as command;
ghost use Rattle.job_states.specs.Judged.{Gives};
ghost use Rattle.job_states.specs.Moment.{IsMoment};
ghost use Rattle.plan_model.specs.GoodBook.{MayOpen};
ghost use Rattle.plan_model.specs.GoodScene.{IsGoodScene, IsWithinRanges};
ghost use Rattle.plan_model.specs.Plans as plans;
ghost use Rattle.plan_model.specs.Scenes as scenes;
ghost use Rattle.queue_config.specs.Ranges.{IsConfig};
ghost use Rattle.queue_engine.specs.Built.{is_built};
ghost use Rattle.queue_model.specs.Map as map;
ghost use Rattle.situation_model.specs.Situations.{command_plan};

use crate::built::is_about_jobs;
use book_core::{Book, Plan};
use job_plans::plan_job;
use job_states::{Command, Moment, Refused};
use plan_model::{plans_are_short, plans_may_open};
use queue_config::Config;
use std::alloc::Global;
use upkeep_plans::plan_upkeep;

/// The plan of the command at this moment, or its first refusal.
pub fn plan_of(
    alloc: Global,
    book: &Book,
    config: &Config,
    command: Command,
    moment: Moment,
) -> Result<Plan, Refused>
    requires built { IsTrue (is_built command) }
    requires config { IsConfig config.now }
    requires moment { IsMoment moment }
    requires ranges { IsWithinRanges (scenes.scene book.now config.now moment) command }
    ensures { Gives Refused.NoMemory result (command_plan (scenes.scene book.now config.now moment) command) }
{
    if is_about_jobs(&command) {
        plan_job(alloc, book, config, command, moment)
    } else {
        plan_upkeep(alloc, book, config, command, moment)
    }
}

/// In a good scene the plan of a command that isn't refused may be opened where nothing is open. It does nothing: its
/// contract is the statement.
pub fn commands_may_open()
    ensures { (s : scenes.Scene) (c : command.Command) (plan : plans.Plan) (seat : ℕ)
        → IsGoodScene s → IsWithinRanges s c → map.get s.book.open_plans seat ≡ None → command_plan s c ≡ Ok plan
        → MayOpen s.book seat plan }
{
    plans_may_open();
}

/// And it has no more transitions than the journal can hold of a transaction.
pub fn commands_are_short()
    ensures { (s : scenes.Scene) (c : command.Command) (plan : plans.Plan)
        → IsGoodScene s → IsWithinRanges s c → command_plan s c ≡ Ok plan → length plan.tx.steps ≤ 2000 }
{
    plans_are_short();
}
