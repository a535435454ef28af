//! The plans of what a process does with jobs: it polls for them, and each claim ends as done, raised or released.
#![tactic(auto)]

mod claim;
mod counts;
mod message;
mod poll;
mod raised;

ghost use Rattle.std.specs.Prelude.{IsTrue};
ghost use Rattle.claim_plans.specs.Claims.{is_about_claims};
ghost use Rattle.job_states.specs.Judged.{Gives};
ghost use Rattle.plan_model.specs.GoodScene.{IsWithinRanges};
ghost use Rattle.plan_model.specs.JobCommands.{job_plan};

use book_core::Plan;
use job_states::{Command, Refused};
use plan_scenes::Scene;
use std::alloc::Global;

/// The plan of the command in the scene, or its first refusal.
pub fn plan_claim(alloc: Global, scene: &Scene, command: Command) -> Result<Plan, Refused>
    requires claims { IsTrue (is_about_claims command) }
    requires ranges { IsWithinRanges scene.now command }
    ensures { Gives Refused.NoMemory result (job_plan scene.now command) }
{
    match command {
        Command::Poll { pid, list, limit } => poll::poll(alloc, scene, pid, list, limit),
        Command::Done { pid, id } => claim::done(alloc, scene, pid, id),
        Command::Raised {
            pid,
            id,
            error,
            message,
        } => raised::raised(alloc, scene, pid, id, error, message),
        Command::Release { pid, id } => claim::release(alloc, scene, pid, id),
        _ => unreachable!(),
    }
}
