//! A job goes away.
ghost use Rattle.std.specs.Prelude.{◌≡◌, Some};
ghost use Rattle.job_states.specs.Judged.{Gives};
ghost use Rattle.job_states.specs.declared.command.Command.TheVariants as command;
ghost use Rattle.plan_model.specs.JobCommands.{job_plan, may_discard};
ghost use Rattle.plan_model.specs.Refusals as refusals;
ghost use Rattle.plan_scenes.specs.Causes.{unless};
ghost use Rattle.queue_model.specs.Map as map;

use book_core::Plan;
use job_states::{Answer, JobId, Refused, State, Transition};
use plan_model::pushes_are_allowed;
use plan_scenes::{Scene, plans_are_told, refusals_come_first};
use queue_model::Job;
use std::alloc::Global;

/// The plan of a discard, with the job that is unblocked for it.
pub fn plan_discard(alloc: Global, scene: &Scene, id: JobId) -> Result<Plan, Refused>
    ensures { Gives Refused.NoMemory result (job_plan scene.now (command.Discard id)) }
{
    let job = scene.job(id)?;
    wrong_state(scene, id, job)?;
    let mut draft = scene.begin(alloc);
    scene.is_good();
    pushes_are_allowed();
    let unblocked = draft
        .end(id, Transition::Discard { id })
        .map_err(|_| Refused::NoMemory)?;
    plans_are_told();
    refusals_come_first();
    draft.finish(Answer::Discarded { id, unblocked })
}

// A job that is claimed, or that is finished, isn't discarded.
fn wrong_state(scene: &Scene, id: JobId, job: &Job) -> Result<(), Refused>
    requires { map.get scene.now.book.world.jobs id ≡ Some job.now }
    ensures { result ≡ unless (refusals.wrong_state scene.now id may_discard) }
{
    match &job.state {
        State::Claimed(_, _) | State::Finished(_) => Err(Refused::WrongState {
            id,
            state: job.state.stage(),
        }),
        _ => Ok(()),
    }
}
