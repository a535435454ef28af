//! A job that failed is tried again.
ghost use Rattle.std.specs.Prelude.{◌≡◌, Some};
ghost use Rattle.job_states.specs.Judged.{Gives};
ghost use Rattle.job_states.specs.States.{is_failed};
ghost use Rattle.job_states.specs.declared.command.Command.TheVariants as command;
ghost use Rattle.plan_model.specs.JobCommands.{job_plan};
ghost use Rattle.plan_model.specs.Refusals as refusals;
ghost use Rattle.plan_scenes.specs.Causes.{unless};
ghost use Rattle.queue_model.specs.Map as map;

use book_core::Plan;
use job_states::{Answer, Copied, JobId, Refused, State, Transition};
use plan_drafts::outcome_of;
use plan_model::pushes_are_allowed;
use plan_scenes::{Scene, plans_are_told, refusals_come_first};
use queue_model::Job;
use semaphores::is_closed;
use std::alloc::Global;

/// The plan of a retry by hand: the job goes where its key lets it stand, unless it would be discarded there.
pub fn plan_retry(alloc: Global, scene: &Scene, id: JobId) -> Result<Plan, Refused>
    ensures { Gives Refused.NoMemory result (job_plan scene.now (command.Retry id)) }
{
    let job = scene.job(id)?;
    wrong_state(scene, id, job)?;
    semaphore_closed(scene, id, job)?;
    let mut draft = scene.begin(alloc);
    let put = draft.meets(job.row.limited.as_ref());
    draft.is_fresh();
    pushes_are_allowed();
    draft
        .push(Transition::Retry { id, put })
        .map_err(|_| Refused::NoMemory)?;
    scene.is_good();
    plans_are_told();
    refusals_come_first();
    let state = outcome_of(put);
    draft.finish(Answer::Retried { id, state })
}

// Only a job that failed is tried again.
fn wrong_state(scene: &Scene, id: JobId, job: &Job) -> Result<(), Refused>
    requires { map.get scene.now.book.world.jobs id ≡ Some job.now }
    ensures { result ≡ unless (refusals.wrong_state scene.now id is_failed) }
{
    match &job.state {
        State::Failed { .. } => Ok(()),
        state => Err(Refused::WrongState {
            id,
            state: state.stage(),
        }),
    }
}

// The job would be discarded, since its key is closed.
fn semaphore_closed(scene: &Scene, id: JobId, job: &Job) -> Result<(), Refused>
    requires { map.get scene.now.book.world.jobs id ≡ Some job.now }
    ensures { Gives Refused.NoMemory result (unless (refusals.semaphore_closed scene.now id)) }
{
    let Some(limited) = &job.row.limited else {
        return Ok(());
    };
    let semaphore = scene.book().tables().semaphore(&limited.key);
    if limited.discard && is_closed(&semaphore) {
        let key = limited.key.copy().map_err(|_| Refused::NoMemory)?;
        return Err(Refused::SemaphoreClosed { key });
    }
    Ok(())
}
