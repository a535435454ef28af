//! What a process does with a job that it has claimed: why that is refused, and what comes of a job that is done or released.
ghost use Rattle.std.specs.Prelude.{◌≡◌, None, Some, IfOk, IfErr, OnOk};
ghost use Rattle.claim_plans.specs.Claims.{IsClaim};
ghost use Rattle.job_states.specs.Judged.{Gives};
ghost use Rattle.job_states.specs.declared.command.Command.TheVariants as command;
ghost use Rattle.job_states.specs.declared.transition.Transition.TheVariants as step;
ghost use Rattle.plan_drafts.specs.Drafting.{GivesDraft};
ghost use Rattle.plan_model.specs.Drafts.{begin, end};
ghost use Rattle.plan_model.specs.JobCommands.{job_plan, of_claim};
ghost use Rattle.plan_model.specs.Refusals.{first_met};
ghost use Rattle.plan_scenes.specs.Begun.{begun};

use book_core::Plan;
use job_states::{Answer, JobId, NoMemory, Pid, Refused, State, Transition};
use plan_drafts::Draft;
use plan_model::pushes_are_allowed;
use plan_scenes::{Scene, plans_are_told, refusals_come_first};
use queue_model::Job;
use std::alloc::Global;

/// The job that the process has claimed, or the first cause why it is refused.
pub fn claimed<'a>(scene: &Scene<'a>, pid: Pid, id: JobId) -> Result<&'a Job, Refused>
    ensures claim { IfOk result (λ job. IsClaim scene.now id job.now) }
    ensures accepted { OnOk result (first_met (of_claim scene.now pid id) ≡ None) }
    ensures refused { IfErr result (λ refused. first_met (of_claim scene.now pid id) ≡ Some refused) }
{
    scene.is_good();
    let job = scene.job(id)?;
    match job.state {
        State::Claimed(by, _) if by == pid => Ok(job),
        State::Claimed(by, _) => Err(Refused::NotClaimant { id, by }),
        _ => Err(Refused::WrongState {
            id,
            state: job.state.stage(),
        }),
    }
}

/// The plan of a job that is done.
pub fn done(alloc: Global, scene: &Scene, pid: Pid, id: JobId) -> Result<Plan, Refused>
    ensures { Gives Refused.NoMemory result (job_plan scene.now (command.Done pid id)) }
{
    let job = claimed(scene, pid, id)?;
    scene.is_good();
    plans_are_told();
    refusals_come_first();
    let mut draft = scene.begin(alloc);
    let unblocked = end_done(scene, &mut draft, job).map_err(|_| Refused::NoMemory)?;
    draft.finish(Answer::Done { id, unblocked })
}

/// Ends the claimed job as done, before anything else: which job is unblocked for it.
pub fn end_done(scene: &Scene, draft: &mut Draft, job: &Job) -> Result<Option<JobId>, NoMemory>
    requires draft { draft.old ≡ begun scene.now }
    requires claim { IsClaim scene.now job.now.row.id job.now }
    ensures { IfOk result (GivesDraft draft.old draft.new (end scene.now.moment job.now.row.id (step.Done job.now.row.id) (begin scene.now))) }
{
    scene.is_good();
    pushes_are_allowed();
    let id = job.row.id;
    draft.end(id, Transition::Done { id })
}

/// The plan of a job whose claim is given back.
pub fn release(alloc: Global, scene: &Scene, pid: Pid, id: JobId) -> Result<Plan, Refused>
    ensures { Gives Refused.NoMemory result (job_plan scene.now (command.Release pid id)) }
{
    claimed(scene, pid, id)?;
    scene.is_good();
    pushes_are_allowed();
    plans_are_told();
    refusals_come_first();
    let mut draft = scene.begin(alloc);
    draft
        .push(Transition::Release { id })
        .map_err(|_| Refused::NoMemory)?;
    draft.finish(Answer::Released { id })
}
