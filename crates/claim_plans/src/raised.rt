//! A job that raised an error: it fails, is discarded, or is tried again by a copy of its row.
ghost use Rattle.std.specs.Prelude.{◌≡◌, ℕ, List, IsTrue, IfOk};
ghost use Rattle.claim_plans.specs.Claims.{IsClaim};
ghost use Rattle.claim_plans.specs.Left.{counters_by, counters_left};
ghost use Rattle.job_states.specs.Judged.{Gives};
ghost use Rattle.job_states.specs.Length.{is_name};
ghost use Rattle.job_states.specs.declared.answer.Answer.TheVariants as answers;
ghost use Rattle.job_states.specs.declared.command.Command.TheVariants as command;
ghost use Rattle.plan_model.specs.Drafts.{begin};
ghost use Rattle.plan_model.specs.JobCommands as model;
ghost use Rattle.plan_scenes.specs.Begun.{ComesTo};
ghost use Rattle.queue_config.specs.declared.retry.Act.TheVariants as act;

use crate::claim::{claimed, end_done};
use crate::counts::counts_after;
use crate::message::message_of;
use book_core::Plan;
use job_states::{
    Answer, Copied, Counters, JobId, JobRow, Name, NoMemory, Outcome, Pid, Refused, Text,
    Transition, later,
};
use plan_drafts::Draft;
use plan_model::pushes_are_allowed;
use plan_scenes::{Scene, plans_are_told, refusals_come_first};
use queue_config::{Act, Config, Decision};
use queue_model::Job;
use std::alloc::Global;

/// The greatest number of executions that is counted.
const MOST: u32 = 65_535;

/// The plan of a job that raised the error.
pub fn raised(
    alloc: Global,
    scene: &Scene,
    pid: Pid,
    id: JobId,
    error: Name,
    message: Text,
) -> Result<Plan, Refused>
    requires { IsTrue (is_name error) }
    ensures { Gives Refused.NoMemory result (model.job_plan scene.now (command.Raised pid id error message)) }
{
    let job = claimed(scene, pid, id)?;
    scene.is_good();
    plans_are_told();
    refusals_come_first();
    let (draft, answer) = raise(alloc, scene, job, error, message).map_err(|_| Refused::NoMemory)?;
    draft.finish(answer)
}

// What the error leads to.
fn raise<'a>(
    alloc: Global,
    scene: &Scene<'a>,
    job: &Job,
    error: Name,
    message: Text,
) -> Result<(Draft<'a>, Answer), NoMemory>
    requires claim { IsClaim scene.now job.now.row.id job.now }
    requires error { IsTrue (is_name error) }
    ensures { IfOk result (λ made. ComesTo scene.now (model.raise scene.now error message job.now (begin scene.now)) made.0 made.1) }
{
    scene.is_good();
    let row = &job.row;
    let config = scene.config();
    let decision = config.decide(&row.class, &error, row.counts.as_slice());
    let after = counters_after(alloc, config, row, &decision)?;
    match decision.act {
        Act::Fail => fail(alloc, scene, job, error, message, after),
        Act::Discard => discard(alloc, scene, job),
        Act::Retry { wait } => retry(alloc, scene, job, after, wait),
    }
}

// What the decision leaves in the job's row.
fn counters_after(
    alloc: Global,
    config: &Config,
    row: &JobRow,
    decision: &Decision,
) -> Result<Counters, NoMemory>
    ensures { IfOk result (λ after. after ≡ counters_by config.now decision.now row.now) }
{
    let executions = row.executions.saturating_add(1).min(MOST);
    let counts = counts_after(alloc, config, &row.class, decision, row.counts.as_slice())?;
    Ok(Counters { executions, counts })
}

// It fails, with what the error leaves.
fn fail<'a>(
    alloc: Global,
    scene: &Scene<'a>,
    job: &Job,
    error: Name,
    message: Text,
    after: Counters,
) -> Result<(Draft<'a>, Answer), NoMemory>
    requires claim { IsClaim scene.now job.now.row.id job.now }
    requires error { IsTrue (is_name error) }
    requires after { after ≡ counters_left scene.now error job.now }
    ensures { IfOk result (λ made. ComesTo scene.now (model.raise_by scene.now error message job.now (begin scene.now) act.Fail) made.0 made.1) }
{
    scene.is_good();
    pushes_are_allowed();
    let id = job.row.id;
    let step = Transition::Fail {
        id,
        error,
        message: message_of(alloc, message)?,
        counters: Some(after),
    };
    let mut draft = scene.begin(alloc);
    let unblocked = draft.end(id, step)?;
    Ok((draft, answer(id, None, Outcome::Failed, unblocked)))
}

// It is given up, as one that is done.
fn discard<'a>(alloc: Global, scene: &Scene<'a>, job: &Job) -> Result<(Draft<'a>, Answer), NoMemory>
    requires claim { IsClaim scene.now job.now.row.id job.now }
    ensures { (error message : List ℕ) → IfOk result (λ made. ComesTo scene.now (model.raise_by scene.now error message job.now (begin scene.now) act.Discard) made.0 made.1) }
{
    let mut draft = scene.begin(alloc);
    let unblocked = end_done(scene, &mut draft, job)?;
    Ok((
        draft,
        answer(job.row.id, None, Outcome::Finished, unblocked),
    ))
}

// It is done, and a copy of it is tried after the wait in microseconds.
fn retry<'a>(
    alloc: Global,
    scene: &Scene<'a>,
    job: &Job,
    after: Counters,
    wait: u64,
) -> Result<(Draft<'a>, Answer), NoMemory>
    requires claim { IsClaim scene.now job.now.row.id job.now }
    ensures { (error message : List ℕ) → after ≡ counters_left scene.now error job.now
        → IfOk result (λ made. ComesTo scene.now (model.raise_by scene.now error message job.now (begin scene.now) (act.Retry wait)) made.0 made.1) }
{
    scene.is_good();
    let row = row_again(&job.row, after)?;
    let at = later(scene.moment(), wait);
    let mut draft = scene.begin(alloc);
    let unblocked = end_done(scene, &mut draft, job)?;
    let copy = draft.enqueue(row, Some(at))?;
    Ok((
        draft,
        answer(job.row.id, copy.id, Outcome::Finished, unblocked),
    ))
}

// The row of the next execution.
fn row_again(row: &JobRow, after: Counters) -> Result<JobRow, NoMemory>
    ensures { IfOk result (λ again. again ≡ record row.now { executions = after.executions; counts = after.counts }) }
{
    let mut again = row.copy()?;
    again.executions = after.executions;
    again.counts = after.counts;
    Ok(again)
}

fn answer(id: JobId, next: Option<JobId>, state: Outcome, unblocked: Option<JobId>) -> Answer
    ensures { result ≡ answers.Raised id next state unblocked }
{
    Answer::Raised {
        id,
        next,
        state,
        unblocked,
    }
}
