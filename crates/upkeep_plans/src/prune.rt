//! A process that doesn't say that it is alive is taken for gone.
ghost use Rattle.std.specs.Prelude.{◌≡◌, [], All, IfOk, IsTrue, None, OnOk, Some, codes, length};
ghost use Rattle.job_states.specs.Judged.{Gives};
ghost use Rattle.job_states.specs.Ranges.{is_message};
ghost use Rattle.job_states.specs.declared.command.Command.TheVariants.{Prune};
ghost use Rattle.job_states.specs.Moment.{IsMoment};
ghost use Rattle.job_states.specs.declared.transition.Transition.TheVariants as step;
ghost use Rattle.queue_model.specs.GoodWorld.{IsGood};
ghost use Rattle.queue_model.specs.Map as map;
ghost use Rattle.plan_drafts.specs.Drafting.{with_draft};
ghost use Rattle.plan_drafts.specs.Ends.{IsEnding};
ghost use Rattle.plan_model.specs.UpkeepCommands as model;
ghost use Rattle.plan_model.specs.UpkeepCommands.{claimed_by, fail_all, upkeep_plan};
ghost use Rattle.plan_scenes.specs.Begun.{ComesTo, begun};
ghost use Rattle.upkeep_plans.specs.Standing.{HasClaims};

use crate::each_free::are_free;
use crate::finish::finish;
use crate::walks::{Claimed, Silent};
use book_core::Plan;
use job_states::{
    Answer, Copied, JobId, Mode, Name, NoMemory, Pid, Refused, Row, Text, Transition,
};
use plan_drafts::Draft;
use plan_model::ends_let_go;
use plan_scenes::Scene;
use queue_model::Process;
use std::alloc::Global;

/// The first silent process whose rows are all free goes, and its claims fail: how many.
pub fn prune<'a>(alloc: Global, scene: &'a Scene<'a>) -> Result<Plan, Refused>
    ensures { Gives Refused.NoMemory result (upkeep_plan scene.now Prune) }
{
    let (draft, answer) = prune_first(alloc, scene).map_err(|_| Refused::NoMemory)?;
    finish(scene, draft, answer)
}

// The draft of that process, with the answer; with nothing in it where there is none.
fn prune_first<'a>(alloc: Global, scene: &'a Scene<'a>) -> Result<(Draft<'a>, Answer), NoMemory>
    ensures { IfOk result (λ made. ComesTo scene.now (model.prune_first scene.now) made.0 made.1) }
{
    scene.is_good();
    let mut silent = Silent::new(scene);
    while let Some((pid, process)) = silent.next_process() {
        let (draft, failed) = prune_process(alloc, scene, pid, process)?;
        if are_free(scene, draft.rows()) {
            let pid = Some(pid);
            return Ok((draft, Answer::Pruned { failed, pid }));
        }
    }
    let none = Answer::Pruned {
        failed: 0,
        pid: None,
    };
    Ok((scene.begin(alloc), none))
}

// The draft in which this process goes, and how many claims it had.
fn prune_process<'a>(
    alloc: Global,
    scene: &Scene<'a>,
    pid: Pid,
    process: &Process,
) -> Result<(Draft<'a>, u64), NoMemory>
    requires { map.get scene.now.book.world.processes pid ≡ Some process.now }
    ensures draft { IfOk result (λ made. made.0 ≡ with_draft (begun scene.now) (model.prune scene.now pid process.now).draft) }
    ensures failed { IfOk result (λ made. made.1 ≡ length (claimed_by scene.now.book.world pid)) }
{
    scene.is_good();
    let message = pruned_message(alloc, process)?;
    let mut draft = scene.begin(alloc);
    let claims = Claimed::new(scene.book().tables(), pid);
    let failed = fail_each(alloc, &mut draft, claims, pid, &message)?;
    draft.push(Transition::Deregister { pid })?;
    draft.hold(Row::Process(pid), Mode::Alone)?;
    Ok((draft, failed))
}

// The process's claims fail, with this message: how many it had.
fn fail_each(
    alloc: Global,
    draft: &mut Draft,
    mut claims: Claimed,
    pid: Pid,
    message: &Text,
) -> Result<u64, NoMemory>
    requires claims { HasClaims pid claims draft.old }
    requires moment { IsMoment draft.old.moment }
    requires message { IsTrue (is_message message.now) }
    requires good { IsGood draft.old.draft.world }
    requires ends { All IsEnding draft.old.draft.steps }
    ensures draft { OnOk result (draft.new ≡ with_draft draft.old (fail_all draft.old.moment message.now claims.entry draft.old.draft)) }
    ensures gone { OnOk result (HasClaims pid [] draft.new) }
    ensures failed { IfOk result (λ failed. failed ≡ length claims.entry) }
{
    ends_let_go();
    let mut failed = 0;
    while let Some(job) = claims.next_job() {
        let id = job.row.id;
        let step = fail(alloc, id, message)?;
        draft.end(id, step)?;
        failed += 1;
    }
    Ok(failed)
}

// The claim's failure.
fn fail(alloc: Global, id: JobId, message: &Text) -> Result<Transition, NoMemory>
    ensures { IfOk result (λ failed. failed ≡ step.Fail id (codes "ProcessPrunedError") message.now None) }
{
    let error = Name::read(alloc, "ProcessPrunedError").map_err(|_| NoMemory)?;
    Ok(Transition::Fail {
        id,
        error,
        message: message.copy()?,
        counters: None,
    })
}

fn pruned_message(alloc: Global, process: &Process) -> Result<Text, NoMemory>
    ensures { IfOk result (λ message. message ≡ model.pruned_message process.now) }
{
    let text = format!(in alloc; "pruned: last beat {}", process.beat)?;
    Ok(Text::of(text))
}
