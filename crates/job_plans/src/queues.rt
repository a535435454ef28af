//! Queues that are paused, and queues that resume.
ghost use Rattle.std.specs.Prelude.{◌≡◌, IsTrue, IfOk};
ghost use Rattle.job_states.specs.Judged.{Gives};
ghost use Rattle.job_states.specs.Length.{is_name};
ghost use Rattle.job_states.specs.declared.command.Command.TheVariants as command;
ghost use Rattle.plan_drafts.specs.Drafting.{with_draft};
ghost use Rattle.plan_model.specs.JobCommands.{does, job_plan};
ghost use Rattle.plan_scenes.specs.Begun.{begun};

use book_core::Plan;
use job_states::{Answer, Copied, Mode, Name, NoMemory, Refused, Row, Transition};
use plan_drafts::Draft;
use plan_model::pushes_are_allowed;
use plan_scenes::{Scene, plans_are_told, refusals_come_first};
use std::alloc::Global;

/// The plan of a pause, which changes nothing where the queue is paused already.
pub fn plan_pause(alloc: Global, scene: &Scene, queue: Name) -> Result<Plan, Refused>
    requires { IsTrue (is_name queue) }
    ensures { Gives Refused.NoMemory result (job_plan scene.now (command.Pause queue)) }
{
    let draft = paused(alloc, scene, &queue).map_err(|_| Refused::NoMemory)?;
    scene.is_good();
    plans_are_told();
    refusals_come_first();
    draft.finish(Answer::Paused {
        paused: true,
        queue,
    })
}

/// The plan of a resume, which changes nothing where the queue isn't paused.
pub fn plan_resume(alloc: Global, scene: &Scene, queue: Name) -> Result<Plan, Refused>
    requires { IsTrue (is_name queue) }
    ensures { Gives Refused.NoMemory result (job_plan scene.now (command.Resume queue)) }
{
    let draft = resumed(alloc, scene, &queue).map_err(|_| Refused::NoMemory)?;
    scene.is_good();
    plans_are_told();
    refusals_come_first();
    draft.finish(Answer::Paused {
        paused: false,
        queue,
    })
}

// The queue is paused, if it isn't yet, and its row is held.
fn paused<'a>(alloc: Global, scene: &Scene<'a>, queue: &Name) -> Result<Draft<'a>, NoMemory>
    ensures { IfOk result (λ d. d ≡ with_draft (begun scene.now) (does scene.now (command.Pause queue.now)).draft) }
{
    let mut draft = scene.begin(alloc);
    pushes_are_allowed();
    if !scene.book().tables().is_paused(queue) {
        let queue = queue.copy()?;
        draft.push(Transition::Pause { queue })?;
    }
    draft.hold(Row::Queue(queue.copy()?), Mode::Alone)?;
    Ok(draft)
}

// The queue resumes, if it is paused, and its row is held.
fn resumed<'a>(alloc: Global, scene: &Scene<'a>, queue: &Name) -> Result<Draft<'a>, NoMemory>
    ensures { IfOk result (λ d. d ≡ with_draft (begun scene.now) (does scene.now (command.Resume queue.now)).draft) }
{
    let mut draft = scene.begin(alloc);
    pushes_are_allowed();
    if scene.book().tables().is_paused(queue) {
        let queue = queue.copy()?;
        draft.push(Transition::Resume { queue })?;
    }
    draft.hold(Row::Queue(queue.copy()?), Mode::Alone)?;
    Ok(draft)
}
