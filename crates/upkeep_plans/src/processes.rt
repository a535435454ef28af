//! Processes that come, that say that they are alive, and that go.
ghost use Rattle.std.specs.Prelude.{◌≡◌, IsSome, IsTrue, IfOk, OnOk, length};
ghost use Rattle.job_states.specs.Judged.{Gives};
ghost use Rattle.job_states.specs.Length.{is_name};
ghost use Rattle.job_states.specs.declared.command.Command.TheVariants as command;
ghost use Rattle.job_states.specs.declared.transition.Transition.TheVariants as step;
ghost use Rattle.plan_drafts.specs.Drafting.{with_draft};
ghost use Rattle.plan_model.specs.Drafts.{push};
ghost use Rattle.plan_model.specs.Refusals as refusals;
ghost use Rattle.plan_model.specs.UpkeepCommands.{release_all, upkeep_plan};
ghost use Rattle.plan_scenes.specs.Causes.{unless};
ghost use Rattle.upkeep_plans.specs.Standing.{HasClaims};

use crate::finish::finish;
use crate::walks::Claimed;
use book_core::Plan;
use job_states::{Answer, Kind, Name, NoMemory, Pid, Refused, Transition};
use plan_drafts::Draft;
use plan_model::pushes_are_allowed;
use plan_scenes::Scene;
use std::alloc::Global;

// There are at most this many processes.
const MOST_PROCESSES: u64 = 1024;

/// A new process is registered, unless there are 1024.
pub fn register(alloc: Global, scene: &Scene, kind: Kind, name: Name) -> Result<Plan, Refused>
    requires { IsTrue (is_name name) }
    ensures { Gives Refused.NoMemory result (upkeep_plan scene.now (command.Register kind name)) }
{
    no_room(scene)?;
    pushes_are_allowed();
    let mut draft = scene.begin(alloc);
    draft.is_fresh();
    let pid = draft.given().pid;
    draft
        .push(Transition::Register { pid, kind, name })
        .map_err(|_| Refused::NoMemory)?;
    finish(scene, draft, Answer::Registered { pid })
}

/// A process says that it is alive.
pub fn beat(alloc: Global, scene: &Scene, pid: Pid) -> Result<Plan, Refused>
    ensures { Gives Refused.NoMemory result (upkeep_plan scene.now (command.Beat pid)) }
{
    scene.no_such_process(pid)?;
    pushes_are_allowed();
    let mut draft = scene.begin(alloc);
    draft
        .push(Transition::Beat { pid })
        .map_err(|_| Refused::NoMemory)?;
    finish(scene, draft, Answer::Beaten { pid })
}

/// A process goes, and the jobs that it has claimed are ready again.
pub fn deregister(alloc: Global, scene: &Scene, pid: Pid) -> Result<Plan, Refused>
    ensures { Gives Refused.NoMemory result (upkeep_plan scene.now (command.Deregister pid)) }
{
    scene.no_such_process(pid)?;
    let mut draft = scene.begin(alloc);
    scene.is_good();
    let claims = Claimed::new(scene.book().tables(), pid);
    let released = leave(&mut draft, claims, pid).map_err(|_| Refused::NoMemory)?;
    finish(scene, draft, Answer::Deregistered { pid, released })
}

// Refuses a process where there are 1024.
fn no_room(scene: &Scene) -> Result<(), Refused>
    ensures { result ≡ unless (refusals.no_room scene.now) }
{
    let kept = scene.book().registered();
    if MOST_PROCESSES <= kept {
        return Err(Refused::Full { kept });
    }
    Ok(())
}

// The process's claims are released, and it goes: how many it had.
fn leave(draft: &mut Draft, mut claims: Claimed, pid: Pid) -> Result<u64, NoMemory>
    requires { HasClaims pid claims draft.old }
    ensures left { OnOk result (draft.new ≡ with_draft draft.old (push draft.old.moment (step.Deregister pid) (release_all draft.old.moment claims.entry draft.old.draft))) }
    ensures released { IfOk result (λ released. released ≡ length claims.entry) }
{
    let mut released = 0;
    while let Some(job) = claims.next_job() {
        draft.push(Transition::Release { id: job.row.id })?;
        released += 1;
    }
    draft.push(Transition::Deregister { pid })?;
    Ok(released)
}
