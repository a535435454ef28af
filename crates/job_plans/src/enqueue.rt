//! New jobs.
ghost use Rattle.std.specs.Prelude.{◌≡◌, ◌≤◌, [], ◌∷◌, length, map, All, IfOk};
ghost use Rattle.job_plans.specs.New as spec;
ghost use Rattle.job_states.specs.Judged.{Gives, GivesAs};
ghost use Rattle.job_states.specs.declared.command.Command.TheVariants as command;
ghost use Rattle.plan_drafts.specs.Drafting.{GivesDraft};
ghost use Rattle.plan_model.specs.GoodScene.{IsNewJob};
ghost use Rattle.plan_model.specs.JobCommands.{job_plan, new_row, of_jobs};
ghost use Rattle.plan_model.specs.Refusals as refusals;
ghost use Rattle.plan_model.specs.Refusals.{first_met};
ghost use Rattle.plan_scenes.specs.Causes.{or_refused, unless};
ghost use Rattle.transition_table.specs.Seen.{IsFit};

use book_core::Plan;
use job_states::{Answer, Copied, JobRow, Limited, List, Made, Moment, NewJob, NoMemory, Refused};
use plan_drafts::Draft;
use plan_scenes::{Scene, plans_are_told, refusals_come_first};
use queue_config::KeyFault;
use std::alloc::Global;

/// A job that is asked for, as a draft takes it.
#[derive(Drop)]
pub struct New {
    pub row: JobRow,
    pub at: Option<Moment>,
}

/// The plan of a new job.
pub fn plan_enqueue(alloc: Global, scene: &Scene, new: NewJob) -> Result<Plan, Refused>
    requires { IsNewJob scene.now new }
    ensures { Gives Refused.NoMemory result (job_plan scene.now (command.Enqueue new)) }
{
    let New { row, at } = accepted(alloc, scene, 0, new)?;
    full(scene, 1)?;
    let mut draft = scene.begin(alloc);
    let made = draft.enqueue(row, at).map_err(|_| Refused::NoMemory)?;
    scene.is_good();
    plans_are_told();
    refusals_come_first();
    draft.finish(Answer::Enqueued(made))
}

/// The plan of many new jobs: of all of them, unless one is refused.
pub fn plan_bulk(alloc: Global, scene: &Scene, news: List<NewJob>) -> Result<Plan, Refused>
    requires jobs { All (IsNewJob scene.now) news }
    requires few { length news ≤ 100 }
    ensures { Gives Refused.NoMemory result (job_plan scene.now (command.Bulk news)) }
{
    let asked = news.len() as u64;
    let news = all_accepted(alloc, scene, news.into_vec())?;
    full(scene, asked)?;
    let mut draft = scene.begin(alloc);
    let made = enqueue_all(alloc, &mut draft, news).map_err(|_| Refused::NoMemory)?;
    scene.is_good();
    plans_are_told();
    refusals_come_first();
    draft.finish(Answer::Bulk(made))
}

// ---- why jobs are refused, and what they become

// The jobs, unless one of them has an unknown class, or an argument that can't be its key.
fn all_accepted(alloc: Global, scene: &Scene, news: Vec<NewJob>) -> Result<Vec<New>, Refused>
    requires { length news.items ≤ 100 }
    ensures given { GivesAs Refused.NoMemory (λ news. news.items) result (or_refused (first_met (of_jobs scene.now 0 news.items)) (map (spec.new_of scene.now) news.items)) }
    ensures fit { IfOk result (λ news. All (λ new. IsFit new.row.limited) news.items) }
{
    let mut accepted_news = Vec::new(alloc);
    for new in news {
        let index = accepted_news.len() as u32;
        let new = accepted(alloc, scene, index, new)?;
        accepted_news.push(new).map_err(|_| Refused::NoMemory)?;
    }
    Ok(accepted_news)
}

// The job at this place, unless its class is unknown, or one of its arguments can't be its key.
fn accepted(alloc: Global, scene: &Scene, index: u32, new: NewJob) -> Result<New, Refused>
    ensures given { Gives Refused.NoMemory result (or_refused (first_met (of_jobs scene.now index (new ∷ []))) (spec.new_of scene.now new)) }
    ensures fit { IfOk result (λ new. IsFit new.row.limited) }
{
    unknown_class(scene, index, &new)?;
    let limited = limit_on(alloc, scene, index, &new)?;
    let NewJob {
        class,
        queue,
        priority,
        active_id,
        envelope,
        executions,
        counts,
        at,
        ..
    } = new;
    let row = JobRow {
        // It is given last.
        id: 0,
        class,
        queue,
        priority,
        active_id,
        envelope,
        executions,
        counts,
        limited,
    };
    Ok(New { row, at })
}

fn unknown_class(scene: &Scene, index: u32, new: &NewJob) -> Result<(), Refused>
    ensures { Gives Refused.NoMemory result (unless (refusals.unknown_class scene.now index new.now)) }
{
    if scene.config().class(&new.class).is_some() {
        return Ok(());
    }
    let class = new.class.copy().map_err(|_| Refused::NoMemory)?;
    Err(Refused::UnknownClass { index, class })
}

// The limit that the job falls under, unless an argument can't be its key.
fn limit_on(
    alloc: Global,
    scene: &Scene,
    index: u32,
    new: &NewJob,
) -> Result<Option<Limited>, Refused>
    ensures given { Gives Refused.NoMemory result (or_refused (refusals.key_refused scene.now index new.now) (new_row scene.now new.now).limited) }
    ensures fit { IfOk result IsFit }
{
    scene.is_good();
    let config = scene.config();
    match config.limited(alloc, &new.class, new.args.as_slice()) {
        Ok(limited) => Ok(limited),
        Err(KeyFault::Refused) => Err(Refused::KeyRefused { index }),
        Err(KeyFault::NoMemory) => Err(Refused::NoMemory),
    }
}

// With these more there are too many jobs.
fn full(scene: &Scene, asked: u64) -> Result<(), Refused>
    ensures { result ≡ unless (refusals.full scene.now asked) }
{
    let kept = scene.book().kept();
    let most = scene.config().jobs.kept_max;
    if most < kept || most - kept < asked {
        return Err(Refused::Full { kept });
    }
    Ok(())
}

// ---- the draft

// The jobs in turn: what became of each.
fn enqueue_all(alloc: Global, draft: &mut Draft, news: Vec<New>) -> Result<List<Made>, NoMemory>
    requires { All (λ new. IsFit new.row.limited) news.items }
    ensures { IfOk result (GivesDraft draft.old draft.new (spec.enqueue_each draft.old.moment news.items draft.old.draft)) }
{
    let mut made = Vec::new(alloc);
    for new in news {
        made.push(draft.enqueue(new.row, new.at)?)?;
    }
    Ok(List::of(made))
}
