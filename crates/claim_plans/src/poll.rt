//! A poll: the first jobs on offer are claimed and handed out.
ghost use Rattle.std.specs.Prelude.{◌≡◌, ◌≤◌, None, take, drop, map, filter, All, IsUtf8, IfOk, OnOk};
ghost use Rattle.std.specs.Option.{option_copied};
ghost use Rattle.claim_plans.specs.Polls.{CanClaim, is_free_job};
ghost use Rattle.job_states.specs.Judged.{Gives};
ghost use Rattle.job_states.specs.declared.command.Command.TheVariants as command;
ghost use Rattle.plan_drafts.specs.Drafting.{with_draft};
ghost use Rattle.plan_model.specs.JobCommands as model;
ghost use Rattle.plan_model.specs.Orders.{first_of, on_offer};
ghost use Rattle.plan_model.specs.Refusals as refusals;
ghost use Rattle.plan_scenes.specs.Begun.{ComesTo};
ghost use Rattle.plan_scenes.specs.Causes.{unless};
ghost use Rattle.queue_model.specs.GoodWorld.{IsGood};
ghost use Rattle.queue_selector.specs.Items.{IsQueueList};

use book_core::{Book, Plan};
use job_states::{
    Answer, Copied, List, Mode, NoMemory, Pid, Polled, Refused, Row, Text, Transition,
};
use job_walks::Selected;
use plan_drafts::Draft;
use plan_model::pushes_are_allowed;
use plan_scenes::{Scene, plans_are_told, refusals_come_first};
use queue_model::Job;
use queue_selector::QueueList;
use std::alloc::Global;

/// The most claims that a process may have.
const MOST: u64 = 500;

/// The plan of a poll of at most so many jobs.
pub fn poll(
    alloc: Global,
    scene: &Scene,
    pid: Pid,
    items: List<Text>,
    limit: u32,
) -> Result<Plan, Refused>
    requires list { IsQueueList items }
    requires few { limit ≤ 100 }
    ensures { Gives Refused.NoMemory result (model.job_plan scene.now (command.Poll pid items limit)) }
{
    scene.no_such_process(pid)?;
    claim_limit(scene, pid, limit)?;
    scene.is_good();
    plans_are_told();
    refusals_come_first();
    let (draft, answer) = hand_out(alloc, scene, pid, items, limit).map_err(|_| Refused::NoMemory)?;
    draft.finish(answer)
}

// Refuses where the process would have too many claims.
fn claim_limit(scene: &Scene, pid: Pid, limit: u32) -> Result<(), Refused>
    requires { limit ≤ 100 }
    ensures { result ≡ unless (refusals.claim_limit scene.now pid limit) }
{
    scene.is_good();
    let held = scene.book().claims(pid);
    if held + u64::from(limit) > MOST {
        return Err(Refused::ClaimLimit { pid, held });
    }
    Ok(())
}

// The first jobs on offer, claimed and handed out.
fn hand_out<'a>(
    alloc: Global,
    scene: &Scene<'a>,
    pid: Pid,
    items: List<Text>,
    limit: u32,
) -> Result<(Draft<'a>, Answer), NoMemory>
    requires list { IsQueueList items }
    requires process { refusals.no_such_process scene.now pid ≡ None }
    requires room { refusals.claim_limit scene.now pid limit ≡ None }
    ensures { IfOk result (λ made. ComesTo scene.now (model.hand_out scene.now pid (take limit (on_offer scene.now.book items))) made.0 made.1) }
{
    scene.is_good();
    let Ok(list) = QueueList::of(items) else {
        unreachable!();
    };
    let jobs = offers(alloc, scene.book(), &list, limit as usize)?;
    let mut draft = scene.begin(alloc);
    draft.hold(Row::Process(pid), Mode::Shared)?;
    claim_all(&mut draft, pid, &jobs)?;
    let handed = hand_over(alloc, &jobs)?;
    Ok((draft, Answer::Polled(handed)))
}

// The first jobs on offer, at most so many.
fn offers<'a>(
    alloc: Global,
    book: &'a Book,
    list: &QueueList,
    most: usize,
) -> Result<Vec<&'a Job>, NoMemory>
    requires { IsGood book.now.world }
    ensures { IfOk result (λ jobs. map (λ j. j.now) jobs.items ≡ take most (on_offer book.now list.now)) }
{
    let mut left = Selected::new(alloc, book.tables(), list)?;
    let mut jobs = Vec::new(alloc);
    while jobs.len() < most {
        match next_offer(book, &mut left) {
            Some(job) => jobs.push(job)?,
            None => return Ok(jobs),
        }
    }
    Ok(jobs)
}

// The next of the jobs whose row is free.
fn next_offer<'a>(book: &Book, left: &mut Selected<'a>) -> Option<&'a Job>
    ensures first { option_copied result ≡ first_of (filter (is_free_job book.now) left.old) }
    ensures left { filter (is_free_job book.now) left.new ≡ drop 1 (filter (is_free_job book.now) left.old) }
{
    while let Some(job) = left.next_job() {
        if book.is_free(&Row::Job(job.row.id), Mode::Alone) {
            return Some(job);
        }
    }
    None
}

// The process claims the jobs, one after another.
fn claim_all(draft: &mut Draft, pid: Pid, jobs: &[&Job]) -> Result<(), NoMemory>
    requires { CanClaim draft.old pid (map (λ j. j.now) jobs.now) }
    ensures { OnOk result (draft.new ≡ with_draft draft.old (model.claim_all draft.old.moment pid (map (λ j. j.now) jobs.now) draft.old.draft)) }
{
    pushes_are_allowed();
    for job in jobs {
        let id = job.row.id;
        draft.push(Transition::Claim { id, pid })?;
    }
    Ok(())
}

// The jobs as their worker gets them.
fn hand_over(alloc: Global, jobs: &[&Job]) -> Result<List<Polled>, NoMemory>
    requires { All (λ j. IsUtf8 j.row.envelope) (map (λ j. j.now) jobs.now) }
    ensures { IfOk result (λ handed. handed ≡ map model.polled (map (λ j. j.now) jobs.now)) }
{
    let mut handed = Vec::new(alloc);
    for job in jobs {
        handed.push(polled(alloc, job)?)?;
    }
    Ok(List::of(handed))
}

fn polled(alloc: Global, job: &Job) -> Result<Polled, NoMemory>
    requires { IsUtf8 job.now.row.envelope }
    ensures { IfOk result (λ polled. polled ≡ model.polled job.now) }
{
    let row = &job.row;
    Ok(Polled {
        active_id: row.active_id.copy()?,
        class: row.class.copy()?,
        envelope: Text::from_utf8(alloc, row.envelope.as_slice())?,
        executions: row.executions,
        id: row.id,
        priority: row.priority,
        queue: row.queue.copy()?,
    })
}
