//! One transition more, and the rows that it holds.
ghost use Rattle.std.specs.Prelude.{◌≡◌, ◌<◌, ◌^◌, ◌-◌, ◌++◌, ◌∷◌, [], ℕ, Option, Some, None, IsTrue, IsFalse, IfOk, OnOk, option_map};
ghost use Rattle.std.specs.Option.{option_copied};
ghost use Rattle.queue_model.specs.Held.{held_rows, holds, row_of};
ghost use Rattle.queue_model.specs.Sights.{Rows, sees};
ghost use Rattle.queue_model.specs.Transitions.{changes};
ghost use Rattle.queue_model.specs.World.{World};
ghost use Rattle.job_states.specs.declared.row.Mode.TheVariants.{Alone};
ghost use Rattle.job_states.specs.declared.row.Row.TheVariants as row;
ghost use Rattle.transition_table.specs.Seen.{IsFit, job_seen, new_limit, stand_at};
ghost use Rattle.plan_model.specs.Drafts as model;
ghost use Rattle.plan_model.specs.GoodDraft.{IsAllowed};
ghost use Rattle.plan_drafts.specs.Drafting.{with_draft, with_rows, with_step};
ghost use Rattle.plan_drafts.specs.Pushes.{IsKnown, IsLeft, IsRead, MayRise, NamesNext};
ghost use Rattle.plan_drafts.specs.Pushes as spec;

use crate::{Draft, Pushed};
use job_states::{Copied, JobId, Mode, Moment, Name, NoMemory, Pid, Row, Text, Transition};
use queue_model::Numbers;
use semaphores::Sem;
use transition_table::{Found, Held, Stand, job_named, job_then, note, semaphore_then};

impl<'a> Draft<'a> {
    /// Holds a row more. After want of memory the draft is no longer of use.
    pub fn hold(&mut self, row: Row, mode: Mode) -> Result<(), NoMemory>
        ensures { OnOk result (self.new ≡ with_draft self.old (model.holding row mode self.old.draft)) }
    {
        self.rows.push((row, mode))?;
        Ok(())
    }

    /// One transition more, which is legal where the draft stands, and the rows that it holds. After want of memory the
    /// draft is no longer of use.
    pub fn push(&mut self, step: Transition) -> Result<(), NoMemory>
        requires allowed { IsAllowed self.old.moment self.old.draft step }
        requires known { IsKnown self.old.begun.world step }
        requires next { NamesNext self.old.draft.given step }
        requires fit { IsFit (new_limit step) }
        ensures { OnOk result (self.new ≡ with_draft self.old (model.push self.old.moment step self.old.draft)) }
    {
        let job = self.job_read(&step);
        self.hold_read(&step, &job)?;
        let left = left_job(self.moment, &step, &job);
        let semaphore = self.left_semaphore(&step, &job)?;
        self.add(Pushed {
            step,
            job: left,
            semaphore,
        })
    }

    /// The rows that the transition would hold, which is legal where the draft stands.
    pub fn rows_of(&self, step: &Transition) -> Result<Vec<(Row, Mode)>, NoMemory>
        requires allowed { IsAllowed self.now.moment self.now.draft step.now }
        requires known { IsKnown self.now.begun.world step.now }
        requires fit { IsFit (new_limit step.now) }
        ensures { IfOk result (λ rows. rows.items ≡ held_rows (holds self.now.draft.world step.now)) }
    {
        let job = self.job_read(step);
        let mut rows = Vec::new(*self.rows.allocator());
        hold_all(&mut rows, &Held::of(step, &job))?;
        Ok(rows)
    }

    // The job that the transition reads. A new one isn't there yet, and a run's rows don't depend on its job.
    fn job_read(&self, step: &Transition) -> Option<Found<'a>>
        requires allowed { IsAllowed self.now.moment self.now.draft step.now }
        requires known { IsKnown self.now.begun.world step.now }
        ensures { IsRead self.now.draft.world step.now result }
    {
        self.found(job_moved(step)?)
    }

    // The rows that it holds, where this is the job that it reads.
    fn hold_read(&mut self, step: &Transition, job: &Option<Found>) -> Result<(), NoMemory>
        requires fit { IsFit (new_limit step.now) }
        requires read { IsRead self.old.draft.world step.now job.now }
        ensures { OnOk result (self.new ≡ with_rows self.old (held_rows (holds self.old.draft.world step.now))) }
    {
        hold_all(&mut self.rows, &Held::of(step, job))
    }

    // One transition more, of which this is left.
    fn add(&mut self, pushed: Pushed) -> Result<(), NoMemory>
        requires allowed { IsAllowed self.old.moment self.old.draft pushed.step }
        requires next { NamesNext self.old.draft.given pushed.step }
        requires left { IsLeft self.old.draft.world self.old.moment pushed.step pushed }
        ensures { OnOk result (self.new ≡ with_step self.old pushed.step) }
    {
        let mut given = self.given;
        // No memory holds so many transitions.
        if !may_rise(&given) {
            return Err(NoMemory);
        }
        note(&mut given, self.moment, &pushed.step);
        self.pushed.push(pushed)?;
        self.given = given;
        Ok(())
    }

    // The semaphore that it leaves at the key that it holds.
    fn left_semaphore(
        &self,
        step: &Transition,
        job: &Option<Found>,
    ) -> Result<Option<(Text, Option<Sem>)>, NoMemory>
        requires fit { IsFit (new_limit step.now) }
        requires read { IsRead self.now.draft.world step.now job.now }
        ensures { IfOk result (λ left. (rows : Rows) → changes self.now.moment (sees self.now.draft.world (holds self.now.draft.world step.now)) step.now ≡ Some rows
            → left ≡ option_map (λ key. (key, rows.semaphore)) (holds self.now.draft.world step.now).key) }
    {
        let held = Held::of(step, job);
        let Some(key) = held.key else {
            return Ok(None);
        };
        let semaphore = semaphore_then(self.moment, step, job, self.semaphore(key));
        Ok(Some((key.copy()?, semaphore)))
    }
}

// Where it leaves the job that it moves.
fn left_job(
    moment: Moment,
    step: &Transition,
    job: &Option<Found>,
) -> Option<(JobId, Option<Stand>)>
    requires { IsFit (new_limit step.now) }
    ensures { (w : World) (rows : Rows) → IsRead w step.now job.now → changes moment (sees w (holds w step.now)) step.now ≡ Some rows
        → result ≡ option_map (λ id. (id, stand_at (job_seen rows.job))) (spec.job_moved step.now) }
{
    let id = job_moved(step)?;
    let stand = match job_then(moment, step, job) {
        Some(found) => Some(found.stand),
        None => None,
    };
    Some((id, stand))
}

// The job that it moves.
fn job_moved(step: &Transition) -> Option<JobId>
    ensures { result ≡ spec.job_moved step.now }
{
    match step {
        Transition::Enqueue { .. } | Transition::Run { .. } => None,
        _ => job_named(step),
    }
}

// Can each number that is given next be followed by another one?
fn may_rise(given: &Numbers) -> bool
    ensures { IsTrue result → MayRise given.now }
{
    given.job < u64::MAX && given.pid < u64::MAX && given.generation < u64::MAX
}

// Adds the rows that are held.
fn hold_all(rows: &mut Vec<(Row, Mode)>, held: &Held) -> Result<(), NoMemory>
    ensures { OnOk result (rows.new.items ≡ rows.old.items ++ held_rows held.now) }
{
    hold_row(rows, job_row(held.job))?;
    hold_row(rows, key_row(held.key)?)?;
    hold_row(rows, process_row(held.process))?;
    hold_row(rows, queue_row(held.queue)?)?;
    hold_row(rows, task_row(held.task)?)?;
    Ok(())
}

// Adds the row, where there is one.
fn hold_row(rows: &mut Vec<(Row, Mode)>, row: Option<(Row, Mode)>) -> Result<(), NoMemory>
    ensures { OnOk result (rows.new.items ≡ rows.old.items ++ row_of (λ row. row) row) }
{
    if let Some(row) = row {
        rows.push(row)?;
    }
    Ok(())
}

fn job_row(job: Option<JobId>) -> Option<(Row, Mode)>
    ensures { result ≡ option_map (λ id. (row.Job id, Alone)) job }
{
    Some((Row::Job(job?), Mode::Alone))
}

fn key_row(key: Option<&Text>) -> Result<Option<(Row, Mode)>, NoMemory>
    ensures { IfOk result (λ held. held ≡ option_map (λ key. (row.Key key, Alone)) (option_copied key.entry)) }
{
    Ok(match key {
        Some(key) => Some((Row::Key(key.copy()?), Mode::Alone)),
        None => None,
    })
}

fn process_row(process: Option<(Pid, Mode)>) -> Option<(Row, Mode)>
    ensures { result ≡ option_map (λ process. (row.Process process.0, process.1)) process }
{
    let (pid, mode) = process?;
    Some((Row::Process(pid), mode))
}

fn queue_row(queue: Option<&Name>) -> Result<Option<(Row, Mode)>, NoMemory>
    ensures { IfOk result (λ held. held ≡ option_map (λ queue. (row.Queue queue, Alone)) (option_copied queue.entry)) }
{
    Ok(match queue {
        Some(queue) => Some((Row::Queue(queue.copy()?), Mode::Alone)),
        None => None,
    })
}

fn task_row(task: Option<&Name>) -> Result<Option<(Row, Mode)>, NoMemory>
    ensures { IfOk result (λ held. held ≡ option_map (λ task. (row.Task task, Alone)) (option_copied task.entry)) }
{
    Ok(match task {
        Some(task) => Some((Row::Task(task.copy()?), Mode::Alone)),
        None => None,
    })
}
