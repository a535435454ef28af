//! What stands at rows after one transition, of what stood there before.
ghost use Rattle.std.specs.Prelude.{◌≡◌, ◌+◌, ◌-◌, ◌≤◌, ◌<◌, ◌^◌, ℕ, Option, Some, cond};
ghost use Rattle.std.specs.Option.{option_copied};
ghost use Rattle.queue_model.specs.Map as map;
ghost use Rattle.queue_model.specs.Named.{job_named};
ghost use Rattle.queue_model.specs.Sights.{counted_at};
ghost use Rattle.queue_model.specs.Sights as of;
ghost use Rattle.queue_model.specs.Transitions as rules;
ghost use Rattle.queue_model.specs.World.{World};
ghost use Rattle.queue_model.specs.World as world;
ghost use Rattle.queue_model.specs.declared.Job.{Job};
ghost use Rattle.queue_model.proofs.Frames.{one};
ghost use Rattle.transition_table.specs.Seen.{IsFit, job_seen, new_limit};
ghost use Rattle.exec_tables.specs.Apply.{row_at};
ghost use Rattle.exec_tables.specs.Jobs.{bit};
ghost use Rattle.transaction_judge.specs.Peek.{Peeks, is_at};

use crate::after::Peek;
use job_states::{JobId, Mode, Moment, Pid, Text, Transition};
use transition_table::{
    Found, Held, is_paused_then, is_registered_then, job_named, job_then, last_run_then,
    semaphore_then,
};

/// The job after a legal transition, of the job before it.
pub fn job_moved<'a>(
    moment: Moment,
    step: &'a Transition,
    id: JobId,
    job: Option<Found<'a>>,
) -> Option<Found<'a>>
    requires { IsFit (new_limit step.now) }
    ensures { (u v : World) → rules.step u moment step.now ≡ Some v → job.entry ≡ job_seen (map.get u.jobs id)
        → result ≡ job_seen (map.get v.jobs id) }
{
    let after = job_then(moment, step, &job);
    follow(Some(&id), job_named(step).as_ref(), job, after)
}

/// What stands at these rows after a legal transition, of what stood there; `job` is the transition's job before it.
pub fn moved(
    moment: Moment,
    step: &Transition,
    job: &Option<Found>,
    held: &Held,
    generation: u64,
    peek: Peek,
) -> Peek
    requires fit { IsFit (new_limit step.now) }
    requires holders { peek.holders < 2 ^ 64 - 1 }
    requires claims { peek.claims < 2 ^ 64 - 1 }
    ensures is { (u v : World) → rules.step u moment step.now ≡ Some v → job.now ≡ job_seen (row_at (job_named step.now) u.jobs)
        → Peeks u held.now generation peek → Peeks v held.now generation result }
    ensures holders { result.holders ≤ peek.holders + 1 }
    ensures claims { result.claims ≤ peek.claims + 1 }
{
    let there = Held::of(step, job);
    let after = job_then(moment, step, job);
    let pid = pid_of(held.process);
    let pid_there = pid_of(there.process);
    let semaphore = semaphore_then(moment, step, job, peek.semaphore);
    let is_registered = is_registered_then(step, peek.is_registered);
    let is_paused = is_paused_then(step, peek.is_paused);
    let last_run = last_run_then(step, peek.last_run);
    Peek {
        semaphore: follow(held.key, there.key, peek.semaphore, semaphore),
        holders: recount(
            peek.holders,
            holds(job, held.key, generation),
            holds(&after, held.key, generation),
        ),
        is_registered: follow(
            pid.as_ref(),
            pid_there.as_ref(),
            peek.is_registered,
            is_registered,
        ),
        claims: recount(peek.claims, is_claimed(job, pid), is_claimed(&after, pid)),
        is_paused: follow(held.queue, there.queue, peek.is_paused, is_paused),
        last_run: follow(held.task, there.task, peek.last_run, last_run),
    }
}

pub fn pid_of(process: Option<(Pid, Mode)>) -> Option<Pid>
    ensures { result ≡ of.pid_of process }
{
    Some(process?.0)
}

// What stands at the row that is asked: `after` where the transition holds this row, and else what stood there.
fn follow<K: Ord, T: Drop>(asked: Option<&K>, held: Option<&K>, before: T, after: T) -> T
    ensures { result ≡ cond (is_at K.cmp (option_copied asked.entry) (option_copied held.entry)) after before }
{
    match (asked, held) {
        (Some(asked), Some(held)) if asked.cmp(held).is_eq() => after,
        _ => before,
    }
}

// One of those that are counted goes, or comes.
fn recount(count: u64, was: bool, is: bool) -> u64
    requires { count < 2 ^ 64 - 1 }
    ensures exact { (n : ℕ) → n + bit was ≡ count + bit is → result ≡ n }
    ensures bound { result ≤ count + 1 }
{
    (count + u64::from(is)).saturating_sub(u64::from(was))
}

// Does the job hold a permit of the key and this generation?
fn holds(job: &Option<Found>, key: Option<&Text>, generation: u64) -> bool
    ensures { (j : Option Job) → job.now ≡ job_seen j → bit result ≡ counted_at (λ k. one (world.is_holder k generation) j) (option_copied key.entry) }
{
    match (job, key) {
        (Some(job), Some(key)) => job.holds_permit(key, generation),
        _ => false,
    }
}

// Has the process claimed the job?
fn is_claimed(job: &Option<Found>, pid: Option<Pid>) -> bool
    ensures { (j : Option Job) → job.now ≡ job_seen j → bit result ≡ counted_at (λ p. one (world.is_claimed_by p) j) pid }
{
    match (job, pid) {
        (Some(job), Some(pid)) => job.is_claimed_by(pid),
        _ => false,
    }
}
