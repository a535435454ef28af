//! What stands after some transitions.
ghost use Rattle.std.specs.Prelude.{◌≡◌, ◌<◌, ◌^◌, ℕ, Some, IsSome};
ghost use Rattle.std.specs.Option.{unwrap_or};
ghost use Rattle.queue_model.specs.Held.{holds};
ghost use Rattle.queue_model.specs.Replay as replay;
ghost use Rattle.queue_model.specs.Sights as of;
ghost use Rattle.queue_model.specs.World.{World};
ghost use Rattle.transition_table.specs.Seen.{IsFit, job_seen, new_limit};
ghost use Rattle.transition_table.specs.Seen as table;
ghost use Rattle.exec_tables.specs.Apply.{row_at};
ghost use Rattle.transaction_judge.specs.Peek.{Peeks};

use crate::moved::{job_moved, moved, pid_of};
use exec_tables::Tables;
use job_states::{JobId, Moment, Transition};
use semaphores::Sem;
use transition_table::{Found, Held, Seen, Sight, generation_named, job_named};

/// What stands at some rows, and what is counted of them.
#[derive(Drop)]
pub struct Peek {
    pub semaphore: Option<Sem>,
    /// How many jobs hold a permit of the key and of a generation.
    pub holders: u64,
    pub is_registered: bool,
    pub claims: u64,
    pub is_paused: bool,
    pub last_run: Option<Moment>,
}

/// What stands after these transitions at the rows that the next one holds.
pub fn sight_after<'a>(
    tables: &'a Tables,
    moment: Moment,
    done: &'a [Transition],
    step: &'a Transition,
) -> Sight<'a>
    requires legal { IsSome (replay.steps tables.now.world moment done.now) }
    requires fit { IsFit (new_limit step.now) }
    ensures { (v : World) → replay.steps tables.now.world moment done.now ≡ Some v → result ≡ table.sight (of.sees v (holds v step.now)) step.now }
{
    let job = found_after(tables, moment, done, job_named(step));
    let held = Held::of(step, &job);
    let generation = generation_named(step);
    let peek = peek_after(tables, moment, done, &held, generation.unwrap_or(0));
    let is_fresh = is_fresh(generation, &peek.semaphore, peek.holders);
    let rows = Seen {
        job,
        semaphore: peek.semaphore,
        is_registered: peek.is_registered,
        is_paused: peek.is_paused,
        last_run: peek.last_run,
    };
    Sight {
        rows,
        is_fresh,
        claims: peek.claims,
    }
}

// The semaphore stands, or nobody holds a permit of the generation, if one is named.
fn is_fresh(generation: Option<u64>, semaphore: &Option<Sem>, holders: u64) -> bool
    ensures { (counts : ℕ → ℕ) → holders ≡ counts (unwrap_or generation 0) → result ≡ table.is_fresh semaphore.now counts generation }
{
    generation.is_none() || semaphore.is_some() || holders == 0
}

// The job after these transitions.
fn found_after<'a>(
    tables: &'a Tables,
    moment: Moment,
    done: &'a [Transition],
    id: Option<JobId>,
) -> Option<Found<'a>>
    requires { IsSome (replay.steps tables.now.world moment done.now) }
    ensures { (v : World) → replay.steps tables.now.world moment done.now ≡ Some v → result ≡ job_seen (row_at id v.jobs) }
{
    let id = id?;
    let mut job = tables.found(id);
    for at in 0..done.len() {
        job = job_moved(moment, &done[at], id, job);
    }
    job
}

// What stands at these rows after these transitions.
fn peek_after(
    tables: &Tables,
    moment: Moment,
    done: &[Transition],
    held: &Held,
    generation: u64,
) -> Peek
    requires { IsSome (replay.steps tables.now.world moment done.now) }
    ensures { (v : World) → replay.steps tables.now.world moment done.now ≡ Some v → Peeks v held.now generation result }
{
    let mut peek = peek_at(tables, held, generation);
    for at in 0..done.len() {
        let step = &done[at];
        let job = found_after(tables, moment, &done[..at], job_named(step));
        peek = moved(moment, step, &job, held, generation, peek);
    }
    peek
}

fn peek_at(tables: &Tables, held: &Held, generation: u64) -> Peek
    ensures is { Peeks tables.now.world held.now generation result }
    ensures holders { result.holders < 2 ^ 63 }
    ensures claims { result.claims < 2 ^ 63 }
{
    tables.jobs_are_few();
    let pid = pid_of(held.process);
    Peek {
        semaphore: held.key.and_then(|key| tables.semaphore(key)),
        holders: held.key.map_or(0, |key| tables.holders(key, generation)),
        is_registered: pid.is_some_and(|pid| tables.process(pid).is_some()),
        claims: pid.map_or(0, |pid| tables.claims(pid)),
        is_paused: held.queue.is_some_and(|queue| tables.is_paused(queue)),
        last_run: held.task.and_then(|task| tables.last_run(task)),
    }
}
