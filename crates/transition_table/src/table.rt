//! The table of transitions, by columns: when one is legal, and what then stands at each kind of row that it holds.
ghost use Rattle.std.specs.Prelude.{◌≡◌, ℕ, Some, None, Option, is_some};
ghost use Rattle.std.specs.Option.{option_copied};
ghost use Rattle.job_states.specs.declared.transition.Transition.TheVariants.{Enqueue, Dispatch, Retry};
ghost use Rattle.job_states.specs.declared.job.JobRow.{JobRow as Row};
ghost use Rattle.semaphores.specs.Semaphore.{Semaphore};
ghost use Rattle.queue_model.specs.Sights as model;
ghost use Rattle.queue_model.specs.Transitions.{gives, puts_blocked, takes};
ghost use Rattle.queue_model.specs.Transitions as rules;
ghost use Rattle.transition_table.specs.Seen.{is_fresh};
ghost use Rattle.transition_table.specs.Seen as spec;

use crate::{Found, Seen, Sight, Stand, generation_named};
use job_states::{JobRow, Limited, Moment, Put, Transition, later};
use semaphores::{Sem, expired, give_back, is_closed, take};

// ---- when a transition is legal

/// Is the transition legal where it sees this? Ranges are left aside: `is_in_range` judges them.
pub fn allows(moment: Moment, sight: &Sight, step: &Transition) -> bool
    ensures { (s : model.Sight) → sight.now ≡ spec.sight s step.now → result ≡ is_some (rules.changes moment s step.now) }
{
    let rows = &sight.rows;
    let stand = rows.job.as_ref().map(|found| found.stand);
    match step {
        Transition::Enqueue { row, put } => allows_enqueue(moment, sight, row, put),
        Transition::Dispatch { put, .. } => allows_dispatch(moment, sight, put),
        Transition::Claim { .. } => {
            matches!(stand, Some(Stand::Ready(_))) && rows.is_registered && sight.claims < 500
        }
        Transition::Done { .. } | Transition::Fail { .. } | Transition::Release { .. } => {
            matches!(stand, Some(Stand::Claimed(_, _)))
        }
        Transition::Unblock { generation, .. } => {
            matches!(stand, Some(Stand::Blocked(_)))
                && may_take(sight, limited_of(&rows.job), Some(*generation))
        }
        Transition::Retry { put, .. } => allows_retry(moment, sight, put),
        Transition::Discard { .. } => matches!(
            stand,
            Some(Stand::Scheduled(_) | Stand::Ready(_) | Stand::Blocked(_) | Stand::Failed)
        ),
        Transition::Clear { .. } => matches!(stand, Some(Stand::Finished(_))),
        Transition::Register { .. } => !rows.is_registered,
        Transition::Beat { .. } => rows.is_registered,
        Transition::Deregister { .. } => rows.is_registered && sight.claims == 0,
        Transition::Pause { .. } => !rows.is_paused,
        Transition::Resume { .. } => rows.is_paused,
        Transition::Expire { .. } => rows.semaphore.is_some_and(|sem| expired(&sem, moment)),
        Transition::Run { time, id, .. } => {
            *time <= moment && is_after(*time, rows.last_run) && (id.is_none() || stand.is_some())
        }
    }
}

// Is the new job put where it may stand?
fn allows_enqueue(moment: Moment, sight: &Sight, row: &JobRow, put: &Put) -> bool
    ensures { (s : model.Sight) → sight.now ≡ spec.sight s (Enqueue row.now put.now) → result ≡ is_some (rules.changes moment s (Enqueue row.now put.now)) }
{
    let limited = row.limited.as_ref();
    sight.rows.job.is_none()
        && match put {
            Put::Ready(permit) => may_take(sight, limited, *permit),
            Put::Scheduled(at) => moment < *at,
            Put::Blocked(until) => may_wait(moment, sight, limited, *until),
            Put::Away => false,
        }
}

// Is the job due, and may it become ready, wait or go away?
fn allows_dispatch(moment: Moment, sight: &Sight, put: &Put) -> bool
    ensures { (s : model.Sight) (id : ℕ) → sight.now ≡ spec.sight s (Dispatch id put.now) → result ≡ is_some (rules.changes moment s (Dispatch id put.now)) }
{
    let Some(found) = &sight.rows.job else {
        return false;
    };
    let Stand::Scheduled(at) = found.stand else {
        return false;
    };
    let limited = found.limited;
    at <= moment
        && match put {
            Put::Ready(permit) => may_take(sight, limited, *permit),
            Put::Scheduled(_) => false,
            Put::Blocked(until) => {
                !is_discarded(limited) && may_wait(moment, sight, limited, *until)
            }
            Put::Away => is_discarded(limited) && is_closed(&sight.rows.semaphore),
        }
}

// Did the job fail, and may it become ready or wait?
fn allows_retry(moment: Moment, sight: &Sight, put: &Put) -> bool
    ensures { (s : model.Sight) (id : ℕ) → sight.now ≡ spec.sight s (Retry id put.now) → result ≡ is_some (rules.changes moment s (Retry id put.now)) }
{
    let Some(found) = &sight.rows.job else {
        return false;
    };
    let limited = found.limited;
    matches!(found.stand, Stand::Failed)
        && match put {
            Put::Ready(permit) => may_take(sight, limited, *permit),
            Put::Blocked(until) => {
                !is_discarded(limited) && may_wait(moment, sight, limited, *until)
            }
            Put::Scheduled(_) | Put::Away => false,
        }
}

// Is this the permit that a job of this limit takes?
fn may_take(sight: &Sight, limited: Option<&Limited>, permit: Option<u64>) -> bool
    ensures { (m : ℕ) (s : model.Sight) → s.rows.semaphore ≡ sight.now.rows.semaphore → is_fresh s.rows.semaphore s.holders permit ≡ sight.now.is_fresh → result ≡ is_some (takes m s (option_copied limited.entry) permit) }
{
    let semaphore = &sight.rows.semaphore;
    match (limited, permit) {
        (None, None) => true,
        (Some(_), Some(generation)) => match semaphore {
            None => sight.is_fresh,
            Some(sem) => sem.generation == generation && sem.free != 0,
        },
        _ => false,
    }
}

// May a job of this limit wait for its key until then?
fn may_wait(moment: Moment, sight: &Sight, limited: Option<&Limited>, until: Moment) -> bool
    ensures { (s : model.Sight) (row : Row) → s.rows.semaphore ≡ sight.now.rows.semaphore → row.limited ≡ option_copied limited.entry → result ≡ is_some (puts_blocked moment s row until) }
{
    match limited {
        Some(limited) => {
            is_closed(&sight.rows.semaphore) && until == later(moment, limited.duration)
        }
        None => false,
    }
}

// Does a job of this limit go away where its key is closed?
fn is_discarded(limited: Option<&Limited>) -> bool
    ensures { result ≡ rules.is_discarded (option_copied limited.entry) }
{
    limited.is_some_and(|limited| limited.discard)
}

// Is a run of this time after the last one?
fn is_after(time: Moment, last_run: Option<Moment>) -> bool
    ensures { result ≡ rules.is_after time last_run }
{
    last_run.is_none_or(|last| last < time)
}

// ---- where its job then stands

/// The job after a legal transition, of the job before it.
pub fn job_then<'a>(
    moment: Moment,
    step: &'a Transition,
    job: &Option<Found<'a>>,
) -> Option<Found<'a>>
    requires { spec.IsFit (spec.new_limit step.now) }
    ensures { (s : model.Sight) (rows : model.Rows) → rules.changes moment s step.now ≡ Some rows → job.now ≡ spec.job_seen s.rows.job → result ≡ spec.job_seen rows.job }
{
    match stand_then(moment, step, job) {
        Some(stand) => Some(Found {
            stand,
            limited: limited_then(step, job),
        }),
        None => None,
    }
}

fn stand_then(moment: Moment, step: &Transition, job: &Option<Found>) -> Option<Stand>
    ensures { (s : model.Sight) (rows : model.Rows) → rules.changes moment s step.now ≡ Some rows → job.now ≡ spec.job_seen s.rows.job → result ≡ spec.stand_at (spec.job_seen rows.job) }
{
    match step {
        Transition::Enqueue { put, .. } => stand_put(put),
        Transition::Dispatch { put, .. } => stand_put(put),
        Transition::Retry { put, .. } => stand_put(put),
        Transition::Claim { pid, .. } => Some(Stand::Claimed(*pid, permit_of(job))),
        Transition::Done { .. } => Some(Stand::Finished(moment)),
        Transition::Fail { .. } => Some(Stand::Failed),
        Transition::Release { .. } => Some(Stand::Ready(permit_of(job))),
        Transition::Unblock { generation, .. } => Some(Stand::Ready(Some(*generation))),
        Transition::Discard { .. } | Transition::Clear { .. } => None,
        Transition::Register { .. }
        | Transition::Beat { .. }
        | Transition::Deregister { .. }
        | Transition::Pause { .. }
        | Transition::Resume { .. }
        | Transition::Expire { .. }
        | Transition::Run { .. } => Some(job.as_ref()?.stand),
    }
}

// Where a job stands that is put there.
fn stand_put(put: &Put) -> Option<Stand>
    ensures { result ≡ spec.stand_put put.now }
{
    match put {
        Put::Ready(permit) => Some(Stand::Ready(*permit)),
        Put::Scheduled(at) => Some(Stand::Scheduled(*at)),
        Put::Blocked(until) => Some(Stand::Blocked(*until)),
        Put::Away => None,
    }
}

// The limit of a new job, or of the one that is found.
pub(crate) fn limited_then<'a>(step: &'a Transition, job: &Option<Found<'a>>) -> Option<&'a Limited>
    requires { spec.IsFit (spec.new_limit step.now) }
    ensures same { option_copied result ≡ spec.limited_then step.now job.now }
    ensures fit { spec.IsFit (option_copied result) }
{
    match step {
        Transition::Enqueue { row, .. } => row.limited.as_ref(),
        _ => limited_of(job),
    }
}

// The generation of the permit that the job holds.
fn permit_of(job: &Option<Found>) -> Option<u64>
    ensures { result ≡ spec.permit_of job.now }
{
    job.as_ref()?.stand.permit()
}

// ---- what becomes of the semaphore of its key

/// The semaphore after a legal transition, of the one before it; `job` is the job before it.
pub fn semaphore_then(
    moment: Moment,
    step: &Transition,
    job: &Option<Found>,
    semaphore: Option<Sem>,
) -> Option<Sem>
    requires { spec.IsFit (spec.new_limit step.now) }
    ensures { (s : model.Sight) (rows : model.Rows) → rules.changes moment s step.now ≡ Some rows → job.now ≡ spec.job_seen s.rows.job → semaphore ≡ s.rows.semaphore → result ≡ rows.semaphore }
{
    let limited = limited_then(step, job);
    match step {
        Transition::Enqueue { .. } => took(moment, limited, generation_named(step), semaphore),
        Transition::Dispatch { .. } => took(moment, limited, generation_named(step), semaphore),
        Transition::Retry { .. } => took(moment, limited, generation_named(step), semaphore),
        Transition::Unblock { .. } => took(moment, limited, generation_named(step), semaphore),
        Transition::Done { .. } | Transition::Fail { .. } | Transition::Discard { .. } => {
            gave(moment, limited, permit_of(job), semaphore)
        }
        Transition::Expire { .. } => None,
        Transition::Claim { .. }
        | Transition::Release { .. }
        | Transition::Clear { .. }
        | Transition::Register { .. }
        | Transition::Beat { .. }
        | Transition::Deregister { .. }
        | Transition::Pause { .. }
        | Transition::Resume { .. }
        | Transition::Run { .. } => semaphore,
    }
}

// Once a job of this limit took this permit.
fn took(
    moment: Moment,
    limited: Option<&Limited>,
    permit: Option<u64>,
    semaphore: Option<Sem>,
) -> Option<Sem>
    requires { spec.IsFit (option_copied limited) }
    ensures without { permit ≡ None → result ≡ semaphore }
    ensures taken { (s : model.Sight) (after : Option Semaphore) → takes moment s (option_copied limited.entry) permit ≡ Some after → s.rows.semaphore ≡ semaphore → result ≡ after }
{
    match (limited, permit) {
        (Some(limited), Some(generation)) => {
            take(semaphore, generation, limited.to, limited.duration, moment)
        }
        _ => semaphore,
    }
}

// Once a job of this limit gave this permit back.
fn gave(
    moment: Moment,
    limited: Option<&Limited>,
    permit: Option<u64>,
    semaphore: Option<Sem>,
) -> Option<Sem>
    ensures { (s : model.Sight) → s.rows.semaphore ≡ semaphore → result ≡ gives moment s (option_copied limited.entry) permit }
{
    match limited {
        Some(limited) => give_back(semaphore, permit, limited.duration, moment),
        None => semaphore,
    }
}

// The limit that the job is under.
fn limited_of<'a>(job: &Option<Found<'a>>) -> Option<&'a Limited>
    ensures same { option_copied result ≡ spec.limited_of job.now }
    ensures fit { spec.IsFit (option_copied result) }
{
    job.as_ref()?.limited
}

// ---- what becomes of the other rows

/// Is the process registered after a legal transition?
pub fn is_registered_then(step: &Transition, is_registered: bool) -> bool
    ensures { (m : ℕ) (s : model.Sight) (rows : model.Rows) → rules.changes m s step.now ≡ Some rows → is_registered ≡ is_some s.rows.process → result ≡ is_some rows.process }
{
    match step {
        Transition::Register { .. } => true,
        Transition::Deregister { .. } => false,
        _ => is_registered,
    }
}

/// Is the queue paused after a legal transition?
pub fn is_paused_then(step: &Transition, is_paused: bool) -> bool
    ensures { (m : ℕ) (s : model.Sight) (rows : model.Rows) → rules.changes m s step.now ≡ Some rows → is_paused ≡ is_some s.rows.pause → result ≡ is_some rows.pause }
{
    match step {
        Transition::Pause { .. } => true,
        Transition::Resume { .. } => false,
        _ => is_paused,
    }
}

/// The task's last run after a legal transition.
pub fn last_run_then(step: &Transition, last_run: Option<Moment>) -> Option<Moment>
    ensures { (m : ℕ) (s : model.Sight) (rows : model.Rows) → rules.changes m s step.now ≡ Some rows → last_run ≡ s.rows.last_run → result ≡ rows.last_run }
{
    match step {
        Transition::Run { time, .. } => Some(*time),
        _ => last_run,
    }
}

// ---- all of it

/// What stands at the rows that the transition holds after it. `None` where it isn't legal.
pub fn changes<'a>(moment: Moment, sight: Sight<'a>, step: &'a Transition) -> Option<Seen<'a>>
    requires { spec.IsFit (spec.new_limit step.now) }
    ensures { (s : model.Sight) → sight.entry ≡ spec.sight s step.now → result ≡ spec.all_seen (rules.changes moment s step.now) }
{
    if !allows(moment, &sight, step) {
        return None;
    }
    let rows = sight.rows;
    let semaphore = semaphore_then(moment, step, &rows.job, rows.semaphore);
    Some(Seen {
        job: job_then(moment, step, &rows.job),
        semaphore,
        is_registered: is_registered_then(step, rows.is_registered),
        is_paused: is_paused_then(step, rows.is_paused),
        last_run: last_run_then(step, rows.last_run),
    })
}
