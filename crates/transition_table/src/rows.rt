//! The rows that a transition holds.
ghost use Rattle.std.specs.Prelude.{◌≡◌, ◌≤◌, ℕ, length, Option, Some, IsSome, IfSome};
ghost use Rattle.std.specs.Option.{option_copied};
ghost use Rattle.queue_model.specs.Sights.{Rows, Sight};
ghost use Rattle.queue_model.specs.Transitions.{changes};
ghost use Rattle.queue_model.specs.Held.{held};
ghost use Rattle.queue_model.specs.Held as model;
ghost use Rattle.transition_table.specs.Seen as spec;
ghost use Rattle.queue_model.specs.declared.Job.{Job};

use crate::table::limited_then;
use crate::{Found, Stand, job_named};
use job_states::{JobId, Limited, Mode, Name, Pid, Put, Text, Transition};
use std::marker::Model;

/// The rows that a transition holds, at most one of each kind. All but a process are held alone.
#[derive(Drop)]
pub struct Held<'a> {
    pub job: Option<JobId>,
    pub key: Option<&'a Text>,
    pub process: Option<(Pid, Mode)>,
    pub queue: Option<&'a Name>,
    pub task: Option<&'a Name>,
}

impl<'a> Model for Held<'a> {
    ghost use Rattle.std.specs.Option.{option_copied};
    ghost use Rattle.queue_model.specs.Held as model;

    ghost Value = { model.Held };

    ghost view = { λ h. record { job = h.job; key = option_copied h.key; process = h.process; queue = option_copied h.queue; task = option_copied h.task } };
}

impl<'a> Held<'a> {
    ghost use Rattle.std.specs.Prelude.{◌≡◌, ◌≤◌, ℕ, length, Option, Some, IsSome, IfSome};
    ghost use Rattle.queue_model.specs.Held.{held};
    ghost use Rattle.queue_model.specs.Sights.{Rows, Sight};
    ghost use Rattle.queue_model.specs.Transitions.{changes};
    ghost use Rattle.queue_model.specs.declared.Job.{Job};
    ghost use Rattle.transition_table.specs.Seen.{job_seen};
    ghost use Rattle.transition_table.specs.Seen as spec;

    /// The rows that the transition holds; `job` is the job that it names, as it is found. The limit of a new job is fit.
    pub fn of(step: &'a Transition, job: &Option<Found<'a>>) -> Held<'a>
        requires { spec.IsFit (spec.new_limit step.now) }
        ensures held { (j : Option Job) → job.now ≡ job_seen j → result ≡ held j step.now }

        // Where a legal transition leaves a semaphore, its key has at most 257 bytes.
        ensures short { (m : ℕ) (s : Sight) (rows : Rows) → changes m s step.now ≡ Some rows → IsSome rows.semaphore → IfSome result.key (λ key. length key ≤ 257) }
    {
        Held {
            job: job_named(step),
            key: key_held(step, job),
            process: process_held(step, job),
            queue: queue_held(step),
            task: task_held(step),
        }
    }
}

/// The key alone of the rows that the transition holds.
pub fn key_held<'a>(step: &'a Transition, job: &Option<Found<'a>>) -> Option<&'a Text>
    requires { spec.IsFit (spec.new_limit step.now) }
    ensures held { (j : Option Job) → job.now ≡ spec.job_seen j → option_copied result ≡ (held j step.now).key }
    ensures short { (m : ℕ) (s : Sight) (rows : Rows) → changes m s step.now ≡ Some rows → IsSome rows.semaphore → IfSome (option_copied result) (λ key. length key ≤ 257) }
{
    let limited = limited_then(step, job);
    match step {
        Transition::Enqueue { put, .. } => match put {
            Put::Ready(_) | Put::Blocked(_) => key_of(limited),
            Put::Scheduled(_) | Put::Away => None,
        },
        Transition::Dispatch { .. } | Transition::Unblock { .. } | Transition::Retry { .. } => {
            key_of(limited)
        }
        Transition::Done { .. } | Transition::Fail { .. } | Transition::Discard { .. } => {
            match job.as_ref()?.stand {
                Stand::Ready(_) | Stand::Blocked(_) | Stand::Claimed(_, _) => key_of(limited),
                _ => None,
            }
        }
        Transition::Expire { key } => Some(key),
        _ => None,
    }
}

fn key_of<'a>(limited: Option<&'a Limited>) -> Option<&'a Text>
    requires { spec.IsFit (option_copied limited) }
    ensures key { option_copied result ≡ model.key_of (option_copied limited.entry) }
    ensures short { IfSome (option_copied result) (λ key. length key ≤ 257) }
{
    Some(&limited?.key)
}

fn process_held(step: &Transition, job: &Option<Found>) -> Option<(Pid, Mode)>
    ensures { (j : Option Job) → job.now ≡ spec.job_seen j → result ≡ (held j step.now).process }
{
    match step {
        Transition::Claim { pid, .. } => Some((*pid, Mode::Shared)),
        Transition::Done { .. } | Transition::Fail { .. } | Transition::Release { .. } => {
            match job.as_ref()?.stand {
                Stand::Claimed(pid, _) => Some((pid, Mode::Shared)),
                _ => None,
            }
        }
        Transition::Register { pid, .. }
        | Transition::Beat { pid }
        | Transition::Deregister { pid } => Some((*pid, Mode::Alone)),
        _ => None,
    }
}

fn queue_held(step: &Transition) -> Option<&Name>
    ensures { (j : Option Job) → option_copied result ≡ (held j step.now).queue }
{
    match step {
        Transition::Pause { queue } | Transition::Resume { queue } => Some(queue),
        _ => None,
    }
}

fn task_held(step: &Transition) -> Option<&Name>
    ensures { (j : Option Job) → option_copied result ≡ (held j step.now).task }
{
    match step {
        Transition::Run { task, .. } => Some(task),
        _ => None,
    }
}
