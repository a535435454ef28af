//! The numbers that a transition names, and the next ones after it.
ghost use Rattle.std.specs.Prelude.{◌≡◌, ◌<◌, ◌^◌, ◌-◌};
ghost use Rattle.std.specs.Option.{ForSome};
ghost use Rattle.queue_model.specs.Named as model;
ghost use Rattle.transition_table.specs.Seen.{HasNext};

use job_states::{JobId, Moment, Pid, Put, Transition};
use queue_model::Numbers;

/// The job that the transition names.
pub fn job_named(step: &Transition) -> Option<JobId>
    ensures { result ≡ model.job_named step.now }
{
    match step {
        Transition::Enqueue { row, .. } => Some(row.id),
        Transition::Dispatch { id, .. }
        | Transition::Claim { id, .. }
        | Transition::Done { id }
        | Transition::Fail { id, .. }
        | Transition::Release { id }
        | Transition::Unblock { id, .. }
        | Transition::Retry { id, .. }
        | Transition::Discard { id }
        | Transition::Clear { id } => Some(*id),
        Transition::Run { id, .. } => *id,
        _ => None,
    }
}

/// The process that it names.
pub fn pid_named(step: &Transition) -> Option<Pid>
    ensures { result ≡ model.pid_named step.now }
{
    match step {
        Transition::Claim { pid, .. }
        | Transition::Register { pid, .. }
        | Transition::Beat { pid }
        | Transition::Deregister { pid } => Some(*pid),
        _ => None,
    }
}

/// The generation of the permit that it gives a job.
pub fn generation_named(step: &Transition) -> Option<u64>
    ensures { result ≡ model.generation_named step.now }
{
    match step {
        Transition::Enqueue { put, .. }
        | Transition::Dispatch { put, .. }
        | Transition::Retry { put, .. } => put_named(put),
        Transition::Unblock { generation, .. } => Some(*generation),
        _ => None,
    }
}

fn put_named(put: &Put) -> Option<u64>
    ensures { result ≡ model.put_named put.now }
{
    match put {
        Put::Ready(permit) => *permit,
        _ => None,
    }
}

/// Raises each next number above the one that a transition of this moment names, and the last moment to this one.
pub fn note(numbers: &mut Numbers, moment: Moment, step: &Transition)
    requires { HasNext step.now }
    ensures { numbers.new ≡ model.noted numbers.old moment step.now }
{
    numbers.job = above(numbers.job, job_named(step));
    numbers.pid = above(numbers.pid, pid_named(step));
    numbers.generation = above(numbers.generation, generation_named(step));
    numbers.moment = numbers.moment.max(moment);
}

// The next number, once this one is named.
fn above(next: u64, named: Option<u64>) -> u64
    requires { ForSome named (λ n. n < 2 ^ 64 - 1) }
    ensures { result ≡ model.above next named }
{
    match named {
        Some(n) => next.max(n + 1),
        None => next,
    }
}
