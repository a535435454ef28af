//! The places at which jobs are listed.
ghost use Rattle.std.specs.Prelude.{◌≡◌};
ghost use Rattle.std.specs.Option.{option_copied};
ghost use Rattle.queue_model.specs.World.{is_claimed_by};
ghost use Rattle.exec_tables.specs.Next as next;

use job_states::{JobId, Moment, Name, Pid, State, Text};
use queue_model::Job;

// By number, where the process has claimed it.
pub fn claimed_place(pid: Pid, id: JobId, job: &Job) -> Option<JobId>
    ensures { result ≡ next.by_number (is_claimed_by pid) id job.now }
{
    match job.state {
        State::Claimed(by, _) if by == pid => Some(id),
        _ => None,
    }
}

// By priority and number, where it is ready in any queue.
pub fn any_ready_place(id: JobId, job: &Job) -> Option<(i32, u64)>
    ensures { result ≡ next.by_priority next.is_any_ready id job.now }
{
    match job.state {
        State::Ready(_) => Some((job.row.priority, id)),
        _ => None,
    }
}

// By priority and number, where it is ready in the queue.
pub fn ready_place(queue: &Name, id: JobId, job: &Job) -> Option<(i32, u64)>
    ensures { result ≡ next.by_priority (next.is_ready_in queue.now) id job.now }
{
    if job.row.queue == *queue {
        any_ready_place(id, job)
    } else {
        None
    }
}

// By priority and number, where it waits for the key.
pub fn blocked_place(key: &Text, id: JobId, job: &Job) -> Option<(i32, u64)>
    ensures { result ≡ next.by_priority (next.is_blocked_at key.now) id job.now }
{
    match (&job.state, &job.row.limited) {
        (State::Blocked(_), Some(limited)) if limited.key == *key => Some((job.row.priority, id)),
        _ => None,
    }
}

// By moment, priority and number, where it is scheduled.
pub fn due_place(id: JobId, job: &Job) -> Option<(Moment, i32, u64)>
    ensures { result ≡ next.by_moment id job.now }
{
    match job.state {
        State::Scheduled(at) => Some((at, job.row.priority, id)),
        _ => None,
    }
}

// By key, where it is blocked.
pub fn blocked_key(job: &Job) -> Option<&Text>
    ensures { option_copied result ≡ next.by_blocked_key 0 job.now }
{
    match (&job.state, &job.row.limited) {
        (State::Blocked(_), Some(limited)) => Some(&limited.key),
        _ => None,
    }
}

// By queue, where it is ready.
pub fn ready_queue(job: &Job) -> Option<&Name>
    ensures { option_copied result ≡ next.by_ready_queue 0 job.now }
{
    match job.state {
        State::Ready(_) => Some(&job.row.queue),
        _ => None,
    }
}
