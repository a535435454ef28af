//! Look-ups of what comes next in an order. None of them takes memory.
ghost use Rattle.std.specs.Prelude.{◌≡◌, Some};
ghost use Rattle.std.specs.Ordering.{nat_cmp};
ghost use Rattle.std.specs.Option.{option_copied, option_map};
ghost use Rattle.queue_model.specs.World.{is_claimed_by, text_cmp};
ghost use Rattle.exec_tables.specs.Next.{IsNext, Listed, by_blocked_key, by_key, by_moment, by_number, by_priority, by_row, is_any_ready, is_blocked_at, is_ready_in, moment_cmp, priority_cmp, run_row_cmp};

use crate::Tables;
use crate::least::least_above;
use crate::places::{
    any_ready_place, blocked_key, blocked_place, claimed_place, due_place, ready_place,
};
use job_states::{JobId, Moment, Name, Pid, Text};

impl Tables {
    /// The next number that a job has.
    pub fn job_after(&self, id: u64) -> Option<JobId>
        ensures { IsNext nat_cmp (Listed by_key self.now.world.jobs) (Some id) result }
    {
        least_above(self.jobs.iter().map(|(id, _)| Some(*id)), Some(id))
    }

    /// The next job that is ready in the queue, by priority and number.
    pub fn ready_after(&self, queue: &Name, past: Option<(i32, u64)>) -> Option<(i32, u64)>
        ensures { IsNext priority_cmp (Listed (by_priority (is_ready_in queue.now)) self.now.world.jobs) past result }
    {
        least_above(
            self.jobs
                .iter()
                .map(|(id, job)| ready_place(queue, *id, job)),
            past,
        )
    }

    /// The next job that is ready in any queue, by priority and number.
    pub fn ready_any_after(&self, past: Option<(i32, u64)>) -> Option<(i32, u64)>
        ensures { IsNext priority_cmp (Listed (by_priority is_any_ready) self.now.world.jobs) past result }
    {
        least_above(
            self.jobs.iter().map(|(id, job)| any_ready_place(*id, job)),
            past,
        )
    }

    /// The next job that is scheduled, by moment, priority and number.
    pub fn due_after(&self, past: Option<(Moment, i32, u64)>) -> Option<(Moment, i32, u64)>
        ensures { IsNext moment_cmp (Listed by_moment self.now.world.jobs) past result }
    {
        least_above(self.jobs.iter().map(|(id, job)| due_place(*id, job)), past)
    }

    /// The next job that waits for the key, by priority and number.
    pub fn blocked_after(&self, key: &Text, past: Option<(i32, u64)>) -> Option<(i32, u64)>
        ensures { IsNext priority_cmp (Listed (by_priority (is_blocked_at key.now)) self.now.world.jobs) past result }
    {
        least_above(
            self.jobs
                .iter()
                .map(|(id, job)| blocked_place(key, *id, job)),
            past,
        )
    }

    /// The next number of a job that the process has claimed.
    pub fn claim_after(&self, pid: Pid, past: u64) -> Option<JobId>
        ensures { IsNext nat_cmp (Listed (by_number (is_claimed_by pid)) self.now.world.jobs) (Some past) result }
    {
        least_above(
            self.jobs
                .iter()
                .map(|(id, job)| claimed_place(pid, *id, job)),
            Some(past),
        )
    }

    /// The next key, in byte order, for which a job waits.
    pub fn blocked_key_after<'a>(&'a self, past: Option<&'a Text>) -> Option<&'a Text>
        ensures { IsNext text_cmp (Listed by_blocked_key self.now.world.jobs) (option_copied past.entry) (option_copied result) }
    {
        least_above(self.jobs.iter().map(|(_, job)| blocked_key(job)), past)
    }

    /// The next key, in byte order, that has a semaphore.
    pub fn semaphore_after<'a>(&'a self, past: Option<&'a Text>) -> Option<&'a Text>
        ensures { IsNext text_cmp (Listed by_key self.now.world.semaphores) (option_copied past.entry) (option_copied result) }
    {
        least_above(self.semaphores.iter().map(|(key, _)| Some(key)), past)
    }

    /// The next number that a process has.
    pub fn process_after(&self, pid: u64) -> Option<Pid>
        ensures { IsNext nat_cmp (Listed by_key self.now.world.processes) (Some pid) result }
    {
        least_above(self.processes.iter().map(|(pid, _)| Some(*pid)), Some(pid))
    }

    /// The next task, in byte order, that has a last run.
    pub fn last_run_after<'a>(&'a self, task: Option<&'a Name>) -> Option<&'a Name>
        ensures { IsNext text_cmp (Listed by_key self.now.world.last_runs) (option_copied task.entry) (option_copied result) }
    {
        least_above(self.runs.iter().map(|(task, _)| Some(task)), task)
    }

    /// The next recurring execution, by task in byte order and then by time, with its job.
    pub fn recurring_after<'a>(
        &'a self,
        past: Option<(&'a Name, Moment)>,
    ) -> Option<(&'a Name, Moment, JobId)>
        ensures { IsNext run_row_cmp (Listed by_row self.now.world.recurring) (option_map (λ p. ((p.0.now, p.1), 0)) past.entry) (option_map (λ r. ((r.0.now, r.1), r.2)) result) }
    {
        self.runs.recurring_after(past)
    }
}
