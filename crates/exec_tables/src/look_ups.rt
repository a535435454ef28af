//! Look-ups by key, counts and lists. Only the lists take memory.
ghost use Rattle.std.specs.Prelude.{◌≡◌, ◌<◌, ◌^◌, length, is_some, IfOk};
ghost use Rattle.std.specs.Option.{option_copied};
ghost use Rattle.queue_model.specs.Map as map;
ghost use Rattle.queue_model.specs.World.{claims, holders};
ghost use Rattle.transition_table.specs.Seen.{job_seen};
ghost use Rattle.exec_tables.specs.Jobs.{at_stage};
ghost use Rattle.exec_tables.specs.Names.{AreSorted};
ghost use Rattle.exec_tables.specs.Next.{Listed, by_key, by_ready_queue};

use crate::Tables;
use crate::names::sorted_names;
use crate::places::ready_queue;
use crate::rows::find;
use job_states::{JobId, Moment, Name, NoMemory, Pid, Stage, Text};
use queue_model::{Job, Numbers, Process};
use semaphores::Sem;
use transition_table::Found;

impl Tables {
    /// The job of this number.
    pub fn job(&self, id: JobId) -> Option<&Job>
        ensures { option_copied result ≡ map.get self.now.world.jobs id }
    {
        self.jobs.get(id)
    }

    /// The job of this number, as far as the table of transitions reads it.
    pub fn found(&self, id: JobId) -> Option<Found>
        ensures { result ≡ job_seen (map.get self.now.world.jobs id) }
    {
        self.jobs.found(id)
    }

    /// How many jobs are kept, finished ones among them.
    pub fn kept(&self) -> u64
        ensures { result ≡ length (map.values self.now.world.jobs) }
    {
        self.jobs.len()
    }

    /// The jobs are fewer than 2^63, and so is whatever is counted of them. It does nothing: its contract is the
    /// statement.
    pub fn jobs_are_few(&self)
        ensures { length (map.values self.now.world.jobs) < 2 ^ 63 }
    {
        self.jobs.len();
    }

    /// How many jobs are at this stage. It passes over all jobs.
    pub fn at_stage(&self, stage: Stage) -> u64
        ensures { result ≡ at_stage stage self.now.world }
    {
        self.jobs.at_stage(stage)
    }

    /// How many jobs the process has claimed.
    pub fn claims(&self, pid: Pid) -> u64
        ensures { result ≡ claims self.now.world pid }
    {
        self.jobs.claims(pid)
    }

    /// How many jobs hold a permit of this key and generation. It passes over the jobs only where the generation isn't
    /// new.
    pub fn holders(&self, key: &Text, generation: u64) -> u64
        ensures { result ≡ holders self.now.world key.now generation }
    {
        self.jobs.holders(key, generation)
    }

    /// The semaphore of the key.
    pub fn semaphore(&self, key: &Text) -> Option<Sem>
        ensures { result ≡ map.get self.now.world.semaphores key.now }
    {
        find(&self.semaphores, key).copied()
    }

    /// The process of this number.
    pub fn process(&self, pid: Pid) -> Option<&Process>
        ensures { option_copied result ≡ map.get self.now.world.processes pid }
    {
        find(&self.processes, &pid)
    }

    /// How many processes are registered.
    pub fn registered(&self) -> u64
        ensures { result ≡ length (map.values self.now.world.processes) }
    {
        self.processes.len() as u64
    }

    /// How many semaphores there are.
    pub fn semaphores(&self) -> u64
        ensures { result ≡ length (map.values self.now.world.semaphores) }
    {
        self.semaphores.len() as u64
    }

    /// Is the queue paused?
    pub fn is_paused(&self, queue: &Name) -> bool
        ensures { result ≡ is_some (map.get self.now.world.paused queue.now) }
    {
        find(&self.pauses, queue).is_some()
    }

    /// The task's last run.
    pub fn last_run(&self, task: &Name) -> Option<Moment>
        ensures { result ≡ map.get self.now.world.last_runs task.now }
    {
        self.runs.last(task)
    }

    /// The numbers that are given next, and the last moment.
    pub fn numbers(&self) -> Numbers
        ensures { result ≡ self.now.world.numbers }
    {
        self.numbers
    }

    /// The queues that have a ready job, strictly sorted.
    pub fn ready_queues(&self) -> Result<Vec<Name>, NoMemory>
        ensures { IfOk result (λ names. AreSorted (Listed by_ready_queue self.now.world.jobs) names.items) }
    {
        sorted_names(
            self.blanks.allocator(),
            self.jobs.iter().map(|(_, job)| ready_queue(job)),
        )
    }

    /// The queues that are paused, strictly sorted.
    pub fn paused(&self) -> Result<Vec<Name>, NoMemory>
        ensures { IfOk result (λ names. AreSorted (Listed by_key self.now.world.paused) names.items) }
    {
        sorted_names(
            self.blanks.allocator(),
            self.pauses.iter().map(|(queue, _)| Some(queue)),
        )
    }
}
