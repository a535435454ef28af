//! The last run of each task, and the recurring executions.
ghost use Rattle.std.specs.Prelude.{◌≡◌, nat_eq, ◌==◌, ◌+◌, ◌≤◌, not, filter, Some, None, OnOk};
ghost use Rattle.std.specs.Cmp.Lexicographic.{pointwise};
ghost use Rattle.std.specs.List.{IsDistinct};
ghost use Rattle.std.specs.Map.{keys_of};
ghost use Rattle.indexmap.specs.IndexMap.{spare};
ghost use Rattle.queue_model.specs.Map as map;
ghost use Rattle.queue_model.specs.Sights.{with_run, without_job};
ghost use Rattle.exec_tables.specs.Runs.{row_at, same_run};
ghost use Rattle.std.specs.Option.{option_map};
ghost use Rattle.exec_tables.specs.Next.{IsNext, Listed, by_row, run_row_cmp};

use crate::least::least_above;
use crate::rows::{find, put, remove, reserve};
use indexmap::IndexMap;
use indexmap::map::Iter;
use job_states::{JobId, Moment, Name, NoMemory};
use std::alloc::Global;
use std::marker::Model;

#[derive(Drop)]
pub struct Runs {
    // None of them goes.
    last: IndexMap<Name, Moment>,
    // By the task's place among the last runs, and by time.
    recurring: IndexMap<(usize, Moment), JobId>,
    // Each job that has a recurring execution is among these.
    jobs: IndexMap<JobId, ()>,
}

impl Model for Runs {
    ghost use Rattle.std.specs.Prelude.{min};
    ghost use Rattle.indexmap.specs.IndexMap.{spare};
    ghost use Rattle.queue_model.specs.Map as map;
    ghost use Rattle.exec_tables.specs.Runs.{AreRuns, named};
    ghost use Rattle.exec_tables.specs.Stored.{coded_runs};
    ghost use Rattle.exec_tables.specs.Table.{RunTable};

    ghost Value = { RunTable };

    ghost coded = { coded_runs };

    ghost view = { λ r. record {
      last = map.from_entries r.last.entries;
      recurring = map.from_entries (named r.last.entries r.recurring.entries);
      room = min (spare r.last) (min (spare r.recurring) (spare r.jobs));
    } };

    ghost invariant = { λ r. AreRuns r.last.entries r.recurring.entries (map.from_entries r.jobs.entries) };
}

/// A recurring execution. The order is by task and time alone.
#[derive(Clone, Copy)]
#[derive_where(PartialEq, Eq, PartialOrd, Ord)]
struct Execution<'a> {
    task: &'a Name,
    time: Moment,
    #[derive_where(skip)]
    id: JobId,
}

impl Runs {
    /// There was none.
    pub fn new(alloc: Global) -> Self
        ensures last { result.last ≡ map.empty }
        ensures recurring { result.recurring ≡ map.empty }
    {
        Runs {
            last: IndexMap::new(alloc),
            recurring: IndexMap::new(alloc),
            jobs: IndexMap::new(alloc),
        }
    }

    /// The task's last run.
    pub fn last(&self, task: &Name) -> Option<Moment>
        ensures { result ≡ map.get self.now.last task.now }
    {
        find(&self.last, task).copied()
    }

    /// The rows, in whatever order.
    pub fn iter(&self) -> Iter<'_, Name, Moment>
        ensures rows { map.from_entries result ≡ self.now.last }
        ensures apart { IsDistinct (pointwise nat_eq) (keys_of result) }
    {
        self.last.iter()
    }

    /// The next recurring execution, by task in byte order and then by time, with its job.
    pub fn recurring_after<'a>(
        &'a self,
        past: Option<(&'a Name, Moment)>,
    ) -> Option<(&'a Name, Moment, JobId)>
        ensures { IsNext run_row_cmp (Listed by_row self.now.recurring) (option_map (λ p. ((p.0.now, p.1), 0)) past.entry) (option_map (λ r. ((r.0.now, r.1), r.2)) result) }
    {
        let past = past.map(|(task, time)| Execution { task, time, id: 0 });
        let next = self.execution_after(past)?;
        Some((next.task, next.time, next.id))
    }

    fn execution_after<'a>(&'a self, past: Option<Execution<'a>>) -> Option<Execution<'a>>
        ensures { IsNext run_row_cmp (Listed by_row self.now.recurring) (option_map (λ x. ((x.task.now, x.time), x.id)) past.entry) (option_map (λ x. ((x.task.now, x.time), x.id)) result) }
    {
        let last = &self.last;
        let all = self.recurring.iter();
        least_above(
            all.map(|((place, time), id)| execution_at(last, *place, *time, *id)),
            past,
        )
    }

    /// Notes a run of the task, and where it made a job its recurring execution.
    pub fn note(&mut self, task: Name, time: Moment, id: Option<JobId>)
        requires { 1 ≤ self.old.room }
        ensures last { self.new.last ≡ map.insert self.old.last task time }
        ensures recurring { self.new.recurring ≡ with_run self.old.recurring (Some task) (Some time) id }
        ensures room { self.old.room ≤ self.new.room + 1 }
    {
        let Ok((place, _)) = self.last.insert_full(task, time) else {
            unreachable!();
        };
        let Some(id) = id else {
            return;
        };
        put(&mut self.jobs, id, ());
        let Ok(_) = self.recurring.insert((place, time), id) else {
            unreachable!();
        };
    }

    /// Takes the recurring executions of a job away. It passes over them only where the job ever had one.
    pub fn forget(&mut self, id: JobId)
        ensures last { self.new.last ≡ self.old.last }
        ensures recurring { self.new.recurring ≡ without_job self.old.recurring (Some id) None }
        ensures room { self.old.room ≤ self.new.room }
    {
        if find(&self.jobs, &id).is_none() {
            return;
        }
        drop_of(&mut self.recurring, id);
        remove(&mut self.jobs, &id);
    }

    /// Makes room for so many more.
    pub fn reserve(&mut self, more: usize) -> Result<(), NoMemory>
        ensures last { self.new.last ≡ self.old.last }
        ensures recurring { self.new.recurring ≡ self.old.recurring }
        ensures room { OnOk result (more ≤ self.new.room) }
        ensures kept { self.old.room ≤ self.new.room }
    {
        reserve(&mut self.last, more)?;
        reserve(&mut self.recurring, more)?;
        reserve(&mut self.jobs, more)
    }
}

// Drops the recurring executions of the job.
fn drop_of(recurring: &mut IndexMap<(usize, Moment), JobId>, id: JobId)
    ensures left { recurring.new.entries ≡ filter (λ e. not (e.1 == id)) recurring.old.entries }
    ensures apart { IsDistinct same_run (keys_of recurring.new.entries) }
    ensures room { spare recurring.old ≤ spare recurring.new }
{
    recurring.retain(|_, job| *job != id);
}

fn execution_at(
    last: &IndexMap<Name, Moment>,
    place: usize,
    time: Moment,
    id: JobId,
) -> Option<Execution<'_>>
    ensures { option_map (λ x. ((x.task.now, x.time), x.id)) result ≡ row_at last.now.entries place time id }
{
    let (task, _) = last.get_index(place)?;
    Some(Execution { task, time, id })
}
