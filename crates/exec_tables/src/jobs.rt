//! The jobs by number. Beside their rows stand the claims of each process and the newest generation of a permit, so that
//! judging a transition passes over no jobs.
ghost use Rattle.std.specs.Prelude.{◌≡◌, ◌==◌, ◌+◌, ◌≤◌, ◌<◌, ◌^◌, length, nat_eq, not, None, Some, IfSome, IsTrue, OnOk};
ghost use Rattle.std.specs.List.{IsDistinct};
ghost use Rattle.std.specs.Map.{keys_of};
ghost use Rattle.std.specs.Option.{ForSome, option_copied};
ghost use Rattle.job_states.specs.Ranges.{is_limited};
ghost use Rattle.indexmap.specs.IndexMap.{spare};
ghost use Rattle.queue_model.specs.Map as map;
ghost use Rattle.queue_model.specs.Transitions.{counted};
ghost use Rattle.queue_model.specs.World.{job};
ghost use Rattle.queue_model.specs.declared.Job.{Job as Row};
ghost use Rattle.exec_tables.specs.Jobs as spec;
ghost use Rattle.exec_tables.specs.Jobs.{at_stage_in, claimant_at, claimant_of, claims_in, count_in, counts_of, holders_in, lowered, newer, raised};
ghost use Rattle.queue_model.specs.World as world;
ghost use Rattle.transition_table.specs.Seen.{job_seen};

use crate::rows::{find, put, remove, replace, reserve};
use indexmap::IndexMap;
use indexmap::map::Iter;
use job_states::{Counters, JobId, NoMemory, Pid, Stage, State, Text};
use queue_model::Job;
use std::alloc::Global;
use std::marker::Model;
use transition_table::{Found, holds_permit};

#[derive(Drop)]
pub struct Jobs {
    rows: IndexMap<JobId, Job>,
    // How many jobs each process has claimed, where it has claimed any.
    claims: IndexMap<Pid, u64>,
    // No job holds a permit of a greater generation.
    newest: u64,
}

impl Model for Jobs {
    ghost use Rattle.std.specs.Prelude.{min};
    ghost use Rattle.indexmap.specs.IndexMap.{spare};
    ghost use Rattle.queue_model.specs.Map as map;
    ghost use Rattle.queue_model.specs.declared.Job.{Job};
    ghost use Rattle.exec_tables.specs.Jobs.{AreKept};
    ghost use Rattle.exec_tables.specs.Stored.{coded_jobs};
    ghost use Rattle.exec_tables.specs.Table.{JobTable};

    ghost Value = { JobTable };

    ghost coded = { coded_jobs };

    ghost view = { λ j. record { rows = map.from_entries j.rows.entries; room = min (spare j.rows) (spare j.claims) } };

    ghost invariant = { λ j. AreKept (map.from_entries j.rows.entries) (map.from_entries j.claims.entries) j.newest };
}

impl Jobs {
    /// There is no job.
    pub fn new(alloc: Global) -> Self
        ensures { result.rows ≡ map.empty }
    {
        Jobs {
            rows: IndexMap::new(alloc),
            claims: IndexMap::new(alloc),
            newest: 0,
        }
    }

    /// The job of this number.
    pub fn get(&self, id: JobId) -> Option<&Job>
        ensures same { option_copied result ≡ map.get self.now.rows id }
        ensures limit { IfSome result (λ j. IsTrue (is_limited j.now.row.limited)) }
    {
        find(&self.rows, &id)
    }

    /// The job of this number, as far as the table of transitions reads it.
    pub fn found(&self, id: JobId) -> Option<Found>
        ensures { result ≡ job_seen (map.get self.now.rows id) }
    {
        Some(Found::of(self.get(id)?))
    }

    /// The jobs, in whatever order.
    pub fn iter(&self) -> Iter<'_, JobId, Job>
        ensures rows { map.from_entries result ≡ self.now.rows }
        ensures apart { IsDistinct nat_eq (keys_of result) }
    {
        self.rows.iter()
    }

    /// How many there are.
    pub fn len(&self) -> u64
        ensures all { result ≡ length (map.values self.now.rows) }
        ensures small { result < 2 ^ 63 }
    {
        self.rows.len() as u64
    }

    /// How many of them the process has claimed.
    pub fn claims(&self, pid: Pid) -> u64
        ensures { result ≡ claims_in self.now.rows pid }
    {
        count(&self.claims, pid)
    }

    /// How many of them hold a permit of this key and generation. It passes over the jobs only where the generation isn't
    /// new.
    pub fn holders(&self, key: &Text, generation: u64) -> u64
        ensures { result ≡ holders_in self.now.rows key.now generation }
    {
        if self.newest < generation {
            return 0;
        }
        let _jobs = self.rows.len();
        let mut holders = 0;
        for (_, job) in self.rows.iter() {
            if is_holder(job, key, generation) {
                holders += 1;
            }
        }
        holders
    }

    /// How many of them are at this stage. It passes over all.
    pub fn at_stage(&self, stage: Stage) -> u64
        ensures { result ≡ at_stage_in self.now.rows stage }
    {
        let _jobs = self.rows.len();
        let mut there = 0;
        for (_, job) in self.rows.iter() {
            if is_at(job, stage) {
                there += 1;
            }
        }
        there
    }

    /// Writes a job in its place.
    pub fn insert(&mut self, id: JobId, job: Job)
        requires room { 1 ≤ self.old.room }
        requires limit { IsTrue (is_limited job.row.limited) }
        ensures rows { self.new.rows ≡ map.insert self.old.rows id job }
        ensures room { self.old.room ≤ self.new.room + 1 }
    {
        let before = self.claimant(id);
        let after = claimant(&job.state);
        lower(&mut self.claims, before);
        let _jobs = self.rows.len();
        raise(&mut self.claims, after);
        self.newest = newer(self.newest, &job.state);
        put(&mut self.rows, id, job);
    }

    /// Moves the job, if there is one, to this state, with these counters where there are some.
    pub fn change(&mut self, id: JobId, counters: Option<Counters>, state: State)
        requires room { 1 ≤ self.old.room }
        ensures there { (j : Row) → map.get self.old.rows id ≡ Some j
            → self.new.rows ≡ map.insert self.old.rows id (job (counted j.row counters) state) }
        ensures absent { map.get self.old.rows id ≡ None → self.new.rows ≡ self.old.rows }
        ensures room { self.old.room ≤ self.new.room + 1 }
    {
        let before = self.claimant(id);
        let after = claimant(&state);
        let newest = newer(self.newest, &state);
        let _jobs = self.rows.len();
        let Some(job) = self.rows.get_mut(&id) else {
            return;
        };
        write(job, counters, state);
        lower(&mut self.claims, before);
        raise(&mut self.claims, after);
        self.newest = newest;
    }

    /// Takes the job away.
    pub fn remove(&mut self, id: JobId)
        ensures rows { self.new.rows ≡ map.remove self.old.rows id }
        ensures room { self.old.room ≤ self.new.room }
    {
        let before = self.claimant(id);
        remove(&mut self.rows, &id);
        lower(&mut self.claims, before);
    }

    fn claimant(&self, id: JobId) -> Option<Pid>
        ensures { result ≡ claimant_at (map.get self.now.rows id) }
    {
        claimant(&self.get(id)?.state)
    }

    /// Makes room for so many more.
    pub fn reserve(&mut self, more: usize) -> Result<(), NoMemory>
        ensures rows { self.new.rows ≡ self.old.rows }
        ensures room { OnOk result (more ≤ self.new.room) }
        ensures kept { self.old.room ≤ self.new.room }
    {
        reserve(&mut self.rows, more)?;
        reserve(&mut self.claims, more)
    }
}

// Moves the job to this state, with these counters where there are some.
fn write(job: &mut Job, counters: Option<Counters>, state: State)
    ensures { job.new ≡ world.job (counted job.old.row counters) state }
{
    if let Some(counters) = counters {
        job.row.executions = counters.executions;
        job.row.counts = counters.counts;
    }
    job.state = state;
}

// The process that has claimed a job in this state.
fn claimant(state: &State) -> Option<Pid>
    ensures { result ≡ claimant_of state.now }
{
    match state {
        State::Claimed(pid, _) => Some(*pid),
        _ => None,
    }
}

// The greater of this generation and that of the permit that a job in this state holds.
fn newer(newest: u64, state: &State) -> u64
    ensures { result ≡ newer newest state.now }
{
    newest.max(state.permit().unwrap_or(0))
}

// Does the job hold a permit of this key and generation?
fn is_holder(job: &Job, key: &Text, generation: u64) -> bool
    ensures { result ≡ world.is_holder key.now generation job.now }
{
    holds_permit(
        job.row.limited.as_ref(),
        job.state.permit(),
        key,
        generation,
    )
}

// Is the job at this stage?
fn is_at(job: &Job, stage: Stage) -> bool
    ensures { result ≡ spec.is_at stage job.now }
{
    matches!(
        (stage, job.state.stage()),
        (Stage::Scheduled, Stage::Scheduled)
            | (Stage::Ready, Stage::Ready)
            | (Stage::Blocked, Stage::Blocked)
            | (Stage::Claimed, Stage::Claimed)
            | (Stage::Failed, Stage::Failed)
            | (Stage::Finished, Stage::Finished)
    )
}

// ---- the counts of claims

fn count(claims: &IndexMap<Pid, u64>, pid: Pid) -> u64
    ensures { result ≡ count_in (counts_of claims.now.entries) pid }
{
    find(claims, &pid).copied().unwrap_or(0)
}

// Counts a claim of the process less.
fn lower(claims: &mut IndexMap<Pid, u64>, pid: Option<Pid>)
    ensures rows { counts_of claims.new.entries ≡ lowered (counts_of claims.old.entries) pid }
    ensures room { spare claims.old ≤ spare claims.new }
{
    let Some(pid) = pid else {
        return;
    };
    let count = count(claims, pid);
    if count <= 1 {
        remove(claims, &pid);
    } else {
        replace(claims, &pid, count - 1);
    }
}

// Counts a claim of the process more.
fn raise(claims: &mut IndexMap<Pid, u64>, pid: Option<Pid>)
    requires room { 1 ≤ spare claims.old }
    requires fits { ForSome pid (λ p. count_in (counts_of claims.old.entries) p + 1 < 2 ^ 64) }
    ensures rows { counts_of claims.new.entries ≡ raised (counts_of claims.old.entries) pid }
    ensures room { spare claims.old ≤ spare claims.new + 1 }
{
    let Some(pid) = pid else {
        return;
    };
    let count = count(claims, pid);
    put(claims, pid, count + 1);
}
