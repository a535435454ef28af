//! Writing what a legal transition leaves at the rows that it holds. No call takes memory.
ghost use Rattle.std.specs.Prelude.{◌≡◌, ◌+◌, ◌≤◌, length, [], None, Some, IsTrue, IsSome, IfSome};
ghost use Rattle.std.specs.Option.{option_copied};
ghost use Rattle.std.specs.Ordering.{nat_cmp};
ghost use Rattle.indexmap.specs.IndexMap.{spare};
ghost use Rattle.job_states.specs.Ranges.{is_in_range};
ghost use Rattle.queue_model.specs.Held.{holds};
ghost use Rattle.queue_model.specs.Map as map;
ghost use Rattle.queue_model.specs.Sights.{Rows, sees, set};
ghost use Rattle.queue_model.specs.Sights as rows;
ghost use Rattle.queue_model.specs.Transitions.{changes};
ghost use Rattle.queue_model.specs.World.{World, text_cmp};
ghost use Rattle.queue_model.specs.declared.Process.{Process as Registered};
ghost use Rattle.transition_table.specs.Seen as table;
ghost use Rattle.exec_tables.specs.Apply as spec;

use crate::blanks::Blanks;
use crate::jobs::Jobs;
use crate::rows::{find, put, remove, replace};
use crate::runs::Runs;
use indexmap::IndexMap;
use job_states::{Counters, JobId, Kind, List, Moment, Name, Pid, Put, State, Text, Transition};
use queue_model::{Job, Process};
use semaphores::Sem;
use std::alloc::Global;

/// Writes the semaphore of the key, if there is a key; where it had none, into a blank.
pub fn write_semaphore(
    semaphores: &mut IndexMap<Text, Sem>,
    blanks: &mut Blanks,
    key: Option<&Text>,
    semaphore: Option<Sem>,
)
    requires room { 1 ≤ spare semaphores.old }
    requires blank { 1 ≤ blanks.old }
    requires short { IsSome semaphore → IfSome (option_copied key) (λ key. length key ≤ 257) }
    ensures rows { map.from_entries {R = text_cmp} semaphores.new.entries ≡ set (map.from_entries semaphores.old.entries) (option_copied key.entry) semaphore }
    ensures room { spare semaphores.old ≤ spare semaphores.new + 1 }
    ensures blanks { blanks.old ≤ blanks.new + 1 }
{
    let Some(key) = key else {
        return;
    };
    let Some(sem) = semaphore else {
        remove(semaphores, key);
        return;
    };
    if find(semaphores, key).is_some() {
        replace(semaphores, key, sem);
    } else {
        put(semaphores, blanks.write(key), sem);
    }
}

/// Writes the other rows that a legal transition holds; its job then holds this permit.
pub fn write_rows(
    alloc: Global,
    jobs: &mut Jobs,
    processes: &mut IndexMap<Pid, Process>,
    pauses: &mut IndexMap<Name, ()>,
    runs: &mut Runs,
    moment: Moment,
    step: Transition,
    permit: Option<u64>,
)
    requires in_range { IsTrue (is_in_range step) }
    requires jobs { 1 ≤ jobs.old.room }
    requires processes { 1 ≤ spare processes.old }
    requires pauses { 1 ≤ spare pauses.old }
    requires runs { 1 ≤ runs.old.room }
    ensures rows { (base : World) (rows : Rows)
        → let w = spec.with_tables base jobs.old.rows (map.from_entries processes.old.entries) (map.from_entries pauses.old.entries) runs.old.last runs.old.recurring in
        changes moment (sees w (holds w step)) step ≡ Some rows → permit ≡ table.permit_of (table.job_seen rows.job)
        → spec.Written w step rows jobs.new.rows (map.from_entries processes.new.entries) (map.from_entries pauses.new.entries) runs.new.last runs.new.recurring }
    ensures jobs { jobs.old.room ≤ jobs.new.room + 1 }
    ensures processes { spare processes.old ≤ spare processes.new + 1 }
    ensures pauses { spare pauses.old ≤ spare pauses.new + 1 }
    ensures runs { runs.old.room ≤ runs.new.room + 1 }
{
    match step {
        Transition::Enqueue { row, put } => {
            if let Some(state) = state_put(put) {
                jobs.insert(row.id, Job { row, state });
            }
        }
        Transition::Dispatch { id, put } => match state_put(put) {
            Some(state) => jobs.change(id, None, state),
            None => remove_job(jobs, runs, id),
        },
        Transition::Claim { id, pid } => jobs.change(id, None, State::Claimed(pid, permit)),
        Transition::Done { id } => jobs.change(id, None, State::Finished(moment)),
        Transition::Fail {
            id,
            error,
            message,
            counters,
        } => jobs.change(id, counters, State::Failed { error, message }),
        Transition::Release { id } => jobs.change(id, None, State::Ready(permit)),
        Transition::Unblock { id, generation } => {
            jobs.change(id, None, State::Ready(Some(generation)))
        }
        Transition::Retry { id, put } => {
            if let Some(state) = state_put(put) {
                jobs.change(id, Some(no_counters(alloc)), state);
            }
        }
        Transition::Discard { id } => remove_job(jobs, runs, id),
        Transition::Clear { id } => remove_job(jobs, runs, id),
        Transition::Register { pid, kind, name } => register(processes, pid, kind, name, moment),
        Transition::Beat { pid } => beat(processes, pid, moment),
        Transition::Deregister { pid } => remove(processes, &pid),
        Transition::Pause { queue } => put(pauses, queue, ()),
        Transition::Resume { queue } => remove(pauses, &queue),
        Transition::Expire { .. } => {}
        Transition::Run { task, time, id } => runs.note(task, time, id),
    }
}

// The state of a job that is put there; none where it goes away.
fn state_put(put: Put) -> Option<State>
    ensures { result ≡ spec.state_put put }
{
    match put {
        Put::Ready(permit) => Some(State::Ready(permit)),
        Put::Scheduled(at) => Some(State::Scheduled(at)),
        Put::Blocked(until) => Some(State::Blocked(until)),
        Put::Away => None,
    }
}

// Those of a job that begins anew.
fn no_counters(alloc: Global) -> Counters
    ensures { result ≡ record { executions = 0; counts = [] } }
{
    Counters {
        executions: 0,
        counts: List::of(Vec::new(alloc)),
    }
}

// Takes the job away, with its recurring executions.
fn remove_job(jobs: &mut Jobs, runs: &mut Runs, id: JobId)
    ensures jobs { jobs.new.rows ≡ map.remove jobs.old.rows id }
    ensures last { runs.new.last ≡ runs.old.last }
    ensures recurring { runs.new.recurring ≡ rows.without_job runs.old.recurring (Some id) None }
    ensures job_room { jobs.old.room ≤ jobs.new.room }
    ensures run_room { runs.old.room ≤ runs.new.room }
{
    jobs.remove(id);
    runs.forget(id);
}

// Registers the process at this moment.
fn register(
    processes: &mut IndexMap<Pid, Process>,
    pid: Pid,
    kind: Kind,
    name: Name,
    moment: Moment,
)
    requires { 1 ≤ spare processes.old }
    ensures rows { map.from_entries {R = nat_cmp} processes.new.entries
        ≡ map.insert (map.from_entries processes.old.entries) pid (record { kind = kind; name = name; since = moment; beat = moment }) }
    ensures room { spare processes.old ≤ spare processes.new + 1 }
{
    let process = Process {
        kind,
        name,
        since: moment,
        beat: moment,
    };
    put(processes, pid, process);
}

// Notes a heartbeat of the process, if it is registered.
fn beat(processes: &mut IndexMap<Pid, Process>, pid: Pid, moment: Moment)
    ensures beaten { (process : Registered) → map.get {R = nat_cmp} (map.from_entries processes.old.entries) pid ≡ Some process
        → map.from_entries {R = nat_cmp} processes.new.entries ≡ map.insert (map.from_entries processes.old.entries) pid (record process { beat = moment }) }
    ensures absent { map.get {R = nat_cmp} (map.from_entries processes.old.entries) pid ≡ None → processes.new.entries ≡ processes.old.entries }
    ensures room { spare processes.old ≤ spare processes.new }
{
    if let Some(process) = processes.get_mut(&pid) {
        process.beat = moment;
    }
}
