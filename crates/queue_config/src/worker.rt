ghost use Rattle.std.specs.Prelude.{◌≡◌, ◌+◌, ◌∷◌, [], ◌≤◌, length, option_map, IfOk, codes};
ghost use Rattle.toml.specs.View.{view, table_view};
ghost use Rattle.job_states.specs.Judged.{Gives, GivesAs};
ghost use Rattle.toml_members.specs.Key.{key_in};
ghost use Rattle.queue_selector.specs.Items.{IsQueueList};
ghost use Rattle.queue_config.specs.Ranges.{AreWorkers, threads_of};
ghost use Rattle.queue_config.specs.Settings as spec;

use crate::Worker;
use crate::whole::{CLAIM, THREADS, WORKER_POLLING_MS};
use job_states::{List, NoMemory, Text};
use std::alloc::Global;
use toml::{Table, Value};
use toml_members::{
    Element, SettingsFault, array_of, count_at, items_at, name_in, names_in, optional, refused,
    section,
};

/// The greatest number of threads of all workers.
const MAX_THREADS: u32 = 32;

fn one(alloc: Global, item: &str) -> Result<List<Text>, NoMemory>
    ensures { IfOk result (λ items. items ≡ item.now ∷ []) }
{
    Ok(List::of(vec![in alloc; Text::read(alloc, item)?]?))
}

/// A text is a list of one item.
fn queues_in(alloc: Global, place: &str, value: &Value) -> Result<List<Text>, SettingsFault>
    ensures given { Gives SettingsFault.NoMemory result (spec.queues_in (key_in place.now (codes "queues")) (view value.now)) }
    ensures list { IfOk result IsQueueList }
{
    if value.as_str().is_none() {
        return names_in(alloc, place, "queues", 64, value);
    }
    let item = name_in(alloc, place, "queues", value)?;
    Ok(one(alloc, item.as_str())?)
}

fn queues_at(alloc: Global, place: &str, value: Option<&Value>) -> Result<List<Text>, SettingsFault>
    ensures given { Gives SettingsFault.NoMemory result (spec.queues_at place.now (option_map (λ v. view v.now) value.entry)) }
    ensures list { IfOk result IsQueueList }
{
    match value {
        None => Ok(one(alloc, "*")?),
        Some(value) => queues_in(alloc, place, value),
    }
}

fn threads_of(workers: &[Worker]) -> u32
    requires { threads_of workers.now ≤ 32 }
    ensures { result ≡ threads_of workers.now }
{
    workers.iter().map(|worker| worker.threads).sum()
}

/// The threads of a worker: with those of the workers before at most 32.
fn threads_at(
    alloc: Global,
    place: &str,
    before: &[Worker],
    table: &Table,
) -> Result<u32, SettingsFault>
    requires { threads_of before.now ≤ 32 }
    ensures given { Gives SettingsFault.NoMemory result (spec.threads_at place.now before.now (table_view table.now)) }
    ensures least { IfOk result (λ threads. 1 ≤ threads) }
    ensures most { IfOk result (λ threads. threads_of before.now + threads ≤ 32) }
{
    let threads = count_at(alloc, place, &THREADS, table)? as u32;
    if threads_of(before) + threads > MAX_THREADS {
        return refused(alloc, SettingsFault::NOT_ALLOWED, place, THREADS.name);
    }
    Ok(threads)
}

/// The table of a worker.
#[tactic(auto, unfolding(crate::specs::Settings::worker_members))]
fn worker_members<'t>(
    alloc: Global,
    place: &str,
    value: &'t Value,
) -> Result<&'t Table, SettingsFault>
    ensures { GivesAs SettingsFault.NoMemory (λ t. table_view t.now) result (spec.worker_members place.now (view value.now)) }
{
    section(
        alloc,
        place,
        &["queues", "threads", "claim", "polling_ms"],
        value,
    )
}

impl Element<()> for Worker {
    ghost judged = { λ _. spec.worker_of };

    ghost holds = { λ _. AreWorkers };

    #[tactic(auto, unfolding(crate::specs::Settings::worker_of))]
    fn read(
        alloc: Global,
        _context: &(),
        before: &[Self],
        place: &str,
        value: &Value,
    ) -> Result<Self, SettingsFault> {
        let table = worker_members(alloc, place, value)?;
        let queues = queues_at(alloc, place, optional(table, "queues"))?;
        let threads = threads_at(alloc, place, before, table)?;
        let claim = count_at(alloc, place, &CLAIM, table)? as u32;
        let polling_ms = count_at(alloc, place, &WORKER_POLLING_MS, table)?;
        Ok(Worker {
            queues,
            threads,
            claim,
            polling_ms,
        })
    }
}

/// The workers; where there is none, one with the defaults.
pub(crate) fn workers_at(alloc: Global, top: &Table) -> Result<List<Worker>, SettingsFault>
    ensures given { Gives SettingsFault.NoMemory result (spec.workers_at (codes "workers") (table_view top.now)) }
    ensures count { IfOk result (λ workers. 1 ≤ length workers) }
    ensures ranges { IfOk result AreWorkers }
{
    let items = items_at(alloc, "", "workers", top)?;
    let workers: List<Worker> = array_of(alloc, &(), "", "workers", items)?;
    if workers.is_empty() {
        return Ok(default_workers(alloc)?);
    }
    Ok(workers)
}

fn default_workers(alloc: Global) -> Result<List<Worker>, NoMemory>
    ensures same { IfOk result (λ workers. workers ≡ spec.or_default_worker []) }
    ensures ranges { IfOk result AreWorkers }
{
    let worker = Worker {
        queues: one(alloc, "*")?,
        threads: 3,
        claim: 1,
        polling_ms: 100,
    };
    Ok(List::of(vec![in alloc; worker]?))
}
