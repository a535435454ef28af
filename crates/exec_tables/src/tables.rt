ghost use Rattle.std.specs.Prelude.{◌≡◌, ◌+◌, ◌≤◌, length, is_some, OnOk, OnErr};
ghost use Rattle.std.specs.Option.{option_copied};
ghost use Rattle.queue_model.specs.Map as map;
ghost use Rattle.queue_model.specs.World as model;

use crate::blanks::Blanks;
use crate::jobs::Jobs;
use crate::rows::reserve;
use crate::runs::Runs;
use indexmap::IndexMap;
use job_states::{Name, NoMemory, Pid, Text, Transaction};
use queue_model::{Numbers, Process};
use semaphores::Sem;
use std::alloc::Global;
use std::marker::Model;

/// The store. A contract sees it as the world that it stands for, and beside it for how many more transitions there is
/// room.
#[derive(Drop)]
pub struct Tables {
    pub(crate) jobs: Jobs,
    pub(crate) semaphores: IndexMap<Text, Sem>,
    pub(crate) processes: IndexMap<Pid, Process>,
    /// The queues that are paused.
    pub(crate) pauses: IndexMap<Name, ()>,
    pub(crate) runs: Runs,
    pub(crate) numbers: Numbers,
    /// For the keys of new semaphores.
    pub(crate) blanks: Blanks,
    pub(crate) spare: usize,
}

impl Model for Tables {
    ghost use Rattle.indexmap.specs.IndexMap as index;
    ghost use Rattle.queue_model.specs.Map as map;
    ghost use Rattle.exec_tables.specs.Store.{Store};
    ghost use Rattle.exec_tables.specs.Stored.{coded_store};
    ghost use Rattle.exec_tables.specs.Room.{HasRoom};

    ghost Value = { Store };

    ghost coded = { coded_store };

    ghost view = { λ t. record {
      world = record {
        jobs = t.jobs.rows;
        semaphores = map.from_entries t.semaphores.entries;
        processes = map.from_entries t.processes.entries;
        paused = map.from_entries t.pauses.entries;
        last_runs = t.runs.last;
        recurring = t.runs.recurring;
        numbers = t.numbers;
      };
      spare = t.spare;
    } };

    ghost invariant = { λ t. HasRoom t.spare t.jobs.room (index.spare t.semaphores) (index.spare t.processes) (index.spare t.pauses) t.runs.room t.blanks };
}

impl Tables {
    /// The empty store.
    pub fn new(alloc: Global) -> Self
        ensures world { result.world ≡ model.empty }
        ensures spare { result.spare ≡ 0 }
    {
        Tables {
            jobs: Jobs::new(alloc),
            semaphores: IndexMap::new(alloc),
            processes: IndexMap::new(alloc),
            pauses: IndexMap::new(alloc),
            runs: Runs::new(alloc),
            numbers: Numbers {
                job: 1,
                pid: 1,
                generation: 1,
                moment: 0,
            },
            blanks: Blanks::new(alloc),
            spare: 0,
        }
    }

    /// Makes room for this transaction, beside all that there is room for.
    pub fn reserve_for(&mut self, tx: &Transaction) -> Result<(), NoMemory>
        ensures world { self.new.world ≡ self.old.world }
        ensures ok { OnOk result (self.new.spare ≡ self.old.spare + length tx.now.steps) }
        ensures err { OnErr result (self.new.spare ≡ self.old.spare) }
    {
        let Some(spare) = self.spare.checked_add(tx.steps.as_slice().len()) else {
            return Err(NoMemory);
        };
        self.jobs.reserve(spare)?;
        reserve(&mut self.semaphores, spare)?;
        reserve(&mut self.processes, spare)?;
        reserve(&mut self.pauses, spare)?;
        self.runs.reserve(spare)?;
        self.blanks.reserve(spare)?;
        self.spare = spare;
        Ok(())
    }

    /// Gives back the room of a transaction that isn't applied.
    pub fn release(&mut self, tx: &Transaction)
        requires { length tx.now.steps ≤ self.old.spare }
        ensures world { self.new.world ≡ self.old.world }
        ensures spare { self.new.spare + length tx.now.steps ≡ self.old.spare }
    {
        self.spare -= tx.steps.as_slice().len();
    }
}
