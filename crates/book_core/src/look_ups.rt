//! What is asked of a book. No call takes memory.
ghost use Rattle.std.specs.Prelude.{◌≡◌, is_some};
ghost use Rattle.std.specs.Option.{option_copied, option_map};
ghost use Rattle.queue_model.specs.Map as map;
ghost use Rattle.plan_model.specs.Books.{claims_kept, jobs_kept, processes_kept};
ghost use Rattle.plan_model.specs.GoodBook.{IsGoodBook};
ghost use Rattle.plan_model.specs.Scenes.{is_free};
ghost use Rattle.book_core.specs.Opening.{is_offered};

use crate::Book;
use crate::counts::{Counted, count_in};
use exec_tables::Tables;
use job_states::{JobId, Mode, Pid, Row, State, Transaction};
use queue_model::Numbers;

// A seat at which nothing is ever open.
const NOBODY: u32 = 64;

impl Book {
    /// The transitions of the plan that is open at the seat.
    pub fn open_at(&self, seat: u32) -> Option<&Transaction>
        ensures { option_copied result ≡ option_map (λ plan. plan.tx) (map.get self.now.open_plans seat) }
    {
        Some(&self.opened.get(&seat)?.tx)
    }

    /// Is a plan open at the seat?
    pub fn is_open(&self, seat: u32) -> bool
        ensures { result ≡ is_some (map.get self.now.open_plans seat) }
    {
        self.opened.contains_key(&seat)
    }

    /// The tables. Open plans are in none of them.
    pub fn tables(&self) -> &Tables
        ensures same { result.now.world ≡ self.now.world }
        ensures good { IsGoodBook self.now }
    {
        &self.tables
    }

    /// The numbers that are given next, and the greatest moment given; those of open plans, and of plans that were closed,
    /// are given.
    pub fn numbers(&self) -> Numbers
        ensures { result ≡ self.now.given }
    {
        self.given
    }

    /// How many jobs are kept, finished ones and those that open plans make among them.
    pub fn kept(&self) -> u64
        ensures { result ≡ jobs_kept self.now }
    {
        self.tables.kept() + count_in(&self.opened, Counted::Enqueues)
    }

    /// How many claims the process has, those of open plans among them.
    pub fn claims(&self, pid: Pid) -> u64
        ensures { result ≡ claims_kept self.now pid }
    {
        self.tables.claims(pid) + count_in(&self.opened, Counted::ClaimsBy(pid))
    }

    /// How many processes are registered, those that open plans register among them.
    pub fn registered(&self) -> u64
        ensures { result ≡ processes_kept self.now }
    {
        self.tables.registered() + count_in(&self.opened, Counted::Registers)
    }

    /// Does every open plan leave the row free in this mode?
    pub fn is_free(&self, row: &Row, mode: Mode) -> bool
        ensures { result ≡ is_free self.now row.now mode }
    {
        self.locks.is_free(row, mode, NOBODY)
    }

    /// Is the job on offer: ready, its queue not paused, and its row free?
    pub fn offered(&self, id: JobId) -> bool
        ensures { result ≡ is_offered self.now id }
    {
        let Some(job) = self.tables.job(id) else {
            return false;
        };
        matches!(job.state, State::Ready(_))
            && !self.tables.is_paused(&job.row.queue)
            && self.is_free(&Row::Job(id), Mode::Alone)
    }
}
