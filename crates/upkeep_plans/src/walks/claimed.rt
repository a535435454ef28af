use exec_tables::Tables;
use job_states::{JobId, Pid};
use queue_model::Job;
use std::marker::Model;

/// The jobs that a process has claimed: those that are left, by number.
#[derive(Drop)]
pub struct Claimed<'a> {
    tables: &'a Tables,
    pid: Pid,
    // The number of the last job.
    past: JobId,
}

impl<'a> Model for Claimed<'a> {
    ghost use Rattle.std.specs.Prelude.{List};
    ghost use Rattle.queue_model.specs.GoodWorld.{IsGood};
    ghost use Rattle.queue_model.specs.declared.Job.{Job};
    ghost use Rattle.upkeep_plans.specs.Left.{claimed_left};

    ghost Value = { List Job };

    ghost view = { λ c. claimed_left c.tables.now.world c.pid c.past };

    ghost invariant = { λ c. IsGood c.tables.now.world };
}

impl<'a> Claimed<'a> {
    ghost use Rattle.std.specs.Prelude.{◌≡◌, drop};
    ghost use Rattle.std.specs.Option.{option_copied};
    ghost use Rattle.queue_model.specs.GoodWorld.{IsGood};
    ghost use Rattle.plan_model.specs.Orders.{first_of};
    ghost use Rattle.plan_model.specs.UpkeepCommands.{claimed_by};

    /// The jobs of the tables that the process has claimed.
    pub fn new(tables: &'a Tables, pid: Pid) -> Self
        requires { IsGood tables.now.world }
        ensures { result ≡ claimed_by tables.now.world pid }
    {
        Claimed {
            tables,
            pid,
            past: 0,
        }
    }

    /// The first job that is left, which then is left no more.
    pub fn next_job(&mut self) -> Option<&'a Job>
        ensures first { option_copied result ≡ first_of self.old }
        ensures left { self.new ≡ drop 1 self.old }
    {
        let id = self.tables.claim_after(self.pid, self.past)?;
        self.past = id;
        self.tables.job(id)
    }
}
