use exec_tables::Tables;
use job_states::{JobId, Text};
use queue_model::Job;
use std::marker::Model;

/// The jobs that wait for a key: those that are left, in the order in which they are let go.
#[derive(Drop)]
pub struct Waiting<'a> {
    tables: &'a Tables,
    key: &'a Text,
    // The place of the last job.
    past: Option<(i32, JobId)>,
}

impl<'a> Model for Waiting<'a> {
    ghost use Rattle.std.specs.Prelude.{List};
    ghost use Rattle.queue_model.specs.GoodWorld.{IsGood};
    ghost use Rattle.queue_model.specs.declared.Job.{Job};
    ghost use Rattle.job_walks.specs.Left.{waiting_left};

    ghost Value = { List Job };

    ghost view = { λ w. waiting_left w.tables.now.world w.key.now w.past };

    ghost invariant = { λ w. IsGood w.tables.now.world };
}

impl<'a> Waiting<'a> {
    ghost use Rattle.std.specs.Prelude.{◌≡◌, drop, filter};
    ghost use Rattle.std.specs.Option.{option_copied};
    ghost use Rattle.queue_model.specs.GoodWorld.{IsGood};
    ghost use Rattle.queue_model.specs.Map as map;
    ghost use Rattle.plan_model.specs.Orders.{first_of, in_order, is_blocked_at};

    /// The jobs of the tables that wait for the key.
    pub fn new(tables: &'a Tables, key: &'a Text) -> Self
        requires { IsGood tables.now.world }
        ensures { result ≡ in_order (filter (is_blocked_at key.now) (map.values tables.now.world.jobs)) }
    {
        Waiting {
            tables,
            key,
            past: None,
        }
    }

    /// The first job that is left, which then is left no more.
    pub fn next_job(&mut self) -> Option<&'a Job>
        ensures first { option_copied result ≡ first_of self.old }
        ensures left { self.new ≡ drop 1 self.old }
    {
        let place = self.tables.blocked_after(self.key, self.past)?;
        self.past = Some(place);
        self.tables.job(place.1)
    }
}
