use exec_tables::Tables;
use job_states::{JobId, Moment};
use queue_model::Job;
use std::marker::Model;

/// The jobs that are due: those that are left, by moment, priority and number.
#[derive(Drop)]
pub struct Due<'a> {
    tables: &'a Tables,
    moment: Moment,
    // The place of the last job.
    past: Option<(Moment, i32, JobId)>,
}

impl<'a> Model for Due<'a> {
    ghost use Rattle.std.specs.Prelude.{List};
    ghost use Rattle.queue_model.specs.GoodWorld.{IsGood};
    ghost use Rattle.queue_model.specs.declared.Job.{Job};
    ghost use Rattle.upkeep_plans.specs.Left.{due_left};

    ghost Value = { List Job };

    ghost view = { λ d. due_left d.tables.now.world d.moment d.past };

    ghost invariant = { λ d. IsGood d.tables.now.world };
}

impl<'a> Due<'a> {
    ghost use Rattle.std.specs.Prelude.{◌≡◌, drop};
    ghost use Rattle.std.specs.Option.{option_copied};
    ghost use Rattle.queue_model.specs.GoodWorld.{IsGood};
    ghost use Rattle.plan_model.specs.Orders.{first_of};
    ghost use Rattle.plan_model.specs.UpkeepCommands.{due_jobs};

    /// The jobs of the tables that are due at the moment.
    pub fn new(tables: &'a Tables, moment: Moment) -> Self
        requires { IsGood tables.now.world }
        ensures { result ≡ due_jobs tables.now.world moment }
    {
        Due {
            tables,
            moment,
            past: None,
        }
    }

    /// The first job that is left, which then is left no more.
    pub fn next_job(&mut self) -> Option<&'a Job>
        ensures first { option_copied result ≡ first_of self.old }
        ensures left { self.new ≡ drop 1 self.old }
    {
        let place = self.tables.due_after(self.past)?;
        if self.moment < place.0 {
            return None;
        }
        self.past = Some(place);
        self.tables.job(place.2)
    }
}
