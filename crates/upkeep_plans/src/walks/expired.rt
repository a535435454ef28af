ghost use Rattle.std.specs.Prelude.{◌≡◌, drop};
ghost use Rattle.std.specs.Option.{option_copied};
ghost use Rattle.plan_model.specs.Orders.{first_of};
ghost use Rattle.upkeep_plans.specs.Left.{expired_left};

use exec_tables::Tables;
use job_states::{Moment, Text};
use std::marker::Model;

/// The keys of semaphores that are expired: those that are left, in byte order.
#[derive(Drop)]
pub struct Expired<'a> {
    tables: &'a Tables,
    moment: Moment,
    // The last key.
    past: Option<&'a Text>,
}

impl<'a> Model for Expired<'a> {
    ghost use Rattle.std.specs.Prelude.{ℕ, List};
    ghost use Rattle.std.specs.Option.{option_copied};
    ghost use Rattle.upkeep_plans.specs.Left.{expired_left};

    ghost Value = { List (List ℕ) };

    ghost view = { λ e. expired_left e.tables.now.world e.moment (option_copied e.past) };
}

impl<'a> Expired<'a> {
    ghost use Rattle.std.specs.Prelude.{◌≡◌, drop};
    ghost use Rattle.std.specs.Option.{option_copied};
    ghost use Rattle.plan_model.specs.Orders.{first_of};
    ghost use Rattle.plan_model.specs.UpkeepCommands.{expired_keys};

    /// The keys of the tables whose semaphores are expired at the moment.
    pub fn new(tables: &'a Tables, moment: Moment) -> Self
        ensures { result ≡ expired_keys tables.now.world moment }
    {
        Expired {
            tables,
            moment,
            past: None,
        }
    }

    /// The first key that is left, which then is left no more.
    pub fn next_key(&mut self) -> Option<&'a Text>
        ensures first { option_copied result ≡ first_of self.old }
        ensures left { self.new ≡ drop 1 self.old }
    {
        next_expired(self.tables, self.moment, &mut self.past)
    }
}

// The next key whose semaphore is expired.
fn next_expired<'a>(
    tables: &'a Tables,
    moment: Moment,
    past: &mut Option<&'a Text>,
) -> Option<&'a Text>
    ensures first { option_copied result ≡ first_of (expired_left tables.now.world moment (option_copied past.old)) }
    ensures left { expired_left tables.now.world moment (option_copied past.new) ≡ drop 1 (expired_left tables.now.world moment (option_copied past.old)) }
{
    while let Some(key) = tables.semaphore_after(*past) {
        *past = Some(key);
        if tables.semaphore(key)?.expires <= moment {
            return Some(key);
        }
    }
    None
}
