//! Transactions, judged whole without being taken in. The list itself says what was done before each transition: nothing
//! is stored on the way, and no call takes memory.
#![tactic(auto)]

ghost use Rattle.std.specs.Prelude.{◌≡◌, Some, IsSome, is_some};
ghost use Rattle.queue_model.specs.Replay as replay;
ghost use Rattle.queue_model.specs.Transitions as rules;
ghost use Rattle.queue_model.specs.World.{World};

mod after;
mod moved;

use crate::after::sight_after;
use exec_tables::Tables;
use job_states::{Moment, Transaction, Transition};
use transition_table::{allows, is_in_range, is_moment};

/// Is the transaction legal where the tables stand?
pub fn is_legal(tables: &Tables, tx: &Transaction) -> bool
    ensures { result ≡ is_some (replay.after tables.now.world tx.now) }
{
    is_moment(tx.moment) && all_legal(tables, tx.moment, tx.steps.as_slice())
}

// Is each of the transitions legal after those before it?
fn all_legal(tables: &Tables, moment: Moment, steps: &[Transition]) -> bool
    ensures { result ≡ is_some (replay.steps tables.now.world moment steps.now) }
{
    for at in 0..steps.len() {
        if !allows_after(tables, moment, &steps[..at], &steps[at]) {
            return false;
        }
    }
    true
}

// Is the transition legal after these?
fn allows_after(tables: &Tables, moment: Moment, done: &[Transition], step: &Transition) -> bool
    requires { IsSome (replay.steps tables.now.world moment done.now) }
    ensures { (v : World) → replay.steps tables.now.world moment done.now ≡ Some v → result ≡ is_some (rules.step v moment step.now) }
{
    is_in_range(step) && allows(moment, &sight_after(tables, moment, done, step), step)
}
