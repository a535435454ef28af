//! Open plans, beside the locks that have their rows.
ghost use Rattle.std.specs.Prelude.{◌≡◌, ◌+◌, All, IsTrue};
ghost use Rattle.std.specs.BTreeMap.{IsOrdered, get};
ghost use Rattle.std.specs.Ordering.{nat_cmp};
ghost use Rattle.job_states.specs.Ranges.{is_in_range};
ghost use Rattle.queue_model.specs.Map as map;
ghost use Rattle.row_locks.specs.Locks.{AreSoundLocks};
ghost use Rattle.plan_model.specs.Books as books;
ghost use Rattle.book_core.specs.Counts.{planned_at, planned_in};
ghost use Rattle.book_core.specs.Kept.{AreHeldByPlans};
ghost use Rattle.book_core.specs.Opening as spec;
ghost use Rattle.book_core.specs.Seen.{plans_of};

use job_states::{Answer, Refused, Transaction};
use queue_model::Numbers;
use row_locks::{Locks, TakeFault};
use std::collections::BTreeMap;
use transition_table::note;

/// An open plan, whose rows the locks have.
#[derive(Drop)]
pub struct Opened {
    pub tx: Transaction,
    pub answer: Answer,
}

/// Lets go of what the seat holds, and of the plan that is open there.
pub fn let_go(locks: &mut Locks, opened: &mut BTreeMap<u32, Opened>, seat: u32) -> Option<Opened>
    requires sound { AreSoundLocks locks.old }
    requires in_order { IsOrdered nat_cmp opened.old }
    ensures plan { result ≡ get nat_cmp opened.old seat }
    ensures plans { plans_of locks.new opened.new.entries ≡ map.remove (plans_of locks.old opened.old.entries) seat }
    ensures holders { AreHeldByPlans locks.old opened.old.entries → AreHeldByPlans locks.new opened.new.entries }
    ensures ordered { IsOrdered nat_cmp opened.new }
    ensures sound { AreSoundLocks locks.new }
    ensures planned { planned_in opened.new.entries + planned_at result ≡ planned_in opened.old.entries }
{
    locks.free(seat);
    opened.remove(&seat)
}

/// The numbers that are given once those that the transaction names are.
pub fn given_by(mut given: Numbers, tx: &Transaction) -> Numbers
    requires { All (λ t. IsTrue (is_in_range t)) tx.now.steps }
    ensures { result ≡ books.given_by tx.now given }
{
    given.moment = given.moment.max(tx.moment);
    for step in tx.steps.as_slice() {
        note(&mut given, tx.moment, step);
    }
    given
}

pub fn refusal(fault: TakeFault) -> Refused
    ensures { result ≡ spec.refusal fault }
{
    match fault {
        TakeFault::Held { row, by } => Refused::Locked { row, by },
        TakeFault::NoMemory => Refused::NoMemory,
    }
}
