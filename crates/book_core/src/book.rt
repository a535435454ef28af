ghost use Rattle.std.specs.Prelude.{◌≡◌, ◌+◌, ◌<◌, ◌≤◌, ◌^◌, Some, None, OnOk, OnErr, length};
ghost use Rattle.std.specs.BTreeMap.{IsOrdered, IsUnchanged, Updates, get};
ghost use Rattle.std.specs.Ordering.{nat_cmp};
ghost use Rattle.book_core.specs.Counts.{planned_in};

use crate::counts::{Counted, count_in};
use crate::opened::{Opened, given_by, let_go, refusal};
use crate::plan::Plan;
use exec_tables::Tables;
use job_states::{Answer, NoMemory, Refused};
use plan_model::books_stay_good;
use queue_model::Numbers;
use row_locks::Locks;
use std::alloc::Global;
use std::collections::BTreeMap;
use std::marker::Model;

// Open plans have no more transitions than this, so that what is counted of them is a u64.
const MOST: u64 = (1 << 63) - 1;

/// The store with the plans that are open on it, one at most at each of the seats 0 to 63. What was planned stays legal
/// until its seat applies it or closes it. A contract sees all of it but for how much room there is.
#[derive(Drop)]
pub struct Book {
    pub(crate) tables: Tables,
    pub(crate) locks: Locks,
    pub(crate) opened: BTreeMap<u32, Opened>,
    pub(crate) given: Numbers,
}

impl Model for Book {
    ghost use Rattle.plan_model.specs.Books.{Book};
    ghost use Rattle.book_core.specs.Coded.{coded_book};
    ghost use Rattle.book_core.specs.Kept.{IsKept};
    ghost use Rattle.book_core.specs.Seen.{book_of};

    ghost Value = { Book };

    ghost coded = { coded_book };

    ghost view = { λ b. book_of b.tables.world b.locks b.opened.entries b.given };

    ghost invariant = { λ b. IsKept b.tables.world b.locks b.opened.entries b.given b.tables.spare };
}

impl Book {
    ghost use Rattle.std.specs.Prelude.{◌≡◌, ◌<◌, None, IsSome, IfErr, OnErr, OnOk};
    ghost use Rattle.queue_model.specs.GoodWorld.{IsGood};
    ghost use Rattle.queue_model.specs.Map as map;
    ghost use Rattle.plan_model.specs.Begins.{locked};
    ghost use Rattle.plan_model.specs.Books.{opened_over, with_plan, without_plan};
    ghost use Rattle.plan_model.specs.GoodBook.{MayOpen};
    ghost use Rattle.book_core.specs.Opening.{Applies, IsOpenFault};

    /// The store with nothing open.
    pub fn new(alloc: Global, tables: Tables) -> Self
        requires { IsGood tables.world }
        ensures { result ≡ opened_over tables.world }
    {
        books_stay_good();
        let given = tables.numbers();
        Book {
            tables,
            locks: Locks::new(alloc),
            opened: BTreeMap::new(alloc),
            given,
        }
    }

    /// Opens the plan at the seat, unless another seat holds one of its rows. All memory that applying it needs is taken
    /// here.
    ///
    /// Refused is `Locked`, or `NoMemory` where no row is held.
    pub fn open_plan(&mut self, seat: u32, plan: Plan) -> Result<(), Refused>
        requires seat { seat < 64 }
        requires plan { MayOpen self.old seat plan }
        ensures opened { OnOk result (self.new ≡ with_plan self.old seat plan) }
        ensures free { OnOk result (locked self.old plan.rows ≡ None) }
        ensures refused { IfErr result (IsOpenFault (locked self.old plan.rows)) }
        ensures kept { OnErr result (self.new ≡ self.old) }
    {
        books_stay_good();
        let Plan { tx, rows, answer } = plan;
        let given = given_by(self.given, &tx);
        match self.locks.try_take(seat, rows) {
            Ok(()) => {}
            Err(fault) => return Err(refusal(fault)),
        }
        match keep(
            &mut self.tables,
            &mut self.opened,
            seat,
            Opened { tx, answer },
        ) {
            Ok(()) => {
                self.given = given;
                Ok(())
            }
            Err(NoMemory) => {
                self.locks.free(seat);
                Err(Refused::NoMemory)
            }
        }
    }

    /// Ends the plan that is open at the seat, if there is one. Nothing of it is applied, and the numbers that it names stay
    /// given. It takes no memory.
    pub fn close_plan(&mut self, seat: u32)
        ensures { self.new ≡ without_plan self.old seat }
    {
        books_stay_good();
        if let Some(plan) = let_go(&mut self.locks, &mut self.opened, seat) {
            give_up(&mut self.tables, plan);
        }
    }

    /// Applies the plan that is open at the seat, and ends it: its answer. It takes no memory.
    pub fn apply_plan(&mut self, seat: u32) -> Answer
        requires { IsSome (map.get self.old.open_plans seat) }
        ensures { Applies self.old seat self.new result }
    {
        books_stay_good();
        match let_go(&mut self.locks, &mut self.opened, seat) {
            Some(plan) => {
                self.tables.apply(plan.tx);
                plan.answer
            }
            None => unreachable!(),
        }
    }
}

// Keeps the plan at its seat, and room in the tables for it, or leaves all as it was.
fn keep(
    tables: &mut Tables,
    opened: &mut BTreeMap<u32, Opened>,
    seat: u32,
    plan: Opened,
) -> Result<(), NoMemory>
    requires vacant { get nat_cmp opened.old seat ≡ None }
    requires few { planned_in opened.old.entries < 2 ^ 63 }
    ensures opened { OnOk result (Updates nat_cmp opened.old opened.new seat (Some plan)) }
    ensures ordered { OnOk result (IsOrdered nat_cmp opened.new) }
    ensures few { OnOk result (planned_in opened.new.entries < 2 ^ 63) }
    ensures more { OnOk result (planned_in opened.new.entries ≡ planned_in opened.old.entries + length plan.tx.steps) }
    ensures room { OnOk result (tables.new.spare ≡ tables.old.spare + length plan.tx.steps) }
    ensures world { tables.new.world ≡ tables.old.world }
    ensures kept { OnErr result (IsUnchanged opened.old opened.new) }
    ensures kept_room { OnErr result (tables.new.spare ≡ tables.old.spare) }
{
    if MOST - count_in(opened, Counted::Any) < plan.tx.steps.len() as u64 {
        return Err(NoMemory);
    }
    tables.reserve_for(&plan.tx)?;
    match opened.insert(seat, plan) {
        Ok(_) => Ok(()),
        Err(failed) => {
            let (_, plan) = failed.value;
            tables.release(&plan.tx);
            Err(NoMemory)
        }
    }
}

// The tables need no room for the plan.
fn give_up(tables: &mut Tables, plan: Opened)
    requires { length plan.tx.steps ≤ tables.old.spare }
    ensures world { tables.new.world ≡ tables.old.world }
    ensures spare { tables.new.spare + length plan.tx.steps ≡ tables.old.spare }
{
    tables.release(&plan.tx);
}
