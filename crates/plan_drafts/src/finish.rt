//! A draft becomes a plan.
ghost use Rattle.std.specs.Prelude.{◌≡◌, [], ◌∷◌, IfOk, None};
ghost use Rattle.job_states.specs.Judged.{Gives};
ghost use Rattle.plan_model.specs.Planned.{drafted, plan_with, planned};
ghost use Rattle.plan_model.specs.Plans.{IsTold};
ghost use Rattle.plan_model.specs.Refusals as refusals;
ghost use Rattle.plan_model.specs.Rows as model;
ghost use Rattle.plan_model.specs.Scenes.{Scene};
ghost use Rattle.plan_drafts.specs.Drafting.{IsBegunIn};
ghost use Rattle.plan_drafts.specs.Left as spec;
ghost use Rattle.row_locks.specs.Locks as locks;

use crate::{Draft, Pushed};
use book_core::Plan;
use job_states::{
    Answer, List, Mode, NoMemory, Refused, Row, Transaction, Transition, compare_rows,
};
use queue_model::Numbers;
use std::alloc::Global;
use std::cmp::Ordering;

// A number that is given next is at most this. The last one that is given is 2^63; the one after it says that it was.
const LAST_NEXT: u64 = (1 << 63) + 1;

impl<'a> Draft<'a> {
    /// The plan of what was pushed and held, with this answer, unless numbers are spent.
    pub fn finish(self, answer: Answer) -> Result<Plan, Refused>
        requires told { (s : Scene) → IsBegunIn s self → refusals.numbers_spent s self.draft ≡ None → IsTold (plan_with s (drafted self.draft answer)) }
        ensures { (s : Scene) → IsBegunIn s self.entry → Gives Refused.NoMemory result (planned s [] (drafted self.entry.draft answer)) }
    {
        let Draft {
            moment,
            first,
            given,
            pushed,
            rows,
            ..
        } = self;
        if let Some(refused) = numbers_spent(&first, &given) {
            return Err(refused);
        }
        let alloc = *rows.allocator();
        let steps = steps_of(alloc, pushed).map_err(|_| Refused::NoMemory)?;
        let tx = Transaction { moment, steps };
        Ok(Plan::new(tx, in_order(rows), answer))
    }
}

// Of the first kind of which a number above 2^63 would be given, which one is given next.
fn numbers_spent(first: &Numbers, given: &Numbers) -> Option<Refused>
    ensures { result ≡ refusals.first_met (refusals.spent first.now.job given.now.job ∷ refusals.spent first.now.pid given.now.pid ∷ refusals.spent first.now.generation given.now.generation ∷ []) }
{
    spent(first.job, given.job)
        .or(spent(first.pid, given.pid))
        .or(spent(first.generation, given.generation))
}

fn spent(before: u64, after: u64) -> Option<Refused>
    ensures { result ≡ refusals.spent before after }
{
    if before < after && LAST_NEXT < after {
        Some(Refused::NumbersSpent { next: before })
    } else {
        None
    }
}

fn steps_of(alloc: Global, pushed: Vec<Pushed>) -> Result<List<Transition>, NoMemory>
    ensures { IfOk result (λ steps. steps ≡ spec.steps_of pushed.items) }
{
    let steps: Vec<Transition> = pushed.into_iter().map(|pushed| pushed.step).collect(alloc)?;
    Ok(List::of(steps))
}

// The rows in their order, each once: one that is held in both modes is held alone.
fn in_order(mut rows: Vec<(Row, Mode)>) -> Vec<(Row, Mode)>
    ensures { result.items ≡ model.in_order rows.items }
{
    rows.sort_unstable_by(|a, b| compare(a, b));
    rows.dedup_by(|later, kept| compare_rows(&later.0, &kept.0).is_eq());
    rows
}

// By row, and of a row in both modes `Alone` first.
fn compare(a: &(Row, Mode), b: &(Row, Mode)) -> Ordering
    ensures { result ≡ locks.held_cmp a.now b.now }
{
    compare_rows(&a.0, &b.0).then(rank(a.1).cmp(&rank(b.1)))
}

fn rank(mode: Mode) -> u8
    ensures { result ≡ locks.rank mode }
{
    match mode {
        Mode::Alone => 0,
        Mode::Shared => 1,
    }
}
