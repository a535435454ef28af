ghost use Rattle.std.specs.Prelude.{◌≡◌, ◌↔◌, ℕ, List, None, Some, true};
ghost use Rattle.job_states.specs.declared.row.Mode.{Mode};
ghost use Rattle.job_states.specs.declared.row.Row.{Row};
ghost use Rattle.queue_model.specs.GoodWorld.{IsGood};
ghost use Rattle.queue_model.specs.Map as map;
ghost use Rattle.queue_model.specs.Replay.{after};
ghost use Rattle.queue_model.specs.World.{World};
ghost use Rattle.plan_model.specs.Begins.{locked};
ghost use Rattle.plan_model.specs.Books.{Book, opened_over, with_applied, with_plan, without_plan};
ghost use Rattle.plan_model.specs.GoodBook.{IsGoodBook, MayOpen};
ghost use Rattle.plan_model.specs.Plans.{Plan};
ghost use Rattle.plan_model.specs.Scenes.{are_free};

use queue_model::{plans_stay_legal, worlds_stay_good};

/// A book stays good, whatever is opened, applied and given up: each open plan is still legal in the world as it then is.
pub fn books_stay_good()
    ensures opened { (w : World) → IsGood w → IsGoodBook (opened_over w) }
    ensures with_plan { (b : Book) (seat : ℕ) (plan : Plan)
        → IsGoodBook b → MayOpen b seat plan → locked b plan.rows ≡ None → IsGoodBook (with_plan b seat plan) }
    ensures applied { (b : Book) (seat : ℕ) (plan : Plan) (end : World)
        → IsGoodBook b → map.get b.open_plans seat ≡ Some plan → after b.world plan.tx ≡ Some end
        → IsGoodBook (with_applied b seat end) }
    ensures without_plan { (b : Book) (seat : ℕ) → IsGoodBook b → IsGoodBook (without_plan b seat) }

    // Nothing is locked exactly where all rows are free.
    ensures free { (b : Book) (rows : List (Row × Mode)) → (locked b rows ≡ None) ↔ (are_free b rows ≡ true) }
{
    worlds_stay_good();
    plans_stay_legal();
}
