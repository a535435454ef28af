ghost use Rattle.std.specs.Prelude.{◌≡◌, ℕ, None, Ok};
ghost use Rattle.job_states.specs.declared.command.Command.{Command};
ghost use Rattle.queue_model.specs.Map as map;
ghost use Rattle.plan_model.specs.GoodBook.{MayOpen};
ghost use Rattle.plan_model.specs.GoodScene.{IsGoodScene, IsWithinRanges};
ghost use Rattle.plan_model.specs.JobCommands.{job_plan};
ghost use Rattle.plan_model.specs.Plans.{Plan};
ghost use Rattle.plan_model.specs.Scenes.{Scene};
ghost use Rattle.plan_model.specs.UpkeepCommands.{upkeep_plan};

/// In a good scene the plan of a command that isn't refused may be opened at a seat that has nothing open. The plan of a
/// command that isn't planned here is empty.
pub fn plans_may_open()
    ensures jobs { (s : Scene) (c : Command) (plan : Plan) (seat : ℕ)
        → IsGoodScene s → IsWithinRanges s c → map.get s.book.open_plans seat ≡ None → job_plan s c ≡ Ok plan → MayOpen s.book seat plan }
    ensures upkeep { (s : Scene) (c : Command) (plan : Plan) (seat : ℕ)
        → IsGoodScene s → IsWithinRanges s c → map.get s.book.open_plans seat ≡ None → upkeep_plan s c ≡ Ok plan → MayOpen s.book seat plan }
{}
