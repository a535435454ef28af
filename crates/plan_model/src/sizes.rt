ghost use Rattle.std.specs.Prelude.{◌≡◌, ◌≤◌, length, Ok};
ghost use Rattle.job_states.specs.declared.command.Command.{Command};
ghost use Rattle.plan_model.specs.GoodScene.{IsGoodScene, IsWithinRanges};
ghost use Rattle.plan_model.specs.JobCommands.{job_plan};
ghost use Rattle.plan_model.specs.Plans.{Plan};
ghost use Rattle.plan_model.specs.Scenes.{Scene};
ghost use Rattle.plan_model.specs.UpkeepCommands.{upkeep_plan};

/// A plan has at most 2000 transitions, as many as the journal can hold of a transaction.
pub fn plans_are_short()
    ensures jobs { (s : Scene) (c : Command) (plan : Plan)
        → IsWithinRanges s c → job_plan s c ≡ Ok plan → length plan.tx.steps ≤ 2000 }
    ensures upkeep { (s : Scene) (c : Command) (plan : Plan)
        → IsGoodScene s → upkeep_plan s c ≡ Ok plan → length plan.tx.steps ≤ 2000 }
{}
