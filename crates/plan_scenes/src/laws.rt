ghost use Rattle.std.specs.Prelude.{◌≡◌, [], List, Option, None, Some, Result, Ok, Err};
ghost use Rattle.job_states.specs.Judged.{Gives};
ghost use Rattle.job_states.specs.declared.answer.Answer.{Answer};
ghost use Rattle.job_states.specs.declared.answer.Refused.{Refused};
ghost use Rattle.job_states.specs.declared.answer.Refused.TheVariants as refused;
ghost use Rattle.job_states.specs.declared.command.Command.{Command};
ghost use Rattle.plan_drafts.specs.Drafting.{Drafting, IsBegunIn};
ghost use Rattle.plan_model.specs.GoodScene.{IsGoodScene, IsWithinRanges};
ghost use Rattle.plan_model.specs.JobCommands as job;
ghost use Rattle.plan_model.specs.Planned.{Drafted, drafted, plan_with, planned};
ghost use Rattle.plan_model.specs.Plans.{IsTold, Plan};
ghost use Rattle.plan_model.specs.Refusals.{first_met, numbers_spent};
ghost use Rattle.plan_model.specs.Scenes.{Scene};
ghost use Rattle.plan_model.specs.UpkeepCommands as upkeep;
ghost use Rattle.plan_scenes.specs.Begun.{ComesTo};

use plan_model::plans_may_open;

/// A draft that has come to what a command does, which isn't refused in its scene, is told of by its answer. So it may be
/// finished.
pub fn plans_are_told()
    ensures jobs { (s : Scene) (c : Command) (d : Drafting) (answer : Answer)
        → IsGoodScene s → IsWithinRanges s c → first_met (job.refusals s c) ≡ None → ComesTo s (job.does s c) d answer
        → (t : Scene) → IsBegunIn t d → numbers_spent t d.draft ≡ None → IsTold (plan_with t (drafted d.draft answer)) }
    ensures upkeep { (s : Scene) (c : Command) (d : Drafting) (answer : Answer)
        → IsGoodScene s → IsWithinRanges s c → first_met (upkeep.refusals s c) ≡ None → ComesTo s (upkeep.does s c) d answer
        → (t : Scene) → IsBegunIn t d → numbers_spent t d.draft ≡ None → IsTold (plan_with t (drafted d.draft answer)) }
{
    plans_may_open();
}

/// What comes of a command whose causes are looked for in their order: the first one that is met is its refusal, and where
/// none is, it comes to what is finished of its draft.
pub fn refusals_come_first()
    ensures met { (s : Scene) (causes : List (Option Refused)) (made : Drafted) (first : Refused)
        → first_met causes ≡ Some first → planned s causes made ≡ Err first }
    ensures finished { (s : Scene) (causes : List (Option Refused)) (made : Drafted) (d : Drafting) (answer : Answer) (result : Result Plan Refused)
        → first_met causes ≡ None → ComesTo s made d answer
        → ((t : Scene) → IsBegunIn t d → Gives refused.NoMemory result (planned t [] (drafted d.draft answer)))
        → Gives refused.NoMemory result (planned s causes made) }
{}
