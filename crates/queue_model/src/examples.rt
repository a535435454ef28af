ghost use Rattle.queue_model.specs.Examples.{LimitOfOne, Generations, RetryByHand, DiscardUnblocks, DiscardedDispatch, ClaimLimit, Runs, Compatible, AreReplayed, AreRefused};
ghost use Rattle.queue_model.specs.Histories.{histories, refusals};

/// What the definitions say of worked examples, and of histories that an independent model made.
pub fn worked_examples()
    ensures limit_of_one { LimitOfOne }
    ensures generations { Generations }
    ensures retry_by_hand { RetryByHand }
    ensures discard { DiscardUnblocks }
    ensures dispatch { DiscardedDispatch }
    ensures claims { ClaimLimit }
    ensures runs { Runs }
    ensures footprints { Compatible }
    ensures legal { AreReplayed histories }
    ensures refused { AreRefused refusals }
{}
