ghost use Rattle.plan_model.specs.Examples.{PollsInOrder, PollsNoPausedQueue, PollNeedsProcess, StrangersCantEnd, NoJobToEnd, EndsOnce, KeepsFive, BulkNeedsClasses, FirstIsReady, SecondIsBlocked, EndUnblocks, OldPermitsUnblockNone, SecondIsDiscarded, RetryNeedsPermit, FirstWait, LastAttempt, PrunesInTime, DispatchMeetsSemaphore, LapsedKeysLetGo};
ghost use Rattle.plan_model.specs.Cases.{AreBegun};
ghost use Rattle.plan_model.specs.JobCases.{job_cases};
ghost use Rattle.plan_model.specs.JobCommands.{job_plan};
ghost use Rattle.plan_model.specs.UpkeepCases.{upkeep_cases};
ghost use Rattle.plan_model.specs.UpkeepCommands.{upkeep_plan};

/// What the definitions say of worked examples, and of cases that an independent model worked out.
pub fn worked_examples()
    ensures order { PollsInOrder }
    ensures paused { PollsNoPausedQueue }
    ensures process { PollNeedsProcess }
    ensures stranger { StrangersCantEnd }
    ensures no_job { NoJobToEnd }
    ensures once { EndsOnce }
    ensures kept { KeepsFive }
    ensures classes { BulkNeedsClasses }
    ensures first { FirstIsReady }
    ensures second { SecondIsBlocked }
    ensures unblocks { EndUnblocks }
    ensures generations { OldPermitsUnblockNone }
    ensures discarded { SecondIsDiscarded }
    ensures retry { RetryNeedsPermit }
    ensures wait { FirstWait }
    ensures attempts { LastAttempt }
    ensures prune { PrunesInTime }
    ensures dispatch { DispatchMeetsSemaphore }
    ensures lapsed { LapsedKeysLetGo }
    ensures job_cases { AreBegun job_plan job_cases }
    ensures upkeep_cases { AreBegun upkeep_plan upkeep_cases }
{}
