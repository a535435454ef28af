ghost use Rattle.situation_model.specs.Examples.{PollsLeaveOutHeld, KeysAreLocked, FaultsLeaveDoubt, ReopeningsTakeIn, ReopeningsLeaveOut};

/// What the definitions say of worked examples.
pub fn worked_examples()
    ensures polls { PollsLeaveOutHeld }
    ensures locked { KeysAreLocked }
    ensures doubt { FaultsLeaveDoubt }
    ensures taken_in { ReopeningsTakeIn }
    ensures left_out { ReopeningsLeaveOut }
{}
