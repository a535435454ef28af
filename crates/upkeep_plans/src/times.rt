ghost use Rattle.std.specs.Prelude.{◌≡◌, ◌≤◌};
ghost use Rattle.plan_model.specs.UpkeepCommands as model;

/// So many seconds in microseconds.
pub fn micros(seconds: u64) -> u64
    requires { seconds ≤ 31_536_000 }
    ensures { result ≡ model.seconds seconds }
{
    seconds * 1_000_000
}
