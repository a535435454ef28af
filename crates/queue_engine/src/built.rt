//! Which commands are about jobs, and which can be begun so far.
ghost use Rattle.std.specs.Prelude.{◌≡◌};
ghost use Rattle.queue_engine.specs.Built as spec;
ghost use Rattle.situation_model.specs.Situations as situation;

use job_states::Command;

/// Can the command be begun so far?
pub fn is_built(command: &Command) -> bool
    ensures { result ≡ spec.is_built command.now }
{
    !matches!(
        command,
        Command::RetryMany { .. }
            | Command::DiscardMany { .. }
            | Command::Tick { .. }
            | Command::RunNow { .. }
    )
}

// All others are those of maintenance.
pub(crate) fn is_about_jobs(command: &Command) -> bool
    ensures { result ≡ situation.is_about_jobs command.now }
{
    matches!(
        command,
        Command::Enqueue { .. }
            | Command::Bulk { .. }
            | Command::Poll { .. }
            | Command::Done { .. }
            | Command::Raised { .. }
            | Command::Release { .. }
            | Command::Retry { .. }
            | Command::RetryMany { .. }
            | Command::Discard { .. }
            | Command::DiscardMany { .. }
            | Command::Pause { .. }
            | Command::Resume { .. }
    )
}
