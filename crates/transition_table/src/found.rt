ghost use Rattle.std.specs.Prelude.{◌≡◌};
ghost use Rattle.std.specs.Option.{option_copied};
ghost use Rattle.job_states.specs.States.{permit_of};
ghost use Rattle.queue_model.specs.World.{is_holder};
ghost use Rattle.queue_model.specs.declared.Job.{Job};

use job_states::{Limited, Moment, Pid, State, Text};
use std::marker::Model;

/// Where a job stands: its state without texts.
#[derive(Clone, Copy)]
pub enum Stand {
    Scheduled(Moment),
    Ready(Option<u64>),
    Blocked(Moment),
    Claimed(Pid, Option<u64>),
    Failed,
    Finished(Moment),
}

impl Stand {
    ghost use Rattle.std.specs.Prelude.{◌≡◌};
    ghost use Rattle.transition_table.specs.Seen.{permit_at, stand_of};

    /// Where a job in this state stands.
    pub fn of(state: &State) -> Stand
        ensures { result ≡ stand_of state.now }
    {
        match state {
            State::Scheduled(at) => Stand::Scheduled(*at),
            State::Ready(permit) => Stand::Ready(*permit),
            State::Blocked(until) => Stand::Blocked(*until),
            State::Claimed(pid, permit) => Stand::Claimed(*pid, *permit),
            State::Failed { .. } => Stand::Failed,
            State::Finished(at) => Stand::Finished(*at),
        }
    }

    /// The generation of the permit that a job holds which stands here.
    pub fn permit(self) -> Option<u64>
        ensures { result ≡ permit_at self }
    {
        match self {
            Stand::Ready(permit) | Stand::Claimed(_, permit) => permit,
            _ => None,
        }
    }
}

/// A job as far as the table reads it.
#[derive(Drop)]
pub struct Found<'a> {
    pub stand: Stand,
    /// The concurrency limit that the job is under.
    pub limited: Option<&'a Limited>,
}

impl<'a> Model for Found<'a> {
    ghost use Rattle.std.specs.Option.{option_copied};
    ghost use Rattle.transition_table.specs.Seen as spec;

    ghost Value = { spec.Found };

    ghost view = { λ f. record { stand = f.stand; limited = option_copied f.limited } };

    ghost invariant = { λ f. spec.IsFit (option_copied f.limited) };
}

impl<'a> Found<'a> {
    ghost use Rattle.std.specs.Prelude.{◌≡◌, IsTrue};
    ghost use Rattle.job_states.specs.Ranges.{is_limited};
    ghost use Rattle.queue_model.specs.World.{is_claimed_by, is_holder};
    ghost use Rattle.queue_model.specs.declared.Job.{Job};
    ghost use Rattle.transition_table.specs.Seen.{found};

    /// What the table reads of this job.
    pub fn of(job: &'a queue_model::Job) -> Found<'a>
        requires { IsTrue (is_limited job.now.row.limited) }
        ensures { result ≡ found job.now }
    {
        Found {
            stand: Stand::of(&job.state),
            limited: job.row.limited.as_ref(),
        }
    }

    /// Has the process claimed the job?
    pub fn is_claimed_by(&self, pid: Pid) -> bool
        ensures { (j : Job) → self.now ≡ found j → result ≡ is_claimed_by pid j }
    {
        matches!(self.stand, Stand::Claimed(by, _) if by == pid)
    }

    /// Does the job hold a permit of this key and generation?
    pub fn holds_permit(&self, key: &Text, generation: u64) -> bool
        ensures { (j : Job) → self.now ≡ found j → result ≡ is_holder key.now generation j }
    {
        holds_permit(self.limited, self.stand.permit(), key, generation)
    }
}

/// Does a job under this limit, whose permit is of the generation `permit`, hold one of this key and generation?
pub fn holds_permit(
    limited: Option<&Limited>,
    permit: Option<u64>,
    key: &Text,
    generation: u64,
) -> bool
    ensures { (j : Job) → option_copied limited.entry ≡ j.row.limited → permit ≡ permit_of j.state
        → result ≡ is_holder key.now generation j }
{
    match limited {
        Some(limited) => limited.key == *key && permit == Some(generation),
        None => false,
    }
}
