use crate::Found;
use job_states::Moment;
use semaphores::Sem;
use std::marker::Model;

/// What stands at the rows that a transition holds, as far as the table reads it.
#[derive(Drop)]
pub struct Seen<'a> {
    pub job: Option<Found<'a>>,
    /// At the key.
    pub semaphore: Option<Sem>,
    pub is_registered: bool,
    pub is_paused: bool,
    /// Of the task.
    pub last_run: Option<Moment>,
}

impl<'a> Model for Seen<'a> {
    ghost use Rattle.transition_table.specs.Seen as spec;

    ghost Value = { spec.Seen };

    ghost view = { λ s. record { job = s.job; semaphore = s.semaphore; is_registered = s.is_registered; is_paused = s.is_paused; last_run = s.last_run } };
}

/// What decides about a transition.
#[derive(Drop)]
pub struct Sight<'a> {
    pub rows: Seen<'a>,
    /// A semaphore stands at the key, or no job holds a permit of the key and of the generation that the transition
    /// names, or it names none.
    pub is_fresh: bool,
    /// How many jobs the process has claimed.
    pub claims: u64,
}

impl<'a> Model for Sight<'a> {
    ghost use Rattle.transition_table.specs.Seen as spec;

    ghost Value = { spec.Sight };

    ghost view = { λ s. record { rows = s.rows; is_fresh = s.is_fresh; claims = s.claims } };
}
