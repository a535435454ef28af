//! The job store as one value, and what each transition makes of it: the definitions that every promise of the store is
//! made of, and laws over them.
#![tactic(auto)]

mod examples;
mod laws;

pub use examples::worked_examples;
use job_states::{JobRow, Kind, Moment, Name, State};
pub use laws::{
    empty_is_good, legal_passes_check, plans_stay_legal, tasks_run_once, worlds_stay_good,
};

/// What a job is, and where it stands.
#[derive(Drop)]
pub struct Job {
    pub row: JobRow,
    pub state: State,
}

/// A process that is registered.
#[derive(Drop)]
pub struct Process {
    pub kind: Kind,
    pub name: Name,
    /// The moment at which it was registered.
    pub since: Moment,
    /// The moment of its last heartbeat.
    pub beat: Moment,
}

/// The numbers that are given next, each at most 2^63 + 1, and the last moment.
#[derive(Clone, Copy)]
pub struct Numbers {
    pub job: u64,
    pub pid: u64,
    pub generation: u64,
    pub moment: Moment,
}
