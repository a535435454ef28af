use crate::{Counted, JobId, JobRow, Kind, List, Moment, Name, Pid, Stage, State, Text};
use thiserror::Error;

/// The place that a transition gives a job.
#[derive(Clone, Copy)]
pub enum Put {
    /// Ready, with the generation of the permit that it takes.
    Ready(Option<u64>),
    Scheduled(Moment),
    Blocked(Moment),
    /// The job goes away.
    Away,
}

/// What a failure leaves in a job's row.
#[derive(Drop)]
pub struct Counters {
    pub executions: u32,
    pub counts: List<Counted>,
}

/// One change of the store.
#[derive(Drop)]
pub enum Transition {
    Enqueue {
        row: JobRow,
        put: Put,
    },
    Dispatch {
        id: JobId,
        put: Put,
    },
    Claim {
        id: JobId,
        pid: Pid,
    },
    Done {
        id: JobId,
    },
    Fail {
        id: JobId,
        error: Name,
        message: Text,
        counters: Option<Counters>,
    },
    Release {
        id: JobId,
    },
    Unblock {
        id: JobId,
        generation: u64,
    },
    Retry {
        id: JobId,
        put: Put,
    },
    Discard {
        id: JobId,
    },
    Clear {
        id: JobId,
    },
    Register {
        pid: Pid,
        kind: Kind,
        name: Name,
    },
    Beat {
        pid: Pid,
    },
    Deregister {
        pid: Pid,
    },
    Pause {
        queue: Name,
    },
    Resume {
        queue: Name,
    },
    Expire {
        key: Text,
    },
    /// A task's run of this time, with the job that it made.
    Run {
        task: Name,
        time: Moment,
        id: Option<JobId>,
    },
}

/// A job isn't in the state that a transition takes it from.
#[derive(Clone, Copy, Debug, Error)]
#[error("job {id} is not in the state that the transition takes it from")]
pub struct WrongState {
    pub id: JobId,
    /// Where it is in place of that, if it is there.
    pub state: Option<Stage>,
}

impl Transition {
    ghost use Rattle.std.specs.Prelude.{◌≡◌, option_map};
    ghost use Rattle.std.specs.Option.{option_copied};
    ghost use Rattle.job_states.specs.States.{stage_of, taken_from, check_of};

    /// Is the state before, if there is such a job, the one that a transition of a job takes it from? Those of processes,
    /// queues, keys and tasks take no job from a state. It takes no memory.
    pub fn check(&self, from: Option<&State>) -> Result<(), WrongState>
        ensures { result ≡ check_of self.now (option_map stage_of (option_copied from.entry)) }
    {
        let state = from.map(|state| state.stage());
        match self.taken_from(state) {
            Some((id, false)) => Err(WrongState { id, state }),
            _ => Ok(()),
        }
    }

    // The job that the transition moves, and whether this is the stage that it takes it from.
    fn taken_from(&self, stage: Option<Stage>) -> Option<(JobId, bool)>
        ensures { result ≡ taken_from stage self.now }
    {
        Some(match self {
            Transition::Enqueue { row, .. } => (row.id, stage.is_none()),
            Transition::Dispatch { id, .. } => (*id, matches!(stage, Some(Stage::Scheduled))),
            Transition::Claim { id, .. } => (*id, matches!(stage, Some(Stage::Ready))),
            Transition::Done { id } | Transition::Fail { id, .. } | Transition::Release { id } => {
                (*id, matches!(stage, Some(Stage::Claimed)))
            }
            Transition::Unblock { id, .. } => (*id, matches!(stage, Some(Stage::Blocked))),
            Transition::Retry { id, .. } => (*id, matches!(stage, Some(Stage::Failed))),
            Transition::Discard { id } => (
                *id,
                matches!(
                    stage,
                    Some(Stage::Scheduled | Stage::Ready | Stage::Blocked | Stage::Failed)
                ),
            ),
            Transition::Clear { id } => (*id, matches!(stage, Some(Stage::Finished))),
            _ => return None,
        })
    }
}

/// Changes that are made together, at one moment.
#[derive(Drop)]
pub struct Transaction {
    pub moment: Moment,
    /// 1 to 2000 of them.
    pub steps: List<Transition>,
}
