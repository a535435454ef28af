ghost use Rattle.std.proofs.Common.{rules};

use crate::{Bytes, Copied, List, Moment, Name, Text};

/// A job's number, from 1.
pub type JobId = u64;

/// A process's number, from 1.
pub type Pid = u64;

/// A job's row. What a job is stays in it; where the job stands is its [`State`].
#[derive(Clone, Drop)]
pub struct JobRow {
    pub id: JobId,
    pub class: Name,
    pub queue: Name,
    /// The smaller number comes first.
    pub priority: i32,
    /// Active Job's own id of the job.
    pub active_id: Name,
    /// The serialized job as it came: at most 8192 bytes of JSON.
    pub envelope: Bytes,
    /// How often the job was performed, at most 65535.
    pub executions: u32,
    /// How often the errors of each rule came, at most 32 of them.
    pub counts: List<Counted>,
    /// The concurrency limit that the job falls under.
    pub limited: Option<Limited>,
}

impl Copied for JobRow {
    ghost exact = { Prim.search rules };
}

/// How often the errors of one rule came.
#[derive(Clone, Drop)]
pub struct Counted {
    /// The rule's errors as a text of 1 to 1024 bytes: `[A, B]`.
    pub list: Text,
    /// At most 65535.
    pub count: u32,
}

impl Copied for Counted {
    ghost exact = { Prim.search rules };
}

/// A concurrency limit: at most `to` jobs of one key at a time.
#[derive(Clone, Drop)]
pub struct Limited {
    /// `group/text`, at most 257 bytes.
    pub key: Text,
    /// 1 to 65535.
    pub to: u32,
    /// In microseconds.
    pub duration: u64,
    /// Is a job discarded where the key is closed? Else it is blocked.
    pub discard: bool,
}

impl Copied for Limited {
    ghost exact = { Prim.search rules };
}

/// Where a job stands. The `Option<u64>` is the generation of the permit that the job holds.
#[derive(Drop)]
pub enum State {
    /// It becomes due at this moment.
    Scheduled(Moment),
    Ready(Option<u64>),
    /// It waits for its key, until this moment at the latest.
    Blocked(Moment),
    /// This process performs it.
    Claimed(Pid, Option<u64>),
    Failed {
        error: Name,
        /// At most 1024 bytes.
        message: Text,
    },
    /// It ended at this moment.
    Finished(Moment),
}

impl State {
    ghost use Rattle.std.specs.Prelude.{◌≡◌};
    ghost use Rattle.job_states.specs.States.{stage_of, permit_of};

    /// The state without its values.
    pub fn stage(&self) -> Stage
        ensures { result ≡ stage_of self.now }
    {
        match self {
            State::Scheduled(_) => Stage::Scheduled,
            State::Ready(_) => Stage::Ready,
            State::Blocked(_) => Stage::Blocked,
            State::Claimed(_, _) => Stage::Claimed,
            State::Failed { .. } => Stage::Failed,
            State::Finished(_) => Stage::Finished,
        }
    }

    /// The generation of the permit that a job in this state holds.
    pub fn permit(&self) -> Option<u64>
        ensures { result ≡ permit_of self.now }
    {
        match self {
            State::Ready(permit) | State::Claimed(_, permit) => *permit,
            _ => None,
        }
    }
}

/// The states without their values.
#[derive(Clone, Copy, Debug)]
pub enum Stage {
    Scheduled,
    Ready,
    Blocked,
    Claimed,
    Failed,
    Finished,
}
