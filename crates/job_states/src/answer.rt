use crate::{JobId, List, Moment, Name, Pid, Row, Stage, Text};

/// A job's state as an answer reports it.
#[derive(Clone, Copy)]
pub enum Outcome {
    Ready,
    Scheduled,
    Blocked,
    Discarded,
    Failed,
    Finished,
}

/// What became of a job that was asked for; a discarded one has no number.
#[derive(Clone, Copy)]
pub struct Made {
    pub id: Option<JobId>,
    pub state: Outcome,
}

/// A claimed job as its worker gets it.
#[derive(Drop)]
pub struct Polled {
    pub active_id: Name,
    pub class: Name,
    pub envelope: Text,
    pub executions: u32,
    pub id: JobId,
    pub priority: i32,
    pub queue: Name,
}

/// The answer to a command that was accepted.
#[derive(Drop)]
pub enum Answer {
    /// To an enqueue, and to a task that is run by hand.
    Enqueued(Made),
    Bulk(List<Made>),
    Polled(List<Polled>),
    Done {
        id: JobId,
        unblocked: Option<JobId>,
    },
    Raised {
        id: JobId,
        /// The copy that tries again.
        next: Option<JobId>,
        state: Outcome,
        unblocked: Option<JobId>,
    },
    Released {
        id: JobId,
    },
    Retried {
        id: JobId,
        state: Outcome,
    },
    Discarded {
        id: JobId,
        unblocked: Option<JobId>,
    },
    /// How many jobs or keys a command changed.
    Count {
        count: u64,
    },
    /// To a pause and to a resume.
    Paused {
        paused: bool,
        queue: Name,
    },
    Registered {
        pid: Pid,
    },
    Beaten {
        pid: Pid,
    },
    Deregistered {
        pid: Pid,
        released: u64,
    },
    Pruned {
        failed: u64,
        pid: Option<Pid>,
    },
    Ticked {
        id: Option<JobId>,
        run_at: Moment,
        state: Outcome,
    },
    NotDue,
}

/// Why a command was refused.
#[derive(Drop)]
pub enum Refused {
    /// The class of the job at this place of the command isn't in the settings.
    UnknownClass { index: u32, class: Name },
    /// No concurrency key can be made of the job's argument.
    KeyRefused { index: u32 },
    /// The store keeps this many jobs, or processes, and has no room for those asked for.
    Full { kept: u64 },
    /// The process would have more than 500 claims; it has this many.
    ClaimLimit { pid: Pid, held: u64 },
    /// `next` is the number that the next job gets.
    NoSuchJob { id: u64, next: u64 },
    WrongState { id: JobId, state: Stage },
    /// Another process has the claim.
    NotClaimant { id: JobId, by: Pid },
    /// `next` is the number that the next process gets.
    NoSuchProcess { pid: u64, next: u64 },
    NoSuchTask { key: Name },
    /// The task ran for this time already.
    AlreadyRun { last: Moment },
    SemaphoreClosed { key: Text },
    /// The command would need a number above 2^63; `next` is the next one of that kind.
    NumbersSpent { next: u64 },
    /// An open transaction at the seat `by` holds the row.
    Locked { row: Row, by: u32 },
    NoMemory,
}
