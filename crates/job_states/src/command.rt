use crate::{Bytes, Counted, List, Moment, Name, Stage, Text};

/// A job that is asked for.
#[derive(Drop)]
pub struct NewJob {
    pub class: Name,
    pub queue: Name,
    pub priority: i32,
    pub active_id: Name,
    pub envelope: Bytes,
    pub executions: u32,
    pub counts: List<Counted>,
    /// The moment at which it becomes due.
    pub at: Option<Moment>,
    /// The first 16 arguments.
    pub args: List<Arg>,
}

/// An argument of a job, as far as a concurrency key can be made of it.
#[derive(Drop)]
pub enum Arg {
    Null,
    Text(Text),
    /// From -2^63 to 2^64-1.
    Whole(i128),
    Other,
}

/// The kind of a process.
#[derive(Clone, Copy)]
pub enum Kind {
    Worker,
    Dispatcher,
    Scheduler,
    Supervisor,
}

/// What callers, workers, dispatchers and maintenance ask for.
#[derive(Drop)]
pub enum Command {
    Enqueue {
        job: NewJob,
    },
    /// 1 to 100 jobs.
    Bulk {
        jobs: List<NewJob>,
    },
    Poll {
        pid: u64,
        /// A queue list: 1 to 64 items of 1 to 128 bytes.
        list: List<Text>,
        /// 1 to 100.
        limit: u32,
    },
    Done {
        pid: u64,
        id: u64,
    },
    Raised {
        pid: u64,
        id: u64,
        error: Name,
        message: Text,
    },
    Release {
        pid: u64,
        id: u64,
    },
    Retry {
        id: u64,
    },
    RetryMany {
        queue: Option<Name>,
        class: Option<Name>,
    },
    Discard {
        id: u64,
    },
    DiscardMany {
        /// Any but claimed and finished.
        status: Stage,
        queue: Option<Name>,
        class: Option<Name>,
    },
    Pause {
        queue: Name,
    },
    Resume {
        queue: Name,
    },
    Register {
        kind: Kind,
        name: Name,
    },
    Beat {
        pid: u64,
    },
    Deregister {
        pid: u64,
    },
    Dispatch,
    Expire,
    Unblock,
    Prune,
    Tick {
        pid: u64,
        task: Name,
    },
    RunNow {
        task: Name,
    },
    ClearFinished,
}
