use crate::{JobId, JobRow, Kind, Moment, Name, Pid, State, Text};

/// One item of a snapshot of the store.
#[derive(Drop)]
pub enum Item {
    Job {
        row: JobRow,
        state: State,
    },
    Semaphore {
        key: Text,
        generation: u64,
        limit: u32,
        free: u32,
        expires: u64,
    },
    Process {
        pid: Pid,
        kind: Kind,
        name: Name,
        since: Moment,
        beat: Moment,
    },
    Paused {
        queue: Name,
    },
    /// A task's last run.
    Task {
        task: Name,
        last: Moment,
    },
    /// A recurring execution: the job that a task's run of this time made.
    Recurring {
        task: Name,
        time: Moment,
        id: JobId,
    },
    /// The next numbers of jobs, processes and generations, and the last moment.
    Numbers {
        job: u64,
        pid: u64,
        generation: u64,
        moment: Moment,
    },
}
