use crate::{ErrorList, HasName, Index};
use cron_lines::Schedule;
use job_states::{List, Name, Text};

/// The settings. Times are in seconds, unless a name ends in `_ms`.
#[derive(Drop)]
pub struct Config {
    /// At most 1024, each with a name of its own.
    pub classes: Index<Class>,
    pub dispatcher: DispatcherKeys,
    /// At most 1024, each with a name of its own, whose parents end at `StandardError`.
    pub errors: Index<ErrorKeys>,
    pub jobs: JobsKeys,
    pub processes: ProcessKeys,
    /// At most 1024, each with a key of its own.
    pub tasks: Index<Task>,
    /// At least one, and at most 32 threads in all.
    pub workers: List<Worker>,
}

/// A class of jobs.
#[derive(Drop)]
pub struct Class {
    pub name: Name,
    pub limit: Option<Limit>,
    /// At most 16. Of those that fit an error the last one counts.
    pub rules: List<Rule>,
}

impl HasName for Class {
    ghost name_of = { λ class. class.name };

    fn name(&self) -> &Name {
        &self.name
    }
}

/// At most `to` jobs of one key of the group at a time.
#[derive(Drop)]
pub struct Limit {
    pub group: Name,
    pub key: KeyFrom,
    /// 1 to 65535.
    pub to: u32,
    /// 1 to 31536000.
    pub duration: u64,
    /// Is a job discarded where all permits of its key are taken? Else it is blocked.
    pub discard: bool,
}

/// Where a job's concurrency key comes from.
#[derive(Drop)]
pub enum KeyFrom {
    /// A text of 1 to 128 bytes.
    Fixed(Text),
    /// The job's argument of this number, 0 to 15.
    Argument(u32),
}

/// What becomes of a job that raised one of these errors.
#[derive(Drop)]
pub struct Rule {
    /// 1 to 8 errors.
    pub list: ErrorList,
    pub act: RuleAct,
}

/// What a rule does.
#[derive(Clone, Copy)]
pub enum RuleAct {
    Discard,
    Retry {
        /// 0 to 31536000; none is a wait that grows polynomially.
        wait: Option<u64>,
        /// 1 to 65535; none is without limit.
        attempts: Option<u32>,
    },
}

/// An error, and the error that it is a kind of.
#[derive(Drop)]
pub struct ErrorKeys {
    pub name: Name,
    pub parent: Name,
}

impl HasName for ErrorKeys {
    ghost name_of = { λ error. error.name };

    fn name(&self) -> &Name {
        &self.name
    }
}

/// How scheduled jobs are dispatched.
#[derive(Clone, Copy)]
pub struct DispatcherKeys {
    /// 1 to 500.
    pub batch_size: u64,
    /// 1 to 3600000.
    pub polling_ms: u64,
    /// 1 to 86400.
    pub maintenance: u64,
}

/// How many jobs are kept, and for how long those that finished.
#[derive(Clone, Copy)]
pub struct JobsKeys {
    /// 1 to 250000.
    pub kept_max: u64,
    /// 0 to 31536000.
    pub clear_after: u64,
}

/// How often a process beats, and how long it counts as alive after a beat.
#[derive(Clone, Copy)]
pub struct ProcessKeys {
    /// 1 to 86400.
    pub heartbeat: u64,
    /// 1 to 86400.
    pub alive_threshold: u64,
}

/// A task that comes round by its schedule.
#[derive(Drop)]
pub struct Task {
    pub key: Name,
    /// The class of its jobs.
    pub class: Name,
    /// As its text spells it.
    pub schedule: Schedule,
    pub schedule_text: Text,
    /// The queue of its jobs.
    pub queue: Name,
    pub priority: i32,
    pub args: List<TaskArg>,
}

impl HasName for Task {
    ghost name_of = { λ task. task.key };

    fn name(&self) -> &Name {
        &self.key
    }
}

/// An argument of a task's jobs.
#[derive(Drop)]
pub enum TaskArg {
    Text(Text),
    Whole(i64),
    Truth(bool),
}

/// A worker.
#[derive(Drop)]
pub struct Worker {
    /// A queue list: 1 to 64 items of 1 to 128 bytes.
    pub queues: List<Text>,
    /// 1 to 32.
    pub threads: u32,
    /// How many jobs it claims at once, 1 to 100.
    pub claim: u32,
    /// 1 to 3600000.
    pub polling_ms: u64,
}
