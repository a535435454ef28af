ghost use Rattle.std.specs.Prelude.{◌≡◌};
ghost use Rattle.std.proofs.Common.{rules};
ghost use Rattle.job_states.specs.RowOrder.{row_cmp};

use crate::{Copied, JobId, Name, Pid, Text};
use std::cmp::Ordering;
use std::fmt;

/// What a planned transaction can hold. Rows are ordered by kind, in the order below, and then by number or bytes.
#[derive(Clone, Debug, PartialEq, Eq, PartialOrd, Ord, Drop)]
pub enum Row {
    Job(JobId),
    /// A semaphore's key.
    Key(Text),
    Process(Pid),
    Queue(Name),
    Task(Name),
}

impl Copied for Row {
    ghost exact = { Prim.search rules };
}

impl fmt::Display for Row {
    fn fmt<W: fmt::Write>(&self, f: &mut fmt::Formatter<W>) -> fmt::Result {
        match self {
            Row::Job(id) => write!(f, "job {id}"),
            Row::Key(key) => write!(f, "key {key}"),
            Row::Process(pid) => write!(f, "process {pid}"),
            Row::Queue(queue) => write!(f, "queue {queue}"),
            Row::Task(task) => write!(f, "task {task}"),
        }
    }
}

/// The order of two rows: by kind, and then by number or bytes.
pub fn compare_rows(a: &Row, b: &Row) -> Ordering
    ensures { result ≡ row_cmp a.now b.now }
{
    a.cmp(b)
}

/// How a row is held.
#[derive(Clone, Copy, Debug, PartialEq, Eq)]
pub enum Mode {
    /// Beside others that share it.
    Shared,
    Alone,
}
