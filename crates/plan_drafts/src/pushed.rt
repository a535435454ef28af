ghost use Rattle.std.specs.Prelude.{◌≡◌, ◌==◌};
ghost use Rattle.std.specs.Str.{bytes_eq};

use job_states::{JobId, Text, Transition};
use semaphores::Sem;
use transition_table::Stand;

/// A transition of a draft, and what it leaves.
#[derive(Drop)]
pub struct Pushed {
    pub step: Transition,
    /// The job that it moves, and where that then stands; `None` where it is gone.
    pub job: Option<(JobId, Option<Stand>)>,
    /// The key that it holds, and the semaphore that then stands there.
    pub semaphore: Option<(Text, Option<Sem>)>,
}

impl Pushed {
    ghost use Rattle.plan_drafts.specs.Left.{left_at};

    /// Where the job stands after it, which stood here before.
    pub fn stand_then(&self, id: JobId, now: Option<Stand>) -> Option<Stand>
        ensures { result ≡ left_at (λ other. other == id) self.now.job now }
    {
        match self.job {
            Some((job, stand)) if job == id => stand,
            _ => now,
        }
    }

    /// The semaphore of the key after it, of the one before it.
    pub fn semaphore_then(&self, key: &Text, now: Option<Sem>) -> Option<Sem>
        ensures { result ≡ left_at (λ other. bytes_eq other key.now) self.now.semaphore now }
    {
        match &self.semaphore {
            Some((held, semaphore)) if *held == *key => *semaphore,
            _ => now,
        }
    }
}
