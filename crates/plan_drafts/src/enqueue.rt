//! A new job.
ghost use Rattle.std.specs.Prelude.{◌≡◌, IfOk};
ghost use Rattle.transition_table.specs.Seen.{IsFit};
ghost use Rattle.plan_model.specs.Drafts as model;
ghost use Rattle.plan_drafts.specs.Drafting.{GivesDraft};

use crate::Draft;
use job_states::{JobRow, Made, Moment, NoMemory, Outcome, Put, Transition};
use plan_model::pushes_are_allowed;

impl<'a> Draft<'a> {
    /// The row becomes a job with the next number, where its own moment or its key puts it; where the key is closed and
    /// discards it, nothing is pushed. After want of memory the draft is no longer of use.
    pub fn enqueue(&mut self, mut row: JobRow, at: Option<Moment>) -> Result<Made, NoMemory>
        requires fit { IsFit row.limited }
        ensures { IfOk result (GivesDraft self.old self.new (model.enqueue self.old.moment row at self.old.draft)) }
    {
        let put = self.place_for(at, row.limited.as_ref());
        let state = outcome_of(put);
        if let Put::Away = put {
            return Ok(Made { id: None, state });
        }
        self.is_fresh();
        pushes_are_allowed();
        let id = self.given.job;
        row.id = id;
        self.push(Transition::Enqueue { row, put })?;
        Ok(Made {
            id: Some(id),
            state,
        })
    }
}

/// What becomes of a job that is put there.
pub fn outcome_of(put: Put) -> Outcome
    ensures { result ≡ model.outcome_of put }
{
    match put {
        Put::Ready(_) => Outcome::Ready,
        Put::Scheduled(_) => Outcome::Scheduled,
        Put::Blocked(_) => Outcome::Blocked,
        Put::Away => Outcome::Discarded,
    }
}
