//! A job's end, and the job that is unblocked for the permit that it gives back.
ghost use Rattle.std.specs.Prelude.{◌≡◌, Some, IsSome, IsTrue, All, IfOk, OnOk, option_map};
ghost use Rattle.std.specs.Option.{ForSome, option_copied};
ghost use Rattle.job_states.specs.Moment.{IsMoment};
ghost use Rattle.job_states.specs.declared.transition.Transition.TheVariants.{Unblock};
ghost use Rattle.queue_model.specs.GoodWorld.{IsGood};
ghost use Rattle.queue_model.specs.Map as map;
ghost use Rattle.queue_model.specs.Named.{job_named};
ghost use Rattle.queue_model.specs.declared.Job.{Job};
ghost use Rattle.plan_model.specs.Drafts as model;
ghost use Rattle.plan_model.specs.GoodDraft.{IsAllowed, is_end};
ghost use Rattle.plan_model.specs.Orders as order;
ghost use Rattle.plan_drafts.specs.Drafting.{GivesDraft};
ghost use Rattle.plan_drafts.specs.Ends.{IsEnding, first_waiting, waits};

use crate::Draft;
use job_states::{JobId, NoMemory, Text, Transition};
use job_walks::Waiting;
use plan_model::{ends_let_go, moves_are_seen};
use semaphores::gives;
use transition_table::Stand;

impl<'a> Draft<'a> {
    /// Ends the job, which was there at the begin, by its Done, Fail or Discard. Where a permit comes back to its key, the
    /// first job that waits for it is unblocked: which one. So far the draft has nothing but such ends. After want of memory
    /// it is no longer of use.
    pub fn end(&mut self, id: JobId, step: Transition) -> Result<Option<JobId>, NoMemory>
        requires end { IsTrue (is_end step) }
        requires named { job_named step ≡ Some id }
        requires allowed { IsAllowed self.old.moment self.old.draft step }
        requires known { IsSome (map.get self.old.begun.world.jobs id) }
        requires good { IsGood self.old.draft.world }
        requires ends { All IsEnding self.old.draft.steps }
        ensures ended { IfOk result (GivesDraft self.old self.new (model.end self.old.moment id step self.old.draft)) }
        ensures good { OnOk result (IsGood self.new.draft.world) }
        ensures ends { OnOk result (All IsEnding self.new.draft.steps) }
    {
        self.began_well();
        ends_let_go();
        moves_are_seen();
        let key = self.key_given(id);
        self.push(step)?;
        match key {
            Some(key) => self.unblock(key),
            None => Ok(None),
        }
    }

    // The tables are good, and the moment is one. It does nothing: its contract is the statement.
    fn began_well(&self)
        ensures good { IsGood self.now.begun.world }
        ensures moment { IsMoment self.now.moment }
    {
        let _moment = &self.moment;
    }

    // The key to which a permit comes back where the job ends now, which was there at the begin.
    fn key_given(&self, id: JobId) -> Option<&'a Text>
        requires { IsSome (map.get self.now.begun.world.jobs id) }
        ensures { option_copied result ≡ model.key_given self.now.draft.world id }
    {
        let found = self.found(id)?;
        let limited = found.limited?;
        let generation = found.stand.permit()?;
        gives(&self.semaphore(&limited.key), generation).then_some(&limited.key)
    }

    // The first job that waits for the key becomes ready: which one.
    fn unblock(&mut self, key: &Text) -> Result<Option<JobId>, NoMemory>
        requires good { IsGood self.old.draft.world }
        requires ends { All IsEnding self.old.draft.steps }
        requires allowed { (j : Job) → order.first_blocked self.old.draft.world key.now ≡ Some j
            → IsAllowed self.old.moment self.old.draft (Unblock j.row.id (model.generation_at self.old.draft key.now)) }
        ensures unblocked { IfOk result (GivesDraft self.old self.new (model.unblock self.old.moment (Some key.now) self.old.draft)) }
        ensures ends { OnOk result (All IsEnding self.new.draft.steps) }
    {
        let Some(id) = self.first_blocked(key) else {
            return Ok(None);
        };
        let generation = self.generation_at(key);
        self.push(Transition::Unblock { id, generation })?;
        Ok(Some(id))
    }

    // The first job that waits for the key, of those that waited at the begin: no end makes a job wait.
    fn first_blocked(&self, key: &Text) -> Option<JobId>
        requires good { IsGood self.now.draft.world }
        requires ends { All IsEnding self.now.draft.steps }
        ensures first { result ≡ option_map (λ j. j.row.id) (order.first_blocked self.now.draft.world key.now) }
        ensures known { ForSome result (λ id. IsSome (map.get self.now.begun.world.jobs id)) }
    {
        ends_let_go();
        self.first_waiting(Waiting::new(self.tables, key))
    }

    // The first of these jobs, which were there at the begin, that still waits.
    fn first_waiting(&self, mut jobs: Waiting) -> Option<JobId>
        requires { All (λ j. IsSome (map.get self.now.begun.world.jobs j.row.id)) jobs }
        ensures first { result ≡ option_map (λ j. j.row.id) (first_waiting self.now.draft.world jobs.entry) }
        ensures known { ForSome result (λ id. IsSome (map.get self.now.begun.world.jobs id)) }
    {
        while let Some(job) = jobs.next_job() {
            if self.waits(job.row.id) {
                return Some(job.row.id);
            }
        }
        None
    }

    // Does the job wait for its key, which was there at the begin?
    fn waits(&self, id: JobId) -> bool
        requires { IsSome (map.get self.now.begun.world.jobs id) }
        ensures { result ≡ waits (map.get self.now.draft.world.jobs id) }
    {
        matches!(self.stand(id), Some(Stand::Blocked(_)))
    }
}
