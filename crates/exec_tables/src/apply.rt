//! Transitions, judged and taken in one at a time. No call takes memory.
ghost use Rattle.std.specs.Prelude.{◌≡◌, ◌+◌, ◌≤◌, length, IsTrue, IsSome, is_some};
ghost use Rattle.std.specs.Option.{option_copied};
ghost use Rattle.queue_model.specs.Held.{holds};
ghost use Rattle.queue_model.specs.Replay as replay;
ghost use Rattle.queue_model.specs.Sights.{counted_at, sees};
ghost use Rattle.queue_model.specs.Sights as rows;
ghost use Rattle.queue_model.specs.Transitions as rules;
ghost use Rattle.queue_model.specs.World.{holders};
ghost use Rattle.transition_table.specs.Seen.{IsFit, is_fresh, job_seen, new_limit};
ghost use Rattle.transition_table.specs.Seen as table;
ghost use Rattle.exec_tables.specs.Apply.{row_at};

use crate::Tables;
use crate::jobs::Jobs;
use crate::write::{write_rows, write_semaphore};
use job_states::{JobId, Mode, Moment, Pid, Text, Transaction, Transition};
use semaphores::Sem;
use transition_table::{
    Found, Held, Seen, Sight, changes, generation_named, is_in_range, is_moment, job_named,
    key_held, note,
};

impl Tables {
    /// Judges each transition where it stands, and takes it in at once. Where one isn't legal, nothing is promised of the
    /// tables.
    pub fn try_apply(&mut self, tx: Transaction) -> bool
        requires { length tx.steps ≤ self.old.spare }
        ensures legal { result ≡ is_some (replay.after self.old.world tx) }
        ensures world { IsTrue result → replay.after self.old.world tx ≡ Some self.new.world }
        ensures spare { IsTrue result → self.new.spare + length tx.steps ≡ self.old.spare }
    {
        let Transaction { moment, steps } = tx;
        if !is_moment(moment) {
            return false;
        }
        for step in steps.into_vec() {
            if !self.take_in(moment, step) {
                return false;
            }
        }
        true
    }

    /// Takes in a transaction that is legal. It takes no memory.
    pub fn apply(&mut self, tx: Transaction)
        requires room { length tx.steps ≤ self.old.spare }
        requires legal { IsSome (replay.after self.old.world tx) }
        ensures world { replay.after self.old.world tx ≡ Some self.new.world }
        ensures spare { self.new.spare + length tx.steps ≡ self.old.spare }
    {
        self.try_apply(tx);
    }

    // Takes in the transition, if it is legal.
    fn take_in(&mut self, moment: Moment, step: Transition) -> bool
        requires { 1 ≤ self.old.spare }
        ensures legal { result ≡ is_some (rules.step self.old.world moment step) }
        ensures world { IsTrue result → rules.step self.old.world moment step ≡ Some self.new.world }
        ensures spare { IsTrue result → self.new.spare + 1 ≡ self.old.spare }
    {
        if !is_in_range(&step) {
            return false;
        }
        let Some(seen) = changes(moment, self.sight(&step), &step) else {
            return false;
        };
        let permit = permit_of(&seen.job);
        let semaphore = seen.semaphore;
        let job = found(&self.jobs, job_named(&step));
        write_semaphore(
            &mut self.semaphores,
            &mut self.blanks,
            key_held(&step, &job),
            semaphore,
        );
        note(&mut self.numbers, moment, &step);
        write_rows(
            self.blanks.allocator(),
            &mut self.jobs,
            &mut self.processes,
            &mut self.pauses,
            &mut self.runs,
            moment,
            step,
            permit,
        );
        self.spare -= 1;
        true
    }

    // What stands at the rows that the transition holds.
    fn sight<'a>(&'a self, step: &'a Transition) -> Sight<'a>
        requires { IsFit (new_limit step.now) }
        ensures { result ≡ table.sight (sees self.now.world (holds self.now.world step.now)) step.now }
    {
        let job = found(&self.jobs, job_named(step));
        let held = Held::of(step, &job);
        let pid = pid_of(held.process);
        let semaphore = held.key.and_then(|key| self.semaphore(key));
        let is_fresh = self.is_fresh_at(held.key, generation_named(step), &semaphore);
        let rows = Seen {
            job,
            semaphore,
            is_registered: pid.is_some_and(|pid| self.process(pid).is_some()),
            is_paused: held.queue.is_some_and(|queue| self.is_paused(queue)),
            last_run: held.task.and_then(|task| self.last_run(task)),
        };
        Sight {
            rows,
            is_fresh,
            claims: pid.map_or(0, |pid| self.claims(pid)),
        }
    }

    // A semaphore stands, or no job holds a permit of the key and this generation, if one is named. It counts holders
    // only where that decides.
    fn is_fresh_at(
        &self,
        key: Option<&Text>,
        generation: Option<u64>,
        semaphore: &Option<Sem>,
    ) -> bool
        ensures { result ≡ is_fresh semaphore.now (λ g. counted_at (λ k. holders self.now.world k g) (option_copied key.entry)) generation }
    {
        let Some(generation) = generation else {
            return true;
        };
        if semaphore.is_some() {
            return true;
        }
        match key {
            Some(key) => self.holders(key, generation) == 0,
            None => true,
        }
    }
}

fn pid_of(process: Option<(Pid, Mode)>) -> Option<Pid>
    ensures { result ≡ rows.pid_of process }
{
    Some(process?.0)
}

fn permit_of(job: &Option<Found>) -> Option<u64>
    ensures { result ≡ table.permit_of job.now }
{
    job.as_ref()?.stand.permit()
}

fn found(jobs: &Jobs, id: Option<JobId>) -> Option<Found>
    ensures { result ≡ job_seen (row_at id jobs.now.rows) }
{
    jobs.found(id?)
}
