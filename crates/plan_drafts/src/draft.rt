ghost use Rattle.std.specs.Prelude.{◌≡◌, ◌≤◌, Some, IsSome};
ghost use Rattle.std.specs.Option.{option_copied, ForSome};
ghost use Rattle.job_states.specs.Moment.{IsMoment};
ghost use Rattle.queue_model.specs.GoodWorld.{IsGood};
ghost use Rattle.queue_model.specs.Map as map;
ghost use Rattle.queue_model.specs.Named.{put_named};
ghost use Rattle.transition_table.specs.Seen.{job_seen, stand_at};
ghost use Rattle.plan_model.specs.Drafts as model;
ghost use Rattle.plan_model.specs.GoodBook.{AreAbove};
ghost use Rattle.plan_model.specs.GoodDraft.{IsFresh};
ghost use Rattle.plan_drafts.specs.Drafting.{begun_in};
ghost use Rattle.plan_drafts.specs.Left as spec;

use crate::Pushed;
use exec_tables::Tables;
use job_states::{JobId, Limited, Mode, Moment, Put, Row, Text, later};
use queue_model::Numbers;
use semaphores::Sem;
use std::alloc::Global;
use std::marker::Model;
use transition_table::{Found, Stand};

/// A plan while it is made: its transitions so far, and the rows that it holds. The tables stay as they are.
#[derive(Drop)]
pub struct Draft<'a> {
    pub(crate) tables: &'a Tables,
    pub(crate) moment: Moment,
    /// The numbers that were given next at the begin.
    pub(crate) first: Numbers,
    pub(crate) given: Numbers,
    pub(crate) pushed: Vec<Pushed>,
    pub(crate) rows: Vec<(Row, Mode)>,
}

impl<'a> Model for Draft<'a> {
    ghost use Rattle.plan_drafts.specs.Drafting.{Drafting, coded_drafting, drafting};
    ghost use Rattle.plan_drafts.specs.Made.{IsMade};

    ghost Value = { Drafting };

    ghost coded = { coded_drafting };

    ghost view = { λ d. drafting d.tables.now.world d.moment d.first d.given d.pushed.items d.rows.items };

    ghost invariant = { λ d. IsMade d.tables.now.world d.moment d.given d.pushed.items };
}

impl<'a> Draft<'a> {
    /// A draft over the tables, with nothing in it, in which these numbers are given next.
    pub fn begin(alloc: Global, tables: &'a Tables, given: Numbers, moment: Moment) -> Self
        requires good { IsGood tables.now.world }
        requires moment { IsMoment moment }
        requires above { AreAbove tables.now.world.numbers given }
        ensures begun { result.begun ≡ begun_in tables.now.world given }
        ensures moment { result.moment ≡ moment }
        ensures draft { result.draft ≡ begun_in tables.now.world given }
    {
        Draft {
            tables,
            moment,
            first: given,
            given,
            pushed: Vec::new(alloc),
            rows: Vec::new(alloc),
        }
    }

    // ---- what is there by now

    /// The numbers that are given next.
    pub fn given(&self) -> Numbers
        ensures { result ≡ self.now.draft.given }
    {
        self.given
    }

    /// Where the job stands, which was there at the begin; `None` where it is gone.
    pub fn stand(&self, id: JobId) -> Option<Stand>
        requires { IsSome (map.get self.now.begun.world.jobs id) }
        ensures { result ≡ stand_at (job_seen (map.get self.now.draft.world.jobs id)) }
    {
        Some(self.found(id)?.stand)
    }

    // The job as the table of transitions reads it, which was there at the begin.
    pub(crate) fn found(&self, id: JobId) -> Option<Found<'a>>
        requires { IsSome (map.get self.now.begun.world.jobs id) }
        ensures { result ≡ job_seen (map.get self.now.draft.world.jobs id) }
    {
        let first = self.tables.found(id)?;
        let stand = stand_after(&self.pushed, id, first.stand)?;
        Some(Found {
            stand,
            limited: first.limited,
        })
    }

    /// The semaphore of the key.
    pub fn semaphore(&self, key: &Text) -> Option<Sem>
        ensures { result ≡ map.get self.now.draft.world.semaphores key.now }
    {
        semaphore_after(&self.pushed, key, self.tables.semaphore(key))
    }

    /// No number that is yet to be given is there. It does nothing: its contract is the statement.
    pub fn is_fresh(&self)
        ensures { IsFresh self.now.draft.world self.now.draft.given }
    {
        let _given = &self.given;
    }

    /// The rows that it holds so far, as they were held.
    pub fn rows(&self) -> &[(Row, Mode)]
        ensures { result.now ≡ self.now.draft.rows }
    {
        &self.rows
    }

    // ---- meeting a semaphore

    /// The generation of the permit that is taken at the key.
    pub fn generation_at(&self, key: &Text) -> u64
        ensures at { result ≡ model.generation_at self.now.draft key.now }
        ensures given { result ≤ self.now.draft.given.generation }
    {
        match self.semaphore(key) {
            None => self.given.generation,
            Some(sem) => sem.generation,
        }
    }

    /// The place of a job of this limit that is put where its key lets it stand.
    pub fn meets(&self, limited: Option<&Limited>) -> Put
        ensures met { result ≡ model.meets self.now.draft self.now.moment (option_copied limited.entry) }
        ensures given { ForSome (put_named result) (λ generation. generation ≤ self.now.draft.given.generation) }
    {
        let Some(limited) = limited else {
            return Put::Ready(None);
        };
        match self.semaphore(&limited.key) {
            None => Put::Ready(Some(self.given.generation)),
            Some(sem) if sem.free != 0 => Put::Ready(Some(sem.generation)),
            Some(_) if limited.discard => Put::Away,
            Some(_) => Put::Blocked(later(self.moment, limited.duration)),
        }
    }

    /// The place of a new job of this limit, which may be scheduled for a moment of its own.
    pub fn place_for(&self, at: Option<Moment>, limited: Option<&Limited>) -> Put
        ensures place { result ≡ model.place_for self.now.draft self.now.moment at (option_copied limited.entry) }
        ensures given { ForSome (put_named result) (λ generation. generation ≤ self.now.draft.given.generation) }
    {
        match at {
            Some(at) if self.moment < at => Put::Scheduled(at),
            _ => self.meets(limited),
        }
    }
}

// Where the job stands after these transitions, which stood here before them.
fn stand_after(pushed: &[Pushed], id: JobId, before: Stand) -> Option<Stand>
    ensures { result ≡ spec.stand_after pushed.now id (Some before) }
{
    pushed
        .iter()
        .fold(Some(before), |now, pushed| pushed.stand_then(id, now))
}

// The semaphore of the key after these transitions, of the one before them.
fn semaphore_after(pushed: &[Pushed], key: &Text, before: Option<Sem>) -> Option<Sem>
    ensures { result ≡ spec.semaphore_after pushed.now key.now before }
{
    pushed
        .iter()
        .fold(before, |now, pushed| pushed.semaphore_then(key, now))
}
