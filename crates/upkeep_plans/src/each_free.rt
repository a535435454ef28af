//! The commands that leave out what isn't free.
ghost use Rattle.std.specs.Prelude.{◌≡◌, IfOk, OnOk};
ghost use Rattle.queue_model.specs.Held.{held_rows, holds};
ghost use Rattle.plan_model.specs.Scenes.{are_free};
ghost use Rattle.upkeep_plans.specs.Taking.{MayTake, begun, is_full, with_step};

use job_states::{Mode, NoMemory, Row, Transition};
use plan_drafts::Draft;
use plan_scenes::Scene;
use std::alloc::Global;
use std::marker::Model;

/// At most so many cases are taken of most commands.
pub const MOST: u64 = 500;

/// What a command takes of its cases, one after another: those whose rows are all free, as many as it may.
#[derive(Drop)]
pub struct EachFree<'a> {
    scene: &'a Scene<'a>,
    draft: Draft<'a>,
    taken: u64,
    most: u64,
}

impl<'a> Model for EachFree<'a> {
    ghost use Rattle.upkeep_plans.specs.Taking.{Taking, taking};

    ghost Value = { Taking };

    ghost view = { λ e. taking e.scene.now e.most e.draft e.taken };
}

impl<'a> EachFree<'a> {
    /// None of the cases is taken yet, of which at most `most` will be.
    pub fn begin(alloc: Global, scene: &'a Scene<'a>, most: u64) -> Self
        ensures { result ≡ begun scene.now most }
    {
        EachFree {
            scene,
            draft: scene.begin(alloc),
            taken: 0,
            most,
        }
    }

    /// The scene in which it began.
    pub fn scene(&self) -> &'a Scene<'a>
        ensures { result.now ≡ self.now.scene }
    {
        self.scene
    }

    /// The draft so far.
    pub fn draft(&self) -> &Draft<'a>
        ensures { result.now ≡ self.now.drafting }
    {
        &self.draft
    }

    /// Are as many cases taken as may be?
    pub fn is_full(&self) -> bool
        ensures { result ≡ is_full self.now }
    {
        self.most <= self.taken
    }

    /// Takes the case of this transition, if there is room for it and its rows are free. After want of memory it is no longer
    /// of use.
    pub fn take(&mut self, step: Transition) -> Result<(), NoMemory>
        requires { MayTake self.old step }
        ensures { OnOk result (self.new ≡ with_step self.old step) }
    {
        if self.taken < self.most && self.is_free(&step)? {
            self.draft.push(step)?;
            self.taken += 1;
        }
        Ok(())
    }

    /// The draft, and how many cases were taken.
    pub fn into_parts(self) -> (Draft<'a>, u64)
        ensures draft { result.0 ≡ self.entry.drafting }
        ensures taken { result.1 ≡ self.entry.taken }
    {
        (self.draft, self.taken)
    }

    // Are the rows free that the transition would hold?
    fn is_free(&self, step: &Transition) -> Result<bool, NoMemory>
        requires { MayTake self.now step.now }
        ensures { IfOk result (λ free. free ≡ are_free self.now.scene.book (held_rows (holds self.now.drafting.draft.world step.now))) }
    {
        let rows = self.draft.rows_of(step)?;
        Ok(are_free(self.scene, &rows))
    }
}

// Does every open plan leave the rows free?
pub fn are_free(scene: &Scene, rows: &[(Row, Mode)]) -> bool
    ensures { result ≡ are_free scene.now.book rows.now }
{
    let book = scene.book();
    rows.iter().all(|(row, mode)| book.is_free(row, *mode))
}
