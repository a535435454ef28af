//! Entries in order, with room for more.
ghost use Rattle.std.specs.Prelude.{◌≡◌, ◌↔◌, ◌+◌, ◌-◌, ◌*◌, ◌≤◌, [], length, max, true, Contains, IsTrue, OnOk, OnErr, if◌then◌else◌};
ghost use Rattle.std.specs.Bool.{OnFalse};
ghost use Rattle.order_index.specs.Entries.{IsInOrder, IsLeast, inserted, is_before, removed};

use crate::Entry;
use crate::pages::{FEWEST, Pages};
use job_states::NoMemory;
use std::alloc::Global;
use std::marker::Model;

/// Entries in order. None stands twice.
#[derive(Drop)]
pub struct Order {
    pages: Pages,
    len: u64,
    spare: u64,
}

impl Model for Order {
    ghost use Rattle.order_index.specs.Entries.{Listed};
    ghost use Rattle.order_index.specs.Pages.{IsKept, entries_on};

    ghost Value = { Listed };

    ghost view = { λ o. record { entries = entries_on o.pages.pages; spare = o.spare } };

    ghost invariant = { λ o. IsKept o.pages o.len o.spare };
}

impl Order {
    /// No entry, and no room.
    pub fn new(alloc: Global) -> Self
        ensures { result ≡ record { entries = []; spare = 0 } }
    {
        Order {
            pages: Pages::new(alloc),
            len: 0,
            spare: 0,
        }
    }

    /// How many entries there are.
    pub fn len(&self) -> u64
        ensures { result ≡ length self.now.entries }
    {
        self.len
    }

    /// The first entry.
    pub fn first(&self) -> Option<Entry>
        ensures { IsLeast self.now.entries (λ _. true) result }
    {
        self.pages.first()
    }

    /// The first entry after this one, which need not be there itself.
    pub fn first_after(&self, entry: &Entry) -> Option<Entry>
        ensures { IsLeast self.now.entries (is_before entry.now) result }
    {
        self.pages.first_after(entry)
    }

    /// Makes room for at least so many more entries.
    pub fn reserve(&mut self, more: u64) -> Result<(), NoMemory>
        ensures entries { self.new.entries ≡ self.old.entries }
        ensures ok { OnOk result (self.new.spare ≡ max self.old.spare more) }
        ensures err { OnErr result (self.new ≡ self.old) }
    {
        if more <= self.spare {
            return Ok(());
        }
        let Some(all) = self.len.checked_add(more) else {
            return Err(NoMemory);
        };
        let missing = pages_for(all).saturating_sub(self.pages.total());
        self.pages.grow(missing)?;
        self.spare = more;
        Ok(())
    }

    /// Puts in an entry that isn't there. It takes no memory.
    pub fn insert(&mut self, entry: Entry)
        requires absent { ¬ Contains self.old.entries entry }
        requires room { 1 ≤ self.old.spare }
        ensures entries { self.new.entries ≡ inserted entry self.old.entries }
        ensures spare { self.new.spare + 1 ≡ self.old.spare }
        ensures in_order { IsInOrder self.new.entries }
    {
        self.pages.insert(entry);
        self.len += 1;
        self.spare -= 1;
    }

    /// Takes the entry away, if it is there, and says whether it was. Its room stays. It takes no memory.
    pub fn remove(&mut self, entry: &Entry) -> bool
        ensures found { IsTrue result ↔ Contains self.old.entries entry.now }
        ensures entries { self.new.entries ≡ (if result then removed entry.now self.old.entries else self.old.entries) }
        ensures spare { self.new.spare ≡ (if result then self.old.spare + 1 else self.old.spare) }
        ensures in_order { IsInOrder self.new.entries }
    {
        let is_there = self.pages.remove(entry);
        if is_there {
            self.len -= 1;
            self.spare += 1;
        }
        is_there
    }
}

// How many pages last for so many entries, however they come to lie: one more than those that have the fewest.
fn pages_for(entries: u64) -> usize
    ensures { entries ≤ 48 * (result - 1) }
{
    (entries / FEWEST as u64) as usize + 2
}
