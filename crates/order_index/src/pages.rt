//! The entries on pages, and the empty pages that lie ready.
ghost use Rattle.std.specs.Prelude.{◌≡◌, ◌↔◌, ◌+◌, ◌-◌, ◌/◌, ◌<◌, ◌≤◌, ◌++◌, ◌∷◌, [], length, take, drop, slice_get, vec_len, vec_capacity, Contains, MatchOption, IsTrue, OnOk, OnErr};
ghost use Rattle.std.specs.Bool.{OnFalse, OnTrue};
ghost use Rattle.std.specs.List.{insert};
ghost use Rattle.order_index.specs.Entries.{IsInOrder, after, first, inserted, removed};
ghost use Rattle.order_index.specs.Pages.{AreFilled, AreFilledAround, IsOn, IsPageFor, IsPlaceFor, StandsAt, entries_on, fewest, prefix_of, page_at, rest_of};

use crate::Entry;
use crate::page::Page;
use crate::place::Place;
use job_states::NoMemory;
use std::alloc::Global;
use std::marker::Model;

/// The most entries of a page.
const MOST: usize = 128;

/// The fewest entries of a page that isn't the last.
pub const FEWEST: usize = 48;

#[derive(Drop)]
pub struct Pages {
    used: Vec<Page>,
    ready: Vec<Page>,
}

impl Model for Pages {
    ghost use Rattle.std.specs.Prelude.{◌≡◌, ◌↔◌, ◌+◌, ◌≤◌, All, [], vec_len, vec_capacity};
    ghost use Rattle.order_index.specs.declared.entry.Entry.{Entry};
    ghost use Rattle.order_index.specs.Pages.{Paged};

    ghost Value = { Paged };

    ghost view = { λ p. record { pages = p.used.items; ready = vec_len p.ready } };

    ghost invariant = { λ p. All (λ page. page ≡ []) p.ready.items × (vec_len p.used + vec_len p.ready ≤ vec_capacity p.used) × (vec_len p.used + vec_len p.ready ≤ vec_capacity p.ready) };
}

impl Pages {
    /// No page.
    pub fn new(alloc: Global) -> Self
        ensures { result ≡ record { pages = []; ready = 0 } }
    {
        Pages {
            used: Vec::new(alloc),
            ready: Vec::new(alloc),
        }
    }

    /// How many pages there are, with those that lie ready.
    pub fn total(&self) -> usize
        ensures { result ≡ length self.now.pages + self.now.ready }
    {
        self.used.len() + self.ready.len()
    }

    /// Lays so many more pages ready.
    pub fn grow(&mut self, more: usize) -> Result<(), NoMemory>
        ensures pages { self.new.pages ≡ self.old.pages }
        ensures kept { self.old.ready ≤ self.new.ready }
        ensures grown { OnOk result (self.old.ready + more ≤ self.new.ready) }
    {
        for _ in 0..more {
            self.add()?;
        }
        Ok(())
    }

    // Lays one more page ready.
    fn add(&mut self) -> Result<(), NoMemory>
        ensures ok { OnOk result (self.new ≡ record { pages = self.old.pages; ready = self.old.ready + 1 }) }
        ensures err { OnErr result (self.new ≡ self.old) }
    {
        let page = Page::new(*self.used.allocator())?;
        self.used.reserve(self.ready.len() + 1)?;
        self.ready.reserve(self.used.len() + 1)?;
        match self.ready.push(page) {
            Ok(()) => Ok(()),
            Err(_) => unreachable!(),
        }
    }

    // ---- what the order asks

    /// The first entry.
    pub fn first(&self) -> Option<Entry>
        requires { AreFilled self.now.pages }
        ensures { result ≡ first (entries_on self.now.pages) }
    {
        self.first_of(0)
    }

    /// The first entry after this one.
    pub fn first_after(&self, entry: &Entry) -> Option<Entry>
        requires in_order { IsInOrder (entries_on self.now.pages) }
        requires filled { AreFilled self.now.pages }
        ensures { result ≡ first (after entry.now (entries_on self.now.pages)) }
    {
        let at = self.place(entry)?;
        if self.holds(at, entry) {
            self.first_from(at.next())
        } else {
            self.get(at)
        }
    }

    /// Puts the entry where it belongs.
    pub fn insert(&mut self, entry: Entry)
        requires in_order { IsInOrder (entries_on self.old.pages) }
        requires filled { AreFilled self.old.pages }
        requires absent { ¬ Contains (entries_on self.old.pages) entry }
        requires ready { 1 ≤ self.old.ready }
        ensures entries { entries_on self.new.pages ≡ inserted entry (entries_on self.old.pages) }
        ensures count { length (entries_on self.new.pages) ≡ length (entries_on self.old.pages) + 1 }
        ensures filled { AreFilled self.new.pages }
        ensures total { length self.new.pages + self.new.ready ≡ length self.old.pages + self.old.ready }
    {
        match self.place(&entry) {
            None => self.add_first(entry),
            Some(at) => self.insert_at(at, entry),
        }
    }

    /// Takes the entry away, if it is there.
    pub fn remove(&mut self, entry: &Entry) -> bool
        requires in_order { IsInOrder (entries_on self.old.pages) }
        requires filled { AreFilled self.old.pages }
        ensures found { IsTrue result ↔ Contains (entries_on self.old.pages) entry.now }
        ensures entries { OnTrue result (entries_on self.new.pages ≡ removed entry.now (entries_on self.old.pages)) }
        ensures count { OnTrue result (length (entries_on self.new.pages) + 1 ≡ length (entries_on self.old.pages)) }
        ensures filled { OnTrue result (AreFilled self.new.pages) }
        ensures total { OnTrue result (length self.new.pages + self.new.ready ≡ length self.old.pages + self.old.ready) }
        ensures kept { OnFalse result (self.new ≡ self.old) }
    {
        match self.find(entry) {
            None => false,
            Some(at) => {
                self.remove_at(at);
                true
            }
        }
    }

    // ---- places

    // Where the entry stands.
    fn find(&self, entry: &Entry) -> Option<Place>
        requires in_order { IsInOrder (entries_on self.now.pages) }
        requires filled { AreFilled self.now.pages }
        ensures { MatchOption result (¬ Contains (entries_on self.now.pages) entry.now) (StandsAt self.now.pages entry.now) }
    {
        let at = self.place(entry)?;
        if self.holds(at, entry) {
            Some(at)
        } else {
            None
        }
    }

    // Where the entry stands or belongs, unless there is no page.
    fn place(&self, entry: &Entry) -> Option<Place>
        requires in_order { IsInOrder (entries_on self.now.pages) }
        requires filled { AreFilled self.now.pages }
        ensures { MatchOption result (self.now.pages ≡ []) (λ at. IsPlaceFor self.now.pages entry.now at) }
    {
        let page = self.page_for(entry)?;
        let index = self.used[page].seek(entry);
        Some(Place { page, index })
    }

    // The first page that doesn't end before the entry, or else the last page.
    fn page_for(&self, entry: &Entry) -> Option<usize>
        requires in_order { IsInOrder (entries_on self.now.pages) }
        requires filled { AreFilled self.now.pages }
        ensures { MatchOption result (self.now.pages ≡ []) (IsPageFor self.now.pages entry.now) }
    {
        let last = self.used.len().checked_sub(1)?;
        let page = self.used.partition_point(|page| page.ends_before(entry));
        Some(page.min(last))
    }

    // Does the entry stand here?
    fn holds(&self, at: Place, entry: &Entry) -> bool
        requires { IsOn self.now.pages at }
        ensures { IsTrue result ↔ (slice_get (page_at self.now.pages at.page) at.index ≡ Some entry.now) }
    {
        match self.get(at) {
            None => false,
            Some(found) => found == *entry,
        }
    }

    // The entry at this place of its page.
    fn get(&self, at: Place) -> Option<Entry>
        requires { IsOn self.now.pages at }
        ensures { result ≡ slice_get (page_at self.now.pages at.page) at.index }
    {
        self.used[at.page].get(at.index)
    }

    // The first entry from this place on, on this page or the next.
    fn first_from(&self, at: Place) -> Option<Entry>
        requires on { IsOn self.now.pages at }
        requires filled { AreFilled self.now.pages }
        ensures { result ≡ first (rest_of self.now.pages at) }
    {
        match self.used[at.page].get(at.index) {
            Some(entry) => Some(entry),
            None => self.first_of(at.page + 1),
        }
    }

    // The first entry from this page on.
    fn first_of(&self, page: usize) -> Option<Entry>
        requires { AreFilled self.now.pages }
        ensures { result ≡ first (entries_on (drop page self.now.pages)) }
    {
        self.used.get(page)?.get(0)
    }

    // ---- edits

    // The first entry, on the first page.
    fn add_first(&mut self, entry: Entry)
        requires none { self.old.pages ≡ [] }
        requires ready { 1 ≤ self.old.ready }
        ensures pages { self.new.pages ≡ (entry ∷ []) ∷ [] }
        ensures ready { self.new.ready + 1 ≡ self.old.ready }
    {
        let Some(mut page) = self.ready.pop() else {
            unreachable!()
        };
        page.insert(0, entry);
        put(&mut self.used, 0, page);
    }

    // Puts an entry at this place.
    fn insert_at(&mut self, at: Place, entry: Entry)
        requires on { IsOn self.old.pages at }
        requires filled { AreFilled self.old.pages }
        requires ready { 1 ≤ self.old.ready }
        ensures entries { entries_on self.new.pages ≡ prefix_of self.old.pages at ++ entry ∷ rest_of self.old.pages at }
        ensures filled { AreFilled self.new.pages }
        ensures total { length self.new.pages + self.new.ready ≡ length self.old.pages + self.old.ready }
    {
        self.used[at.page].insert(at.index, entry);
        self.split_long(at.page);
    }

    // Takes the entry at this place away.
    fn remove_at(&mut self, at: Place)
        requires on { IsOn self.old.pages at }
        requires there { at.index < length (page_at self.old.pages at.page) }
        requires filled { AreFilled self.old.pages }
        ensures entries { entries_on self.new.pages ≡ prefix_of self.old.pages at ++ drop 1 (rest_of self.old.pages at) }
        ensures filled { AreFilled self.new.pages }
        ensures total { length self.new.pages + self.new.ready ≡ length self.old.pages + self.old.ready }
    {
        self.used[at.page].remove(at.index);
        self.merge_thin(at.page);
    }

    // Halves the page where it has too many entries.
    fn split_long(&mut self, page: usize)
        requires around { AreFilledAround self.old.pages page }
        requires enough { fewest (drop (page + 1) self.old.pages) ≤ length (page_at self.old.pages page) }
        requires few { length (page_at self.old.pages page) ≤ 176 }
        requires ready { 128 < length (page_at self.old.pages page) → 1 ≤ self.old.ready }
        ensures entries { entries_on self.new.pages ≡ entries_on self.old.pages }
        ensures filled { AreFilled self.new.pages }
        ensures total { length self.new.pages + self.new.ready ≡ length self.old.pages + self.old.ready }
    {
        if self.used[page].len() > MOST {
            self.split(page);
        }
    }

    // Joins the page to the next where it has too few entries, and lets it go where it has none and is the last.
    fn merge_thin(&mut self, page: usize)
        requires around { AreFilledAround self.old.pages page }
        requires enough { fewest (drop (page + 1) self.old.pages) ≤ length (page_at self.old.pages page) + 1 }
        requires few { length (page_at self.old.pages page) ≤ 128 }
        ensures entries { entries_on self.new.pages ≡ entries_on self.old.pages }
        ensures filled { AreFilled self.new.pages }
        ensures total { length self.new.pages + self.new.ready ≡ length self.old.pages + self.old.ready }
    {
        let len = self.used[page].len();
        if page + 1 < self.used.len() {
            if len < FEWEST {
                self.merge(page);
                self.split_long(page);
            }
        } else if len == 0 {
            self.free_last();
        }
    }

    // Moves the second half of the page to a page of its own.
    fn split(&mut self, page: usize)
        requires within { page < length self.old.pages }
        requires few { length (page_at self.old.pages page) ≤ 176 }
        requires ready { 1 ≤ self.old.ready }
        ensures pages { let old = page_at self.old.pages page in let half = length old / 2 in self.new.pages ≡ take page self.old.pages ++ take half old ∷ drop half old ∷ drop (page + 1) self.old.pages }
        ensures ready { self.new.ready + 1 ≡ self.old.ready }
    {
        let Some(mut second) = self.ready.pop() else {
            unreachable!()
        };
        self.used[page].split(&mut second);
        put(&mut self.used, page + 1, second);
    }

    // Moves the entries of the next page to this one.
    fn merge(&mut self, page: usize)
        requires within { page + 1 < length self.old.pages }
        requires few { length (page_at self.old.pages page) + length (page_at self.old.pages (page + 1)) ≤ 176 }
        ensures pages { self.new.pages ≡ take page self.old.pages ++ (page_at self.old.pages page ++ page_at self.old.pages (page + 1)) ∷ drop (page + 2) self.old.pages }
        ensures ready { self.new.ready ≡ self.old.ready + 1 }
    {
        let mut next = self.used.remove(page + 1);
        self.used[page].append(&mut next);
        let last = self.ready.len();
        put(&mut self.ready, last, next);
    }

    // Lets the last page go, which has no entry.
    fn free_last(&mut self)
        requires some { 0 < length self.old.pages }
        requires empty { page_at self.old.pages (length self.old.pages - 1) ≡ [] }
        ensures pages { self.new.pages ≡ take (length self.old.pages - 1) self.old.pages }
        ensures ready { self.new.ready ≡ self.old.ready + 1 }
    {
        let Some(page) = self.used.pop() else {
            unreachable!()
        };
        let last = self.ready.len();
        put(&mut self.ready, last, page);
    }
}

// Puts a page among these, which have room for it.
fn put(pages: &mut Vec<Page>, at: usize, page: Page)
    requires within { at ≤ vec_len pages.old }
    requires room { vec_len pages.old < vec_capacity pages.old }
    ensures items { pages.new.items ≡ insert pages.old.items at page }
    ensures len { vec_len pages.new ≡ vec_len pages.old + 1 }
    ensures capacity { vec_capacity pages.new ≡ vec_capacity pages.old }
{
    match pages.insert(at, page) {
        Ok(()) => {}
        Err(_) => unreachable!(),
    }
}
