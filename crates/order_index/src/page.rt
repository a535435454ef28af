//! A page: a few entries in a row, with the memory for them taken beforehand.
ghost use Rattle.std.specs.Prelude.{◌≡◌, true, false, All, ◌+◌, ◌/◌, ◌<◌, ◌≤◌, ◌++◌, [], length, take, drop, slice_get, IfOk};
ghost use Rattle.std.specs.List.{insert, remove};
ghost use Rattle.std.specs.List.Sorted.{IsStrictlySortedBy};
ghost use Rattle.order_index.specs.Entries.{entry_cmp, is_before};
ghost use Rattle.order_index.specs.Pages.{ends_before};

use crate::Entry;
use job_states::NoMemory;
use std::alloc::Global;
use std::marker::Model;

/// How many entries a page has memory for.
pub const ROOM: usize = 176;

#[derive(Drop)]
pub struct Page {
    entries: Vec<Entry>,
}

impl Model for Page {
    ghost use Rattle.std.specs.Prelude.{◌≤◌, List, vec_capacity};
    ghost use Rattle.order_index.specs.declared.entry.Entry.{Entry};

    ghost Value = { List Entry };

    ghost view = { λ p. p.entries.items };

    ghost invariant = { λ p. 176 ≤ vec_capacity p.entries };
}

impl Page {
    /// A page with no entry.
    pub fn new(alloc: Global) -> Result<Self, NoMemory>
        ensures { IfOk result (λ page. page ≡ []) }
    {
        Ok(Page {
            entries: Vec::with_capacity(alloc, ROOM)?,
        })
    }

    pub fn len(&self) -> usize
        ensures { result ≡ length self.now }
    {
        self.entries.len()
    }

    /// The entry at this place.
    pub fn get(&self, at: usize) -> Option<Entry>
        ensures { result ≡ slice_get self.now at }
    {
        self.entries.get(at).copied()
    }

    /// Does the last entry stand before this one?
    pub fn ends_before(&self, entry: &Entry) -> bool
        ensures { result ≡ ends_before entry.now self.now }
    {
        match self.entries.last() {
            None => false,
            Some(last) => last.cmp(entry).is_lt(),
        }
    }

    /// How many entries stand before this one.
    pub fn seek(&self, entry: &Entry) -> usize
        requires { IsStrictlySortedBy entry_cmp self.now }
        ensures within { result ≤ length self.now }
        ensures before { All (λ x. is_before x entry.now ≡ true) (take result self.now) }
        ensures from { All (λ x. is_before x entry.now ≡ false) (drop result self.now) }
    {
        self.entries.partition_point(|x| x.cmp(entry).is_lt())
    }

    /// Puts an entry at this place.
    pub fn insert(&mut self, at: usize, entry: Entry)
        requires within { at ≤ length self.old }
        requires room { length self.old < 176 }
        ensures { self.new ≡ insert self.old at entry }
    {
        match self.entries.insert(at, entry) {
            Ok(()) => {}
            Err(_) => unreachable!(),
        }
    }

    /// Takes the entry at this place away.
    pub fn remove(&mut self, at: usize)
        requires { at < length self.old }
        ensures { self.new ≡ remove self.old at }
    {
        self.entries.remove(at);
    }

    /// Moves the entries of the other page after its own.
    pub fn append(&mut self, other: &mut Page)
        requires { length self.old + length other.old ≤ 176 }
        ensures all { self.new ≡ self.old ++ other.old }
        ensures none { other.new ≡ [] }
    {
        match self.entries.append(&mut other.entries) {
            Ok(()) => {}
            Err(_) => unreachable!(),
        }
    }

    /// Moves the second half of the entries into a page that has none.
    pub fn split(&mut self, other: &mut Page)
        requires empty { other.old ≡ [] }
        requires few { length self.old ≤ 176 }
        ensures first { self.new ≡ take (length self.old / 2) self.old }
        ensures second { other.new ≡ drop (length self.old / 2) self.old }
    {
        let half = self.entries.len() / 2;
        match other.entries.extend_from_slice(&self.entries[half..]) {
            Ok(()) => self.entries.truncate(half),
            Err(_) => unreachable!(),
        }
    }
}
