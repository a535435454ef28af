//! The seats that hold rows, each with its rows in order.
ghost use Rattle.std.specs.Prelude.{◌≡◌, ◌++◌, ◌==◌, [], not, filter, All, IsPermutation, MatchOption, OnErr, OnOk};
ghost use Rattle.row_locks.specs.Asked.{row_of};
ghost use Rattle.row_locks.specs.Locks.{IsFree, locks_of};
ghost use Rattle.row_locks.specs.Seats.{AreSeatsInOrder, IsFirstHeld, IsInOrder, IsLeastHolder, locks_in};

use crate::held::{Asked, is_against, merge};
use job_states::{Mode, NoMemory, Row};
use std::alloc::Global;
use std::collections::BTreeMap;
use std::marker::Model;

#[derive(Drop)]
pub struct Seats {
    rows: BTreeMap<u32, Vec<(Row, Mode)>>,
}

impl Model for Seats {
    ghost use Rattle.std.specs.Prelude.{ℕ, List, map};
    ghost use Rattle.job_states.specs.declared.row.Row.{Row};
    ghost use Rattle.job_states.specs.declared.row.Mode.{Mode};
    ghost use Rattle.row_locks.specs.Seats.{AreSeatsInOrder};

    ghost Value = { List (ℕ × List (Row × Mode)) };

    ghost view = { λ s. map (λ e. (e.0, e.1.items)) s.rows.entries };

    ghost invariant = { λ s. AreSeatsInOrder (map (λ e. (e.0, e.1.items)) s.rows.entries) };
}

impl Seats {
    // No seat holds a row.
    pub fn new(alloc: Global) -> Self
        ensures { result ≡ [] }
    {
        Seats {
            rows: BTreeMap::new(alloc),
        }
    }

    // The place of the first of the rows that other seats hold against this one, and the smallest such seat.
    pub fn first_held(&self, seat: u32, rows: &[(Row, Mode)]) -> Option<(usize, u32)>
        ensures { MatchOption result
            (All (λ asked. IsFree (locks_in self.now) seat asked.0 asked.1) rows.now)
            (λ found. IsFirstHeld (locks_in self.now) seat rows.now found.0 found.1) }
    {
        for (index, (row, mode)) in rows.iter().enumerate() {
            if let Some(by) = self.holder(seat, Asked::Any(row), *mode) {
                return Some((index, by));
            }
        }
        None
    }

    // The smallest other seat that holds the row against this one.
    pub fn holder(&self, seat: u32, row: Asked<'_>, mode: Mode) -> Option<u32>
        ensures { IsLeastHolder (locks_in self.now) seat (row_of row.entry) mode result }
    {
        for (by, held) in self.rows.iter() {
            if *by != seat && is_against(held, row, mode) {
                return Some(*by);
            }
        }
        None
    }

    // Adds the rows to the seat's, all or none.
    pub fn add(&mut self, seat: u32, rows: Vec<(Row, Mode)>) -> Result<(), NoMemory>
        requires { IsInOrder rows.items }
        ensures taken { OnOk result (IsPermutation (locks_in self.old ++ locks_of seat rows.items) (locks_in self.new)) }
        ensures kept { OnErr result (self.new ≡ self.old) }
        ensures in_order { AreSeatsInOrder self.new }
    {
        if let Some(held) = self.rows.get_mut(&seat) {
            return merge(held, rows);
        }
        self.rows.insert(seat, rows)?;
        Ok(())
    }

    // Lets go of what the seat holds.
    pub fn let_go(&mut self, seat: u32)
        ensures left { locks_in self.new ≡ filter (λ lock. not (lock.seat == seat)) (locks_in self.old) }
        ensures in_order { AreSeatsInOrder self.new }
    {
        self.rows.remove(&seat);
    }
}
