//! A state to put under a lock: how often each seat added, and how often all did.
ghost use Rattle.std.specs.Prelude.{◌≡◌, ◌%◌, ◌^◌, ◌<◌, ◌≤◌, length, slice_get, slice_set, Some, IfSome, sum_by};
ghost use Rattle.lock_tests.specs.Counts.{added, entries, AreFresh};
ghost use Rattle.seat_lock.specs.declared.rows.SeatRow.{SeatRow};

use seat_lock::{SeatCounts, SeatRow, Seated};
use std::alloc::Global;

#[derive(Drop)]
pub struct Tally {
    pub total: u64,
    pub rows: Vec<SeatRow>,
    ghost few: { length rows.items ≤ 64 },
    ghost kept: { total ≡ sum_by entries rows.items % 2 ^ 64 },
}

impl Seated for Tally {
    ghost use Rattle.lock_tests.specs.Counts.{nowhere};

    ghost rows = { λ t. t.rows.items };

    ghost origin = { λ t. nowhere };

    fn seats(&self) -> u32 {
        self.rows.len() as u32
    }

    fn row(&self, number: u32) -> SeatRow {
        self.rows[number as usize]
    }
}

impl Tally {
    pub fn new(alloc: Global, seats: u32) -> Option<Tally>
        requires { seats ≤ 64 }
        ensures { IfSome result (λ t. (length t.rows.items ≡ seats) × AreFresh t.rows.items) }
    {
        let row = SeatRow {
            stage: 0,
            head: [0; 3],
            counts: SeatCounts {
                entries: 0,
                claimed: 0,
                made: 0,
                refused: 0,
                faults: 0,
                stops_asked: 0,
                stops_found: 0,
                looks: 0,
            },
            ended: [0; 23],
        };
        let rows = Vec::from_elem(alloc, row, seats as usize).ok()?;
        Some(Tally { total: 0, rows })
    }

    /// Adds one at the seat of this number.
    pub fn add(&mut self, number: u32)
        requires { (r : SeatRow) × (slice_get self.old.rows.items number ≡ Some r) × (entries r < 2 ^ 32) }
        ensures { (r : SeatRow) → slice_get self.old.rows.items number ≡ Some r → self.new.rows.items ≡ slice_set self.old.rows.items number (added r) }
    {
        self.rows[number as usize].counts.entries += 1;
        self.total = self.total.wrapping_add(1);
    }
}
