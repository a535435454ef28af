//! The end of a lock.
ghost use Rattle.std.specs.Prelude.{◌≡◌, ℕ, [], ◌∷◌, length, slice_get, Some};
ghost use Rattle.seat_lock.specs.Known.{IsKnown};
ghost use Rattle.seat_lock.specs.Passes.{IsEnd, IsIdle};
ghost use Rattle.seat_lock.specs.Shown.{PassView};

use crate::lock::{Pass, SeatLock};
use crate::rows::Seated;
use crate::steps::{Glue, InTurn, LockSeat};
use crate::view::View;
use atomic_table::Table;
use std::alloc::Global;
use std::marker::Model;
use std::snapshot::Snapshot;

/// A lock that no thread shares any more, and the passes that are back, for a caller that has no list of them.
pub struct Closing<T: Seated> {
    table: Table<Option<T>, View, Snapshot<T>, InTurn, Global>,
    seat: LockSeat<T>,
}

impl<T: Seated> Model for Closing<T> {
    ghost use Rattle.std.specs.Prelude.{◌≡◌, [], length};
    ghost use Rattle.seat_lock.specs.Shown.{ClosingView};
    ghost use Rattle.seat_lock.specs.Views.{holding};

    ghost Value = { ClosingView };

    ghost view = { λ l. record { of = l.table.shared.table_id; seats = length (T.rows l.table.shared.key.value); origin = T.origin l.table.shared.key.value; back = l.seat.me.0.shares } };

    ghost invariant = { λ l. (l.table.shared.table_id.words ≡ 2) × (l.table.shared.table_id.slots ≡ 1) × (l.seat.table_id ≡ l.table.shared.table_id) × (l.seat.me ≡ (holding l.seat.me.0.shares, [])) };
}

impl<T: Seated> SeatLock<T> {
    /// Ends the lock: as many passes are back as it has seats, in any order. It doesn't wait, and takes no memory.
    pub fn close(self, mut passes: Vec<Pass<T>>) -> T
        requires all { length passes.items ≡ self.seats }
        requires idle { (i : ℕ) (p : PassView) → slice_get passes.items i ≡ Some p → IsIdle self.of p }
        ensures state { (i : ℕ) (p : PassView) → slice_get passes.items i ≡ Some p → IsKnown (T.rows result) (T.origin result) p.share }
        ensures seats { (length (T.rows result) ≡ self.seats) × (T.origin result ≡ self.origin) }
    {
        let mut closing = self.closing(passes.take_last());
        while let Some(pass) = passes.pop() {
            closing.join(pass);
        }
        closing.state()
    }

    /// Begins to close: one pass is back.
    pub fn closing(self, first: Pass<T>) -> Closing<T>
        requires { IsIdle self.of first }
        ensures { result ≡ record { of = self.of; seats = self.seats; origin = self.origin; back = first.share ∷ [] } }
    {
        Closing {
            table: self.table,
            seat: first.seat,
        }
    }
}

impl<T: Seated> Closing<T> {
    /// One more pass is back.
    pub fn join(&mut self, pass: Pass<T>)
        requires { IsIdle self.old.of pass }
        ensures { self.new ≡ record self.old { back = pass.share ∷ self.old.back } }
    {
        let table = &self.table;
        table.shared.join_seat::<Glue>(&mut self.seat, pass.seat);
    }

    /// All passes are back: the state.
    pub fn state(self) -> T
        requires { length self.back ≡ self.seats }
        ensures { IsEnd self (T.rows result) (T.origin result) }
    {
        let Closing { table, seat } = self;
        let mut closed = table.close_with(seat);
        let slot = closed.take(0);
        closed.free();
        match slot {
            Some(state) => state,
            None => unreachable!(),
        }
    }
}
