//! The lock, and the passes of its seats.
ghost use Rattle.std.specs.Prelude.{◌≡◌, ℕ, ◌%◌, ◌^◌, ◌<◌, ◌≤◌, true, [], ◌∷◌, length, slice_get, Some, None, IfOk, IfErr, vec_len, vec_capacity};
ghost use Rattle.seat_lock.specs.Known.{IsGiveable, IsKnown};
ghost use Rattle.seat_lock.specs.Passes.{took, gave, IsIdle, IsMade};
ghost use Rattle.seat_lock.specs.Shown.{PassView};
ghost use Rattle.seat_lock.specs.Views.{waiting, having, starting, share_of};

use crate::rows::Seated;
use crate::steps::{Cut, InTurn, LockSeat, LockTable, hand_on, take_ticket, try_turn};
use crate::view::View;
use atomic_table::{Refused, Table};
use std::alloc::Global;
use std::marker::Model;
use std::snapshot::Snapshot;
use std::sync::Wait;

/// The right to one row of the state, with its number. It has the turn between a `take` and a `give`.
#[derive(Drop)]
pub struct Pass<T> {
    pub(crate) seat: LockSeat<T>,
    ticket: u64,
}

impl<T> Model for Pass<T> {
    ghost use Rattle.seat_lock.specs.Shown.{PassView};

    ghost Value = { PassView };

    ghost use Rattle.seat_lock.specs.Passes.{shown, IsSound};

    ghost view = { shown };

    ghost invariant = { IsSound };
}

/// A state that one pass at a time takes.
#[derive(Drop)]
pub struct SeatLock<T: Seated> {
    pub(crate) table: Table<Option<T>, View, Snapshot<T>, InTurn, Global>,
}

impl<T: Seated> Model for SeatLock<T> {
    ghost use Rattle.std.specs.Prelude.{◌≡◌, ◌<◌, length};
    ghost use Rattle.seat_lock.specs.Shown.{LockView};

    ghost Value = { LockView };

    ghost view = { λ l. record { of = l.table.shared.table_id; seats = length (T.rows l.table.shared.key.value); origin = T.origin l.table.shared.key.value } };

    ghost invariant = { λ l. (l.table.shared.table_id.words ≡ 2) × (l.table.shared.table_id.slots ≡ 1) × (0 < length (T.rows l.table.shared.key.value)) };
}

impl<T: Seated> SeatLock<T> {
    /// Makes a lock round the state, with a pass for each of its 1 to 64 rows. For want of memory it hands the state back.
    pub fn new(alloc: Global, state: T, seats: u32) -> Result<(SeatLock<T>, Vec<Pass<T>>), T>
        requires { (0 < seats) × (seats ≤ 64) × (length (T.rows state) ≡ seats) }
        ensures lock { IfOk result (λ r. (r.0.seats ≡ seats) × (r.0.origin ≡ T.origin state)) }
        ensures seats { IfOk result (λ r. length r.1.items ≡ seats) }
        ensures passes { IfOk result (λ r. (i : ℕ) (p : PassView) → slice_get r.1.items i ≡ Some p → IsMade r.0.of (T.rows state) (T.origin state) i p) }
        ensures err { IfErr result (λ x. x ≡ state) }
    {
        let Ok(passes) = Vec::with_capacity(alloc, seats as usize) else {
            return Err(state);
        };
        let Ok(mut slots) = Vec::with_capacity(alloc, 1) else {
            return Err(state);
        };
        let start = Snapshot::of(&state);
        slots.push_reserved(Some(state));
        match Table::new(alloc, &[0, 0], slots, &start) {
            Ok((table, seat)) => {
                let passes = deal(&table.shared, seat, seats as usize, passes);
                Ok((SeatLock { table }, passes))
            }
            Err(Refused { slots }) => Err(only(slots)),
        }
    }

    /// Waits for the turn, and takes the state. It takes no memory.
    pub fn take<R: Wait>(&self, rt: &R, pass: &mut Pass<T>) -> T
        requires { IsIdle self.now.of pass.old }
        ensures pass { pass.new ≡ took (T.rows result) pass.old }
        ensures state { IsKnown (T.rows result) (T.origin result) pass.old.share }
    {
        let table = &self.table.shared;
        pass.ticket = take_ticket(table, &mut pass.seat);
        wait_turn(rt, table, &mut pass.seat, pass.ticket)
    }

    /// Gives the state back, in which the row of this pass alone may have changed. It takes no memory.
    pub fn give(&self, pass: &mut Pass<T>, state: T)
        requires lock { pass.old.of ≡ self.now.of }
        requires turn { pass.old.turn ≡ true }
        requires state { IsGiveable (T.rows state) (T.origin state) pass.old.known pass.old.share }
        ensures pass { pass.new ≡ gave pass.new.share.row pass.old }
        ensures row { slice_get (T.rows state) pass.old.share.number ≡ Some pass.new.share.row }
    {
        hand_on(&self.table.shared, &mut pass.seat, pass.ticket, state);
    }
}

// Waits until the ticket is served.
fn wait_turn<T: Seated, R: Wait>(
    rt: &R,
    table: &LockTable<T>,
    seat: &mut LockSeat<T>,
    ticket: u64,
) -> T
    requires table { (seat.old.table_id ≡ table.now.table_id) × (table.now.table_id.words ≡ 2) }
    requires line { seat.old.me ≡ (waiting seat.old.me.0.ticket (share_of seat.old.me.0), []) }
    requires ticket { ticket ≡ seat.old.me.0.ticket % 2 ^ 64 }
    ensures table { seat.new.table_id ≡ seat.old.table_id }
    ensures turn { seat.new.me ≡ (having seat.old.me.0.ticket (T.rows result) (share_of seat.old.me.0), (0, None) ∷ []) }
    ensures known { IsKnown (T.rows result) (T.origin result) (share_of seat.old.me.0) }
{
    for _ in rt.forever() {
        if let Some(state) = try_turn(table, seat, ticket) {
            return state;
        }
        let served = table.peek(1);
        if served != ticket {
            table.park(rt, 1, (served % 4_294_967_296) as u32);
        }
    }
    unreachable!()
}

// Makes the passes, by number.
fn deal<T: Seated>(
    table: &LockTable<T>,
    mut seat: LockSeat<T>,
    seats: usize,
    mut passes: Vec<Pass<T>>,
) -> Vec<Pass<T>>
    requires table { (seat.table_id ≡ table.now.table_id) × (table.now.table_id.words ≡ 2) }
    requires all { seat.me ≡ (starting T.rows T.origin table.now.key.value, []) }
    requires seats { length (T.rows table.now.key.value) ≡ seats }
    requires room { (passes.items ≡ []) × (vec_len passes ≡ 0) × (seats ≤ vec_capacity passes) }
    ensures seats { length result.items ≡ seats }
    ensures passes { (i : ℕ) (p : PassView) → slice_get result.items i ≡ Some p → IsMade table.now.table_id (T.rows table.now.key.value) (T.origin table.now.key.value) i p }
{
    for _number in 0..seats {
        let other = table.split_seat::<Cut>(&mut seat);
        passes.push_reserved(Pass {
            seat: other,
            ticket: 0,
        });
    }
    passes
}

// The one item.
fn only<T>(mut slots: Vec<Option<T>>) -> T
    requires { (x : T) × (slots.items ≡ Some x ∷ []) }
    ensures { slots.items ≡ Some result ∷ [] }
{
    let slot = slots.take_last();
    slots.destroy_empty();
    match slot {
        Some(state) => state,
        None => unreachable!(),
    }
}
