//! The rule of the table, and its steps.
//! Word 0 is the next ticket and word 1 the served one, modulo 2^64. The slot has the state while nobody has the turn.
ghost use Rattle.std.specs.Prelude.{◌≡◌, ◌%◌, ◌^◌, [], ◌∷◌, slice_get, Some, None, IfSome, IfNone};
ghost use Rattle.seat_lock.specs.declared.rows.SeatRow.{SeatRow};
ghost use Rattle.seat_lock.specs.Known.{IsGiveable, IsKnown, with_row};
ghost use Rattle.seat_lock.specs.Views.{waiting, having, resting, share_of};

use crate::rows::Seated;
use crate::view::View;
use atomic_table::{Join, Play, Seat, Shared, Split, TableRule};
use std::marker::PhantomData;
use std::snapshot::Snapshot;

/// The key is the state at the start.
pub struct InTurn;

impl<T: Seated> TableRule<Option<T>, View, Snapshot<T>> for InTurn {
    ghost use Rattle.seat_lock.specs.Rule.{Kept};
    ghost use Rattle.seat_lock.specs.Views.{starting};

    ghost holds = { λ key. Kept T.rows T.origin key.value };

    ghost first = { λ key. starting T.rows T.origin key.value };
}

pub struct Draw;

impl<T> Play<Option<T>, View> for Draw {
    ghost use Rattle.seat_lock.specs.Steps.{drew};

    ghost then = { drew };
}

pub struct Look<T: Seated> {
    state: PhantomData<T>,
}

impl<T: Seated> Play<Option<T>, View> for Look<T> {
    ghost use Rattle.seat_lock.specs.Steps.{looked};

    ghost then = { looked T.rows T.origin };
}

pub struct HandOn<T: Seated> {
    state: PhantomData<T>,
}

impl<T: Seated> Play<Option<T>, View> for HandOn<T> {
    ghost use Rattle.seat_lock.specs.Steps.{handed};

    ghost then = { handed T.rows };
}

pub struct Cut;

impl Split<View> for Cut {
    ghost use Rattle.seat_lock.specs.Views.{cut_left, cut_right};

    ghost left = { cut_left };

    ghost right = { cut_right };
}

pub struct Glue;

impl Join<View> for Glue {
    ghost use Rattle.seat_lock.specs.Views.{joined, spent};

    ghost both = { joined };

    ghost spent = { spent };
}

pub type LockSeat<T> = Seat<Option<T>, View>;

pub type LockTable<T> = Shared<Option<T>, View, Snapshot<T>, InTurn>;

// Takes a ticket.
pub fn take_ticket<T: Seated>(table: &LockTable<T>, seat: &mut LockSeat<T>) -> u64
    requires table { (seat.old.table_id ≡ table.now.table_id) × (table.now.table_id.words ≡ 2) }
    requires idle { seat.old.me ≡ (resting (share_of seat.old.me.0), []) }
    ensures table { seat.new.table_id ≡ seat.old.table_id }
    ensures line { seat.new.me ≡ (waiting seat.new.me.0.ticket (share_of seat.old.me.0), []) }
    ensures ticket { result ≡ seat.new.me.0.ticket % 2 ^ 64 }
{
    table.fetch_add::<Draw>(seat, 0, 1)
}

// The state, where the ticket is served.
pub fn try_turn<T: Seated>(table: &LockTable<T>, seat: &mut LockSeat<T>, ticket: u64) -> Option<T>
    requires table { (seat.old.table_id ≡ table.now.table_id) × (table.now.table_id.words ≡ 2) }
    requires line { seat.old.me ≡ (waiting seat.old.me.0.ticket (share_of seat.old.me.0), []) }
    requires ticket { ticket ≡ seat.old.me.0.ticket % 2 ^ 64 }
    ensures table { seat.new.table_id ≡ seat.old.table_id }
    ensures turn { IfSome result (λ x. seat.new.me ≡ (having seat.old.me.0.ticket (T.rows x) (share_of seat.old.me.0), (0, None) ∷ [])) }
    ensures known { IfSome result (λ x. IsKnown (T.rows x) (T.origin x) (share_of seat.old.me.0)) }
    ensures none { IfNone result (seat.new.me ≡ seat.old.me) }
{
    if table.load::<Look<T>>(seat, 1) == ticket {
        table.exchange(seat, 0, None)
    } else {
        None
    }
}

// Gives the state back, and serves the next ticket.
pub fn hand_on<T: Seated>(table: &LockTable<T>, seat: &mut LockSeat<T>, ticket: u64, state: T)
    requires table { (seat.old.table_id ≡ table.now.table_id) × (table.now.table_id.words ≡ 2) }
    requires turn { seat.old.me ≡ (having seat.old.me.0.ticket seat.old.me.0.known (share_of seat.old.me.0), (0, None) ∷ []) }
    requires ticket { ticket ≡ seat.old.me.0.ticket % 2 ^ 64 }
    requires state { IsGiveable (T.rows state) (T.origin state) seat.old.me.0.known (share_of seat.old.me.0) }
    ensures table { seat.new.table_id ≡ seat.old.table_id }
    ensures idle { seat.new.me ≡ (resting (with_row (share_of seat.old.me.0) (share_of seat.new.me.0).row), []) }
    ensures row { slice_get (T.rows state) (share_of seat.old.me.0).number ≡ Some (share_of seat.new.me.0).row }
{
    let old = table.exchange(seat, 0, Some(state));
    let None = old else { unreachable!() };
    table.store::<HandOn<T>>(seat, 1, ticket.wrapping_add(1));
    table.wake_all(1);
}
