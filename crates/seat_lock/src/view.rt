//! What a seat of the table knows. No value of these is made.
use crate::rows::{Origin, SeatRow};
use std::collections::LinkedList;

/// What a pass has: a number, the row of this number, and the origin.
pub struct Share {
    pub number: u64,
    pub row: SeatRow,
    pub origin: Origin,
}

/// The stage is 0 without a ticket, 1 with one, and 2 with the turn, in which all rows are known.
pub struct View {
    pub stage: u64,
    pub ticket: u64,
    pub known: LinkedList<SeatRow>,
    pub shares: LinkedList<Share>,
}
