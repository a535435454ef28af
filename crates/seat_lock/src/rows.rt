//! What the lock sees of a state.
ghost use Rattle.std.specs.Prelude.{◌≡◌, ◌<◌, List, length, slice_get, Some};

/// What the state says of one seat. The lock compares rows whole.
#[derive(Clone, Copy, Debug)]
pub struct SeatRow {
    /// 1 where a plan is open at the seat, else 0.
    pub stage: u8,
    /// The open plan's kind, process and job, or zeros.
    pub head: [u64; 3],
    pub counts: SeatCounts,
    /// How many commands ended, by kind.
    pub ended: [u64; 23],
}

/// How often each of these happened at a seat.
#[derive(Clone, Copy, Debug)]
pub struct SeatCounts {
    pub entries: u64,
    pub claimed: u64,
    pub made: u64,
    pub refused: u64,
    pub faults: u64,
    pub stops_asked: u64,
    pub stops_found: u64,
    pub looks: u64,
}

/// Where a state's counts began: the journal's end, two counts, and how many tasks recur. No value of it is made.
pub struct Origin {
    pub place: u64,
    pub faults: u64,
    pub refusals: u64,
    pub tasks: u64,
}

/// A state with a row for each seat, and an origin that contracts alone see.
pub trait Seated {
    ghost use Rattle.seat_lock.specs.declared.rows.SeatRow.{SeatRow};
    ghost use Rattle.seat_lock.specs.declared.rows.Origin.{Origin};

    ghost rows: { Self → List SeatRow };

    ghost origin: { Self → Origin };

    /// How many rows there are.
    fn seats(&self) -> u32
        ensures { result ≡ length (rows self.now) };

    /// The row of this number.
    fn row(&self, number: u32) -> SeatRow
        requires { number < length (rows self.now) }
        ensures { slice_get (rows self.now) number ≡ Some result };
}
