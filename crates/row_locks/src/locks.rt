use crate::held::{Asked, sort_rows};
use crate::seats::Seats;
use job_states::{Mode, Name, NoMemory, Row, Text};
use std::alloc::Global;
use std::marker::Model;
use thiserror::Error;

/// Which rows each seat holds. Two seats hold one row only where both share it.
#[derive(Drop)]
pub struct Locks {
    seats: Seats,
}

impl Model for Locks {
    ghost use Rattle.std.specs.Prelude.{List};
    ghost use Rattle.row_locks.specs.Locks.{AreSoundLocks, Lock};
    ghost use Rattle.row_locks.specs.Seats.{locks_in};

    ghost Value = { List Lock };

    ghost view = { λ l. locks_in l.seats };

    ghost invariant = { λ l. AreSoundLocks (locks_in l.seats) };
}

/// Why a seat doesn't get the rows that it asks for.
#[derive(Debug, Drop, Error)]
pub enum TakeFault {
    /// The seat `by` holds the row in a mode that doesn't go together with the one that is asked for. It is the first such
    /// row in the order of rows, and the smallest seat that holds it so.
    #[error("seat {by} holds {row}")]
    Held { row: Row, by: u32 },
    /// There was no memory.
    #[error("out of memory")]
    NoMemory,
}

impl From<NoMemory> for TakeFault {
    ghost use Rattle.std.specs.Prelude.{◌≡◌};
    ghost use Rattle.row_locks.specs.declared.locks.TakeFault.TheVariants as fault;

    ghost from_gives = { λ _ e. e ≡ fault.NoMemory };

    fn from(_: NoMemory) -> Self {
        TakeFault::NoMemory
    }
}

impl Locks {
    ghost use Rattle.std.specs.Prelude.{◌≡◌, ◌↔◌, ◌==◌, [], not, filter, IfErr, OnErr, OnOk, IsTrue};
    ghost use Rattle.row_locks.specs.Locks.{AreSoundLocks, IsFree, TakesRows};
    ghost use Rattle.row_locks.specs.Fault.{IsTakeFault};

    /// No row is held.
    pub fn new(alloc: Global) -> Self
        ensures { result ≡ [] }
    {
        Locks {
            seats: Seats::new(alloc),
        }
    }

    /// Takes all the rows for the seat, or none. The seat may hold some of them already, and may ask for a row in both
    /// modes. The rows move in and none is copied. Each is searched among the rows of each seat that holds any.
    pub fn try_take(&mut self, seat: u32, mut rows: Vec<(Row, Mode)>) -> Result<(), TakeFault>
        ensures taken { OnOk result (TakesRows self.old self.new seat rows.items) }
        ensures fault { IfErr result (IsTakeFault self.old seat rows.items) }
        ensures kept { OnErr result (self.new ≡ self.old) }
        ensures sound { AreSoundLocks self.new }
    {
        sort_rows(&mut rows);
        if let Some((index, by)) = self.seats.first_held(seat, &rows) {
            let (row, _) = rows.swap_remove(index);
            return Err(TakeFault::Held { row, by });
        }
        self.seats.add(seat, rows)?;
        Ok(())
    }

    /// Lets go of the seat's rows. It passes none that another seat holds, and takes no memory.
    pub fn free(&mut self, seat: u32)
        ensures freed { self.new ≡ filter (λ lock. not (lock.seat == seat)) self.old }
        ensures sound { AreSoundLocks self.new }
    {
        self.seats.let_go(seat);
    }

    /// Can the seat hold the row in this mode beside what others hold? It takes no memory.
    pub fn is_free(&self, row: &Row, mode: Mode, seat: u32) -> bool
        ensures { IsTrue result ↔ IsFree self.now seat row.now mode }
    {
        self.seats.holder(seat, Asked::Any(row), mode).is_none()
    }

    /// [`Locks::is_free`] of a semaphore's key.
    pub fn is_key_free(&self, key: &Text, mode: Mode, seat: u32) -> bool
        ensures { IsTrue result ↔ IsFree self.now seat (Row.Key key.now) mode }
    {
        self.seats.holder(seat, Asked::Key(key), mode).is_none()
    }

    /// [`Locks::is_free`] of a queue's row.
    pub fn is_queue_free(&self, queue: &Name, mode: Mode, seat: u32) -> bool
        ensures { IsTrue result ↔ IsFree self.now seat (Row.Queue queue.now) mode }
    {
        self.seats.holder(seat, Asked::Queue(queue), mode).is_none()
    }

    /// [`Locks::is_free`] of a task's row.
    pub fn is_task_free(&self, task: &Name, mode: Mode, seat: u32) -> bool
        ensures { IsTrue result ↔ IsFree self.now seat (Row.Task task.now) mode }
    {
        self.seats.holder(seat, Asked::Task(task), mode).is_none()
    }
}
