//! The rows that one seat holds, in order: by row, and of a row in both modes `Alone` first.
ghost use Rattle.std.specs.Prelude.{◌≡◌, ◌↔◌, ◌++◌, true, IsPermutation, IsTrue, OnErr, OnOk};
ghost use Rattle.std.specs.Ordering.{is_eq};
ghost use Rattle.job_states.specs.RowOrder.{row_cmp};
ghost use Rattle.row_locks.specs.Asked.{row_of};
ghost use Rattle.row_locks.specs.Footprints.{FitTogether};
ghost use Rattle.row_locks.specs.Locks.{held_cmp, rank};
ghost use Rattle.row_locks.specs.Seats.{IsAgainst, IsInOrder};

use job_states::{Mode, Name, NoMemory, Row, Text, compare_rows};
use std::cmp::Ordering;

/// A row that is asked about, or its key or name alone.
#[derive(Clone, Copy)]
pub enum Asked<'a> {
    Any(&'a Row),
    Key(&'a Text),
    Queue(&'a Name),
    Task(&'a Name),
}

// Is the row among these in a mode that doesn't go together with this one?
pub fn is_against(rows: &[(Row, Mode)], row: Asked<'_>, mode: Mode) -> bool
    requires { IsInOrder rows.now }
    ensures { IsTrue result ↔ IsAgainst rows.now (row_of row.entry) mode }
{
    let first = rows.partition_point(|held| compare_asked(&held.0, row).is_lt());
    first < rows.len() && is_unfit(&rows[first], row, mode)
}

// Is it this row in a mode that doesn't go together with this one?
fn is_unfit(held: &(Row, Mode), row: Asked<'_>, mode: Mode) -> bool
    ensures { IsTrue result ↔ ((is_eq (row_cmp held.now.0 (row_of row.entry)) ≡ true) × ¬ FitTogether held.now.1 mode) }
{
    compare_asked(&held.0, row).is_eq() && !fit_together(held.1, mode)
}

// Adds these rows to those that are held.
pub fn merge(held: &mut Vec<(Row, Mode)>, mut rows: Vec<(Row, Mode)>) -> Result<(), NoMemory>
    requires { IsInOrder held.old.items }
    ensures merged { OnOk result (IsPermutation (held.old.items ++ rows.items) held.new.items) }
    ensures kept { OnErr result (held.new.items ≡ held.old.items) }
    ensures in_order { IsInOrder held.new.items }
{
    held.append(&mut rows)?;
    sort_rows(held);
    Ok(())
}

pub fn sort_rows(rows: &mut Vec<(Row, Mode)>)
    ensures permutation { IsPermutation rows.old.items rows.new.items }
    ensures in_order { IsInOrder rows.new.items }
{
    rows.sort_unstable_by(|a, b| compare(a, b));
}

fn compare(a: &(Row, Mode), b: &(Row, Mode)) -> Ordering
    ensures { result ≡ held_cmp a.now b.now }
{
    compare_rows(&a.0, &b.0).then(rank(a.1).cmp(&rank(b.1)))
}

fn compare_asked(held: &Row, asked: Asked<'_>) -> Ordering
    ensures { result ≡ row_cmp held.now (row_of asked.entry) }
{
    match asked {
        Asked::Any(row) => compare_rows(held, row),
        Asked::Key(key) => compare_key(held, key),
        Asked::Queue(queue) => compare_queue(held, queue),
        Asked::Task(task) => compare_task(held, task),
    }
}

fn compare_key(held: &Row, key: &Text) -> Ordering
    ensures { result ≡ row_cmp held.now (Row.Key key.now) }
{
    match held {
        Row::Job(_) => Ordering::Less,
        Row::Key(held) => held.cmp(key),
        Row::Process(_) | Row::Queue(_) | Row::Task(_) => Ordering::Greater,
    }
}

fn compare_queue(held: &Row, queue: &Name) -> Ordering
    ensures { result ≡ row_cmp held.now (Row.Queue queue.now) }
{
    match held {
        Row::Job(_) | Row::Key(_) | Row::Process(_) => Ordering::Less,
        Row::Queue(held) => held.cmp(queue),
        Row::Task(_) => Ordering::Greater,
    }
}

fn compare_task(held: &Row, task: &Name) -> Ordering
    ensures { result ≡ row_cmp held.now (Row.Task task.now) }
{
    match held {
        Row::Job(_) | Row::Key(_) | Row::Process(_) | Row::Queue(_) => Ordering::Less,
        Row::Task(held) => held.cmp(task),
    }
}

fn rank(mode: Mode) -> u8
    ensures { result ≡ rank mode }
{
    match mode {
        Mode::Alone => 0,
        Mode::Shared => 1,
    }
}

fn fit_together(held: Mode, asked: Mode) -> bool
    ensures { IsTrue result ↔ FitTogether held asked }
{
    held == Mode::Shared && asked == Mode::Shared
}
