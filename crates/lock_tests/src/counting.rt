//! Threads that count under a lock.
ghost use Rattle.std.specs.Prelude.{◌≡◌, ℕ, ◌*◌, ◌<◌, ◌≤◌, ◌^◌, length, slice_get, Some, IfSome};
ghost use Rattle.lock_tests.specs.Counts.{added, entries, IsAdded, IsReady};
ghost use Rattle.seat_lock.specs.Passes.{gave, IsIdle};
ghost use Rattle.seat_lock.specs.Shown.{PassView};

use crate::tally::Tally;
use seat_lock::{Pass, SeatLock};
use std::alloc::Global;
use std::sync::Wait;
use std::thread;
use std::thread::Threads;

/// Adds one at this pass, and makes the call while it has the turn.
pub fn add_one<R: Wait, X, F: FnOnce() -> X>(
    rt: &R,
    lock: &SeatLock<Tally>,
    pass: &mut Pass<Tally>,
    number: u32,
    call: F,
) -> X
    requires idle { IsIdle lock.now.of pass.old }
    requires number { pass.old.share.number ≡ number }
    requires room { entries pass.old.share.row < 2 ^ 32 }
    requires call { F.pre call }
    ensures pass { pass.new ≡ gave (added pass.old.share.row) pass.old }
    ensures call { F.post call result }
{
    let mut tally = lock.take(rt, pass);
    tally.add(number);
    let result = call();
    lock.give(pass, tally);
    result
}

// Adds one as often as is asked.
fn add_many<R: Wait>(
    rt: &R,
    lock: &SeatLock<Tally>,
    pass: &mut Pass<Tally>,
    number: u32,
    times: u32,
)
    requires { IsReady lock.now.of number pass.old }
    ensures { IsAdded times pass.old pass.new }
{
    for _time in 0..times {
        add_one(rt, lock, pass, number, || ());
    }
}

// Each pass in a thread of its own.
fn add_in_threads<R: Threads + Wait + Sync>(
    rt: &R,
    lock: &SeatLock<Tally>,
    passes: &mut [Pass<Tally>],
    times: u32,
)
    requires some { (0 < length passes.old) × (length passes.old < 2 ^ 32) }
    requires ready { (i : ℕ) (p : PassView) → slice_get passes.old i ≡ Some p → IsReady lock.now.of i p }
    ensures len { length passes.new ≡ length passes.old }
    ensures added { (i : ℕ) (p q : PassView) → slice_get passes.old i ≡ Some p → slice_get passes.new i ≡ Some q → IsAdded times p q }
{
    let threads = passes.len();
    thread::for_each_mut(
        rt,
        passes,
        threads,
        &|i: usize, pass: &mut Pass<Tally>|
            requires { (i < 2 ^ 32) × IsReady lock.now.of i pass.now }
            ensures { IsAdded times pass.entry.now pass.exit.now }
        { add_many(rt, lock, pass, i as u32, times) },
    );
}

/// Threads add to one count, each as often as is asked: what it comes to.
pub fn count_in_threads<R: Threads + Wait + Sync>(
    rt: &R,
    alloc: Global,
    seats: u32,
    times: u32,
) -> Option<u64>
    requires { (0 < seats) × (seats ≤ 64) }
    ensures { IfSome result (λ n. n ≡ seats * times) }
{
    let tally = Tally::new(alloc, seats)?;
    let Ok((lock, mut passes)) = SeatLock::new(alloc, tally, seats) else {
        return None;
    };
    add_in_threads(rt, &lock, passes.as_mut_slice(), times);
    let tally = lock.close(passes);
    Some(tally.total)
}
