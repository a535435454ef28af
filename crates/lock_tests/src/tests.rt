ghost use Rattle.std.specs.Prelude.{ℕ};
ghost use Rattle.lock_tests.specs.Counts.{IsReady};
ghost use Rattle.seat_lock.specs.Passes.{IsIdle};

use crate::counting::{add_one, count_in_threads};
use crate::tally::Tally;
use seat_lock::{Pass, SeatLock};
use std::sync::Wait;
use std::sync::atomic::{AtomicBool, Ordering};
use std::thread;
use std::thread::Threads;
use std::time::{Clock, Duration};

#[test]
fn four_threads_count_to_eight_thousand(rt: HostRuntime) {
    let total = count_in_threads(&rt, rt.alloc(), 4, 2000).expect(&rt, "memory");
    assert!(rt; total == 8000);
}

// What two threads tell each other.
#[derive(Drop)]
struct Signs {
    held: AtomicBool,
    asked: AtomicBool,
    taken: AtomicBool,
}

// Waits for at most ten seconds.
fn wait_for(clock: &impl Clock, sign: &AtomicBool) -> bool {
    for _ in 0..10_000 {
        if sign.load(Ordering::SeqCst) {
            return true;
        }
        thread::sleep(clock, Duration::from_millis(1));
    }
    false
}

// Has the turn until the other thread has asked for it, and a while longer. Did that one ask, and get nothing?
fn hold<R: Clock + Wait>(
    rt: &R,
    lock: &SeatLock<Tally>,
    mut pass: Pass<Tally>,
    signs: &Signs,
) -> (Pass<Tally>, bool)
    requires { IsReady lock.now.of 0 pass }
    ensures { IsIdle lock.now.of result.0 }
{
    let waits = add_one(rt, lock, &mut pass, 0, || -> bool {
        signs.held.store(true, Ordering::SeqCst);
        let asked = wait_for(rt, &signs.asked);
        thread::sleep(rt, Duration::from_millis(50));
        asked && !signs.taken.load(Ordering::SeqCst)
    });
    (pass, waits)
}

// Asks for the turn once the other thread has it. Did that one have it?
fn wait<R: Clock + Wait>(
    rt: &R,
    lock: &SeatLock<Tally>,
    mut pass: Pass<Tally>,
    signs: &Signs,
) -> (Pass<Tally>, bool)
    requires { IsReady lock.now.of 1 pass }
    ensures { IsIdle lock.now.of result.0 }
{
    let held = wait_for(rt, &signs.held);
    signs.asked.store(true, Ordering::SeqCst);
    add_one(rt, lock, &mut pass, 1, || {
        signs.taken.store(true, Ordering::SeqCst)
    });
    (pass, held)
}

#[test]
fn one_thread_waits_while_another_has_the_turn(rt: HostRuntime) {
    let Some(tally) = Tally::new(rt.alloc(), 2) else {
        panic!(rt; "memory")
    };
    let Ok((lock, mut passes)) = SeatLock::new(rt.alloc(), tally, 2) else {
        panic!(rt; "memory")
    };
    let second = passes.take_last();
    let first = passes.take_last();
    passes.destroy_empty();
    let signs = Signs {
        held: AtomicBool::new(false),
        asked: AtomicBool::new(false),
        taken: AtomicBool::new(false),
    };
    let ((first, waits), (second, held)) = thread::join(
        &rt,
        || -> (Pass<Tally>, bool)
            requires { IsReady lock.of 0 first }
            ensures { IsIdle lock.of result.0 }
        { hold(&rt, &lock, first, &signs) },
        || -> (Pass<Tally>, bool)
            requires { IsReady lock.of 1 second }
            ensures { IsIdle lock.of result.0 }
        { wait(&rt, &lock, second, &signs) },
    );
    assert!(rt; held && waits);
    assert!(rt; signs.taken.load(Ordering::SeqCst));
    let mut closing = lock.closing(first);
    closing.join(second);
    assert!(rt; closing.state().total == 2);
}
