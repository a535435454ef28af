use crate::words::{name, text};
use job_states::{Mode, Row};
use row_locks::{Locks, TakeFault};
use std::alloc::Global;
use std::process::Abort;

fn try_take(
    rt: &impl Abort,
    alloc: Global,
    locks: &mut Locks,
    seat: u32,
    row: Row,
    mode: Mode,
) -> Result<(), TakeFault> {
    let rows = vec![in alloc; (row, mode)].expect(rt, "memory");
    locks.try_take(seat, rows)
}

fn take(rt: &impl Abort, alloc: Global, locks: &mut Locks, seat: u32, row: Row, mode: Mode) {
    try_take(rt, alloc, locks, seat, row, mode).expect(rt, "free");
}

#[test]
fn a_row_is_shared_or_held_alone(rt: HostRuntime) {
    let alloc = rt.alloc();
    let mut locks = Locks::new(alloc);
    take(&rt, alloc, &mut locks, 2, Row::Process(1), Mode::Shared);
    take(&rt, alloc, &mut locks, 1, Row::Process(1), Mode::Shared);
    take(&rt, alloc, &mut locks, 2, Row::Job(7), Mode::Alone);
    assert!(rt; locks.is_free(&Row::Process(1), Mode::Shared, 0));
    assert!(rt; !locks.is_free(&Row::Process(1), Mode::Alone, 0));
    assert!(rt; locks.is_free(&Row::Job(7), Mode::Alone, 2));
    locks.free(1);
    locks.free(2);
    take(&rt, alloc, &mut locks, 0, Row::Process(1), Mode::Alone);
    assert!(rt; !locks.is_free(&Row::Process(1), Mode::Shared, 2));
}

#[test]
fn a_borrowed_key_or_name_is_asked_about(rt: HostRuntime) {
    let alloc = rt.alloc();
    let name = name(&rt, alloc, "default");
    let held = Row::Queue(name.clone().expect(&rt, "memory"));
    let mut locks = Locks::new(alloc);
    take(&rt, alloc, &mut locks, 1, held, Mode::Alone);
    assert!(rt; locks.is_key_free(name.as_text(), Mode::Alone, 2));
    assert!(rt; !locks.is_queue_free(&name, Mode::Shared, 2));
    assert!(rt; locks.is_task_free(&name, Mode::Alone, 2));
}

fn key(rt: &impl Abort, alloc: Global) -> Row {
    Row::Key(text(rt, alloc, "B/x"))
}

#[test]
fn a_refusal_names_the_row_and_the_seat(rt: HostRuntime) {
    let alloc = rt.alloc();
    let mut locks = Locks::new(alloc);
    take(&rt, alloc, &mut locks, 2, key(&rt, alloc), Mode::Alone);
    let fault = try_take(&rt, alloc, &mut locks, 0, key(&rt, alloc), Mode::Shared).expect_err(
        &rt,
        "the key is held",
    );
    let shown = format!(in alloc; "{fault}").expect(&rt, "memory");
    assert_eq!(rt; shown.as_str(), "seat 2 holds key B/x");
}
