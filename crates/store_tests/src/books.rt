ghost use Rattle.std.specs.Prelude.{◌≡◌, [], ◌∷◌, true};
ghost use Rattle.job_states.specs.declared.transition.Transition.TheVariants as step;
ghost use Rattle.job_states.specs.declared.answer.Answer.TheVariants as answer;
ghost use Rattle.book_core.specs.GoodPlan.{plan};

use crate::words::name;
use book_core::{Book, Plan};
use exec_tables::Tables;
use job_states::{Answer, List, Mode, Refused, Row, Transaction, Transition};
use std::alloc::Global;
use std::process::Abort;

// A pause of the queue at moment 5.
fn pause(rt: &impl Abort, alloc: Global, queue: &str) -> Plan
    ensures { result ≡ plan (record { moment = 5; steps = step.Pause queue.now ∷ [] }) ((Row.Queue queue.now, Mode.Alone) ∷ []) (answer.Paused true queue.now) }
{
    let step = Transition::Pause {
        queue: name(rt, alloc, queue),
    };
    let steps = List::of(vec![in alloc; step].expect(rt, "memory"));
    let row = Row::Queue(name(rt, alloc, queue));
    let rows = vec![in alloc; (row, Mode::Alone)].expect(rt, "memory");
    let answer = Answer::Paused {
        paused: true,
        queue: name(rt, alloc, queue),
    };
    Plan::new(Transaction { moment: 5, steps }, rows, answer)
}

// Opens a pause of a queue that isn't paused at a seat where nothing is open.
fn open_pause(
    rt: &impl Abort,
    alloc: Global,
    book: &mut Book,
    seat: u32,
    queue: &str,
) -> Result<(), Refused> {
    let name = name(rt, alloc, queue);
    let is_open = book.is_open(seat);
    let is_paused = book.tables().is_paused(&name);
    assert!(rt; seat < 64);
    assert!(rt; !is_open);
    assert!(rt; !is_paused);
    let plan = pause(rt, alloc, queue);
    book.open_plan(seat, plan)
}

// A row that an open plan holds is refused to another seat.
fn holds_its_row(rt: &impl Abort, alloc: Global, book: &mut Book) {
    open_pause(rt, alloc, book, 0, "q").ok().expect(rt, "free");
    let refused = open_pause(rt, alloc, book, 1, "q");
    assert!(rt; matches!(refused, Err(Refused::Locked { by: 0, .. })));
    let row = Row::Queue(name(rt, alloc, "q"));
    assert!(rt; !book.is_free(&row, Mode::Shared));
}

fn closes(rt: &impl Abort, alloc: Global, book: &mut Book) {
    open_pause(rt, alloc, book, 1, "r").ok().expect(rt, "free");
    book.close_plan(1);
    assert!(rt; !book.is_open(1));
}

fn applies(rt: &impl Abort, alloc: Global, book: &mut Book) {
    assert!(rt; book.is_open(0));
    let answer = book.apply_plan(0);
    assert!(rt; matches!(answer, Answer::Paused { paused: true, .. }));
    assert!(rt; book.tables().is_paused(&name(rt, alloc, "q")));
    assert!(rt; !book.tables().is_paused(&name(rt, alloc, "r")));
}

#[test]
fn plans_are_opened_refused_closed_and_applied(rt: HostRuntime) {
    let alloc = rt.alloc();
    let mut book = Book::new(alloc, Tables::new(alloc));
    holds_its_row(&rt, alloc, &mut book);
    closes(&rt, alloc, &mut book);
    applies(&rt, alloc, &mut book);
}
