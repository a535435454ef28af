use crate::words::name;
use exec_tables::Tables;
use job_states::{Bytes, JobRow, Kind, List, Put, Transaction, Transition};
use std::alloc::Global;
use std::process::Abort;

fn register(rt: &impl Abort, alloc: Global) -> Transition {
    Transition::Register {
        pid: 1,
        kind: Kind::Worker,
        name: name(rt, alloc, "w"),
    }
}

fn enqueue(rt: &impl Abort, alloc: Global) -> Transition {
    let row = JobRow {
        id: 1,
        class: name(rt, alloc, "q"),
        active_id: name(rt, alloc, "q"),
        queue: name(rt, alloc, "q"),
        priority: -1,
        envelope: Bytes::read(alloc, b"{}").expect(rt, "memory"),
        executions: 0,
        counts: List::of(Vec::new(alloc)),
        limited: None,
    };
    let put = Put::Ready(None);
    Transition::Enqueue { row, put }
}

const CLAIM: Transition = Transition::Claim { id: 1, pid: 1 };

fn takes_in(rt: &impl Abort, alloc: Global, tables: &mut Tables, step: Transition) -> bool {
    let steps = List::of(vec![in alloc; step].expect(rt, "memory"));
    let tx = Transaction { moment: 100, steps };
    tables.reserve_for(&tx).expect(rt, "memory");
    tables.try_apply(tx)
}

// A process takes a job, which it can't take again.
fn expect_history(rt: &impl Abort, alloc: Global, tables: &mut Tables) {
    assert!(rt; takes_in(rt, alloc, tables, register(rt, alloc)));
    assert!(rt; takes_in(rt, alloc, tables, enqueue(rt, alloc)));
    assert!(rt; takes_in(rt, alloc, tables, CLAIM));
    assert!(rt; !takes_in(rt, alloc, tables, CLAIM));
    assert_eq!(rt; tables.claims(1), 1);
}

#[test]
fn transactions_are_taken_in_and_looked_up(rt: HostRuntime) {
    let mut tables = Tables::new(rt.alloc());
    expect_history(&rt, rt.alloc(), &mut tables);
}
