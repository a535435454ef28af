use crate::words::{name, text};
use job_states::{Bytes, Copied, Counted, JobRow, Limited, List, Name, Row};
use std::alloc::Global;
use std::process::Abort;

#[test]
fn names_have_1_to_128_bytes(rt: HostRuntime) {
    let alloc = rt.alloc();
    let long = "é".repeat(alloc, 64).expect(&rt, "memory");
    assert_eq!(rt; name(&rt, alloc, long.as_str()).as_bytes().len(), 128);
    let longer = "x".repeat(alloc, 129).expect(&rt, "memory");
    let fault = Name::read(alloc, longer.as_str()).expect_err(&rt, "a name");
    let shown = format!(in alloc; "{fault}").expect(&rt, "memory");
    assert_eq!(rt; shown.as_str(), "a name has 129 bytes, more than 128");
}

fn counted(rt: &impl Abort, alloc: Global, list: &str, count: u32) -> Counted {
    let list = text(rt, alloc, list);
    Counted { list, count }
}

fn counts(rt: &impl Abort, alloc: Global) -> List<Counted> {
    let first = counted(rt, alloc, "[NetError]", 2);
    let second = counted(rt, alloc, "[Timeout]", 1);
    List::of(vec![in alloc; first, second].expect(rt, "memory"))
}

fn row(rt: &impl Abort, alloc: Global) -> JobRow {
    JobRow {
        id: 7,
        class: name(rt, alloc, "Mail"),
        queue: name(rt, alloc, "default"),
        priority: -1,
        active_id: name(rt, alloc, "8bd5b1c0"),
        envelope: Bytes::read(alloc, b"{}").expect(rt, "memory"),
        executions: 3,
        counts: counts(rt, alloc),
        limited: Some(Limited {
            key: text(rt, alloc, "Mail/7"),
            to: 1,
            duration: 180_000_000,
            discard: false,
        }),
    }
}

fn expect_count_and_key(rt: &impl Abort, row: &JobRow) {
    let second = row.counts.as_slice().get(1).expect(rt, "two counts");
    assert_eq!(rt; (second.list.as_str(), second.count), ("[Timeout]", 1));
    let limited = row.limited.as_ref().expect(rt, "a limit");
    assert_eq!(rt; limited.key.as_str(), "Mail/7");
}

#[test]
fn a_copy_of_a_whole_row_is_made(rt: HostRuntime) {
    let copy = row(&rt, rt.alloc()).copy().expect(&rt, "memory");
    expect_count_and_key(&rt, &copy);
}

#[test]
fn rows_are_shown_in_their_order(rt: HostRuntime) {
    let alloc = rt.alloc();
    let rows = [
        Row::Job(2),
        Row::Job(10),
        Row::Key(text(&rt, alloc, "A/10")),
        Row::Key(text(&rt, alloc, "A/2")),
        Row::Process(1),
        Row::Queue(name(&rt, alloc, "b")),
        Row::Task(name(&rt, alloc, "a")),
    ];
    assert!(rt; rows.is_sorted());
    let mut shown = String::new(alloc);
    for row in &rows {
        write!(shown, "{row}, ").expect(&rt, "memory");
    }
    assert_eq!(rt;
        shown.as_str(),
        "job 2, job 10, key A/10, key A/2, process 1, queue b, task a, "
    );
}
