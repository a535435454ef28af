ghost use Rattle.queue_selector.specs.Groups.{AreSorted};

use crate::tables::{name, row, same, text};
use job_states::{List, Name, Text};
use queue_selector::QueueList;
use std::alloc::Global;
use std::process::Abort;

fn texts(rt: &impl Abort, alloc: Global, words: &str) -> Vec<Text> {
    let mut texts = Vec::new(alloc);
    for word in words.split(' ') {
        texts.push(text(rt, alloc, word)).expect(rt, "memory");
    }
    texts
}

fn names(rt: &impl Abort, alloc: Global, words: &str) -> Vec<Name>
    ensures { AreSorted result.items }
{
    let mut names = Vec::new(alloc);
    for word in words.split_whitespace() {
        names.push(name(rt, alloc, word)).expect(rt, "memory");
    }
    names.sort_unstable();
    names.dedup();
    names
}

/// Items, the paused ones of `backend`, `background` and `real_time` after a slash, and the places of the groups.
const GROUPS: &str = "real_time back* / => [[2], [0], [1]]
back* backend real_time* / => [[0], [1], [2]]
background back* / backend => [[1]]
* / => [[0, 1, 2]]
real_time * / background => [[0, 2]]
* / backend background real_time => [[]]
b*d ** back** *end back / => []";

fn groups(rt: &impl Abort, alloc: Global, question: &str) -> String {
    let (items, paused) = question.split_once(" /").expect(rt, question);
    let list = QueueList::of(List::of(texts(rt, alloc, items))).expect(rt, items);
    let queues = names(rt, alloc, "backend background real_time");
    let paused = names(rt, alloc, paused);
    let found = list.groups(alloc, &queues, &paused).expect(rt, "memory");
    format!(in alloc; "{found:?}").expect(rt, "memory")
}

#[test]
fn queues_are_grouped_in_the_order_of_the_list(rt: HostRuntime) {
    for line in GROUPS.lines() {
        let (question, expected) = row(&rt, line);
        let found = groups(&rt, rt.alloc(), question);
        same(&rt, found.as_str(), expected, question);
    }
}

fn expect(rt: &impl Abort, alloc: Global, items: &str, expected: &str) {
    let fault = QueueList::parse(alloc, &texts(rt, alloc, items)).err();
    let said = match fault {
        None => String::from_str(alloc, "accepted"),
        Some(fault) => format!(in alloc; "{fault}"),
    };
    same(rt, said.expect(rt, "memory").as_str(), expected, items);
}

#[test]
fn lists_have_1_to_64_items_of_1_to_128_bytes(rt: HostRuntime) {
    let alloc = rt.alloc();
    let long = "é".repeat(alloc, 64).expect(&rt, "memory");
    expect(&rt, alloc, long.as_str(), "accepted");
    let longer = "x".repeat(alloc, 129).expect(&rt, "memory");
    let first = "the item at place 0 of the queue list is empty or has more than 128 bytes";
    expect(&rt, alloc, longer.as_str(), first);
    // the last item is empty
    let most = "q ".repeat(alloc, 63).expect(&rt, "memory");
    let last = "the item at place 63 of the queue list is empty or has more than 128 bytes";
    expect(&rt, alloc, most.as_str(), last);
    let more = "q ".repeat(alloc, 64).expect(&rt, "memory");
    expect(
        &rt,
        alloc,
        more.as_str(),
        "a queue list has 1 to 64 items, and not 65",
    );
}
