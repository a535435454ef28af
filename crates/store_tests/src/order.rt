ghost use Rattle.std.specs.Prelude.{◌≡◌};

use order_index::{Entry, Order, what_is_in};
use std::alloc::Global;
use std::process::Abort;

const ENTRIES: u64 = 100_000;

#[test]
fn entries_come_in_order(rt: HostRuntime) {
    let alloc = rt.alloc();
    keep_few(&rt, alloc);
    keep_many(&rt, alloc);
}

fn keep_few(rt: &impl Abort, alloc: Global) {
    let nine = entry(1, 5, 9);
    let two = entry(1, 5, 2);
    let seven = entry(0, 7, 7);
    what_is_in();
    let mut order = Order::new(alloc);
    order.reserve(2).expect(rt, "memory");
    order.insert(nine);
    order.insert(two);
    assert!(rt; order.remove(&nine));
    order.insert(seven);
    order.reserve(1).expect(rt, "memory");
    order.insert(nine);
    assert!(rt; !order.remove(&entry(1, 7, 2)));
    assert_eq!(rt; order.len(), 3);
    assert_eq!(rt; order.first(), Some(seven));
    assert_eq!(rt; order.first_after(&two), Some(nine));
    assert_eq!(rt; order.first_after(&nine), None);
}

fn keep_many(rt: &impl Abort, alloc: Global) {
    let entries = generated(rt, alloc);
    let mut order = Order::new(alloc);
    order.reserve(ENTRIES).expect(rt, "memory");
    for entry in &entries {
        put(rt, &mut order, *entry);
    }
    let mut rest = remove_every_second(rt, alloc, &mut order, &entries);
    rest.sort_unstable();
    walk(rt, &order, &rest);
}

fn entry(group: u64, priority: i32, id: u64) -> Entry
    ensures { result ≡ record { group = group; priority = priority; id = id } }
{
    Entry {
        group,
        priority,
        id,
    }
}

/// Entries of three groups and sixteen priorities, by a linear congruential generator.
fn generated(rt: &impl Abort, alloc: Global) -> Vec<Entry> {
    let mut entries = Vec::new(alloc);
    let mut x = ENTRIES;
    for id in 1..=ENTRIES {
        x = x
            .wrapping_mul(6_364_136_223_846_793_005)
            .wrapping_add(1_442_695_040_888_963_407);
        let made = entry(x % 3, (x >> 60) as i32, id);
        entries.push(made).expect(rt, "memory");
    }
    entries
}

/// Puts in an entry that isn't there. Its room is there already where it was reserved.
fn put(rt: &impl Abort, order: &mut Order, entry: Entry) {
    order.reserve(1).expect(rt, "memory");
    assert!(rt; !order.remove(&entry));
    order.insert(entry);
}

fn remove_every_second(
    rt: &impl Abort,
    alloc: Global,
    order: &mut Order,
    entries: &[Entry],
) -> Vec<Entry> {
    let mut rest = Vec::new(alloc);
    for (place, entry) in entries.iter().enumerate() {
        if place % 2 == 1 {
            assert!(rt; order.remove(entry));
        } else {
            rest.push(*entry).expect(rt, "memory");
        }
    }
    rest
}

fn walk(rt: &impl Abort, order: &Order, entries: &[Entry]) {
    let mut next = order.first();
    for entry in entries {
        assert_eq!(rt; next, Some(*entry));
        next = order.first_after(entry);
    }
    assert_eq!(rt; next, None);
}
