use semaphores::{Sem, expired, give, give_back, gives, is_closed, take};

const THREE_MINUTES: u64 = 180_000_000;

#[test]
fn a_key_is_taken_given_back_and_taken_anew(rt: HostRuntime) {
    let closed = Sem::of(1, 1, 0, THREE_MINUTES);
    assert_eq!(rt; take(None, 1, 1, THREE_MINUTES, 0), closed);
    assert!(rt; is_closed(&closed));
    assert!(rt; !is_closed(&None));
    assert_eq!(rt; take(closed, 2, 1, THREE_MINUTES, 1), None);

    let open = Sem::of(1, 1, 1, THREE_MINUTES + 5);
    assert_eq!(rt; give_back(closed, Some(1), THREE_MINUTES, 5), open);
    assert_eq!(rt; give_back(closed, Some(2), THREE_MINUTES, 5), closed);
    assert_eq!(rt; give_back(closed, None, THREE_MINUTES, 5), closed);
    assert_eq!(rt; closed.map(|sem| give(sem, THREE_MINUTES, 5)), open);
    assert_eq!(rt; take(open, 2, 9, THREE_MINUTES, 0), closed);

    assert!(rt; gives(&closed, 1));
    assert!(rt; !gives(&closed, 2));
    assert_eq!(rt;
        closed.map(|sem| expired(&sem, THREE_MINUTES - 1)),
        Some(false)
    );
    assert_eq!(rt; closed.map(|sem| expired(&sem, THREE_MINUTES)), Some(true));
    assert_eq!(rt; Sem::of(1, 0, 0, 0), None);
    assert_eq!(rt; Sem::of(1, 1, 2, 0), None);
}
