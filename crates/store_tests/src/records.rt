use journal_format::{Heading, ReadFault, header, read_header, read_tx, write_tx};
use std::alloc::Global;
use std::process::Abort;

/// The first enqueue, at moment 1000: up to the `job_` of its envelope, and the rest.
const HEAD: [u8; 46] =
    *b"\x01\x01\0\0\0\0\0\0\x03\xe8\0\x01\x01\0\0\0\0\0\0\0\x01\x01A\x07default\0\0\0\0\x02j1\0\x1f{\"job_";

const REST: [u8; 31] = *b"class\":\"A\",\"job_id\":\"j1\"}\0\0\0\0\x01\0";

/// One transaction with one transition, up to its tag.
const ONE_STEP: [u8; 12] = *b"\x01\x01\0\0\0\0\0\0\0\0\0\x01";

fn joined(rt: &impl Abort, alloc: Global, head: &[u8], rest: &[u8]) -> Vec<u8> {
    let mut bytes = Vec::from_slice(alloc, head).expect(rt, "memory");
    bytes.extend_from_slice(rest).expect(rt, "memory");
    bytes
}

/// Where the bytes are refused.
fn refused_at(alloc: Global, bytes: &[u8]) -> Option<usize> {
    match read_tx(alloc, bytes) {
        Err(ReadFault::BadRecord { at }) => Some(at),
        _ => None,
    }
}

/// The payload is read whatever follows it, and written again; each of its proper prefixes is refused at its length.
fn expect_read_and_written(rt: &impl Abort, alloc: Global, bytes: &[u8]) {
    for end in 0..bytes.len() {
        assert_eq!(rt; refused_at(alloc, &bytes[..end]), Some(end), "{bytes:?}");
    }
    let longer = joined(rt, alloc, bytes, &[9]);
    let (txs, len) = read_tx(alloc, &longer).ok().expect(rt, "read");
    let again = write_tx(alloc, &txs).ok().expect(rt, "written");
    assert_eq!(rt; (again.as_slice(), len), (bytes, bytes.len()));
}

/// The bytes with another one at a place.
fn changed(rt: &impl Abort, alloc: Global, bytes: &[u8], place: usize) -> Vec<u8> {
    let mut other = Vec::from_slice(alloc, bytes).expect(rt, "memory");
    *other.get_mut(place).expect(rt, "a byte") = 0xff;
    other
}

#[test]
fn the_first_enqueue_has_77_bytes(rt: HostRuntime) {
    let bytes = joined(&rt, rt.alloc(), &HEAD, &REST);
    assert_eq!(rt; bytes.len(), 77);
    for place in 0..77 {
        let expected = match place {
            // A moment, an id, a priority and a number of executions may have this byte.
            3..=9 | 14..=20 | 31..=34 | 71 | 72 => None,
            // 255 transitions, and an envelope of 255 bytes: the bytes end too early.
            11 | 39 => Some(77),
            _ => Some(place),
        };
        let other = changed(&rt, rt.alloc(), &bytes, place);
        assert_eq!(rt; refused_at(rt.alloc(), &other), expected, "{place}");
    }
    expect_read_and_written(&rt, rt.alloc(), &bytes);
}

const STEPS: [&[u8]; 22] = [
    b"\x01\0\0\0\0\0\0\0\x01\x01A\x01q\xff\xff\xff\xff\x02j1\0\x02{}\0\x02\x01\0\x03[E]\0\x02\x01\0\x03g/k\0\x01\0\0\0\0\0\0\0\x03\x01\x01\x01\0\0\0\0\0\0\0\x05",
    b"\x01\0\0\0\0\0\0\0\x01\x01A\x01q\0\0\0\x01\x02j1\0\0\0\0\0\0\x02\0\0\0\0\0\0\0\x09",
    b"\x02\0\0\0\0\0\0\0\x01\x03\0\0\0\0\0\0\0\x09",
    b"\x02\0\0\0\0\0\0\0\x01\x04",
    b"\x03\0\0\0\0\0\0\0\x01\0\0\0\0\0\0\0\x02",
    b"\x04\x80\0\0\0\0\0\0\0",
    b"\x05\0\0\0\0\0\0\0\x01\x01E\0\x02\xc3\xa9\0",
    b"\x05\0\0\0\0\0\0\0\x01\x01E\0\0\x01\0\x02\x02\0\x01A\0\x01\0\x01B\0\x02",
    b"\x06\0\0\0\0\0\0\0\x01",
    b"\x07\0\0\0\0\0\0\0\x01\0\0\0\0\0\0\0\x02",
    b"\x08\0\0\0\0\0\0\0\x01\x01\0",
    b"\x09\0\0\0\0\0\0\0\x01",
    b"\x0a\0\0\0\0\0\0\0\x01",
    b"\x0b\0\0\0\0\0\0\0\x01\x01\x01w",
    b"\x0b\0\0\0\0\0\0\0\x01\x04\x01s",
    b"\x0c\0\0\0\0\0\0\0\x01",
    b"\x0d\0\0\0\0\0\0\0\x01",
    b"\x0e\x01q",
    b"\x0f\x01q",
    b"\x10\0\0",
    b"\x11\x01t\0\0\0\0\0\0\0\x09\0",
    b"\x11\x01t\0\0\0\0\0\0\0\x09\x01\0\0\0\0\0\0\0\x01",
];

#[test]
fn each_transition_is_read_and_written(rt: HostRuntime) {
    for step in STEPS {
        let bytes = joined(&rt, rt.alloc(), &ONE_STEP, step);
        expect_read_and_written(&rt, rt.alloc(), &bytes);
    }
}

/// What is no transition, and the place of the first byte that nothing continues.
const REFUSED: [(&[u8], usize); 17] = [
    (b"", 12),
    (b"\0", 12),
    (b"\x12", 12),
    (b"\x04\x81", 13),
    (b"\x04\x80\0\0\0\0\0\0\x01", 20),
    (b"\x04\0\0\0\0\0\0\0\0", 20),
    (b"\x02\0\0\0\0\0\0\0\x01\x02", 21),
    (b"\x08\0\0\0\0\0\0\0\x01\x04", 21),
    (b"\x0b\0\0\0\0\0\0\0\x01\x05", 21),
    (b"\x11\x01t\x03\x84\x27\x5e\x40\x5f\x80", 21),
    (b"\x0e\x01\xc3", 14),
    (b"\x0e\x02a\xc3", 15),
    (b"\x0e\x02\xc3", 15),
    (b"\x0e\x04\xe2\x28", 15),
    (b"\x0e\x04\xed\xa0", 15),
    (b"\x0e\x04\xf4\x90", 15),
    // The list `AA` comes again.
    (
        b"\x05\0\0\0\0\0\0\0\x01\x01E\0\0\x01\0\x02\x02\0\x02AA\0\0\0\x02AA",
        38,
    ),
];

#[test]
fn refusals_name_the_first_byte_that_nothing_continues(rt: HostRuntime) {
    for (step, at) in REFUSED {
        let bytes = joined(&rt, rt.alloc(), &ONE_STEP, step);
        assert_eq!(rt; refused_at(rt.alloc(), &bytes), Some(at), "{step:?}");
    }
}

#[test]
fn each_heading_is_read(rt: HostRuntime) {
    assert!(rt; matches!(read_header(&header(2)), Heading::Live { turn: 2 }));
    assert!(rt;
        matches!(
            read_header(b"\0QJRNAL\n\0\0\0\x01\0\0\0\x01"),
            Heading::Idle
        )
    );
    assert!(rt;
        matches!(
            read_header(b"\x54QJRNAL\n\0\0\0\x01\0\0\0\x01"),
            Heading::Idle
        )
    );
    assert!(rt;
        matches!(
            read_header(b"SQJRNAL\n\0\0\0\x02\0\0\0\0"),
            Heading::Version { n: 2 }
        )
    );
    assert!(rt; matches!(read_header(b"hello journal wo"), Heading::Foreign));
}
