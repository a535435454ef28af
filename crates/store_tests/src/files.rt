ghost use Rattle.std.specs.Prelude.{◌≡◌, ◌<◌, ◌≤◌, true, length, IfOk};
ghost use Rattle.sq_outside.specs.Disk.{nth};
ghost use Rattle.journal_keeper.specs.Records.{IsRecord};
ghost use Rattle.journal_keeper.specs.Stands.{IsStanding, is_read};

use job_states::Bytes;
use journal_keeper::{Journal, OpenFault};
use sq_outside::{Disk, MemDisk};
use std::alloc::Global;
use std::process::Abort;

/// The journal of a disk, and its payloads, each before a semicolon.
fn read_all<D: Disk>(
    rt: &impl Abort,
    alloc: Global,
    disk: &mut D,
) -> Result<(Journal, Vec<u8>), OpenFault>
    ensures { IfOk result (λ r. (is_read r.0.stage ≡ true) × IsStanding r.0 (D.history disk.new)) }
{
    let mut journal = Journal::open(alloc, disk)?;
    let mut payloads = Vec::new(alloc);
    for _ in 0..8 {
        match journal.next_record(disk)? {
            Some(payload) => {
                payloads
                    .extend_from_slice(payload.as_slice())
                    .expect(rt, "memory");
                payloads.push(b';').expect(rt, "memory");
            }
            None => return Ok((journal, payloads)),
        }
    }
    Err(OpenFault::NoMemory)
}

/// What stands after the gate of a record.
fn record(rt: &impl Abort, alloc: Global, payload: &[u8]) -> Bytes
    requires some { 0 < length payload.now }
    requires short { length payload.now < 256 }
    ensures { IsRecord result }
{
    let len = [0, 0, 0, payload.len() as u8];
    let mut bytes = Vec::from_slice(alloc, &len).expect(rt, "memory");
    bytes.extend_from_slice(payload).expect(rt, "memory");
    bytes.push(0).expect(rt, "memory");
    Bytes::of(bytes)
}

/// Is the payload acknowledged?
fn appends<D: Disk>(
    rt: &impl Abort,
    alloc: Global,
    disk: &mut D,
    journal: &mut Journal,
    payload: &[u8],
) -> bool
    requires some { 0 < length payload.now }
    requires short { length payload.now < 256 }
    requires read { is_read journal.old.stage ≡ true }
    requires standing { IsStanding journal.old (D.history disk.old) }
    ensures read { is_read journal.new.stage ≡ true }
    ensures standing { IsStanding journal.new (D.history disk.new) }
{
    let record = record(rt, alloc, payload);
    journal.append(disk, &record).is_ok()
}

/// Appends three payloads up to the first failure. How many were acknowledged?
fn append_three<D: Disk>(
    rt: &impl Abort,
    alloc: Global,
    disk: &mut D,
    journal: &mut Journal,
) -> usize
    requires read { is_read journal.old.stage ≡ true }
    requires standing { IsStanding journal.old (D.history disk.old) }
    ensures read { is_read journal.new.stage ≡ true }
    ensures standing { IsStanding journal.new (D.history disk.new) }
{
    if !appends(rt, alloc, disk, journal, b"a") {
        return 0;
    }
    if !appends(rt, alloc, disk, journal, b"bcd") {
        return 1;
    }
    if !appends(rt, alloc, disk, journal, b"efghijklmnop") {
        return 2;
    }
    3
}

fn disk_of(rt: &impl Abort, alloc: Global, bytes: &[u8], fail: Vec<(u64, u32)>) -> MemDisk {
    let file = Vec::from_slice(alloc, bytes).expect(rt, "memory");
    MemDisk::new(alloc, [file, Vec::new(alloc)], fail).expect(rt, "memory")
}

fn disk_failing(rt: &impl Abort, alloc: Global, bytes: &[u8], call: u64, kept: u32) -> MemDisk {
    let fail = vec![in alloc; (call, kept)].expect(rt, "memory");
    disk_of(rt, alloc, bytes, fail)
}

/// What the journal holds after so many of its three payloads.
fn held(n: usize) -> &'static [u8] {
    match n {
        0 => b"",
        1 => b"a;",
        2 => b"a;bcd;",
        _ => b"a;bcd;efghijklmnop;",
    }
}

/// What a crash leaves of the disk, as this choice has it, holds the first `n` payloads, or one more.
fn expect_held(rt: &impl Abort, alloc: Global, disk: &MemDisk, pick: u64, n: usize, of: &str) {
    let mut left = disk.stopped(pick).expect(rt, "memory");
    let (_journal, payloads) = read_all(rt, alloc, &mut left).expect(rt, of);
    let found = payloads.as_slice();
    assert!(rt;
        found == held(n) || found == held(n.saturating_add(1)),
        "{of}"
    );
}

/// An opening of these bytes whose call of this number fails, and a crash in it, leave the first `n` payloads, or one more.
fn expect_reopened(rt: &impl Abort, alloc: Global, bytes: &[u8], call: u64, n: usize, of: &str) {
    let mut disk = disk_failing(rt, alloc, bytes, call, 1);
    let _answer = read_all(rt, alloc, &mut disk);
    for pick in 0..8 {
        expect_held(rt, alloc, &disk, pick, n, of);
    }
}

/// A crash, and one inside the opening that follows it, leave the first `n` payloads, or one more.
fn expect_crashes(rt: &impl Abort, alloc: Global, disk: &MemDisk, n: usize, of: &str) {
    for pick in 0..64 {
        expect_held(rt, alloc, disk, pick, n, of);
    }
    for pick in 0..8 {
        let left = disk.stopped(pick).expect(rt, "memory");
        for call in 1..6 {
            expect_reopened(rt, alloc, left.bytes(0), call, n, of);
        }
    }
}

/// A crash leaves the first `n` payloads and the one more.
fn expect_more(rt: &impl Abort, alloc: Global, disk: &MemDisk, n: usize, of: &str) {
    for pick in 0..8 {
        let mut left = disk.stopped(pick).expect(rt, "memory");
        let (_journal, payloads) = read_all(rt, alloc, &mut left).expect(rt, of);
        let before = payloads.as_slice().strip_suffix(b"z;").expect(rt, of);
        assert!(rt; before == held(n), "{of}");
    }
}

/// On a disk whose call of this number fails, each crash leaves what was acknowledged, also after one append more.
fn outlasts(rt: &impl Abort, alloc: Global, call: u64, kept: u32) {
    let of = format!(in alloc; "call {call}, {kept} kept").expect(rt, "memory");
    let of = of.as_str();
    let mut disk = disk_failing(rt, alloc, b"", call, kept);
    let Ok((mut journal, _payloads)) = read_all(rt, alloc, &mut disk) else {
        return expect_crashes(rt, alloc, &disk, 0, of);
    };
    let n = append_three(rt, alloc, &mut disk, &mut journal);
    expect_crashes(rt, alloc, &disk, n, of);
    if n < 3 {
        let more = appends(rt, alloc, &mut disk, &mut journal, b"z");
        assert!(rt; more, "{of}");
        expect_more(rt, alloc, &disk, n, of);
    }
}

#[test]
fn a_crash_leaves_what_was_acknowledged(rt: HostRuntime) {
    for call in 1..28 {
        outlasts(&rt, rt.alloc(), call, 0);
        outlasts(&rt, rt.alloc(), call, u32::MAX);
    }
}

/// Files, with `~` for a line feed; what their journal holds, or why it is refused; and the file then.
const FILES: &str = " => [] => SQJRNAL~\0\0\0\x01\0\0\0\0\0
S => [] => SQJRNAL~\0\0\0\x01\0\0\0\0\0
\0 anything at all => [] => SQJRNAL~\0\0\0\x01\0\0\0\0\0
?QJRNAL~\0\0\0\x01\0\0\0\x02R\0\0\0\x01a\0 => [] => SQJRNAL~\0\0\0\x01\0\0\0\0\0
SQJRNAL~\0\0\0\x01\0\0\0\x02R\0\0\0\x01aQ => [a;] => SQJRNAL~\0\0\0\x01\0\0\0\x02R\0\0\0\x01a\0
SQJRNAL~\0\0\0\x01\0\0\0\0R\0\0\0\x01a => [a;] => SQJRNAL~\0\0\0\x01\0\0\0\0R\0\0\0\x01a\0
hello journal world! => NotAJournal { file: 0 } => hello journal world!
SQJRNAL~\0\0\0\x02 => Version { file: 0, n: 2 } => SQJRNAL~\0\0\0\x02
SQJRNAL~\0\0\0\x01\0\0\0\0R\0\0\0\x01aR\0\0\0\x03bc => BadRecord { at: 22 } => SQJRNAL~\0\0\0\x01\0\0\0\0R\0\0\0\x01aR\0\0\0\x03bc
SQJRNAL~\0\0\0\x01\0\0\0\0R\0\0\0\0abc => BadRecord { at: 16 } => SQJRNAL~\0\0\0\x01\0\0\0\0R\0\0\0\0abc";

/// What the journal of a disk holds, or why it is refused.
fn said(rt: &impl Abort, alloc: Global, disk: &mut MemDisk) -> String {
    let said = match read_all(rt, alloc, disk) {
        Ok((_journal, payloads)) => {
            let payloads = String::from_utf8_lossy(alloc, &payloads).expect(rt, "memory");
            format!(in alloc; "[{payloads}]")
        }
        Err(fault) => format!(in alloc; "{fault:?}"),
    };
    said.expect(rt, "memory")
}

/// What the journal of a file holds, or why it is refused, and the file then.
fn opened(rt: &impl Abort, alloc: Global, file: &str) -> String {
    let mut disk = disk_of(rt, alloc, file.as_bytes(), Vec::new(alloc));
    let said = said(rt, alloc, &mut disk);
    let left = disk.stopped(0).expect(rt, "memory");
    let then = String::from_utf8_lossy(alloc, left.bytes(0)).expect(rt, "memory");
    format!(in alloc; "{said} => {then}").expect(rt, "memory")
}

#[test]
fn files_are_opened_or_refused(rt: HostRuntime) {
    let alloc = rt.alloc();
    for row in FILES.lines() {
        let row = row.replace(alloc, "~", "\n").expect(&rt, "memory");
        let (file, expected) = row.as_str().split_once(" => ").expect(&rt, "a row");
        assert_eq!(rt; opened(&rt, alloc, file).as_str(), expected, "{file:?}");
    }
}

fn payloads_of(rt: &impl Abort, alloc: Global, file: &str) -> Vec<u8> {
    let mut disk = disk_of(rt, alloc, file.as_bytes(), Vec::new(alloc));
    let (_journal, payloads) = read_all(rt, alloc, &mut disk).expect(rt, "opened");
    payloads
}

#[test]
fn a_payload_longer_than_the_window_is_read(rt: HostRuntime) {
    let alloc = rt.alloc();
    let long = "x".repeat(alloc, 70_000).expect(&rt, "memory");
    let file = format!(in alloc;
        "SQJRNAL\n\0\0\0\x01\0\0\0\0R\0\x01\x11\x70{long}R\0\0\0\x01a\0"
    ).expect(&rt, "memory");
    let payloads = payloads_of(&rt, alloc, file.as_str());
    assert_eq!(rt; payloads.len(), 70_003);
    assert!(rt; payloads.as_slice().ends_with(b"x;a;"));
}
