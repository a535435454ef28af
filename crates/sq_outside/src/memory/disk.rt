//! A disk in memory. It exposes all that it holds, and fails where it is made to.
ghost use Rattle.std.specs.Prelude.{◌≡◌, ◌^◌, ◌<◌, ◌≤◌, length};
ghost use Rattle.sq_outside.specs.Disk.{AreSound};

use crate::buffer::copy_prefix;
use crate::memory::change::Change;
use crate::memory::choice::choices_of;
use crate::memory::counts::Counts;
use crate::memory::store::Store;
use crate::{Disk, Failed, GREATEST_LENGTH, NoMemory};
use std::alloc::Global;

/// A disk over bytes in memory whose listed calls fail.
#[derive(Drop)]
pub struct MemDisk {
    alloc: Global,
    store: Store,
    fail: Vec<(u64, u32)>,
    counts: Counts,
    ghost sound: { AreSound store.now },
}

impl MemDisk {
    ghost use Rattle.std.specs.Prelude.{◌≡◌, ◌+◌, ◌^◌, ◌<◌, ◌≤◌, ℕ, List, [], IfOk, OnOk, OnErr, length, take};
    ghost use Rattle.sq_outside.specs.Fault.{raised};
    ghost use Rattle.sq_outside.specs.Disk.{Two, nth, AreImages};
    ghost use Rattle.sq_outside.specs.MemoryFile.{written};
    ghost use Rattle.sq_outside.specs.MemoryDisk.{bytes_of, reads_of, synced_of, unused, disk_changed, kept_next};
    ghost use Rattle.sq_outside.specs.MemoryDiskView.{memory_disk};

    /// A disk of these files, synced. `fail` lists the numbers of the calls that fail, counted from 1, and how many bytes of
    /// a failing write are kept.
    pub fn new(alloc: Global, files: [Vec<u8>; 2], fail: Vec<(u64, u32)>) -> Result<Self, NoMemory>
        ensures { IfOk result (λ disk. memory_disk disk ≡ unused (bytes_of files) fail.items) }
    {
        let [zeroth, first] = files;
        if zeroth.len() as u64 > GREATEST_LENGTH || first.len() as u64 > GREATEST_LENGTH {
            return Err(NoMemory);
        }
        Ok(MemDisk {
            alloc,
            store: Store::new(alloc, zeroth, first)?,
            fail,
            counts: Counts::new(),
        })
    }

    /// The bytes of a file, as a read gives them.
    pub fn bytes(&self, file: u8) -> &[u8]
        requires { file ≤ 1 }
        ensures { result.now ≡ (nth file (memory_disk self.now).history.now).reads }
    {
        self.store.bytes(file)
    }

    /// What a crash may leave, synced, on a disk whose calls don't fail. With pick 0 both files are as synced, with 1 both as
    /// read, with 2 and 3 one of them is; with 4 and 5 the last write of each file is torn, and with 6 and 7 they have their
    /// shortest and greatest length, with other bytes. Higher picks mix lengths and bytes for each file by itself.
    pub fn stopped(&self, pick: u64) -> Result<MemDisk, NoMemory>
        ensures image { IfOk result (λ disk. (image : Two (List ℕ)) × AreImages (memory_disk self.now).history.now image × (memory_disk disk ≡ unused image [])) }
        ensures synced { pick ≡ 0 → IfOk result (λ disk. memory_disk disk ≡ unused (synced_of (memory_disk self.now).history.now) []) }
        ensures read { pick ≡ 1 → IfOk result (λ disk. memory_disk disk ≡ unused (reads_of (memory_disk self.now).history.now) []) }
    {
        let (zeroth, first) = choices_of(pick);
        let files = [
            self.store.image(self.alloc, 0, zeroth)?,
            self.store.image(self.alloc, 1, first)?,
        ];
        MemDisk::new(self.alloc, files, Vec::new(self.alloc))
    }

    // Counts the call that begins. How many bytes does it keep, where it is one of those that fail?
    fn next_fault(&mut self) -> Option<u32>
        ensures fault { result ≡ kept_next (memory_disk self.old) }
        ensures store { self.new.store ≡ self.old.store }
        ensures fail { self.new.fail ≡ self.old.fail }
        ensures made { self.new.counts.made ≡ raised self.old.counts.made }
        ensures failed { self.new.counts.failed ≡ self.old.counts.failed }
    {
        let call = self.counts.begin();
        self.fail
            .iter()
            .find(|entry| entry.0 == call)
            .map(|entry| entry.1)
    }

    // Writes as many bytes of the piece, where all of it was asked for.
    fn write_prefix(
        &mut self,
        file: u8,
        at: u64,
        piece: &[u8],
        prefix: usize,
    ) -> Result<(), NoMemory>
        requires prefix { prefix ≤ length piece.now }
        requires place { at ≤ length (nth file self.old.store.now).reads }
        requires fits { at + length piece.now < 2 ^ 63 }
        ensures written { OnOk result (memory_disk self.new ≡ disk_changed file (written at (take prefix piece.now) (length piece.now)) (memory_disk self.old)) }
        ensures kept { OnErr result (memory_disk self.new ≡ memory_disk self.old) }
    {
        let bytes = Vec::from_slice(self.alloc, &piece[..prefix])?;
        let change = Change::Written {
            at,
            bytes,
            count: piece.len() as u64,
        };
        self.store.make(file, change)
    }
}

impl Disk for MemDisk {
    ghost use Rattle.std.specs.Prelude.{◌≡◌, ◌⊎◌, ◌↔◌, ◌+◌, ◌-◌, ◌^◌, ◌<◌, ◌≤◌, min, length, take, drop, ℕ, Some, IsSome, IsErr, IfOk, OnOk, OnErr, MatchResult};
    ghost use Rattle.sq_outside.specs.File.{settled};
    ghost use Rattle.sq_outside.specs.Disk.{nth};
    ghost use Rattle.sq_outside.specs.MemoryFile.{written, cut};
    ghost use Rattle.sq_outside.specs.MemoryDisk.{disk_called, disk_failed, disk_changed, kept_next};
    ghost use Rattle.sq_outside.specs.MemoryDiskView.{memory_disk};

    ghost history = { λ d. Some d.store };

    ghost faults = { λ d. d.counts.failed };

    ghost sound = { λ d. d.sound };

    fn len(&mut self, file: u8) -> Result<u64, Failed>
        requires { file ≤ 1 }
        ensures fails { IsErr result ↔ IsSome (kept_next (memory_disk self.old)) }
        ensures length { IfOk result (λ n. n ≡ length (nth file (memory_disk self.old).history.now).reads) }
        ensures rest { MatchResult result (λ _. memory_disk self.new ≡ disk_called (memory_disk self.old)) (λ _. memory_disk self.new ≡ disk_failed (memory_disk self.old)) }
    {
        if self.next_fault().is_some() {
            self.counts.count_failure();
            return Err(Failed);
        }
        Ok(self.bytes(file).len() as u64)
    }

    fn read_at(&mut self, file: u8, at: u64, buf: &mut [u8]) -> Result<usize, Failed>
        requires { file ≤ 1 }
        ensures fails { IsErr result ↔ IsSome (kept_next (memory_disk self.old)) }
        ensures count { IfOk result (λ n. n ≡ min (length (nth file (memory_disk self.old).history.now).reads - at) (length buf.old)) }
        ensures prefix { IfOk result (λ n. take n buf.new ≡ take n (drop at (nth file (memory_disk self.old).history.now).reads)) }
        ensures after { IfOk result (λ n. drop n buf.new ≡ drop n buf.old) }
        ensures rest { MatchResult result (λ _. memory_disk self.new ≡ disk_called (memory_disk self.old)) (λ _. memory_disk self.new ≡ disk_failed (memory_disk self.old)) }
        ensures buffer_kept { OnErr result (buf.new ≡ buf.old) }
    {
        if self.next_fault().is_some() {
            self.counts.count_failure();
            return Err(Failed);
        }
        let bytes = self.bytes(file);
        let at = bytes.len().min(at as usize);
        Ok(copy_prefix(&bytes[at..], buf))
    }

    // A call that isn't listed fails where there is no memory, and then changes nothing.
    fn write_at(&mut self, file: u8, at: u64, piece: &[u8]) -> Result<(), Failed>
        requires file { file ≤ 1 }
        requires within { at ≤ length (nth file (memory_disk self.old).history.now).reads }
        ensures fails { IsSome (kept_next (memory_disk self.old)) → IsErr result }
        ensures fits { OnOk result (at + length piece.now < 2 ^ 63) }
        ensures written { OnOk result (memory_disk self.new ≡ disk_called (disk_changed file (written at piece.now (length piece.now)) (memory_disk self.old))) }
        ensures in_doubt { OnErr result ((memory_disk self.new ≡ disk_failed (memory_disk self.old))
            ⊎ ((kept : ℕ) × (kept_next (memory_disk self.old) ≡ Some kept) × (at + length piece.now < 2 ^ 63)
            × (memory_disk self.new ≡ disk_failed (disk_changed file (written at (take kept piece.now) (length piece.now)) (memory_disk self.old))))) }
    {
        let fault = self.next_fault();
        if piece.len() as u64 > GREATEST_LENGTH - at {
            self.counts.count_failure();
            return Err(Failed);
        }
        let prefix = fault.map_or(piece.len(), |kept| piece.len().min(kept as usize));
        if self.write_prefix(file, at, piece, prefix).is_err() || fault.is_some() {
            self.counts.count_failure();
            return Err(Failed);
        }
        Ok(())
    }

    fn cut(&mut self, file: u8, len: u64) -> Result<(), Failed>
        requires file { file ≤ 1 }
        requires within { len ≤ length (nth file (memory_disk self.old).history.now).reads }
        ensures fails { IsSome (kept_next (memory_disk self.old)) → IsErr result }
        ensures cut { OnOk result (memory_disk self.new ≡ disk_called (disk_changed file (cut len len) (memory_disk self.old))) }
        ensures in_doubt { OnErr result ((memory_disk self.new ≡ disk_failed (memory_disk self.old))
            ⊎ (IsSome (kept_next (memory_disk self.old))
            × (memory_disk self.new ≡ disk_failed (disk_changed file (cut len (length (nth file (memory_disk self.old).history.now).reads)) (memory_disk self.old))))) }
    {
        let fault = self.next_fault();
        let left = if fault.is_some() {
            self.bytes(file).len() as u64
        } else {
            len
        };
        let change = Change::Cut {
            asked: len,
            len: left,
        };
        if self.store.make(file, change).is_err() || fault.is_some() {
            self.counts.count_failure();
            return Err(Failed);
        }
        Ok(())
    }

    fn sync(&mut self, file: u8) -> Result<(), Failed>
        requires { file ≤ 1 }
        ensures fails { IsSome (kept_next (memory_disk self.old)) → IsErr result }
        ensures rest { MatchResult result (λ _. memory_disk self.new ≡ disk_called (disk_changed file (λ f. settled f.reads) (memory_disk self.old))) (λ _. memory_disk self.new ≡ disk_failed (memory_disk self.old)) }
    {
        if self.next_fault().is_some() || self.store.make(file, Change::Synced).is_err() {
            self.counts.count_failure();
            return Err(Failed);
        }
        Ok(())
    }
}

#[cfg(test)]
mod tests {
    use super::*;
    use std::test::Fail;

    fn disk_of(alloc: Global, fail: Vec<(u64, u32)>) -> Result<MemDisk, NoMemory> {
        let files = [
            Vec::from_slice(alloc, b"abcd")?,
            Vec::from_slice(alloc, b"wxyz")?,
        ];
        MemDisk::new(alloc, files, fail)
    }

    #[test]
    fn picks_are_the_images_that_matter(rt: HostRuntime) -> Result<(), Fail> {
        // a pick, and what it leaves of file 0 and of file 1
        let table: [(u64, &[u8], &[u8]); 10] = [
            (0, b"abcd", b"wxyz"),
            (1, b"aXcYZ", b"12yz"),
            (2, b"aXcYZ", b"wxyz"),
            (3, b"abcd", b"12yz"),
            (4, b"aXcY\0", b"1xyz"),
            (5, b"abcdZ", b"w2yz"),
            (6, b"a\xa7c\xa6", b"\xce\xcdyz"),
            (7, b"a\xa7c\xa6\xa5", b"\xce\xcdyz"),
            (37, b"aRcR", b"wxyz"),
            (2073, b"aXcd", b"wxyz"),
        ];
        let mut disk = disk_of(rt.alloc(), Vec::new(rt.alloc()))?;
        for (file, at, piece) in [(0, 1, "X"), (0, 3, "YZ"), (1, 0, "12")] {
            if at <= disk.bytes(file).len() as u64 {
                disk.write_at(file, at, piece.as_bytes())?;
            }
        }
        for (pick, file0, file1) in table {
            let left = disk.stopped(pick)?;
            assert_eq!(rt;
                (left.bytes(0), left.bytes(1)),
                (file0, file1),
                "pick {pick}"
            );
        }
        Ok(())
    }

    #[derive(Clone, Copy)]
    enum Call {
        Len,
        Write(u64, &'static [u8]),
        Cut(u64),
        Sync,
    }

    // Makes a call on file 0.
    fn make(disk: &mut MemDisk, call: Call) -> Result<(), Failed> {
        let len = disk.bytes(0).len() as u64;
        match call {
            Call::Write(at, piece) if at <= len => disk.write_at(0, at, piece),
            Call::Cut(to) if to <= len => disk.cut(0, to),
            Call::Sync => disk.sync(0),
            _ => disk.len(0).map(|_| ()),
        }
    }

    #[test]
    fn listed_calls_fail_and_keep_some_bytes(rt: HostRuntime) -> Result<(), Fail> {
        // a call, its answer, what is read then, and what is synced
        let table: [(Call, Result<(), Failed>, &[u8], &[u8]); 8] = [
            (Call::Len, Err(Failed), b"abcd", b"abcd"),
            (Call::Write(3, b"XYZ"), Err(Failed), b"abcX", b"abcd"),
            (Call::Sync, Err(Failed), b"abcX", b"abcd"),
            (Call::Cut(1), Err(Failed), b"abcX", b"abcd"),
            (Call::Cut(2), Ok(()), b"ab", b"abcd"),
            (Call::Sync, Ok(()), b"ab", b"ab"),
            (Call::Write(1, b"cd"), Ok(()), b"acd", b"ab"),
            (Call::Sync, Ok(()), b"acd", b"acd"),
        ];
        let fail = vec![in rt.alloc(); (1, 9), (2, 1), (3, 9), (4, 9)]?;
        let mut disk = disk_of(rt.alloc(), fail)?;
        for (call, answer, bytes, synced) in table {
            assert_eq!(rt; make(&mut disk, call), answer);
            assert_eq!(rt; disk.bytes(0), bytes);
            assert_eq!(rt; disk.stopped(0)?.bytes(0), synced);
        }
        Ok(())
    }
}
