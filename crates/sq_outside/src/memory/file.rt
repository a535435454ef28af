//! One file of a disk in memory, with what a crash may leave of it.
ghost use Rattle.std.specs.Prelude.{◌≡◌, ◌↔◌, ◌+◌, ◌^◌, ◌<◌, ◌≤◌, length, take, slice_index, Any, IsTrue, IfOk, OnOk, OnErr};
ghost use Rattle.sq_outside.specs.File.{IsSound, IsImage, IsOutside, settled, overwritten};
ghost use Rattle.sq_outside.specs.MemoryFile.{after, written, cut, FitsFile};

use crate::NoMemory;
use crate::memory::change::Change;
use crate::memory::choice::{Bytes, Choice, Length};
use crate::memory::range::Range;
use std::alloc::{AllocError, Global};
use std::marker::Model;

#[derive(Drop)]
pub(crate) struct MemFile {
    reads: Vec<u8>,
    synced: Vec<u8>,
    written: Vec<Range>,
    shortest: u64,
    greatest: u64,
    /// Up to here nothing was asked for since the last sync.
    intact: u64,
}

impl Model for MemFile {
    ghost use Rattle.sq_outside.specs.File.{File};

    ghost Value = { File };

    ghost use Rattle.sq_outside.specs.MemoryFileView.{file_of, IsMemoryFile};

    ghost view = { file_of };

    ghost invariant = { IsMemoryFile };
}

impl MemFile {
    /// A file of these bytes, all of them synced.
    pub(crate) fn new(alloc: Global, bytes: Vec<u8>) -> Result<Self, NoMemory>
        requires { length bytes.items < 2 ^ 63 }
        ensures bytes { IfOk result (λ file. file ≡ settled bytes.items) }
        ensures sound { IfOk result IsSound }
    {
        let synced = Vec::from_slice(alloc, &bytes)?;
        let len = bytes.len() as u64;
        Ok(MemFile {
            reads: bytes,
            synced,
            written: Vec::new(alloc),
            shortest: len,
            greatest: len,
            intact: len,
        })
    }

    /// What a read gives.
    pub(crate) fn bytes(&self) -> &[u8]
        ensures { result.now ≡ self.now.reads }
    {
        &self.reads
    }

    /// Bytes that a crash may leave.
    pub(crate) fn image(&self, alloc: Global, choice: Choice) -> Result<Vec<u8>, NoMemory>
        ensures image { IfOk result (λ image. IsImage self.now.unsynced image.items) }
        ensures synced { choice ≡ Choice.Synced → IfOk result (λ image. image.items ≡ self.now.unsynced.synced) }
        ensures read { choice ≡ Choice.Read → IfOk result (λ image. image.items ≡ self.now.reads) }
    {
        match choice {
            Choice::Synced => Ok(Vec::from_slice(alloc, &self.synced)?),
            Choice::Read => Ok(Vec::from_slice(alloc, &self.reads)?),
            Choice::Mixed {
                length,
                bytes,
                seed,
            } => self.mixed(alloc, length, bytes, seed),
        }
    }

    fn mixed(
        &self,
        alloc: Global,
        length: Length,
        bytes: Bytes,
        seed: u64,
    ) -> Result<Vec<u8>, NoMemory>
        ensures { IfOk result (λ image. IsImage self.now.unsynced image.items) }
    {
        let mut image = Vec::new(alloc);
        for place in 0..self.length_left(length, seed) {
            image.push(self.byte_left(place, bytes, seed))?;
        }
        Ok(image)
    }

    fn length_left(&self, length: Length, seed: u64) -> u64
        ensures no_shorter { self.now.unsynced.shortest ≤ result }
        ensures no_longer { result ≤ self.now.unsynced.greatest }
    {
        let wanted = match length {
            Length::Synced => self.synced.len() as u64,
            Length::Read => self.reads.len() as u64,
            Length::Shortest => self.shortest,
            Length::Greatest => self.greatest,
            Length::Torn => self.tear(seed),
        };
        wanted.max(self.shortest).min(self.greatest)
    }

    fn byte_left(&self, place: u64, bytes: Bytes, seed: u64) -> u8
        ensures { place < self.now.unsynced.shortest → IsOutside self.now.unsynced.written place → result ≡ slice_index self.now.unsynced.synced place }
    {
        let synced = byte_at(&self.synced, place);
        if self.is_certain(place) {
            return synced;
        }
        let reads = byte_at(&self.reads, place);
        let is_read = match bytes {
            Bytes::Synced => false,
            Bytes::Read => true,
            Bytes::ReadBefore => place < self.tear(seed),
            Bytes::ReadAfter => place >= self.tear(seed),
            Bytes::Other => return !reads,
            Bytes::All(byte) => return byte,
            Bytes::EachRange => self.is_chosen(place, seed),
        };
        if is_read { reads } else { synced }
    }

    // The bit of the first range that holds the place.
    fn is_chosen(&self, place: u64, seed: u64) -> bool {
        let range = self.written.iter().position(|range| holds(range, place));
        range.is_some_and(|number| seed >> (number % 64) & 1 == 1)
    }

    fn is_certain(&self, place: u64) -> bool
        ensures { place < self.now.unsynced.shortest → IsOutside self.now.unsynced.written place → IsTrue result }
    {
        place < self.shortest && !is_within(&self.written, place)
    }

    // A place within the last range.
    fn tear(&self, seed: u64) -> u64 {
        match self.written.last() {
            Some(range) => {
                let places = range.count.saturating_add(1);
                range
                    .at
                    .saturating_add((range.count / 2).saturating_add(seed) % places)
            }
            None => seed,
        }
    }

    /// Makes a change, or none where there is no memory.
    pub(crate) fn make(&mut self, change: &Change) -> Result<(), NoMemory>
        requires { FitsFile change.now self.old }
        ensures made { OnOk result (self.new ≡ after change.now self.old) }
        ensures kept { OnErr result (self.new ≡ self.old) }
        ensures sound { IsSound self.new }
    {
        match change {
            Change::Written { at, bytes, count } => self.write(*at, bytes, *count),
            Change::Cut { asked, len } => {
                self.cut(*asked, *len);
                Ok(())
            }
            Change::Synced => self.sync(),
        }
    }

    fn write(&mut self, at: u64, bytes: &[u8], count: u64) -> Result<(), NoMemory>
        requires place { at ≤ length self.old.reads }
        requires prefix { length bytes.now ≤ count }
        requires fits { at + count < 2 ^ 63 }
        ensures made { OnOk result (self.new ≡ written at bytes.now count self.old) }
        ensures kept { OnErr result (self.new ≡ self.old) }
        ensures sound { IsSound self.new }
    {
        self.written.push(Range { at, count })?;
        if overwrite(&mut self.reads, at as usize, bytes).is_err() {
            self.written.pop();
            return Err(NoMemory);
        }
        self.greatest = self.greatest.max(at + count);
        self.intact = self.intact.min(at);
        Ok(())
    }

    fn cut(&mut self, asked: u64, len: u64)
        requires asked { asked ≤ len }
        requires len { len ≤ length self.old.reads }
        ensures made { self.new ≡ cut asked len self.old }
        ensures sound { IsSound self.new }
    {
        self.reads.truncate(len as usize);
        self.shortest = self.shortest.min(asked);
        self.intact = self.intact.min(asked);
    }

    fn sync(&mut self) -> Result<(), NoMemory>
        ensures made { OnOk result (self.new ≡ settled self.old.reads) }
        ensures kept { OnErr result (self.new ≡ self.old) }
        ensures sound { IsSound self.new }
    {
        copy_rest(&mut self.synced, &self.reads, self.intact as usize)?;
        self.written.clear();
        self.shortest = self.reads.len() as u64;
        self.greatest = self.shortest;
        self.intact = self.shortest;
        Ok(())
    }
}

// The byte at a place, 0 past the end.
fn byte_at(bytes: &[u8], place: u64) -> u8
    ensures { result ≡ slice_index bytes.now place }
{
    bytes.get(place as usize).copied().unwrap_or(0)
}

fn is_within(ranges: &[Range], place: u64) -> bool
    ensures { IsTrue result ↔ Any (λ range. (range.at ≤ place) × (place < range.at + range.count)) ranges.now }
{
    ranges.iter().any(|range| holds(range, place))
}

fn holds(range: &Range, place: u64) -> bool
    ensures { IsTrue result ↔ (range.now.at ≤ place) × (place < range.now.at + range.now.count) }
{
    range.at <= place && place - range.at < range.count
}

// Writes over what is there, and past the end, or changes nothing where there is no memory.
fn overwrite(bytes: &mut Vec<u8>, at: usize, piece: &[u8]) -> Result<(), AllocError>
    requires { at ≤ length bytes.old.items }
    ensures ok { OnOk result (bytes.new.items ≡ overwritten bytes.old.items at piece.now) }
    ensures err { OnErr result (bytes.new.items ≡ bytes.old.items) }
{
    let over = piece.len().min(bytes.len() - at);
    bytes.extend_from_slice(&piece[over..])?;
    bytes[at..at + over].copy_from_slice(&piece[..over]);
    Ok(())
}

// Makes the bytes those of another list, whose first `alike` bytes they have, or changes nothing where there is no memory.
fn copy_rest(bytes: &mut Vec<u8>, other: &[u8], alike: usize) -> Result<(), AllocError>
    requires within { (alike ≤ length bytes.old.items) × (alike ≤ length other.now) }
    requires alike { take alike bytes.old.items ≡ take alike other.now }
    ensures ok { OnOk result (bytes.new.items ≡ other.now) }
    ensures err { OnErr result (bytes.new.items ≡ bytes.old.items) }
{
    overwrite(bytes, alike, &other[alike..])?;
    bytes.truncate(other.len());
    Ok(())
}
