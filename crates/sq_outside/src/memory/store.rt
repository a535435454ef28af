//! Two files in memory, and all that was done to them.
ghost use Rattle.std.specs.Prelude.{◌≡◌, ◌^◌, ◌<◌, ◌≤◌, length, IfOk, OnOk, OnErr};
ghost use Rattle.sq_outside.specs.Disk.{AreSound, fresh, nth};
ghost use Rattle.sq_outside.specs.File.{IsImage};
ghost use Rattle.sq_outside.specs.MemoryFile.{FitsFile, after};
ghost use Rattle.sq_outside.specs.MemoryDisk.{with_nth, went_on};

use crate::NoMemory;
use crate::memory::change::{Change, Entry};
use crate::memory::choice::Choice;
use crate::memory::file::MemFile;
use std::alloc::Global;
use std::marker::Model;

#[derive(Drop)]
pub(crate) struct Store {
    initial: (Vec<u8>, Vec<u8>),
    files: (MemFile, MemFile),
    log: Vec<Entry>,
}

impl Model for Store {
    ghost use Rattle.sq_outside.specs.Disk.{History};

    ghost Value = { History };

    ghost use Rattle.sq_outside.specs.StoreView.{history_of, IsStore};

    ghost view = { history_of };

    ghost invariant = { IsStore };
}

impl Store {
    /// Files of these bytes, all of them synced.
    pub(crate) fn new(alloc: Global, file0: Vec<u8>, file1: Vec<u8>) -> Result<Self, NoMemory>
        requires { (length file0.items < 2 ^ 63) × (length file1.items < 2 ^ 63) }
        ensures bytes { IfOk result (λ store. store ≡ fresh (file0.items, file1.items)) }
        ensures sound { IfOk result (λ store. AreSound store.now) }
    {
        let copies = (
            Vec::from_slice(alloc, &file0)?,
            Vec::from_slice(alloc, &file1)?,
        );
        Ok(Store {
            initial: copies,
            files: (MemFile::new(alloc, file0)?, MemFile::new(alloc, file1)?),
            log: Vec::new(alloc),
        })
    }

    /// What a read of a file gives.
    pub(crate) fn bytes(&self, file: u8) -> &[u8]
        ensures { result.now ≡ (nth file self.now.now).reads }
    {
        if file == 0 {
            self.files.0.bytes()
        } else {
            self.files.1.bytes()
        }
    }

    /// Bytes that a crash may leave of a file.
    pub(crate) fn image(&self, alloc: Global, file: u8, choice: Choice) -> Result<Vec<u8>, NoMemory>
        ensures image { IfOk result (λ image. IsImage (nth file self.now.now).unsynced image.items) }
        ensures synced { choice ≡ Choice.Synced → IfOk result (λ image. image.items ≡ (nth file self.now.now).unsynced.synced) }
        ensures read { choice ≡ Choice.Read → IfOk result (λ image. image.items ≡ (nth file self.now.now).reads) }
    {
        if file == 0 {
            self.files.0.image(alloc, choice)
        } else {
            self.files.1.image(alloc, choice)
        }
    }

    /// Makes a change, or none where there is no memory.
    pub(crate) fn make(&mut self, file: u8, change: Change) -> Result<(), NoMemory>
        requires { FitsFile change (nth file self.old.now) }
        ensures made { OnOk result (self.new ≡ went_on (record { file = file; change = change }) self.old) }
        ensures kept { OnErr result (self.new ≡ self.old) }
        ensures sound { AreSound self.new.now }
    {
        self.log.reserve(1)?;
        change_one(&mut self.files, file, &change)?;
        if self.log.push(Entry { file, change }).is_err() {
            unreachable!();
        }
        Ok(())
    }
}

fn change_one(files: &mut (MemFile, MemFile), file: u8, change: &Change) -> Result<(), NoMemory>
    requires { FitsFile change.now (nth file files.old) }
    ensures made { OnOk result (files.new ≡ with_nth file (after change.now) files.old) }
    ensures kept { OnErr result (files.new ≡ files.old) }
    ensures sound { AreSound files.old → AreSound files.new }
{
    if file == 0 {
        files.0.make(change)
    } else {
        files.1.make(change)
    }
}
