ghost use Rattle.std.specs.Prelude.{◌≡◌, true, false, Ok, Err, IfOk, IfSome, OnOk};
ghost use Rattle.sq_outside.specs.Disk.{nth};
ghost use Rattle.sq_outside.specs.Fault.{HasCause};
ghost use Rattle.sq_outside.specs.File.{settled};
ghost use Rattle.journal_keeper.specs.Answers.{KeepsAll};
ghost use Rattle.journal_keeper.specs.Files.{IsFileOf, IsIdleFile};
ghost use Rattle.journal_keeper.specs.Making.{new_journal};
ghost use Rattle.journal_keeper.specs.Texts.{IsSettled};
ghost use Rattle.journal_keeper.specs.Writes.{IsOtherKept};

use crate::gate::add;
use crate::heading::heading_of;
use crate::loose::{close, shut};
use crate::make::make;
use crate::window::Window;
use crate::{DiskFault, OpenFault};
use job_states::Bytes;
use journal_format::{Heading, one_list_of_records};
use sq_outside::{Disk, Failed};
use std::alloc::Global;
use std::marker::Model;

/// How far a journal has come.
#[derive(Clone, Copy, Debug, PartialEq, Eq)]
pub enum Stage {
    /// Its end wasn't closed, since the disk failed. The next record is read after a sync.
    Unsynced,
    /// Its records are read.
    Reading,
    /// All were read. A closed gate stands at its end.
    Ready,
    /// The same, but an append failed, and the gate is in doubt.
    InDoubt,
}

/// A journal in file 0 of a disk: payloads of 1 to 16777216 bytes. All of them are read before one is appended.
#[derive(Drop)]
pub struct Journal {
    pub(crate) alloc: Global,
    pub(crate) end: u64,
    pub(crate) stage: Stage,
    pub(crate) window: Window,
}

impl Model for Journal {
    ghost use Rattle.std.specs.Prelude.{◌^◌, ◌<◌};
    ghost use Rattle.journal_keeper.specs.Stands.{Keeper};

    ghost Value = { Keeper };

    ghost view = { λ j. record { end = j.end; stage = j.stage; ahead = j.window } };

    ghost invariant = { λ j. j.end < 2 ^ 63 };
}

// What file 0 says of itself, once it is synced.
fn read_heading<D: Disk>(disk: &mut D) -> Result<Heading, Failed>
    ensures heading { IfOk result (λ heading. IfSome (D.history disk.old) (λ h. IsFileOf h.now.0.reads heading)) }
    ensures synced { OnOk result (IfSome (D.history disk.old) (λ h. IfSome (D.history disk.new) (λ new. new.now.0 ≡ settled h.now.0.reads))) }
    ensures any_moment { KeepsAll (D.history disk.old) (D.history disk.new) }
    ensures other { IsOtherKept (D.history disk.old) (D.history disk.new) }
    ensures cause { HasCause (D.faults disk.old) (D.faults disk.new) result }
{
    disk.sync(0)?;
    let mut head = [0; 16];
    let n = disk.read_at(0, 0, &mut head)?;
    Ok(heading_of(&head, n))
}

// File 0 becomes a journal without records, where it isn't in use.
fn make_kept<D: Disk>(disk: &mut D) -> Result<(), Failed>
    requires { IfSome (D.history disk.old) (λ h. IsSettled h.now.0 × IsIdleFile h.now.0.reads) }
    ensures made { OnOk result (IfSome (D.history disk.old) (λ _. IfSome (D.history disk.new) (λ new. new.now.0 ≡ settled new_journal))) }
    ensures any_moment { KeepsAll (D.history disk.old) (D.history disk.new) }
    ensures other { IsOtherKept (D.history disk.old) (D.history disk.new) }
    ensures cause { HasCause (D.faults disk.old) (D.faults disk.new) result }
{
    one_list_of_records();
    make(disk)
}

impl Journal {
    ghost use Rattle.std.specs.Prelude.{◌≡◌, ◌<◌, ◌^◌, [], true, false, drop, Ok, Err, None, IfOk, IfErr, IfSome, OnOk};
    ghost use Rattle.journal_format.specs.Records.{is_closed};
    ghost use Rattle.journal_keeper.specs.Stages.{Settles, Finishes, Adds};
    ghost use Rattle.sq_outside.specs.Disk.{nth};
    ghost use Rattle.sq_outside.specs.Fault.{HasCause};
    ghost use Rattle.journal_keeper.specs.Answers.{HasOpenCause, HasRecordCause, KeepsAll, IsOpened, IsOpenFault, ReadsNext, Appends, Repairs, is_end};
    ghost use Rattle.journal_keeper.specs.Records.{IsRecord, payload_of};
    ghost use Rattle.journal_keeper.specs.Stands.{Stands, IsStanding, is_read};
    ghost use Rattle.journal_keeper.specs.Writes.{IsOtherKept};

    /// The journal of this disk, before its first record. Where file 0 isn't in use it becomes a journal without records. One
    /// that is refused isn't written.
    pub fn open<D: Disk>(alloc: Global, disk: &mut D) -> Result<Journal, OpenFault>
        ensures stands { IfOk result (λ journal. Stands journal [] None (D.history disk.new)) }
        ensures unread { IfOk result (λ journal. is_read journal.stage ≡ false) }
        ensures opened { OnOk result (IfSome (D.history disk.old) (λ h. IfSome (D.history disk.new) (λ new. IsOpened h.now.0.reads new.now.0))) }
        ensures fault { IfErr result (IsOpenFault (D.history disk.old) (D.history disk.new)) }
        ensures any_moment { KeepsAll (D.history disk.old) (D.history disk.new) }
        ensures other { IsOtherKept (D.history disk.old) (D.history disk.new) }
        ensures cause { HasOpenCause (D.faults disk.old) (D.faults disk.new) result }
    {
        match read_heading(disk)? {
            Heading::Live { .. } => Ok(Journal::at_start(alloc)),
            Heading::Idle => {
                make_kept(disk)?;
                Ok(Journal::at_start(alloc))
            }
            Heading::Version { n } => Err(OpenFault::Version { file: 0, n }),
            Heading::Foreign => Err(OpenFault::NotAJournal { file: 0 }),
        }
    }

    fn at_start(alloc: Global) -> Self
        ensures { result ≡ record { end = 16; stage = Stage.Reading; ahead = [] } }
    {
        Journal {
            alloc,
            end: 16,
            stage: Stage::Reading,
            window: Window::new(alloc),
        }
    }

    /// The place in the file at which the next record is read, or appended.
    pub fn end(&self) -> u64
        ensures place { result ≡ self.now.end }
        ensures range { result < 2 ^ 63 }
    {
        self.end
    }

    /// The payload of the next record, or `None` where the gate at this place isn't open. Before its first `None` it closes that
    /// gate by `00`; from then on it does nothing.
    pub fn next_record<D: Disk>(&mut self, disk: &mut D) -> Result<Option<Bytes>, OpenFault>
        requires { IsStanding self.old (D.history disk.old) }
        ensures next { is_read self.old.stage ≡ false → ReadsNext self.old (D.history disk.old) result self.new (D.history disk.new) }
        ensures end { is_read self.old.stage ≡ true → (result ≡ Ok None) × (self.new ≡ self.old) × (D.history disk.new ≡ D.history disk.old) }
        ensures read { is_read self.new.stage ≡ is_end result }
        ensures further { IfOk result (λ r. IfSome r (λ _. self.old.end < self.new.end)) }
        ensures standing { IsStanding self.new (D.history disk.new) }
        ensures cause { HasRecordCause (D.faults disk.old) (D.faults disk.new) result }
    {
        match self.stage {
            Stage::Ready => Ok(None),
            Stage::InDoubt => Ok(None),
            Stage::Reading => self.read_on(disk),
            Stage::Unsynced => {
                self.settle(disk)?;
                self.read_on(disk)
            }
        }
    }

    // Syncs the file again, and forgets what was read ahead.
    fn settle<D: Disk>(&mut self, disk: &mut D) -> Result<(), OpenFault>
        requires { self.old.stage ≡ Stage.Unsynced }
        ensures settled { Settles self.old (D.history disk.old) result self.new (D.history disk.new) }
        ensures cause { HasRecordCause (D.faults disk.old) (D.faults disk.new) result }
    {
        disk.sync(0)?;
        self.stage = Stage::Reading;
        self.window = Window::new(self.alloc);
        Ok(())
    }

    // The next record of a file that is synced.
    fn read_on<D: Disk>(&mut self, disk: &mut D) -> Result<Option<Bytes>, OpenFault>
        requires stage { self.old.stage ≡ Stage.Reading }
        requires standing { IsStanding self.old (D.history disk.old) }
        ensures next { ReadsNext self.old (D.history disk.old) result self.new (D.history disk.new) }
        ensures further { IfOk result (λ r. IfSome r (λ _. self.old.end < self.new.end)) }
        ensures cause { HasRecordCause (D.faults disk.old) (D.faults disk.new) result }
    {
        match self.read_record(disk)? {
            Some(payload) => Ok(Some(payload)),
            None => {
                self.finish(disk)?;
                Ok(None)
            }
        }
    }

    // Closes the gate at the end of the records.
    fn finish<D: Disk>(&mut self, disk: &mut D) -> Result<(), OpenFault>
        requires stage { self.old.stage ≡ Stage.Reading }
        requires standing { IsStanding self.old (D.history disk.old) }
        requires closed { IfSome (D.history disk.old) (λ h. is_closed (drop self.old.end h.now.0.reads) ≡ true) }
        ensures finished { Finishes self.old (D.history disk.old) result self.new (D.history disk.new) }
        ensures fault { IfErr result (λ fault. fault ≡ OpenFault.DiskFault) }
        ensures cause { HasRecordCause (D.faults disk.old) (D.faults disk.new) result }
    {
        self.stage = Stage::Unsynced;
        self.window = Window::new(self.alloc);
        shut(disk, self.end)?;
        self.stage = Stage::Ready;
        Ok(())
    }

    /// Adds a payload. `record_text` is what stands after its gate: the length, the payload and a closed gate `00`. Where the last
    /// append failed it repairs first. It takes no memory.
    pub fn append<D: Disk>(&mut self, disk: &mut D, record_text: &Bytes) -> Result<(), DiskFault>
        requires read { is_read self.old.stage ≡ true }
        requires record_text { IsRecord record_text.now }
        requires standing { IsStanding self.old (D.history disk.old) }
        ensures appended { Appends self.old (D.history disk.old) (payload_of record_text.now) result self.new (D.history disk.new) }
        ensures standing { IsStanding self.new (D.history disk.new) }
        ensures cause { HasCause (D.faults disk.old) (D.faults disk.new) result }
    {
        self.repair(disk)?;
        self.add_record(disk, record_text.as_slice())?;
        Ok(())
    }

    fn add_record<D: Disk>(&mut self, disk: &mut D, record_text: &[u8]) -> Result<(), DiskFault>
        requires stage { self.old.stage ≡ Stage.Ready }
        requires record_text { IsRecord record_text.now }
        requires standing { IsStanding self.old (D.history disk.old) }
        ensures added { Adds self.old (D.history disk.old) (payload_of record_text.now) result self.new (D.history disk.new) }
        ensures read { is_read self.new.stage ≡ true }
        ensures cause { HasCause (D.faults disk.old) (D.faults disk.new) result }
    {
        one_list_of_records();
        self.stage = Stage::InDoubt;
        add(disk, self.end, record_text)?;
        self.end += record_text.len() as u64;
        self.stage = Stage::Ready;
        Ok(())
    }

    /// Closes the gate of an append that failed. Where none is in doubt it does nothing. It takes no memory.
    pub fn repair<D: Disk>(&mut self, disk: &mut D) -> Result<(), DiskFault>
        requires read { is_read self.old.stage ≡ true }
        requires standing { IsStanding self.old (D.history disk.old) }
        ensures repaired { Repairs self.old (D.history disk.old) result self.new (D.history disk.new) }
        ensures standing { IsStanding self.new (D.history disk.new) }
        ensures cause { HasCause (D.faults disk.old) (D.faults disk.new) result }
    {
        one_list_of_records();
        match self.stage {
            Stage::InDoubt => self.close_gate(disk),
            Stage::Ready => Ok(()),
            Stage::Unsynced => Ok(()),
            Stage::Reading => Ok(()),
        }
    }

    fn close_gate<D: Disk>(&mut self, disk: &mut D) -> Result<(), DiskFault>
        requires stage { self.old.stage ≡ Stage.InDoubt }
        requires standing { IsStanding self.old (D.history disk.old) }
        ensures repaired { Repairs self.old (D.history disk.old) result self.new (D.history disk.new) }
        ensures cause { HasCause (D.faults disk.old) (D.faults disk.new) result }
    {
        one_list_of_records();
        close(disk, self.end)?;
        self.stage = Stage::Ready;
        Ok(())
    }
}
