//! Reading records.
ghost use Rattle.std.specs.Prelude.{◌≡◌, ◌+◌, ◌^◌, ◌<◌, ◌≤◌, IfOk, IfSome};
ghost use Rattle.sq_outside.specs.Disk.{nth};
ghost use Rattle.journal_keeper.specs.Answers.{HasRecordCause};
ghost use Rattle.journal_keeper.specs.Reading.{TakesPayload, ReadsRecord};

use crate::frame::{Frame, frame_of};
use crate::window::{WINDOW, Window};
use crate::{Journal, OpenFault};
use job_states::Bytes;
use sq_outside::{Disk, GREATEST_LENGTH};

impl Journal {
    ghost use Rattle.std.specs.Prelude.{◌≡◌, ◌+◌, ◌^◌, ◌<◌, ◌≤◌, IfOk, IfSome};
    ghost use Rattle.sq_outside.specs.Disk.{nth};
    ghost use Rattle.journal_keeper.specs.Answers.{HasRecordCause};
    ghost use Rattle.journal_keeper.specs.Reading.{TakesPayload, ReadsRecord};

    /// The payload of the record at the journal's place, or `None` where its gate is closed.
    pub(crate) fn read_record<D: Disk>(&mut self, disk: &mut D) -> Result<Option<Bytes>, OpenFault>
        ensures read { ReadsRecord self.old (D.history disk.old) result self.new (D.history disk.new) }
        ensures further { IfOk result (λ r. IfSome r (λ _. self.old.end < self.new.end)) }
        ensures cause { HasRecordCause (D.faults disk.old) (D.faults disk.new) result }
    {
        self.window.fill(disk, self.end, 5)?;
        match frame_of(self.window.as_slice()) {
            Frame::Closed => Ok(None),
            Frame::Broken => Err(OpenFault::BadRecord { at: self.end }),
            Frame::Open(n) => {
                let payload = self.read_payload(disk, n)?;
                Ok(Some(payload))
            }
        }
    }

    // The payload of `n` bytes at the journal's place.
    fn read_payload<D: Disk>(&mut self, disk: &mut D, n: usize) -> Result<Bytes, OpenFault>
        requires { n ≤ 16_777_216 }
        ensures taken { TakesPayload n self.old (D.history disk.old) result self.new (D.history disk.new) }
        ensures further { IfOk result (λ _. self.old.end < self.new.end) }
        ensures cause { HasRecordCause (D.faults disk.old) (D.faults disk.new) result }
    {
        if self.end + 5 + n as u64 > GREATEST_LENGTH {
            return Err(OpenFault::BadRecord { at: self.end });
        }
        if n + 5 <= WINDOW {
            self.read_short(disk, n)
        } else {
            self.read_long(disk, n)
        }
    }

    // One that fits the window.
    fn read_short<D: Disk>(&mut self, disk: &mut D, n: usize) -> Result<Bytes, OpenFault>
        requires short { n + 5 ≤ 65_536 }
        requires fits { self.old.end + 5 + n < 2 ^ 63 }
        ensures taken { TakesPayload n self.old (D.history disk.old) result self.new (D.history disk.new) }
        ensures further { IfOk result (λ _. self.old.end < self.new.end) }
        ensures cause { HasRecordCause (D.faults disk.old) (D.faults disk.new) result }
    {
        self.window.fill(disk, self.end, n + 5)?;
        let ahead = self.window.as_slice();
        if ahead.len() < n + 5 {
            return Err(OpenFault::BadRecord { at: self.end });
        }
        let payload = Bytes::read(self.alloc, &ahead[5..n + 5])?;
        self.window.pass(n + 5);
        self.end += 5 + n as u64;
        Ok(payload)
    }

    // One that is read straight into its own bytes. None are taken before it is known that they are there.
    fn read_long<D: Disk>(&mut self, disk: &mut D, n: usize) -> Result<Bytes, OpenFault>
        requires fits { self.old.end + 5 + n < 2 ^ 63 }
        ensures taken { TakesPayload n self.old (D.history disk.old) result self.new (D.history disk.new) }
        ensures further { IfOk result (λ _. self.old.end < self.new.end) }
        ensures cause { HasRecordCause (D.faults disk.old) (D.faults disk.new) result }
    {
        let at = self.end + 5;
        if disk.len(0)? < at + n as u64 {
            return Err(OpenFault::BadRecord { at: self.end });
        }
        let mut bytes = vec![in self.alloc; 0; n]?;
        let count = disk.read_at(0, at, bytes.as_mut_slice())?;
        if count < n {
            return Err(OpenFault::BadRecord { at: self.end });
        }
        self.window = Window::new(self.alloc);
        self.end = at + n as u64;
        Ok(Bytes::of(bytes))
    }
}
