//! Bytes of file 0 that were read ahead, so that short records take no read each.
ghost use Rattle.std.specs.Prelude.{◌≡◌, ◌≤◌, ◌-◌, [], length, take, drop, min, IfOk, IfErr, OnOk, IfSome};
ghost use Rattle.sq_outside.specs.Disk.{nth};
ghost use Rattle.journal_keeper.specs.Answers.{HasReadCause};

use crate::OpenFault;
use sq_outside::Disk;
use std::alloc::Global;
use std::marker::Model;

/// So many bytes are read at a time.
pub(crate) const WINDOW: usize = 65_536;

/// Bytes that were read ahead and not yet used.
#[derive(Drop)]
pub(crate) struct Window {
    bytes: Vec<u8>,
    from: usize,
    to: usize,
}

impl Model for Window {
    ghost use Rattle.std.specs.Prelude.{◌-◌, ◌≤◌, ℕ, List, length, take, drop};

    ghost Value = { List ℕ };

    ghost view = { λ w. take (w.to - w.from) (drop w.from w.bytes.items) };

    ghost invariant = { λ w. (w.from ≤ w.to) × (w.to ≤ length w.bytes.items) };
}

impl Window {
    ghost use Rattle.std.specs.Prelude.{◌≡◌, ◌≤◌, ◌-◌, [], length, drop, min, IfSome, OnOk, OnErr, IfErr};
    ghost use Rattle.sq_outside.specs.Disk.{nth};
    ghost use Rattle.sq_outside.specs.Fault.{HasCause};
    ghost use Rattle.journal_keeper.specs.Answers.{HasReadCause};
    ghost use Rattle.journal_keeper.specs.Stands.{IsAhead};

    /// With nothing ahead. It takes no memory.
    pub fn new(alloc: Global) -> Self
        ensures { result ≡ [] }
    {
        Window {
            bytes: Vec::new(alloc),
            from: 0,
            to: 0,
        }
    }

    /// The bytes ahead.
    pub fn as_slice(&self) -> &[u8]
        ensures { result.now ≡ self.now }
    {
        &self.bytes[self.from..self.to]
    }

    /// Passes over the first `n` bytes ahead.
    pub fn pass(&mut self, n: usize)
        requires { n ≤ length self.old }
        ensures { self.new ≡ drop n self.old }
    {
        self.from += n;
    }

    /// Reads on from the place `at` of the file, where fewer than `least` bytes from there are ahead.
    pub fn fill<D: Disk>(&mut self, disk: &mut D, at: u64, least: usize) -> Result<(), OpenFault>
        requires { least ≤ 65_536 }
        ensures filled { OnOk result (IfSome (D.history disk.old) (λ h. min least (length h.now.0.reads - at) ≤ length self.new)) }
        ensures ahead { IfSome (D.history disk.old) (λ h. IsAhead at h.now.0.reads self.old → IsAhead at h.now.0.reads self.new) }
        ensures kept { D.history disk.new ≡ D.history disk.old }
        ensures cause { HasReadCause (D.faults disk.old) (D.faults disk.new) result }
    {
        if self.to - self.from >= least {
            return Ok(());
        }
        self.from = 0;
        self.to = 0;
        self.to = read_into(disk, at, &mut self.bytes)?;
        Ok(())
    }
}

// Reads a window from the place `at` of the file, and answers how many bytes there were.
fn read_into<D: Disk>(disk: &mut D, at: u64, bytes: &mut Vec<u8>) -> Result<usize, OpenFault>
    ensures within { IfOk result (λ n. n ≤ length bytes.new.items) }
    ensures count { IfOk result (λ n. IfSome (D.history disk.old) (λ h. (min 65_536 (length h.now.0.reads - at) ≤ n) × (n ≤ length h.now.0.reads - at))) }
    ensures prefix { IfOk result (λ n. IfSome (D.history disk.old) (λ h. take n bytes.new.items ≡ take n (drop at h.now.0.reads))) }
    ensures kept { D.history disk.new ≡ D.history disk.old }
    ensures cause { HasReadCause (D.faults disk.old) (D.faults disk.new) result }
{
    let left = disk.len(0)?.saturating_sub(at);
    make_room(bytes, left.min(WINDOW as u64) as usize)?;
    let n = disk.read_at(0, at, bytes.as_mut_slice())?;
    Ok(n)
}

fn make_room(bytes: &mut Vec<u8>, room: usize) -> Result<(), OpenFault>
    ensures room { OnOk result (room ≤ length bytes.new.items) }
    ensures memory { IfErr result (λ fault. fault ≡ OpenFault.NoMemory) }
{
    if bytes.len() < room {
        bytes.resize(room, 0)?;
    }
    Ok(())
}
