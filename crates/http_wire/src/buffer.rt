ghost use Rattle.std.specs.Prelude.{◌≡◌, [], take, IfOk, IfErr, OnErr};
ghost use Rattle.http_wire.specs.Limits.{input_limit};
ghost use Rattle.http_wire.specs.Reading.{HasFillCause, Fills};

use crate::WireFault;
use crate::read::read_some;
use sq_outside::Source;
use std::alloc::Global;
use std::marker::Model;

// How much is read at a time.
const CHUNK: usize = 8192;

/// Bytes that were read and not yet used. They stand first in a vector that keeps its length, so that none of it is set to
/// zero twice.
#[derive(Drop)]
pub struct Buffer {
    bytes: Vec<u8>,
    held: usize,
}

impl Model for Buffer {
    ghost use Rattle.std.specs.Prelude.{◌≤◌, ℕ, List, length, take};

    ghost Value = { List ℕ };

    ghost view = { λ b. take b.held b.bytes.items };

    ghost invariant = { λ b. b.held ≤ length b.bytes.items };
}

impl Buffer {
    ghost use Rattle.std.specs.Prelude.{◌≡◌, ◌≤◌, [], length, drop, IfOk, IfErr, OnErr};
    ghost use Rattle.http_wire.specs.Limits.{input_limit};
    ghost use Rattle.http_wire.specs.Reading.{HasFillCause, Fills};

    pub fn new(alloc: Global) -> Self
        ensures { result ≡ [] }
    {
        Buffer {
            bytes: Vec::new(alloc),
            held: 0,
        }
    }

    pub fn as_slice(&self) -> &[u8]
        ensures { result.now ≡ self.now }
    {
        &self.bytes[..self.held]
    }

    pub fn clear(&mut self)
        ensures { self.new ≡ [] }
    {
        self.held = 0;
    }

    /// Lets go of the first `n` bytes.
    pub fn drop_prefix(&mut self, n: usize)
        requires { n ≤ length self.old }
        ensures { self.new ≡ drop n self.old }
    {
        self.bytes.copy_within(n..self.held, 0);
        self.held -= n;
    }

    /// Reads more of an input of which `taken` bytes were taken. Was there more?
    pub fn fill<S: Source>(&mut self, source: &mut S, taken: u64) -> Result<bool, WireFault>
        requires { taken ≤ input_limit }
        ensures read { IfOk result (λ more. Fills self.old taken (S.source_state source.old) more self.new (S.source_state source.new)) }
        ensures fault { IfErr result (HasFillCause taken (S.source_state source.old) (S.source_state source.new)) }
        ensures kept { OnErr result (self.new ≡ self.old) }
    {
        let size = self.bytes.len().max(self.held + CHUNK);
        if self.bytes.resize(size, 0).is_err() {
            return Err(WireFault::NoMemory);
        }
        let n = read_some(source, taken, &mut self.bytes[self.held..])?;
        self.held += n;
        Ok(n > 0)
    }
}
