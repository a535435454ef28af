//! The records that open plans write, by seat: made when a plan is opened, so that its commit takes no memory.
ghost use Rattle.std.specs.Prelude.{◌≡◌, ◌≤◌, ◌++◌, ◌∷◌, [], true, IfOk, IfSome, IsSome, OnErr, OnOk, length};
ghost use Rattle.std.specs.BTreeMap.{IsUnchanged, Updates};
ghost use Rattle.std.specs.Ordering.{nat_cmp};
ghost use Rattle.journal_format.specs.Records.{framed};
ghost use Rattle.journal_keeper.specs.Records.{IsPayload, IsRecord};
ghost use Rattle.journal_keeper.specs.Stands.{IsStanding, is_read};
ghost use Rattle.queue_engine.specs.Recorded.{AppendsAny, IsRecordOf};
ghost use Rattle.queue_model.specs.Replay.{after};
ghost use Rattle.queue_model.specs.World.{World};
ghost use Rattle.sq_outside.specs.Fault.{HasCause};

use job_states::{Bytes, NoMemory, Transaction};
use journal_format::write_tx;
use journal_keeper::{DiskFault, Journal};
use sq_outside::Disk;
use std::alloc::Global;
use std::collections::BTreeMap;
use std::slice;

/// The record of a transaction that is legal in some world, where it has transitions. One that is too long for the journal is
/// answered as want of memory.
pub fn record_of(alloc: Global, tx: &Transaction) -> Result<Option<Bytes>, NoMemory>
    requires short { length tx.now.steps ≤ 2000 }
    requires legal { (w : World) × IsSome (after w tx.now) }
    ensures { IfOk result (IsRecordOf tx.now) }
{
    if tx.steps.is_empty() {
        return Ok(None);
    }
    match write_tx(alloc, slice::from_ref(tx)) {
        Ok(payload) => Ok(Some(framed(alloc, payload.as_slice())?)),
        Err(_) => Err(NoMemory),
    }
}

// The payload as the journal takes it: its length before it, and a closed gate after it.
fn framed(alloc: Global, payload: &[u8]) -> Result<Bytes, NoMemory>
    requires { IsPayload payload.now }
    ensures { IfOk result (λ text. text ≡ framed payload.now ++ 0 ∷ []) }
{
    let mut text = Vec::with_capacity(alloc, payload.len() + 5)?;
    text.extend_from_slice(&(payload.len() as u32).to_be_bytes())?;
    text.extend_from_slice(payload)?;
    text.push(0)?;
    Ok(Bytes::of(text))
}

/// Keeps the record at the seat, or none there.
pub fn put(
    records: &mut BTreeMap<u32, Bytes>,
    seat: u32,
    text: Option<Bytes>,
) -> Result<(), NoMemory>
    ensures kept { OnOk result (Updates nat_cmp records.old records.new seat text) }
    ensures same { OnErr result (IsUnchanged records.old records.new) }
{
    match text {
        Some(text) => {
            records.insert(seat, text)?;
        }
        None => {
            records.remove(&seat);
        }
    }
    Ok(())
}

/// Appends the record, if there is one. It takes no memory.
pub fn append_any<D: Disk>(
    journal: &mut Journal,
    disk: &mut D,
    text: Option<Bytes>,
) -> Result<(), DiskFault>
    requires record_text { IfSome text IsRecord }
    requires read { is_read journal.old.stage ≡ true }
    requires standing { IsStanding journal.old (D.history disk.old) }
    ensures appended { AppendsAny text journal.old (D.history disk.old) result journal.new (D.history disk.new) }
    ensures cause { HasCause (D.faults disk.old) (D.faults disk.new) result }
{
    match text {
        Some(text) => journal.append(disk, &text),
        None => Ok(()),
    }
}
