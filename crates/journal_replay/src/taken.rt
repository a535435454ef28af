//! Taking a record's transactions into the tables.
ghost use Rattle.std.specs.Prelude.{◌≡◌, None, Some, IfErr, IfOk, OnOk, IsTrue, is_some};
ghost use Rattle.journal_replay.specs.Records.{Spells};
ghost use Rattle.journal_replay.specs.Taking.{IsBadFor, IsIllegal, Takes};
ghost use Rattle.queue_model.specs.Replay.{after, replay};

use exec_tables::Tables;
use job_states::{NoMemory, Transaction};
use journal_format::{ReadFault, one_text, read_tx};
use journal_keeper::OpenFault;
use std::alloc::Global;

/// Takes in the transactions that the record at this place spells. After a fault nothing is promised of the tables.
pub fn take_in(alloc: Global, tables: &mut Tables, at: u64, bytes: &[u8]) -> Result<(), OpenFault>
    ensures taken { OnOk result (Takes bytes.now tables.old.world tables.new.world) }
    ensures fault { IfErr result (IsBadFor at (IsIllegal bytes.now tables.old.world)) }
{
    one_text();
    let txs = transactions(alloc, at, bytes)?;
    if replay(tables, txs)? {
        Ok(())
    } else {
        Err(OpenFault::BadRecord { at })
    }
}

// The transactions that the record spells.
fn transactions(alloc: Global, at: u64, bytes: &[u8]) -> Result<Vec<Transaction>, OpenFault>
    ensures spelled { IfOk result (λ txs. Spells bytes.now txs.items) }
    ensures fault { IfErr result (IsBadFor at ((txs : _) → Spells bytes.now txs → ⊥)) }
{
    one_text();
    match read_tx(alloc, bytes) {
        Ok((txs, len)) if len == bytes.len() => Ok(txs),
        Ok(_) => Err(OpenFault::BadRecord { at }),
        Err(ReadFault::BadRecord { .. }) => Err(OpenFault::BadRecord { at }),
        Err(ReadFault::NoMemory) => Err(OpenFault::NoMemory),
    }
}

// Applies the transactions one after another. Was each legal?
fn replay(tables: &mut Tables, txs: Vec<Transaction>) -> Result<bool, NoMemory>
    ensures legal { IfOk result (λ legal. legal ≡ is_some (replay tables.old.world txs.items)) }
    ensures world { IfOk result (λ legal. IsTrue legal → replay tables.old.world txs.items ≡ Some tables.new.world) }
{
    for tx in txs {
        tables.reserve_for(&tx)?;
        if !tables.try_apply(tx) {
            return Ok(false);
        }
    }
    Ok(true)
}
