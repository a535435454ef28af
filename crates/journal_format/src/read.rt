//! Reading a payload of transactions.

ghost use Rattle.std.specs.Prelude.{◌≡◌, ℕ, ◌++◌, List, IfOk, IfErr, MatchResult};
ghost use Rattle.job_states.specs.declared.transition.Transaction.{Transaction as Tx};
ghost use Rattle.journal_format.specs.Payload.{HasText, StandsFirst, IsReadFault};
ghost use Rattle.journal_format.specs.Spelling.{payload};

use crate::fault::ReadFault;
use crate::reader::{Reader, Stop};
use job_states::Transaction;
use std::alloc::Global;

/// The transactions whose payload is a prefix of the bytes, and its length.
pub fn read_tx(alloc: Global, bytes: &[u8]) -> Result<(Vec<Transaction>, usize), ReadFault>
    ensures read { IfOk result (λ r. StandsFirst bytes.now r.0.items r.1) }
    ensures fault { IfErr result (IsReadFault bytes.now) }

    // What was written is read again, whatever follows it, unless memory runs out.
    ensures again { (txs : List Tx) (rest : List ℕ) → HasText txs → bytes.now ≡ payload txs ++ rest → MatchResult result (λ r. r.0.items ≡ txs) (λ e. e ≡ ReadFault.NoMemory) }
{
    let mut reader = Reader { alloc, rest: bytes };
    match reader.payload() {
        Ok(txs) => Ok((txs, bytes.len() - reader.rest.len())),
        Err(Stop::Refused) => Err(ReadFault::BadRecord {
            at: bytes.len() - reader.rest.len(),
        }),
        Err(Stop::NoMemory) => Err(ReadFault::NoMemory),
    }
}
