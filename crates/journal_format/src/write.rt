//! Writing a payload of transactions.

ghost use Rattle.std.specs.Prelude.{◌≡◌, ◌≤◌, length, IsTrue, OnOk, IfOk, IfErr};
ghost use Rattle.journal_format.specs.Payload.{are_in_range, HasText, IsWriteFault};
ghost use Rattle.journal_format.specs.Spelling.{payload};

use crate::fault::WriteFault;
use crate::writer::{put_number, put_transactions};
use job_states::{Bytes, Transaction};
use std::alloc::Global;

/// The most bytes that a record's payload has.
const MAX_LEN: usize = 16_777_216;

/// The payload of these transactions.
pub fn write_tx(alloc: Global, txs: &[Transaction]) -> Result<Bytes, WriteFault>
    requires { IsTrue (are_in_range txs.now) }
    ensures written { IfOk result (λ bytes. bytes ≡ payload txs.now) }
    ensures within { IfOk result (λ bytes. length bytes ≤ 16_777_216) }
    ensures has_text { OnOk result (HasText txs.now) }
    ensures fault { IfErr result (IsWriteFault txs.now) }
{
    let mut out = Vec::new(alloc);
    out.push(1)?;
    put_number(&mut out, 1, txs.len() as u64)?;
    put_transactions(&mut out, txs)?;
    if out.len() > MAX_LEN {
        return Err(WriteFault::TooLarge { len: out.len() });
    }
    Ok(Bytes::of(out))
}
