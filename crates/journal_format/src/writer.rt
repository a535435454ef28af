//! Writing the parts of a payload, each at the end of what is there.

ghost use Rattle.std.specs.Prelude.{◌≡◌, ◌≤◌, ◌++◌, ◌∷◌, length, IsTrue, OnOk};
ghost use Rattle.std.specs.List.{flat_map, list_all};
ghost use Rattle.std.specs.Str.{is_utf8};
ghost use Rattle.job_states.specs.Ranges.{texts_of_counts, texts_of_limited, texts_of_counters, texts_of_row, has_texts};
ghost use Rattle.journal_format.specs.Payload.{have_texts};
ghost use Rattle.journal_format.specs.Spelling.{◌⧺◌, big_endian, name, text, flag, option, limited, kind, place, counted, counts, row, load, counters, transition, transaction};

use job_states::{
    Counted, Counters, JobRow, Kind, Limited, Name, Put, Text, Transaction, Transition,
};
use std::alloc::AllocError;

/// The lowest `width` bytes of a number, the highest of them first.
pub fn put_number(out: &mut Vec<u8>, width: usize, n: u64) -> Result<(), AllocError>
    requires { width ≤ 8 }
    ensures { OnOk result (out.new.items ≡ out.old.items ++ big_endian width n) }
{
    out.extend_from_slice(&n.to_be_bytes()[8 - width..])
}

/// A length of `width` bytes, and the bytes.
fn put_bytes(out: &mut Vec<u8>, width: usize, bytes: &[u8]) -> Result<(), AllocError>
    requires { width ≤ 8 }
    ensures { OnOk result (out.new.items ≡ out.old.items ++ (big_endian width (length bytes.now) ⧺ bytes.now)) }
{
    put_number(out, width, bytes.len() as u64)?;
    out.extend_from_slice(bytes)
}

#[tactic(auto, using(crate::proofs::TestLaws::utf8_passes))]
fn put_name(out: &mut Vec<u8>, n: &Name) -> Result<(), AllocError>
    ensures text { OnOk result (out.new.items ≡ out.old.items ++ name n.now) }
    ensures texts { OnOk result (IsTrue (is_utf8 n.now)) }
{
    put_bytes(out, 1, n.as_str().as_bytes())
}

#[tactic(auto, using(crate::proofs::TestLaws::utf8_passes))]
fn put_text(out: &mut Vec<u8>, t: &Text) -> Result<(), AllocError>
    ensures text { OnOk result (out.new.items ≡ out.old.items ++ text t.now) }
    ensures texts { OnOk result (IsTrue (is_utf8 t.now)) }
{
    put_bytes(out, 2, t.as_str().as_bytes())
}

fn put_flag(out: &mut Vec<u8>, is_set: bool) -> Result<(), AllocError>
    ensures { OnOk result (out.new.items ≡ out.old.items ++ flag is_set) }
{
    out.push(if is_set { 1 } else { 0 })?;
    Ok(())
}

fn put_option_id(out: &mut Vec<u8>, n: Option<u64>) -> Result<(), AllocError>
    ensures { OnOk result (out.new.items ≡ out.old.items ++ option (big_endian 8) n) }
{
    match n {
        None => put_flag(out, false),
        Some(n) => {
            put_flag(out, true)?;
            put_number(out, 8, n)
        }
    }
}

fn put_place(out: &mut Vec<u8>, put: Put) -> Result<(), AllocError>
    ensures { OnOk result (out.new.items ≡ out.old.items ++ place put) }
{
    match put {
        Put::Ready(permit) => {
            out.push(1)?;
            put_option_id(out, permit)
        }
        Put::Scheduled(at) => put_tagged(out, 2, at),
        Put::Blocked(until) => put_tagged(out, 3, until),
        Put::Away => {
            out.push(4)?;
            Ok(())
        }
    }
}

fn put_limited(out: &mut Vec<u8>, l: &Limited) -> Result<(), AllocError>
    ensures text { OnOk result (out.new.items ≡ out.old.items ++ limited l.now) }
    ensures texts { OnOk result (IsTrue (is_utf8 l.now.key)) }
{
    put_text(out, &l.key)?;
    put_number(out, 2, l.to as u64)?;
    put_number(out, 8, l.duration)?;
    put_flag(out, l.discard)
}

fn put_option_limited(out: &mut Vec<u8>, l: &Option<Limited>) -> Result<(), AllocError>
    ensures text { OnOk result (out.new.items ≡ out.old.items ++ option limited l.now) }
    ensures texts { OnOk result (IsTrue (list_all is_utf8 (texts_of_limited l.now))) }
{
    match l {
        None => put_flag(out, false),
        Some(l) => {
            put_flag(out, true)?;
            put_limited(out, l)
        }
    }
}

fn put_counted(out: &mut Vec<u8>, c: &Counted) -> Result<(), AllocError>
    ensures text { OnOk result (out.new.items ≡ out.old.items ++ counted c.now) }
    ensures texts { OnOk result (IsTrue (is_utf8 c.now.list)) }
{
    put_text(out, &c.list)?;
    put_number(out, 2, c.count as u64)
}

fn put_counts(out: &mut Vec<u8>, cs: &[Counted]) -> Result<(), AllocError>
    ensures text { OnOk result (out.new.items ≡ out.old.items ++ counts cs.now) }
    ensures texts { OnOk result (IsTrue (list_all is_utf8 (texts_of_counts cs.now))) }
{
    put_number(out, 1, cs.len() as u64)?;
    put_each_counted(out, cs)
}

fn put_each_counted(out: &mut Vec<u8>, cs: &[Counted]) -> Result<(), AllocError>
    ensures text { OnOk result (out.new.items ≡ out.old.items ++ flat_map counted cs.now) }
    ensures texts { OnOk result (IsTrue (list_all is_utf8 (texts_of_counts cs.now))) }
{
    for c in cs {
        put_counted(out, c)?;
    }
    Ok(())
}

fn put_row(out: &mut Vec<u8>, r: &JobRow) -> Result<(), AllocError>
    ensures text { OnOk result (out.new.items ≡ out.old.items ++ row r.now) }
    ensures texts { OnOk result (IsTrue (list_all is_utf8 (texts_of_row r.now))) }
{
    put_number(out, 8, r.id)?;
    put_name(out, &r.class)?;
    put_name(out, &r.queue)?;
    put_number(out, 4, r.priority.cast_unsigned() as u64)?;
    put_name(out, &r.active_id)?;
    put_load(out, r)
}

/// What a row has besides its names.
fn put_load(out: &mut Vec<u8>, r: &JobRow) -> Result<(), AllocError>
    ensures text { OnOk result (out.new.items ≡ out.old.items ++ load r.now) }
    ensures counts { OnOk result (IsTrue (list_all is_utf8 (texts_of_counts r.now.counts))) }
    ensures key { OnOk result (IsTrue (list_all is_utf8 (texts_of_limited r.now.limited))) }
{
    put_bytes(out, 2, r.envelope.as_slice())?;
    put_number(out, 2, r.executions as u64)?;
    put_counts(out, r.counts.as_slice())?;
    put_option_limited(out, &r.limited)
}

fn put_option_counters(out: &mut Vec<u8>, c: &Option<Counters>) -> Result<(), AllocError>
    ensures text { OnOk result (out.new.items ≡ out.old.items ++ option counters c.now) }
    ensures texts { OnOk result (IsTrue (list_all is_utf8 (texts_of_counters c.now))) }
{
    match c {
        None => put_flag(out, false),
        Some(c) => {
            put_flag(out, true)?;
            put_number(out, 2, c.executions as u64)?;
            put_counts(out, c.counts.as_slice())
        }
    }
}

fn put_kind(out: &mut Vec<u8>, k: Kind) -> Result<(), AllocError>
    ensures { OnOk result (out.new.items ≡ out.old.items ++ kind k) }
{
    out.push(match k {
        Kind::Worker => 1,
        Kind::Dispatcher => 2,
        Kind::Scheduler => 3,
        Kind::Supervisor => 4,
    })?;
    Ok(())
}

/// A tag and a number.
fn put_tagged(out: &mut Vec<u8>, tag: u8, n: u64) -> Result<(), AllocError>
    ensures { OnOk result (out.new.items ≡ out.old.items ++ tag ∷ big_endian 8 n) }
{
    out.push(tag)?;
    put_number(out, 8, n)
}

/// A tag and a name.
fn put_tagged_name(out: &mut Vec<u8>, tag: u8, n: &Name) -> Result<(), AllocError>
    ensures text { OnOk result (out.new.items ≡ out.old.items ++ tag ∷ name n.now) }
    ensures texts { OnOk result (IsTrue (is_utf8 n.now)) }
{
    out.push(tag)?;
    put_name(out, n)
}

fn put_transition(out: &mut Vec<u8>, t: &Transition) -> Result<(), AllocError>
    ensures text { OnOk result (out.new.items ≡ out.old.items ++ transition t.now) }
    ensures texts { OnOk result (IsTrue (has_texts t.now)) }
{
    match t {
        Transition::Enqueue { row, put } => {
            out.push(1)?;
            put_row(out, row)?;
            put_place(out, *put)
        }
        Transition::Dispatch { id, put } => {
            put_tagged(out, 2, *id)?;
            put_place(out, *put)
        }
        Transition::Claim { id, pid } => {
            put_tagged(out, 3, *id)?;
            put_number(out, 8, *pid)
        }
        Transition::Done { id } => put_tagged(out, 4, *id),
        Transition::Fail {
            id,
            error,
            message,
            counters,
        } => {
            put_tagged(out, 5, *id)?;
            put_name(out, error)?;
            put_text(out, message)?;
            put_option_counters(out, counters)
        }
        Transition::Release { id } => put_tagged(out, 6, *id),
        Transition::Unblock { id, generation } => {
            put_tagged(out, 7, *id)?;
            put_number(out, 8, *generation)
        }
        Transition::Retry { id, put } => {
            put_tagged(out, 8, *id)?;
            put_place(out, *put)
        }
        Transition::Discard { id } => put_tagged(out, 9, *id),
        Transition::Clear { id } => put_tagged(out, 10, *id),
        Transition::Register { pid, kind, name } => {
            put_tagged(out, 11, *pid)?;
            put_kind(out, *kind)?;
            put_name(out, name)
        }
        Transition::Beat { pid } => put_tagged(out, 12, *pid),
        Transition::Deregister { pid } => put_tagged(out, 13, *pid),
        Transition::Pause { queue } => put_tagged_name(out, 14, queue),
        Transition::Resume { queue } => put_tagged_name(out, 15, queue),
        Transition::Expire { key } => {
            out.push(16)?;
            put_text(out, key)
        }
        Transition::Run { task, time, id } => {
            put_tagged_name(out, 17, task)?;
            put_number(out, 8, *time)?;
            put_option_id(out, *id)
        }
    }
}

fn put_transitions(out: &mut Vec<u8>, steps: &[Transition]) -> Result<(), AllocError>
    ensures text { OnOk result (out.new.items ≡ out.old.items ++ flat_map transition steps.now) }
    ensures texts { OnOk result (IsTrue (list_all has_texts steps.now)) }
{
    for step in steps {
        put_transition(out, step)?;
    }
    Ok(())
}

fn put_transaction(out: &mut Vec<u8>, tx: &Transaction) -> Result<(), AllocError>
    ensures text { OnOk result (out.new.items ≡ out.old.items ++ transaction tx.now) }
    ensures texts { OnOk result (IsTrue (list_all has_texts tx.now.steps)) }
{
    put_number(out, 8, tx.moment)?;
    put_number(out, 2, tx.steps.len() as u64)?;
    put_transitions(out, tx.steps.as_slice())
}

pub fn put_transactions(out: &mut Vec<u8>, txs: &[Transaction]) -> Result<(), AllocError>
    ensures text { OnOk result (out.new.items ≡ out.old.items ++ flat_map transaction txs.now) }
    ensures texts { OnOk result (IsTrue (have_texts txs.now)) }
{
    for tx in txs {
        put_transaction(out, tx)?;
    }
    Ok(())
}
