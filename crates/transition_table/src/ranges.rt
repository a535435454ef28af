//! The ranges of what a transition carries.
ghost use Rattle.std.specs.Prelude.{◌≡◌, ◌^◌, nat_lt, Some, IsTrue};
ghost use Rattle.std.specs.List.{list_all};
ghost use Rattle.std.specs.Option.{option_copied};
ghost use Rattle.std.specs.Str.{is_utf8};
ghost use Rattle.job_states.specs.Length as lengths;
ghost use Rattle.job_states.specs.Moment as moments;
ghost use Rattle.job_states.specs.Ranges as range;
ghost use Rattle.job_states.specs.Texts as texts;
ghost use Rattle.transition_table.specs.Seen.{HasNext, IsFit, new_limit};

use job_states::{Counted, Counters, JobRow, LAST, Limited, Moment, Name, Put, Text, Transition};
use std::str;

/// Is it a moment?
pub fn is_moment(moment: Moment) -> bool
    ensures { result ≡ moments.is_moment moment }
{
    moment <= LAST
}

/// Is all that the transition carries within its range?
#[tactic(auto, using(crate::proofs::InRange::fit, crate::proofs::InRange::next))]
pub fn is_in_range(step: &Transition) -> bool
    ensures exact { result ≡ range.is_in_range step.now }
    ensures fit { IsTrue result → IsFit (new_limit step.now) }
    ensures next { IsTrue result → HasNext step.now }
{
    match step {
        Transition::Enqueue { row, put } => {
            is_row(row) && is_put(put) && !matches!(put, Put::Away)
        }
        Transition::Dispatch { id, put } => {
            is_number(*id) && is_put(put) && !matches!(put, Put::Scheduled(_))
        }
        Transition::Claim { id, pid } => is_number(*id) && is_number(*pid),
        Transition::Fail {
            id,
            error,
            message,
            counters,
        } => {
            is_number(*id)
                && is_name(error)
                && message.len() <= 1024
                && counters
                    .as_ref()
                    .is_none_or(|counters| are_counters(counters))
        }
        Transition::Unblock { id, generation } => is_number(*id) && is_number(*generation),
        Transition::Retry { id, put } => {
            is_number(*id) && is_put(put) && !matches!(put, Put::Scheduled(_) | Put::Away)
        }
        Transition::Done { id }
        | Transition::Release { id }
        | Transition::Discard { id }
        | Transition::Clear { id } => is_number(*id),
        Transition::Register { pid, name, .. } => is_number(*pid) && is_name(name),
        Transition::Beat { pid } | Transition::Deregister { pid } => is_number(*pid),
        Transition::Pause { queue } | Transition::Resume { queue } => is_name(queue),
        Transition::Expire { key } => key.len() <= 65_535,
        Transition::Run { task, time, id } => {
            is_name(task) && is_moment(*time) && is_some_number(*id)
        }
    }
}

// Can a job, a process or a generation have the number?
fn is_number(n: u64) -> bool
    ensures { result ≡ range.is_number n }
{
    (1..=1 << 63).contains(&n)
}

fn is_some_number(n: Option<u64>) -> bool
    ensures { result ≡ range.is_some_number n }
{
    match n {
        Some(n) => is_number(n),
        None => true,
    }
}

fn is_name(name: &Name) -> bool
    ensures { result ≡ lengths.is_name name.now }
{
    (1..=Name::MAX_LEN).contains(&name.as_text().len())
}

fn is_put(put: &Put) -> bool
    ensures { result ≡ range.is_put put.now }
{
    match put {
        Put::Ready(permit) => is_some_number(*permit),
        Put::Scheduled(at) => is_moment(*at),
        Put::Blocked(until) => is_moment(*until),
        Put::Away => true,
    }
}

fn is_row(row: &JobRow) -> bool
    ensures { result ≡ range.is_row row.now }
{
    is_number(row.id)
        && is_name(&row.class)
        && is_name(&row.queue)
        && is_priority(row.priority)
        && is_name(&row.active_id)
        && is_envelope(row.envelope.as_slice())
        && row.executions <= 65_535
        && are_counts(row.counts.as_slice())
        && is_limited(row.limited.as_ref())
}

// Each number of its type is a priority.
fn is_priority(priority: i32) -> bool
    ensures { result ≡ range.is_priority priority }
{
    true
}

fn is_limited(limited: Option<&Limited>) -> bool
    ensures { result ≡ range.is_limited (option_copied limited.entry) }
{
    match limited {
        Some(limited) => {
            (3..=257).contains(&limited.key.len())
                && (1..=65_535).contains(&limited.to)
                && is_duration(limited.duration)
        }
        None => true,
    }
}

// Each number of its type is a duration.
fn is_duration(duration: u64) -> bool
    ensures { result ≡ nat_lt duration (2 ^ 64) }
{
    true
}

fn is_envelope(bytes: &[u8]) -> bool
    ensures { result ≡ range.is_envelope bytes.now }
{
    bytes.len() <= 8192 && is_utf8(bytes)
}

fn is_utf8(bytes: &[u8]) -> bool
    ensures { result ≡ is_utf8 bytes.now }
{
    match str::from_utf8(bytes) {
        Ok(_) => true,
        Err(_) => false,
    }
}

fn are_counters(counters: &Counters) -> bool
    ensures { result ≡ range.are_counters (Some counters.now) }
{
    counters.executions <= 65_535 && are_counts(counters.counts.as_slice())
}

fn are_counts(counts: &[Counted]) -> bool
    ensures { result ≡ range.are_counts counts.now }
{
    counts.len() <= 32 && all_counted(counts) && are_apart(counts)
}

fn all_counted(counts: &[Counted]) -> bool
    ensures { result ≡ list_all range.is_counted counts.now }
{
    counts.iter().all(|counted| is_counted(counted))
}

fn is_counted(counted: &Counted) -> bool
    ensures { result ≡ range.is_counted counted.now }
{
    (1..=1024).contains(&counted.list.len()) && counted.count <= 65_535
}

// Is no list among them twice?
fn are_apart(counts: &[Counted]) -> bool
    ensures { result ≡ texts.are_apart (range.texts_of_counts counts.now) }
{
    match counts.split_first() {
        Some((first, rest)) => !is_among(rest, &first.list) && are_apart(rest),
        None => true,
    }
}

fn is_among(counts: &[Counted], list: &Text) -> bool
    ensures { result ≡ texts.is_among (range.texts_of_counts counts.now) list.now }
{
    match counts.split_first() {
        Some((first, rest)) => first.list == *list || is_among(rest, list),
        None => false,
    }
}
