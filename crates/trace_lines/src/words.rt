//! What single words spell.
ghost use Rattle.std.specs.Prelude.{◌≡◌, ◌<◌, ◌≤◌, ◌==◌, map, length, IfOk, IfSome, IsTrue};
ghost use Rattle.std.specs.Char.{is_ascii_digit};
ghost use Rattle.std.specs.List.{list_all, slice_split};
ghost use Rattle.std.specs.Option.{option_map};
ghost use Rattle.job_states.specs.Judged.{Gives, GivesAs};
ghost use Rattle.job_states.specs.Length.{IsName, is_name};
ghost use Rattle.job_states.specs.Moment.{IsMoment};
ghost use Rattle.job_states.specs.Ranges.{is_priority};
ghost use Rattle.trace_lines.specs.Ranges.{IsFitList};
ghost use Rattle.trace_lines.specs.Words as spec;

use crate::LineFault;
use job_states::{Kind, LAST, List, Moment, Name, NameFault, NoMemory, Text};
use std::alloc::{AllocError, Global};

/// The last seat.
const LAST_SEAT: u64 = 63;

/// The most jobs that a poll claims.
const MOST_CLAIMS: u64 = 100;

/// The most items of a queue list.
const MOST_QUEUES: usize = 64;

/// The magnitude of the least priority.
const LEAST_PRIORITY: u64 = 1 << 31;

fn after_sign(word: &str, sign: char) -> Option<&str>
    requires { sign < 128 }
    ensures { option_map (λ s. s.now) result ≡ spec.after_sign sign word.now }
{
    word.strip_prefix(sign)
}

// ---- numbers

fn is_numeral(word: &str) -> bool
    ensures { result ≡ spec.is_numeral word.now }
{
    1 <= word.len() && word.len() <= 20 && is_digits(word) && !has_leading_zero(word)
}

fn is_digits(word: &str) -> bool
    ensures { result ≡ list_all is_ascii_digit word.now }
{
    word.bytes().all(|b| b.is_ascii_digit())
}

fn has_leading_zero(word: &str) -> bool
    ensures { result ≡ spec.has_leading_zero word.now }
{
    word.len() > 1 && word.as_bytes()[0] == b'0'
}

/// The number that a word writes in decimal, without a leading zero.
pub(crate) fn number_in(word: &str) -> Result<u64, LineFault>
    ensures { Gives LineFault.NoMemory result (spec.number_of word.now) }
{
    if !is_numeral(word) {
        return Err(LineFault::NotALine);
    }
    match word.parse() {
        Ok(number) => Ok(number),
        Err(_) => Err(LineFault::NotALine),
    }
}

fn number_within(least: u64, most: u64, word: &str) -> Result<u64, LineFault>
    ensures exact { Gives LineFault.NoMemory result (spec.number_within least most word.now) }
    ensures least { IfOk result (λ n. least ≤ n) }
    ensures most { IfOk result (λ n. n ≤ most) }
{
    let number = number_in(word)?;
    if number < least || most < number {
        return Err(LineFault::NotALine);
    }
    Ok(number)
}

/// From 0 to 63.
pub(crate) fn seat_in(word: &str) -> Result<u32, LineFault>
    ensures exact { Gives LineFault.NoMemory result (spec.seat_of word.now) }
    ensures range { IfOk result (λ seat. seat ≤ 63) }
{
    Ok(number_within(0, LAST_SEAT, word)? as u32)
}

/// From 1 to 100.
pub(crate) fn limit_in(word: &str) -> Result<u32, LineFault>
    ensures exact { Gives LineFault.NoMemory result (spec.limit_of word.now) }
    ensures range { IfOk result (λ limit. (1 ≤ limit) × (limit ≤ 100)) }
{
    Ok(number_within(1, MOST_CLAIMS, word)? as u32)
}

/// From -2^31 to 2^31 - 1.
pub(crate) fn priority_in(word: &str) -> Result<i32, LineFault>
    ensures exact { Gives LineFault.NoMemory result (spec.priority_of word.now) }
    ensures range { IfOk result (λ priority. IsTrue (is_priority priority)) }
{
    match after_sign(word, '-') {
        Some(digits) => {
            let magnitude = number_within(1, LEAST_PRIORITY, digits)? as i64;
            Ok(-magnitude as i32)
        }
        None => Ok(number_within(0, LEAST_PRIORITY - 1, word)? as i32),
    }
}

// ---- moments

/// `@` and microseconds since 1970.
pub(crate) fn moment_in(word: &str) -> Result<Moment, LineFault>
    ensures exact { Gives LineFault.NoMemory result (spec.moment_of word.now) }
    ensures range { IfOk result IsMoment }
{
    match after_sign(word, '@') {
        Some(digits) => number_within(0, LAST, digits),
        None => Err(LineFault::NotALine),
    }
}

/// A moment, or a dash for none.
pub(crate) fn due_in(word: &str) -> Result<Option<Moment>, LineFault>
    ensures exact { Gives LineFault.NoMemory result (spec.due_of word.now) }
    ensures range { IfOk result (λ at. IfSome at IsMoment) }
{
    match word {
        "-" => Ok(None),
        _ => Ok(Some(moment_in(word)?)),
    }
}

// ---- names and lists

/// A name of 1 to 128 bytes.
pub(crate) fn name_in(alloc: Global, word: &str) -> Result<Name, LineFault>
    ensures exact { Gives LineFault.NoMemory result (spec.name_of word.now) }
    ensures name { IfOk result IsName }
{
    match Name::read(alloc, word) {
        Ok(name) => Ok(name),
        Err(NameFault::NoMemory) => Err(LineFault::NoMemory),
        Err(NameFault::Empty | NameFault::TooLong { .. }) => Err(LineFault::NotALine),
    }
}

/// The kind of a process.
pub(crate) fn kind_in(word: &str) -> Result<Kind, LineFault>
    ensures { Gives LineFault.NoMemory result (spec.kind_of word.now) }
{
    match word {
        "worker" => Ok(Kind::Worker),
        "dispatcher" => Ok(Kind::Dispatcher),
        "scheduler" => Ok(Kind::Scheduler),
        "supervisor" => Ok(Kind::Supervisor),
        _ => Err(LineFault::NotALine),
    }
}

/// The parts of a text that a character separates.
pub(crate) fn parts_of<'t>(
    alloc: Global,
    text: &'t str,
    separator: char,
) -> Result<Vec<&'t str>, AllocError>
    requires { separator < 128 }
    ensures { IfOk result (λ parts. map (λ s. s.now) parts.items ≡ slice_split (λ b. b == separator) text.now) }
{
    text.split(separator).collect(alloc)
}

fn texts_of(alloc: Global, items: &[&str]) -> Result<List<Text>, NoMemory>
    ensures { IfOk result (λ texts. texts ≡ map (λ s. s.now) items.now) }
{
    let mut texts = Vec::new(alloc);
    for item in items {
        texts.push(Text::read(alloc, item)?)?;
    }
    Ok(List::of(texts))
}

fn are_names(texts: &[Text]) -> bool
    ensures { result ≡ list_all is_name texts.now }
{
    texts
        .iter()
        .all(|text| 1 <= text.len() && text.len() <= Name::MAX_LEN)
}

/// A queue list of 1 to 64 items of 1 to 128 bytes, which commas separate.
pub(crate) fn queues_in(alloc: Global, word: &str) -> Result<List<Text>, LineFault>
    ensures exact { Gives LineFault.NoMemory result (spec.queues_of word.now) }
    ensures fit { IfOk result IsFitList }
{
    let queues = texts_of(alloc, &parts_of(alloc, word, ',')?)?;
    if queues.len() > MOST_QUEUES || !are_names(queues.as_slice()) {
        return Err(LineFault::NotALine);
    }
    Ok(queues)
}

/// A text of at least one byte, or a dash for none.
pub(crate) fn argument_in(word: &str) -> Result<Option<&str>, LineFault>
    ensures { GivesAs LineFault.NoMemory (option_map (λ s. s.now)) result (spec.argument_of word.now) }
{
    match word {
        "-" => Ok(None),
        "" => Err(LineFault::NotALine),
        _ => Ok(Some(word)),
    }
}
