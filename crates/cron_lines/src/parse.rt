ghost use Rattle.std.specs.Prelude.{◌≡◌, ◌≤◌, length, IfOk};
ghost use Rattle.std.specs.Result.{result_map_both};
ghost use Rattle.cron_lines.specs.Spelling.{LinesAreSpelled};
ghost use Rattle.cron_lines.specs.Text.{begins_phrase, read_line, next_field, schedule_of};
ghost use Rattle.cron_lines.specs.Words.{words_from, words_of};

use crate::fields::{Field, FieldKind};
use crate::phrases::phrase;
use crate::times::{Line, Schedule, ScheduleFault};
use crate::words::next_word;

/// The next word as a field, and where it ends.
fn field(text: &[u8], from: usize, kind: FieldKind) -> Result<(Field, usize), ScheduleFault>
    requires { from ≤ length text.now }
    ensures value { result_map_both (λ read. (read.0, words_from text.now read.1)) (λ fault. fault) result
        ≡ next_field kind (length text.now) (words_from text.now from) }
    ensures within { IfOk result (λ read. read.1 ≤ length text.now) }
{
    let Some((start, end)) = next_word(text, from) else {
        return Err(ScheduleFault::Refused { at: text.len() });
    };
    match Field::parse(kind, &text[start..end]) {
        Some(field) => Ok((field, end)),
        None => Err(ScheduleFault::Refused { at: start }),
    }
}

/// Five fields, and blanks round them.
#[tactic(auto, unfolding(crate::specs::Text::read_line))]
fn line(text: &[u8]) -> Result<Schedule, ScheduleFault>
    ensures { result ≡ read_line (length text.now) (words_of text.now) }
{
    let (minute, end) = field(text, 0, FieldKind::Minute)?;
    let (hour, end) = field(text, end, FieldKind::Hour)?;
    let (day, end) = field(text, end, FieldKind::Day)?;
    let (month, end) = field(text, end, FieldKind::Month)?;
    let (weekday, end) = field(text, end, FieldKind::Weekday)?;
    if let Some((sixth, _)) = next_word(text, end) {
        return Err(ScheduleFault::Refused { at: sixth });
    }
    Ok(Schedule::Minutes(Line {
        minute,
        hour,
        day,
        month,
        weekday,
    }))
}

/// Is the first word one that phrases begin with?
fn begins_phrase(text: &[u8]) -> bool
    ensures { result ≡ begins_phrase (words_of text.now) }
{
    match next_word(text, 0) {
        Some((start, end)) => {
            let word = &text[start..end];
            word == b"every".as_slice() || word == b"at".as_slice()
        }
        None => false,
    }
}

pub(crate) fn schedule(text: &[u8]) -> Result<Schedule, ScheduleFault>
    ensures { result ≡ schedule_of text.now }
{
    if begins_phrase(text) {
        return phrase(text).ok_or(ScheduleFault::Refused { at: 0 });
    }
    line(text)
}

/// A text that doesn't begin as a phrase is accepted just where it is five words that spell the fields, and is
/// refused at the first byte of the first word that doesn't or of a sixth one, or at its end where fields are missing.
pub fn lines_are_spelled()
    ensures { LinesAreSpelled }
{}
