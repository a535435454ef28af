ghost use Rattle.std.specs.Prelude.{◌≡◌, ◌≤◌};
ghost use Rattle.cron_lines.specs.Phrase.{any, only, daily, hourly_of, daily_of, phrase_of};
ghost use Rattle.cron_lines.specs.Spelling.{PhrasesAreSpelled};

use crate::fields::{Field, FieldKind, Item, number};
use crate::times::{Line, Schedule};

/// The field that `*` spells.
fn any(kind: FieldKind) -> Field
    ensures { result ≡ any kind }
{
    Field::of(kind.all(), false)
}

/// The field that a number spells.
fn only(value: u8) -> Field
    ensures { result ≡ only value }
{
    let item = Item {
        first: value,
        last: value,
        step: 1,
    };
    Field::of(item, true)
}

fn daily(minute: Field, hour: Field) -> Schedule
    ensures { result ≡ daily minute hour }
{
    Schedule::Minutes(Line {
        minute,
        hour,
        day: any(FieldKind::Day),
        month: any(FieldKind::Month),
        weekday: any(FieldKind::Weekday),
    })
}

/// `every hour at minute M`.
#[tactic(auto, unfolding(crate::specs::Phrase::hourly_of))]
fn hourly(text: &[u8]) -> Option<Schedule>
    ensures { result ≡ hourly_of text.now }
{
    let minute = number(text.strip_prefix(b"every hour at minute ")?)?;
    (minute <= 59).then_some(daily(only(minute), any(FieldKind::Hour)))
}

/// `at Ham every day` and `at Hpm every day`, where `half` is what follows H.
#[tactic(auto, unfolding(crate::specs::Phrase::daily_of))]
fn half_day(text: &[u8], half: &[u8], noon: u8) -> Option<Schedule>
    requires { noon ≤ 12 }
    ensures { result ≡ daily_of half.now noon text.now }
{
    let hour = number(text.strip_prefix(b"at ")?.strip_suffix(half)?)?;
    (1 <= hour && hour <= 12).then_some(daily(only(0), only(hour % 12 + noon)))
}

/// The schedule of a phrase.
#[tactic(auto, unfolding(crate::specs::Phrase::phrase_of))]
pub(crate) fn phrase(text: &[u8]) -> Option<Schedule>
    ensures { result ≡ phrase_of text.now }
{
    if text == b"every second".as_slice() {
        return Some(Schedule::EverySecond);
    }
    if text == b"every minute".as_slice() {
        return Some(daily(any(FieldKind::Minute), any(FieldKind::Hour)));
    }
    if text == b"every hour".as_slice() {
        return Some(daily(only(0), any(FieldKind::Hour)));
    }
    if text == b"every day".as_slice() {
        return Some(daily(only(0), only(0)));
    }
    if let Some(schedule) = hourly(text) {
        return Some(schedule);
    }
    if let Some(schedule) = half_day(text, b"am every day", 0) {
        return Some(schedule);
    }
    half_day(text, b"pm every day", 12)
}

/// The phrases are read just as they are spelled.
pub fn phrases_are_spelled()
    ensures { PhrasesAreSpelled }
{}
