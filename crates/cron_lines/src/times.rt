ghost use Rattle.std.specs.Prelude.{◌≡◌, ℕ, ◌≤◌, ◌+◌, ◌↔◌, IfSome, IfNone, IsTrue};
ghost use Rattle.job_states.specs.Moment.{IsMoment};
ghost use Rattle.cron_lines.specs.RunTime.{MomentsEndWithADay};

use crate::fields::Field;
use crate::parse;
use jiff_core::civil::Date;
use job_states::Moment;
use thiserror::Error;

/// In microseconds, as all moments.
const SECOND: u64 = 1_000_000;

const MINUTE: u64 = 60 * SECOND;

const DAY: u64 = 1440 * MINUTE;

/// How far back a run time is looked for, in days: eight years.
const WINDOW_DAYS: u64 = 2922;

/// Why a text is no schedule.
#[derive(Clone, Copy, Debug, PartialEq, Eq, Error)]
pub enum ScheduleFault {
    /// The first byte of the first field or phrase that is not allowed.
    #[error("no schedule: byte {at}")]
    Refused { at: usize },
}

/// A cron line in UTC.
#[derive(Drop)]
pub struct Line {
    pub minute: Field,
    pub hour: Field,
    pub day: Field,
    pub month: Field,
    /// Sunday is 0 or 7.
    pub weekday: Field,
}

/// When a task is due.
#[derive(Drop)]
pub enum Schedule {
    /// At each whole second.
    EverySecond,
    /// At the whole minutes that fit.
    Minutes(Line),
}

impl Line {
    ghost use Rattle.cron_lines.specs.RunTime.{fits_date, fits_minute, window, FitsDay, FitsLine, IsLastRunTime, LastOf};

    fn fits_date(&self, date: Date) -> bool
        ensures { result ≡ fits_date self.now date }
    {
        let weekday = date.weekday().index();
        let on_weekday = self.weekday.values.has(weekday + 1)
            || weekday == 6 && self.weekday.values.has(0);
        let on_day = self.day.values.has(date.day);
        let fits = if self.day.restricted && self.weekday.restricted {
            on_day || on_weekday
        } else {
            on_day && on_weekday
        };
        self.month.values.has(date.month) && fits
    }

    /// Does the day that many days after 1970-01-01 fit?
    fn fits_day(&self, day: u64) -> bool
        requires { day ≤ 2_932_896 }
        ensures { IsTrue result ↔ FitsDay self.now day }
    {
        match Date::from_unix_epoch_day(day as i64) {
            Ok(date) => self.fits_date(date),
            Err(_) => false,
        }
    }

    /// The last minute of the day that fits, of those before `end`.
    fn last_minute(&self, end: u64) -> Option<u64>
        requires { end ≤ 1440 }
        ensures { LastOf (λ m. IsTrue (fits_minute self.now m)) 0 end result }
    {
        for minute in (0..end).rev() {
            if self.hour.values.has((minute / 60) as u8)
                && self.minute.values.has((minute % 60) as u8)
            {
                return Some(minute);
            }
        }
        None
    }

    /// The last day that fits, of those from `first` on and before `end`.
    fn last_day(&self, first: u64, end: u64) -> Option<u64>
        requires { end ≤ 2_932_896 }
        ensures { LastOf (FitsDay self.now) first end result }
    {
        for day in (first..end).rev() {
            if self.fits_day(day) {
                return Some(day);
            }
        }
        None
    }

    /// The last minute that fits, of those of the day before `end`.
    fn last_minute_on(&self, day: u64, end: u64) -> Option<u64>
        requires day { day ≤ 2_932_896 }
        requires end { end ≤ 1440 }
        ensures { LastOf (λ m. FitsDay self.now day × IsTrue (fits_minute self.now m)) 0 end result }
    {
        if !self.fits_day(day) {
            return None;
        }
        self.last_minute(end)
    }

    /// As `Schedule::last_at_or_before`: the last day that fits, and the last minute that fits in it.
    fn last_at_or_before(&self, now: Moment) -> Option<Moment>
        requires { IsMoment now }
        ensures found { IfSome result (IsLastRunTime (Schedule.Minutes self.now) now) }
        ensures none { IfNone result
            ((t : ℕ) → FitsLine self.now t → t ≤ now → t + window ≤ now) }
    {
        let today = now / DAY;
        if let Some(minute) = self.last_minute_on(today, now % DAY / MINUTE + 1) {
            return Some(today * DAY + minute * MINUTE);
        }
        let minute = self.last_minute(1440)?;
        let day = self.last_day(today.saturating_sub(WINDOW_DAYS), today)?;
        let at = day * DAY + minute * MINUTE;
        if at + WINDOW_DAYS * DAY <= now {
            return None;
        }
        Some(at)
    }
}

impl Schedule {
    ghost use Rattle.cron_lines.specs.Text.{schedule_of};
    ghost use Rattle.cron_lines.specs.RunTime.{window, IsRunTime, IsLastRunTime};

    /// Reads five fields separated by spaces and tabs, as in crontab(5), or a phrase.
    pub fn parse(text: &str) -> Result<Schedule, ScheduleFault>
        ensures { result ≡ schedule_of text.now }
    {
        parse::schedule(text.as_bytes())
    }

    /// The greatest run time that is at most `now` and less than 2922 days before it, if there is one.
    /// Times are microseconds since 1970.
    pub fn last_at_or_before(&self, now: Moment) -> Option<Moment>
        requires { IsMoment now }
        ensures found { IfSome result (IsLastRunTime self.now now) }
        ensures none { IfNone result
            ((t : ℕ) → IsRunTime self.now t → t ≤ now → t + window ≤ now) }
    {
        match self {
            Schedule::EverySecond => Some(now - now % SECOND),
            Schedule::Minutes(line) => line.last_at_or_before(now),
        }
    }
}

/// The year 9999 begins right after the last moment.
pub fn moments_end_with_a_day()
    ensures { MomentsEndWithADay }
{}
