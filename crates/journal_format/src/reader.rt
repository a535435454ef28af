//! Reading from left to right, up to the first byte that nothing continues: numbers, flags, kinds and places.

ghost use Rattle.std.specs.Prelude.{◌≡◌, ℕ, ◌≤◌, ◌<◌, ◌^◌, ◌++◌, List, [], ◌∷◌, length, MatchOption, IfSome, IfOk};
ghost use Rattle.journal_format.specs.Reading.{number};
ghost use Rattle.journal_format.specs.Spelling.{big_endian};
ghost use Rattle.journal_format.specs.Grammar.{id_at, moment_at, flag_at, option_at, place_at, kind_at};
ghost use Rattle.journal_format.specs.Reads.{Does};

use job_states::{JobId, Kind, LAST, Moment, NoMemory, Put};
use std::alloc::{AllocFailed, Global};

/// Why a reader stopped.
#[derive(Clone, Copy)]
pub enum Stop {
    /// Nothing continues the bytes so far with the next one, or no byte is left.
    Refused,
    NoMemory,
}

impl From<NoMemory> for Stop {
    ghost use Rattle.journal_format.specs.declared.reader.Stop.TheVariants as stop;

    ghost from_gives = { λ _ e. e ≡ stop.NoMemory };

    fn from(_: NoMemory) -> Self {
        Stop::NoMemory
    }
}

impl<T: Drop> From<AllocFailed<T>> for Stop {
    ghost use Rattle.journal_format.specs.declared.reader.Stop.TheVariants as stop;

    ghost from_gives = { λ _ e. e ≡ stop.NoMemory };

    fn from(_: AllocFailed<T>) -> Self {
        Stop::NoMemory
    }
}

/// What is left to read. After a refusal it begins with the first byte that nothing continues.
#[derive(Drop)]
pub struct Reader<'a> {
    pub alloc: Global,
    pub rest: &'a [u8],
}

/// The first byte and the bytes after it.
pub fn first(bytes: &[u8]) -> Option<(u8, &[u8])>
    ensures cases { MatchOption result (bytes.now ≡ []) (λ p. bytes.now ≡ p.0 ∷ p.1.now) }
    ensures byte { IfSome result (λ p. p.0 < 256) }
{
    match bytes {
        [] => None,
        [byte, rest @ ..] => Some((*byte, rest)),
    }
}

/// The number in the first `width` bytes, and the bytes after it.
fn first_number(bytes: &[u8], width: usize) -> Option<(u64, &[u8])>
    requires { width ≤ 8 }
    ensures { IfSome result (λ p. bytes.now ≡ big_endian width p.0 ++ p.1.now) }
{
    let (head, rest) = bytes.split_at_checked(width)?;
    let mut padded = [0; 8];
    padded[8 - width..].copy_from_slice(head);
    Some((u64::from_be_bytes(padded), rest))
}

impl<'a> Reader<'a> {
    /// A number of `width` bytes from `least` to `most`.
    pub fn number(&mut self, width: usize, least: u64, most: u64) -> Result<u64, Stop>
        requires width { width ≤ 8 }
        requires order { least ≤ most }
        requires most { most < 256 ^ width }
        ensures reads { Does (λ n. n) result self.new.rest.now (number width least most self.old.rest.now) }
        ensures range { IfOk result (λ n. (least ≤ n) × (n ≤ most)) }
    {
        if let Some((n, rest)) = first_number(self.rest, width) {
            if least <= n && n <= most {
                self.rest = rest;
                return Ok(n);
            }
        }
        self.number_by_bytes(width, least, most)
    }

    /// The same, byte by byte, to find the byte that is refused.
    fn number_by_bytes(&mut self, width: usize, least: u64, most: u64) -> Result<u64, Stop>
        requires width { width ≤ 8 }
        requires order { least ≤ most }
        requires most { most < 256 ^ width }
        ensures reads { Does (λ n. n) result self.new.rest.now (number width least most self.old.rest.now) }
        ensures range { IfOk result (λ n. (least ≤ n) × (n ≤ most)) }
    {
        let mut n: u64 = 0;
        for done in 0..width {
            let part = 256u64.pow((width - 1 - done) as u32);
            let Some((byte, rest)) = first(self.rest) else {
                return Err(Stop::Refused);
            };
            let next = n * 256 + byte as u64;
            if next < least / part || most / part < next {
                return Err(Stop::Refused);
            }
            n = next;
            self.rest = rest;
        }
        Ok(n)
    }

    /// The number of a job, a process or a generation.
    #[tactic(auto, unfolding(crate::specs::Grammar::id_at))]
    pub fn id(&mut self) -> Result<JobId, Stop>
        ensures { Does (λ n. n) result self.new.rest.now (id_at self.old.rest.now) }
    {
        self.number(8, 1, 1 << 63)
    }

    #[tactic(auto, unfolding(crate::specs::Grammar::moment_at))]
    pub fn moment(&mut self) -> Result<Moment, Stop>
        ensures { Does (λ n. n) result self.new.rest.now (moment_at self.old.rest.now) }
    {
        self.number(8, 0, LAST)
    }

    #[tactic(auto, unfolding(crate::specs::Grammar::flag_at))]
    pub fn flag(&mut self) -> Result<bool, Stop>
        ensures { Does (λ b. b) result self.new.rest.now (flag_at self.old.rest.now) }
    {
        let (flag, rest) = match first(self.rest) {
            Some((0, rest)) => (false, rest),
            Some((1, rest)) => (true, rest),
            _ => return Err(Stop::Refused),
        };
        self.rest = rest;
        Ok(flag)
    }

    #[tactic(auto, unfolding(crate::specs::Grammar::kind_at))]
    pub fn kind(&mut self) -> Result<Kind, Stop>
        ensures { Does (λ k. k) result self.new.rest.now (kind_at self.old.rest.now) }
    {
        let (kind, rest) = match first(self.rest) {
            Some((1, rest)) => (Kind::Worker, rest),
            Some((2, rest)) => (Kind::Dispatcher, rest),
            Some((3, rest)) => (Kind::Scheduler, rest),
            Some((4, rest)) => (Kind::Supervisor, rest),
            _ => return Err(Stop::Refused),
        };
        self.rest = rest;
        Ok(kind)
    }

    #[tactic(auto, unfolding(crate::specs::Grammar::option_at))]
    pub fn option_id(&mut self) -> Result<Option<u64>, Stop>
        ensures { Does (λ n. n) result self.new.rest.now (option_at id_at self.old.rest.now) }
    {
        if self.flag()? {
            Ok(Some(self.id()?))
        } else {
            Ok(None)
        }
    }

    /// A place: may it be a scheduled one, and may the job go away?
    #[tactic(auto, unfolding(crate::specs::Grammar::place_at))]
    pub fn place(&mut self, scheduled: bool, away: bool) -> Result<Put, Stop>
        ensures { Does (λ p. p) result self.new.rest.now (place_at scheduled away self.old.rest.now) }
    {
        let Some((tag, rest)) = first(self.rest) else {
            return Err(Stop::Refused);
        };
        match tag {
            1 => {
                self.rest = rest;
                Ok(Put::Ready(self.option_id()?))
            }
            2 if scheduled => {
                self.rest = rest;
                Ok(Put::Scheduled(self.moment()?))
            }
            3 => {
                self.rest = rest;
                Ok(Put::Blocked(self.moment()?))
            }
            4 if away => {
                self.rest = rest;
                Ok(Put::Away)
            }
            _ => Err(Stop::Refused),
        }
    }
}
