ghost use Rattle.std.specs.Prelude.{◌≡◌, ◌↔◌, ◌+◌, ◌≤◌, ◌<◌, IsTrue, IsNone, IsSome, IfSome};
ghost use Rattle.job_states.specs.Moment.{later_moment};
ghost use Rattle.semaphores.specs.Semaphore.{IsSoundSemaphore, given_back, semaphore, taken};
ghost use Rattle.semaphores.specs.Semaphore as spec;

use job_states::{Moment, later};
use std::marker::Model;

/// The semaphore of a concurrency key. Jobs that are ready or claimed hold its permits.
#[derive(Clone, Copy, Debug, PartialEq, Eq)]
pub struct Sem {
    /// A permit of another generation belongs to an earlier semaphore of the key.
    pub generation: u64,
    /// How many permits there are, at least 1.
    pub limit: u32,
    /// How many of them are free.
    pub free: u32,
    /// The moment from which on the semaphore may be removed.
    pub expires: Moment,
}

impl Model for Sem {
    ghost use Rattle.semaphores.specs.Semaphore.{Semaphore, IsSoundSemaphore, semaphore};

    ghost Value = { Semaphore };

    ghost view = { λ s. semaphore s.generation s.limit s.free s.expires };

    ghost invariant = { λ s. IsSoundSemaphore (semaphore s.generation s.limit s.free s.expires) };

    ghost inverse = { λ s. record { generation = s.generation; limit = s.limit; free = s.free; expires = s.expires } };
}

impl Sem {
    /// The semaphore of these four numbers. `None` where it would have no permit, or more free ones than there are.
    pub fn of(generation: u64, limit: u32, free: u32, expires: Moment) -> Option<Sem>
        ensures sound { IsSome result ↔ IsSoundSemaphore (semaphore generation limit free expires) }
        ensures same { IfSome result (λ sem. sem ≡ semaphore generation limit free expires) }
    {
        if limit == 0 || limit < free {
            return None;
        }
        Some(Sem {
            generation,
            limit,
            free,
            expires,
        })
    }
}

/// Does a semaphore stand of which no permit is free?
pub fn is_closed(sem: &Option<Sem>) -> bool
    ensures { result ≡ spec.is_closed sem.now }
{
    sem.is_some_and(|sem| sem.free == 0)
}

/// Takes a permit of a key, and renews the expiry of its semaphore: the moment `duration` microseconds after `now`.
/// A key without a semaphore gets one of the generation `fresh` with `limit` permits. `None` where the key is closed.
pub fn take(sem: Option<Sem>, fresh: u64, limit: u32, duration: u64, now: Moment) -> Option<Sem>
    requires { 1 ≤ limit }
    ensures taken { result ≡ taken sem fresh limit (later_moment now duration) }
    ensures closed { IsNone result ↔ IsTrue (spec.is_closed sem) }
    ensures sound { IfSome result IsSoundSemaphore }
{
    let expires = later(now, duration);
    match sem {
        None => Some(Sem {
            generation: fresh,
            limit,
            free: limit - 1,
            expires,
        }),
        Some(sem) if sem.free == 0 => None,
        Some(sem) => Some(Sem {
            free: sem.free - 1,
            expires,
            ..sem
        }),
    }
}

/// Does a permit of `generation` belong to the semaphore that the key has?
pub fn gives(sem: &Option<Sem>, generation: u64) -> bool
    ensures { result ≡ spec.is_of_generation sem.now generation }
{
    sem.is_some_and(|sem| sem.generation == generation)
}

/// Gives a permit back to its semaphore, and renews the expiry.
pub fn give(sem: Sem, duration: u64, now: Moment) -> Sem
    requires { sem.free < sem.limit }
    ensures given { result ≡ record sem { free = sem.free + 1; expires = later_moment now duration } }
    ensures sound { IsSoundSemaphore result }
{
    Sem {
        free: sem.free + 1,
        expires: later(now, duration),
        ..sem
    }
}

/// Gives back the permit of a job to what stands for its key; `permit` is its generation, or `None` where the job held
/// none. A permit of the standing generation renews the expiry and frees one permit more, unless all were free already.
/// Any other changes nothing.
pub fn give_back(sem: Option<Sem>, permit: Option<u64>, duration: u64, now: Moment) -> Option<Sem>
    ensures given { result ≡ given_back sem permit (later_moment now duration) }
    ensures sound { IfSome result IsSoundSemaphore }
{
    match sem {
        Some(sem) if permit == Some(sem.generation) => Some(Sem {
            free: sem.free.saturating_add(1).min(sem.limit),
            expires: later(now, duration),
            ..sem
        }),
        other => other,
    }
}

/// May the semaphore be removed?
pub fn expired(sem: &Sem, now: Moment) -> bool
    ensures { result ≡ spec.is_expired sem.now now }
{
    sem.expires <= now
}
