//! The system's clock.
ghost use Rattle.std.specs.Prelude.{◌≡◌, min};
ghost use Rattle.sq_outside.specs.Moments.{IsMoment, last_moment};

use crate::{Clock, LAST};
use std::rt;
use std::time::{SystemTime, UNIX_EPOCH};

/// The clock of the system. Before 1970, after the year 9998 and where it can't be read it stands at the nearest
/// moment, or at the one before.
#[derive(Drop)]
pub struct HostClock<R: rt::Clock> {
    runtime: R,
    last: u64,
    ghost bounded: { IsMoment last },
}

impl<R: rt::Clock> HostClock<R> {
    /// The clock of this runtime.
    pub fn new(runtime: R) -> Self
        ensures { result.last ≡ 0 }
    {
        HostClock { runtime, last: 0 }
    }
}

impl<R: rt::Clock> Clock for HostClock<R> {
    ghost use Rattle.std.specs.Prelude.{None};

    ghost moments = { λ _. None };

    fn now(&mut self) -> u64 {
        if let Ok(time) = SystemTime::now(&self.runtime) {
            self.last = match time.duration_since(UNIX_EPOCH) {
                Ok(since) => moment_at(since.as_micros()),
                Err(_) => 0,
            };
        }
        self.last
    }
}

// The moment after so many microseconds, or the last one.
fn moment_at(micros: u128) -> u64
    ensures { result ≡ min micros last_moment }
{
    u64::try_from(micros).unwrap_or(LAST).min(LAST)
}

#[cfg(test)]
mod tests {
    use super::*;
    use std::test::Fail;

    #[test]
    fn the_host_clock_reports_microseconds_since_1970(rt: HostRuntime) -> Result<(), Fail> {
        // 2020-01-01 and 2200-01-01
        let now = HostClock::new(rt.clone()?).now();
        assert!(rt; now > 1_577_836_800_000_000);
        assert!(rt; now < 7_258_118_400_000_000);
        Ok(())
    }
}
