//! A clock in memory.

use crate::Clock;
use std::marker::Model;

/// A clock that gives the moments that it was made with.
#[derive(Drop)]
pub struct MemClock {
    moments: Vec<u64>,
    at: usize,
}

impl Model for MemClock {
    ghost use Rattle.std.specs.Prelude.{◌≤◌, ℕ, List, length, drop};
    ghost use Rattle.sq_outside.specs.Moments.{AreMoments};

    ghost Value = { List ℕ };

    ghost view = { λ c. drop c.at c.moments.items };

    ghost invariant = { λ c. (c.at ≤ length c.moments.items) × AreMoments c.moments.items };
}

impl MemClock {
    ghost use Rattle.std.specs.Prelude.{◌≡◌};
    ghost use Rattle.sq_outside.specs.Moments.{AreMoments};

    /// A clock that gives these moments in turn, then the last one again, and 0 where there is none.
    pub fn new(moments: Vec<u64>) -> Self
        requires { AreMoments moments.items }
        ensures { result ≡ moments.items }
    {
        MemClock { moments, at: 0 }
    }
}

impl Clock for MemClock {
    ghost use Rattle.std.specs.Prelude.{◌≡◌, Some};
    ghost use Rattle.sq_outside.specs.Moments.{IsMoment, first_moment, later_moments};

    ghost moments = { λ c. Some c };

    fn now(&mut self) -> u64
        ensures bounded { IsMoment result }
        ensures first { result ≡ first_moment self.old }
        ensures rest { self.new ≡ later_moments self.old }
    {
        match &self.moments[self.at..] {
            [] => 0,
            [last] => *last,
            [first, _, ..] => {
                self.at += 1;
                *first
            }
        }
    }
}

#[cfg(test)]
mod tests {
    use super::*;
    use std::test::Fail;

    #[test]
    fn the_last_moment_comes_again(rt: HostRuntime) -> Result<(), Fail> {
        let mut clock = MemClock::new(vec![in rt.alloc(); 5, 4]?);
        assert_eq!(rt; [clock.now(), clock.now(), clock.now()], [5, 4, 4]);
        assert_eq!(rt; MemClock::new(Vec::new(rt.alloc())).now(), 0);
        Ok(())
    }
}
