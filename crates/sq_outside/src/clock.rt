ghost use Rattle.std.specs.Prelude.{◌≡◌, ℕ, List, Option, IfSome};
ghost use Rattle.sq_outside.specs.Moments.{IsMoment, Drops, first_moment};

/// The greatest moment: the last microsecond of the year 9998, in microseconds since 1970.
pub const LAST: u64 = 253_370_764_799_999_999;

/// A clock that never fails. Its moments are microseconds since 1970, and may fall.
pub trait Clock {
    /// The moments to come, where this clock exposes them.
    ghost moments: { Self → Option (List ℕ) };

    /// The first of the moments to come, or 0 where there is none. It goes where another one stands after it.
    fn now(&mut self) -> u64
        ensures bounded { IsMoment result }
        ensures first { IfSome (moments self.old) (λ moments. result ≡ first_moment moments) }
        ensures rest { Drops (moments self.old) (moments self.new) };
}
