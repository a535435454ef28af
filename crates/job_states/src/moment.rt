ghost use Rattle.std.specs.Prelude.{◌≡◌};
ghost use Rattle.job_states.specs.Moment.{later_moment};

/// Microseconds since 1970, at most [`LAST`].
pub type Moment = u64;

/// The last moment: the last microsecond of the year 9998.
pub const LAST: Moment = 253_370_764_799_999_999;

/// The moment that comes `micros` microseconds after `moment`, or [`LAST`] where it would be past that.
pub fn later(moment: Moment, micros: u64) -> Moment
    ensures { result ≡ later_moment moment micros }
{
    moment.saturating_add(micros).min(LAST)
}
