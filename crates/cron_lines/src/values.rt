use crate::fields::Item;
use std::marker::Model;

/// Every value is less than this.
const VALUES: u8 = 60;

/// A set of values, with a bit for each: bit 0 for the value 0. A contract sees the values in rising order.
#[derive(Drop)]
pub struct Values {
    bits: u64,
}

impl Model for Values {
    ghost use Rattle.std.specs.Prelude.{List, ℕ, ◌==◌};
    ghost use Rattle.std.specs.Int.{bit_at};
    ghost use Rattle.cron_lines.specs.Values.{values_where};

    ghost Value = { List ℕ };

    ghost view = { λ v. values_where (λ value. bit_at v.bits value == 1) };
}

impl Values {
    ghost use Rattle.std.specs.Prelude.{◌≡◌, ◌<◌, ◌≤◌, ◌||◌, []};
    ghost use Rattle.cron_lines.specs.Values.{values_where, has};
    ghost use Rattle.cron_lines.specs.Field.{holds};

    /// No value.
    pub(crate) fn none() -> Self
        ensures { result ≡ [] }
    {
        Values { bits: 0 }
    }

    /// Is the value one of these?
    pub(crate) fn has(&self, value: u8) -> bool
        requires { value < 60 }
        ensures { result ≡ has self.now value }
    {
        self.bits >> value & 1 == 1
    }

    /// These values and those of an item.
    pub(crate) fn with(self, item: Item) -> Self
        requires { 1 ≤ item.step }
        ensures { result ≡ values_where (λ value. has self value || holds item value) }
    {
        let mut bits = self.bits;
        for value in 0..VALUES {
            if item.holds(value) {
                bits |= 1 << value;
            }
        }
        Values { bits }
    }
}
