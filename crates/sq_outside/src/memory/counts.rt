ghost use Rattle.std.specs.Prelude.{◌≡◌};
ghost use Rattle.sq_outside.specs.Fault.{raised};

/// How many calls were made, and how many of them failed, each up to the greatest `u64`.
#[derive(Drop)]
pub(crate) struct Counts {
    pub(crate) made: u64,
    pub(crate) failed: u64,
}

impl Counts {
    pub(crate) fn new() -> Self
        ensures made { result.made ≡ 0 }
        ensures failed { result.failed ≡ 0 }
    {
        Counts { made: 0, failed: 0 }
    }

    /// Counts the call that begins, and answers its number.
    pub(crate) fn begin(&mut self) -> u64
        ensures number { result ≡ raised self.old.made }
        ensures made { self.new.made ≡ result }
        ensures failed { self.new.failed ≡ self.old.failed }
    {
        self.made = self.made.saturating_add(1);
        self.made
    }

    pub(crate) fn count_failure(&mut self)
        ensures made { self.new.made ≡ self.old.made }
        ensures failed { self.new.failed ≡ raised self.old.failed }
    {
        self.failed = self.failed.saturating_add(1);
    }
}
