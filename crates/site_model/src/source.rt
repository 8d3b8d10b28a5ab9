//! Where a script's bytes come from, and the time.
ghost use Rattle.std.specs.Prelude.{◌≡◌, ◌<◌, ◌≤◌, ◌+◌, ◌-◌, ◌^◌, ℕ, min, List, length, Option, IfOk, IsErr, MatchResult};
ghost use Rattle.site_model.specs.Reading.{Reads, FaultsRise};

use crate::Failed;

/// A stream of bytes that can fail.
pub trait Source {
    /// The bytes that are left, where the source tells them.
    ghost left: { Self → Option (List ℕ) };

    /// How often a read failed, to at most 2^64 - 1.
    ghost faults: { Self → ℕ };

    /// How many bytes were taken, to at most 2^64 - 1.
    ghost taken: { Self → ℕ };

    /// Moves the first bytes that are left into the front of `out` and answers how many: 0 is the end of the
    /// input. A read that fails takes no byte.
    fn read(&mut self, out: &mut [u8]) -> Result<usize, Failed>
        requires { 0 < length out.old }
        ensures bound { IfOk result (λ n. n ≤ length out.old) }
        ensures bytes { MatchResult result (λ n. Reads n out.new (left self.old) (left self.new))
            (λ _. left self.new ≡ left self.old) }
        ensures taken { MatchResult result (λ n. taken self.new ≡ min (taken self.old + n) (2 ^ 64 - 1))
            (λ _. taken self.new ≡ taken self.old) }
        ensures cause { FaultsRise (faults self.old) (faults self.new) (IsErr result) };
}

/// Tells the time of appends, in nanoseconds since 1970.
pub trait Clock {
    /// What a call may tell of a clock, and which clock it is then.
    ghost now_gives: { Self → ℕ → Self → Type 0 };

    fn now(&mut self) -> u64
        ensures { now_gives self.old result self.new };
}
