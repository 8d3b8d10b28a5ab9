//! A clock that stands still.
use site_model::Clock;

/// A clock that always tells the same time, in nanoseconds since 1970.
#[derive(Clone, Copy, Debug)]
pub struct FixedClock {
    pub now: u64,
}

impl Clock for FixedClock {
    ghost use Rattle.std.specs.Prelude.{◌≡◌};

    ghost now_gives = { λ old t new. (t ≡ old.now) × (new ≡ old) };

    fn now(&mut self) -> u64
        ensures time { result ≡ self.old.now }
        ensures same { self.new ≡ self.old }
    {
        self.now
    }
}
