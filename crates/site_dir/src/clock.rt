//! The machine's clock.
use site_model::Clock;
use std::time;

/// The time that the machine tells, in nanoseconds since 1970, to at most 2^64 - 1. It is 0 where the machine's
/// clock can't be read.
#[derive(Drop)]
pub struct SystemClock<R: time::Clock + Drop> {
    rt: R,
}

impl<R: time::Clock + Drop> SystemClock<R> {
    pub fn new(rt: R) -> Self {
        SystemClock { rt }
    }
}

impl<R: time::Clock + Drop> Clock for SystemClock<R> {
    ghost use Rattle.std.specs.Prelude.{◌<◌, ◌^◌};

    ghost now_gives = { λ _ t _. t < 2 ^ 64 };

    fn now(&mut self) -> u64 {
        match self.rt.since_1970() {
            Ok(passed) => u64::try_from(passed.as_nanos()).unwrap_or(u64::MAX),
            Err(_) => 0,
        }
    }
}
