//! How often devices failed, and how much was asked of them.
ghost use Rattle.std.specs.Prelude.{◌≤◌, ◌-◌, ◌^◌};
ghost use Rattle.site_model.specs.Counts.{AllFit};

use crate::PLACES;

/// The counts of a site, each of which ends at its type's last value: what an implementation of `Site` keeps, and
/// shows as its `counts`.
#[derive(Drop)]
pub struct Tally {
    pub faults: [u64; PLACES],
    pub write_faults: [u64; PLACES],
    pub say_faults: u64,
    pub calls: u64,
    pub widest: u64,
    ghost faults_fit: { AllFit faults },
    ghost write_faults_fit: { AllFit write_faults },
    ghost say_faults_fit: { say_faults ≤ 2 ^ 64 - 1 },
    ghost calls_fit: { calls ≤ 2 ^ 64 - 1 },
}

impl Tally {
    ghost use Rattle.std.specs.Prelude.{◌≡◌, ◌<◌, false, IsTrue};
    ghost use Rattle.site_model.specs.Counts.{CountsRead, CountsWrite, CountsSay, max_servers};
    ghost use Rattle.site_model.specs.Tallies.{AreNone, counts_of, next_call};

    /// Nothing was counted yet.
    pub fn new() -> Self
        ensures { AreNone (counts_of result) }
    {
        Tally {
            faults: [0; PLACES],
            write_faults: [0; PLACES],
            say_faults: 0,
            calls: 0,
            widest: 0,
        }
    }

    /// The number of the next call.
    pub fn next(&self) -> u64
        ensures number { result ≡ next_call self.now }
        ensures later { self.now.calls ≤ result }
    {
        self.calls.saturating_add(1)
    }

    /// One call more that doesn't write.
    pub fn count_read(&mut self, server: u32, width: usize, failed: bool)
        requires { server < max_servers }
        ensures counts { CountsRead server width (counts_of self.old) (counts_of self.new) (IsTrue failed) }
        ensures calls { self.new.calls ≡ next_call self.old }
        ensures stays { failed ≡ false → self.new.faults ≡ self.old.faults }
    {
        self.calls = self.calls.saturating_add(1);
        self.widest = self.widest.max(width as u64);
        if failed {
            let at = server as usize;
            self.faults[at] = self.faults[at].saturating_add(1);
        }
    }

    /// One call more that writes.
    pub fn count_write(&mut self, server: u32, width: usize, failed: bool)
        requires { server < max_servers }
        ensures counts { CountsWrite server width (counts_of self.old) (counts_of self.new) (IsTrue failed) }
        ensures calls { self.new.calls ≡ next_call self.old }
        ensures stays { failed ≡ false → self.new.faults ≡ self.old.faults }
    {
        self.calls = self.calls.saturating_add(1);
        self.widest = self.widest.max(width as u64);
        if failed {
            let at = server as usize;
            self.faults[at] = self.faults[at].saturating_add(1);
            self.write_faults[at] = self.write_faults[at].saturating_add(1);
        }
    }

    /// Something was said.
    pub fn count_say(&mut self, failed: bool)
        ensures counts { CountsSay (counts_of self.old) (counts_of self.new) (IsTrue failed) }
        ensures calls { self.new.calls ≡ next_call self.old }
        ensures stays { self.new.faults ≡ self.old.faults }
    {
        self.calls = self.calls.saturating_add(1);
        if failed {
            self.say_faults = self.say_faults.saturating_add(1);
        }
    }
}
