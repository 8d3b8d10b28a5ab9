//! Which servers lost their files, and when.
ghost use Rattle.std.specs.Prelude.{◌≡◌, ◌≢◌, ◌<◌, ℕ, nat_lt, if◌then◌else◌, slice_index};
ghost use Rattle.site_mem.specs.Lost.{has_lost, had_lost, has_lost_after};
ghost use Rattle.site_model.specs.Counts.{max_servers};

use site_model::PLACES;

/// By server the number of the first call that found its files lost, and 0 where they weren't.
#[derive(Clone, Copy)]
pub struct Losses {
    pub since: [u64; PLACES],
}

impl Losses {
    pub fn none() -> Self
        ensures { (server : ℕ) → slice_index result.since server ≡ 0 }
    {
        Losses { since: [0; PLACES] }
    }

    /// The server's files are lost, before the call with this number.
    pub fn add(&mut self, server: u32, number: u64)
        requires server { server < max_servers }
        requires number { 0 < number }
        ensures here { slice_index self.new.since server
            ≡ (if nat_lt 0 (slice_index self.old.since server) then slice_index self.old.since server
            else number) }
        ensures others { (other : ℕ) → other ≢ server
            → slice_index self.new.since other ≡ slice_index self.old.since other }
    {
        let since = &mut self.since[server as usize];
        if *since == 0 {
            *since = number;
        }
    }

    /// Whether the server's files were lost.
    pub fn has_lost(&self, server: u32) -> bool
        ensures { result ≡ has_lost self.now.since server }
    {
        match self.since.get(server as usize) {
            Some(since) => 0 < *since,
            None => false,
        }
    }

    /// Whether the call with this number found the server's files lost.
    pub fn had_lost(&self, server: u32, number: u64) -> bool
        ensures { result ≡ had_lost self.now.since number server }
    {
        match self.since.get(server as usize) {
            Some(since) => 0 < *since && *since <= number,
            None => false,
        }
    }

    /// Whether some server's files were lost after the call with this number.
    pub fn has_lost_after(&self, number: u64) -> bool
        ensures { result ≡ has_lost_after number self.now.since }
    {
        self.since.iter().any(|since| number < *since)
    }
}
