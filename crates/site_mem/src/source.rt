//! A source in memory.
ghost use Rattle.std.specs.Prelude.{◌≡◌, ◌≤◌, length};

use site_model::{Failed, Source};
use std::alloc::{AllocError, Global};

/// Bytes in memory, which it tells. One read can be listed that is to fail.
#[derive(Drop)]
pub struct MemSource {
    bytes: Vec<u8>,
    at: usize,
    reads: u64,
    failing: Option<u64>,
    faults: u64,
    taken: u64,
    ghost within: { at ≤ length bytes.items },
    ghost counted: { taken ≡ at },
}

impl MemSource {
    ghost use Rattle.std.specs.Prelude.{◌≡◌, IfOk, Some};
    ghost use Rattle.site_mem.specs.Source.{failing_of, IsAtStart, KeepsPlace};

    /// A source of these bytes, of which no read was made and none is listed.
    pub fn new(alloc: Global, bytes: &[u8]) -> Result<MemSource, AllocError>
        ensures { IfOk result (IsAtStart bytes.now) }
    {
        Ok(MemSource {
            bytes: bytes.to_vec(alloc)?,
            at: 0,
            reads: 0,
            failing: None,
            faults: 0,
            taken: 0,
        })
    }

    /// The read with this number, from 1, is to fail, in place of one that was listed before.
    pub fn fail_read(&mut self, read: u64)
        ensures listed { failing_of self.new ≡ Some read }
        ensures kept { KeepsPlace self.old self.new }
    {
        self.failing = Some(read);
    }
}

impl Source for MemSource {
    ghost use Rattle.std.specs.Prelude.{◌≡◌, ◌<◌, ◌≤◌, ◌+◌, ◌-◌, ◌^◌, ◌↔◌, min, IfOk, IsErr, MatchResult, Some, length};
    ghost use Rattle.site_model.specs.Reading.{Reads, FaultsRise};
    ghost use Rattle.site_mem.specs.Source.{left_of, faults_of, taken_of, failing_of, reads_of, next_read};

    ghost left = { λ m. Some (left_of m) };

    ghost faults = { faults_of };

    ghost taken = { taken_of };

    fn read(&mut self, out: &mut [u8]) -> Result<usize, Failed>
        requires { 0 < length out.old }
        ensures bound { IfOk result (λ n. n ≡ min (length out.old) (length (left_of self.old))) }
        ensures bytes { MatchResult result
            (λ n. Reads n out.new (Some (left_of self.old)) (Some (left_of self.new)))
            (λ _. left_of self.new ≡ left_of self.old) }
        ensures taken { MatchResult result (λ n. taken_of self.new ≡ min (taken_of self.old + n) (2 ^ 64 - 1))
            (λ _. taken_of self.new ≡ taken_of self.old) }
        ensures place { taken_of self.new + length (left_of self.new) ≡ taken_of self.old + length
            (left_of self.old) }
        ensures cause { FaultsRise (faults_of self.old) (faults_of self.new) (IsErr result) }
        ensures listed { IsErr result ↔ (failing_of self.old ≡ Some (next_read self.old)) }
        ensures reads { reads_of self.new ≡ next_read self.old }
        ensures failing { failing_of self.new ≡ failing_of self.old }
    {
        self.reads = self.reads.saturating_add(1);
        if self.failing == Some(self.reads) {
            self.faults = self.faults.saturating_add(1);
            return Err(Failed);
        }
        let rest = &self.bytes[self.at..];
        let n = out.len().min(rest.len());
        out[..n].copy_from_slice(&rest[..n]);
        self.at += n;
        self.taken = self.taken.saturating_add(n as u64);
        Ok(n)
    }
}
