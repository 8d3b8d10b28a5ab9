//! Which calls are to fail.
ghost use Rattle.std.specs.Prelude.{◌≡◌, ◌≢◌, ◌<◌, ◌||◌, ◌==◌, ℕ, false, Option, Some, None, OnOk, OnErr, slice_index_or};
ghost use Rattle.site_mem.specs.Failing.{lists, lists_read, lower};
ghost use Rattle.site_model.specs.Counts.{max_servers};

use site_model::PLACES;
use std::alloc::{AllocError, Global};

/// The calls that are to fail, by their numbers.
#[derive(Drop)]
pub struct Listed {
    pub calls: Vec<u64>,
    /// By server the number from which on each read fails.
    pub reads: [Option<u64>; PLACES],
}

impl Listed {
    pub fn new(alloc: Global) -> Self
        ensures calls { (number : ℕ) → lists result.calls.items number ≡ false }
        ensures reads { (server : ℕ) → slice_index_or result.reads server None ≡ None }
    {
        Listed {
            calls: Vec::new(alloc),
            reads: [None; PLACES],
        }
    }

    /// The call with this number fails.
    pub fn add_call(&mut self, call: u64) -> Result<(), AllocError>
        ensures ok { OnOk result ((number : ℕ)
            → lists self.new.calls.items number ≡ (number == call) || lists self.old.calls.items number) }
        ensures err { OnErr result (self.new.calls.items ≡ self.old.calls.items) }
        ensures reads { self.new.reads ≡ self.old.reads }
    {
        self.calls.push(call)?;
        Ok(())
    }

    /// Each read at the server fails from the call with this number on.
    pub fn add_reads(&mut self, server: u32, from: u64)
        requires { server < max_servers }
        ensures here { slice_index_or self.new.reads server None
            ≡ Some (lower from (slice_index_or self.old.reads server None)) }
        ensures others { (other : ℕ) → other ≢ server
            → slice_index_or self.new.reads other None ≡ slice_index_or self.old.reads other None }
        ensures calls { self.new.calls.items ≡ self.old.calls.items }
    {
        let reads = &mut self.reads[server as usize];
        *reads = match *reads {
            Some(first) => Some(first.min(from)),
            None => Some(from),
        };
    }

    pub fn has_call(&self, number: u64) -> bool
        ensures { result ≡ lists self.now.calls.items number }
    {
        self.calls.contains(&number)
    }

    pub fn has_read(&self, server: u32, number: u64) -> bool
        requires { server < max_servers }
        ensures { result ≡ (lists self.now.calls.items number || lists_read
            (slice_index_or self.now.reads server None) number) }
    {
        self.has_call(number)
            || match self.reads[server as usize] {
                Some(first) => first <= number,
                None => false,
            }
    }
}
