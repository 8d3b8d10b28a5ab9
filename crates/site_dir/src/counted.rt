//! The counts of a site, with why calls failed.
ghost use Rattle.std.specs.Prelude.{◌≡◌, IfOk, vec_len};
ghost use Rattle.site_model.specs.Counts.{max_servers};
ghost use Rattle.site_dir.specs.Troubles.{AreTold};

use crate::trouble::Trouble;
use site_model::{PLACES, Tally};
use std::alloc::{AllocError, Global};

/// The counts of a site, and by server why the last call that failed there did.
#[derive(Drop)]
pub struct Counted {
    pub tally: Tally,
    troubles: Vec<Option<Trouble>>,
    ghost troubles_fit: { vec_len troubles ≡ max_servers },
    ghost troubles_told: { AreTold tally.faults troubles.items },
}

// As many places for troubles as there can be servers.
fn no_troubles(alloc: Global) -> Result<Vec<Option<Trouble>>, AllocError>
    ensures { IfOk result (λ v. vec_len v ≡ max_servers) }
{
    let mut troubles = Vec::new(alloc);
    for _ in 0..PLACES {
        troubles.push(None)?;
    }
    Ok(troubles)
}

impl Counted {
    ghost use Rattle.std.specs.Prelude.{◌<◌, IsSome, IsTrue};
    ghost use Rattle.site_model.specs.Counts.{CountsRead, CountsWrite, CountsSay};
    ghost use Rattle.site_model.specs.Tallies.{AreNone, counts_of};

    pub fn new(alloc: Global) -> Result<Self, AllocError>
        ensures { IfOk result (λ counted. AreNone (counts_of counted.tally)) }
    {
        Ok(Counted {
            tally: Tally::new(),
            troubles: no_troubles(alloc)?,
        })
    }

    /// Why the last call on a server that failed did.
    pub fn trouble(&self, server: u32) -> Option<&Trouble>
        requires { server < max_servers }
        ensures told { 0 < (counts_of self.now.tally).faults server → IsSome result }
    {
        self.troubles[server as usize].as_ref()
    }

    /// One call more that doesn't write, with its trouble where it failed.
    pub fn count_read(&mut self, server: u32, width: usize, trouble: Option<Trouble>)
        requires { server < max_servers }
        ensures { CountsRead server width (counts_of self.old.tally) (counts_of self.new.tally)
            (IsSome trouble) }
    {
        self.tally.count_read(server, width, trouble.is_some());
        if trouble.is_some() {
            self.troubles[server as usize] = trouble;
        }
    }

    /// One call more that writes, with its trouble where it failed.
    pub fn count_write(&mut self, server: u32, width: usize, trouble: Option<Trouble>)
        requires { server < max_servers }
        ensures { CountsWrite server width (counts_of self.old.tally) (counts_of self.new.tally)
            (IsSome trouble) }
    {
        self.tally.count_write(server, width, trouble.is_some());
        if trouble.is_some() {
            self.troubles[server as usize] = trouble;
        }
    }

    /// Something was said.
    pub fn count_say(&mut self, failed: bool)
        ensures { CountsSay (counts_of self.old.tally) (counts_of self.new.tally) (IsTrue failed) }
    {
        self.tally.count_say(failed);
    }
}
