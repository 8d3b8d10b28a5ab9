//! The servers with a copy of a shard.
ghost use Rattle.std.specs.Prelude.{◌<◌, IfOk, length};
ghost use Rattle.coded_volume.specs.Checking.{AreServersOf};

use crate::checking::ShardCopy;
use std::alloc::{AllocError, Global};

/// The lowest server with a copy, and the others by rising number.
#[derive(Drop)]
pub struct Holders {
    pub first: u32,
    pub others: Vec<u32>,
}

/// The servers of these copies, which are by rising server.
pub fn holders_of(alloc: Global, copies: &[ShardCopy]) -> Result<Holders, AllocError>
    requires { 0 < length copies.now }
    ensures { IfOk result (AreServersOf copies.now) }
{
    let first = copies[0].server;
    let mut others = Vec::new(alloc);
    let mut last = first;
    for copy in copies {
        if copy.server != last {
            last = copy.server;
            others.push(last)?;
        }
    }
    Ok(Holders { first, others })
}
