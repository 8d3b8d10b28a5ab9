//! Where the shards of a coded volume stand, and which servers keep one. For the recovery of coded volumes, to come.
ghost use Rattle.std.specs.Prelude.{◌≡◌, ◌↔◌, ◌<◌, ℕ, IsTrue, IfOk, Contains, Some, map};
ghost use Rattle.std.specs.List.{All};
ghost use Rattle.file_names.specs.Names.{max_shards};
ghost use Rattle.site_recovery.specs.Placing.{AreHomesOf, MarksHomes};

use crate::listing::lower;
use coded_volume::ShardCopy;
use shard_table::{Places, ROOM};
use std::alloc::{AllocError, Global};

/// Of each shard the lowest server with a copy of it.
pub(crate) fn homes_of(copies: &[ShardCopy]) -> Places
    requires { All (λ copy. copy.shard < max_shards) copies.now }
    ensures { AreHomesOf copies.now result }
{
    let mut homes = [None; ROOM];
    for copy in copies {
        let shard = usize::from(copy.shard);
        homes[shard] = Some(lower(homes[shard], copy.server));
    }
    homes
}

/// The servers with a copy. The copies are by rising server.
pub(crate) fn holders_of(alloc: Global, copies: &[ShardCopy]) -> Result<Vec<u32>, AllocError>
    ensures { IfOk result (λ servers. (server : ℕ) → Contains servers.items server
        ↔ Contains (map (λ copy. copy.server) copies.now) server) }
{
    let mut servers = each_server(alloc, copies)?;
    servers.dedup();
    Ok(servers)
}

fn each_server(alloc: Global, copies: &[ShardCopy]) -> Result<Vec<u32>, AllocError>
    ensures { IfOk result (λ servers. servers.items ≡ map (λ copy. copy.server) copies.now) }
{
    copies.iter().map(|copy| copy.server).collect(alloc)
}

/// Which of so many servers are the home of a shard.
pub(crate) fn keepers_of(
    alloc: Global,
    servers: u32,
    homes: &Places,
) -> Result<Vec<bool>, AllocError>
    ensures { IfOk result (λ keeps. MarksHomes servers homes.now keeps.items) }
{
    let mut keeps = Vec::new(alloc);
    for server in 0..servers {
        keeps.push(is_home(homes, server))?;
    }
    Ok(keeps)
}

fn is_home(homes: &Places, server: u32) -> bool
    ensures { IsTrue result ↔ Contains homes.now (Some server) }
{
    homes.contains(&Some(server))
}
