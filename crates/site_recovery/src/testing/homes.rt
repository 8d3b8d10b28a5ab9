//! The servers with an index of a volume, by its files that are listed: rule 1. For the recovery of coded volumes, to come.
ghost use Rattle.std.specs.Prelude.{◌≡◌, ◌<◌, ◌≤◌, ◌↔◌, ℕ, IsTrue, IfOk, IfErr, IsErrOf, Contains};
ghost use Rattle.std.specs.List.{All, filter_map};
ghost use Rattle.std.specs.List.Sorted.{IsStrictlyIncreasing};
ghost use Rattle.site_model.specs.Counts.{Calls, max_servers};
ghost use Rattle.image_meaning.specs.Sound.{HasIndex};
ghost use Rattle.coded_volume.specs.Checking.{files_on};
ghost use Rattle.site_recovery.specs.Homes.{AreHomes, FailsTests};
ghost use Rattle.site_recovery.specs.Listing.{AreFilesOf, AreInOrder};
ghost use Rattle.site_recovery.specs.Opening.{IsAtServer, IsHomeAt, index_server};

use crate::asking::index_size;
use crate::forms::{Home, Listed};
use crate::testing::kept_bytes;
use dat_volume::DatVolume;
use file_names::Kind;
use site_model::{OpenFault, Site};
use std::alloc::{AllocError, Global};

/// The servers with an index among the volume's files, each with how much of it is kept. No other server is asked.
pub(crate) fn listed_homes<T: Site>(
    alloc: Global,
    site: &mut T,
    volume: u32,
    files: &[Listed],
) -> Result<Vec<Home>, OpenFault>
    requires order { AreInOrder (T.servers site.old) files.now }
    requires files { IsTrue T.tells → AreFilesOf (T.disk site.old).files volume files.now }
    ensures homes { IfOk result (λ homes. IsTrue T.tells
        → AreHomes (files_on (T.disk site.old).files volume) max_servers homes.items) }
    ensures servers { IfOk result (λ homes. All (λ home. home.server < T.servers site.old) homes.items) }
    ensures unsound { IfErr result (λ fault. IsTrue T.tells
        → FailsTests volume (files_on (T.disk site.old).files volume) fault) }
    ensures same { IsTrue T.tells → T.disk site.new ≡ T.disk site.old }
    ensures runs { Calls T.counts T.servers site.old site.new (λ s. IsErrOf result (OpenFault.Fault s)) }
{
    let servers = index_servers(alloc, files)?;
    homes_among(alloc, site, volume, &servers)
}

// Those of the servers that have an index, each with how much of it is kept.
fn homes_among<T: Site>(
    alloc: Global,
    site: &mut T,
    volume: u32,
    servers: &[u32],
) -> Result<Vec<Home>, OpenFault>
    requires few { T.servers site.old ≤ max_servers }
    requires rise { IsStrictlyIncreasing servers.now }
    requires on_servers { All (λ s. s < T.servers site.old) servers.now }
    requires all { IsTrue T.tells → (s : ℕ) → HasIndex (files_on (T.disk site.old).files volume) s
        → Contains servers.now s }
    ensures homes { IfOk result (λ homes. IsTrue T.tells
        → AreHomes (files_on (T.disk site.old).files volume) max_servers homes.items) }
    ensures servers { IfOk result (λ homes. All (λ home. home.server < T.servers site.old) homes.items) }
    ensures unsound { IfErr result (λ fault. IsTrue T.tells
        → FailsTests volume (files_on (T.disk site.old).files volume) fault) }
    ensures same { IsTrue T.tells → T.disk site.new ≡ T.disk site.old }
    ensures runs { Calls T.counts T.servers site.old site.new (λ s. IsErrOf result (OpenFault.Fault s)) }
{
    let mut homes = Vec::new(alloc);
    for &server in servers {
        let Some(home) = home_at(alloc, site, volume, server)? else {
            continue;
        };
        homes.push(home)?;
    }
    Ok(homes)
}

// The server's index with how much of it is kept, if it has one.
fn home_at<T: Site>(
    alloc: Global,
    site: &mut T,
    volume: u32,
    server: u32,
) -> Result<Option<Home>, OpenFault>
    requires server { server < T.servers site.old }
    requires low { server < max_servers }
    ensures home { IfOk result (λ home. IsTrue T.tells
        → IsHomeAt (files_on (T.disk site.old).files volume) server home) }
    ensures at { IfOk result (IsAtServer server) }
    ensures unsound { IfErr result (λ fault. IsTrue T.tells
        → FailsTests volume (files_on (T.disk site.old).files volume) fault) }
    ensures same { IsTrue T.tells → T.disk site.new ≡ T.disk site.old }
    ensures runs { Calls T.counts T.servers site.old site.new (λ s. IsErrOf result (OpenFault.Fault s)) }
{
    let Some(size) = index_size(alloc, site, server, volume)? else {
        return Ok(None);
    };
    let count = DatVolume::count(alloc, site, server, volume)?;
    let kept = kept_bytes(count, size);
    Ok(Some(Home { server, kept }))
}

// The servers with an index among the files, in ascending order.
fn index_servers(alloc: Global, files: &[Listed]) -> Result<Vec<u32>, AllocError>
    ensures rise { IfOk result (λ servers. IsStrictlyIncreasing servers.items) }
    ensures each { IfOk result (λ servers. (s : ℕ) → Contains servers.items s
        ↔ Contains (filter_map index_server files.now) s) }
{
    let mut servers = each_index(alloc, files)?;
    servers.sort_unstable();
    servers.dedup();
    Ok(servers)
}

fn each_index(alloc: Global, files: &[Listed]) -> Result<Vec<u32>, AllocError>
    ensures { IfOk result (λ servers. servers.items ≡ filter_map index_server files.now) }
{
    let mut servers = Vec::new(alloc);
    for listed in files {
        if let Some(server) = index_server(listed) {
            servers.push(server)?;
        }
    }
    Ok(servers)
}

// The server of the file, if it is an index and not temporary.
fn index_server(listed: &Listed) -> Option<u32>
    ensures { result ≡ index_server listed.now }
{
    if listed.file.temp {
        return None;
    }
    match listed.file.kind {
        Kind::Idx | Kind::Cpx => Some(listed.server),
        _ => None,
    }
}
