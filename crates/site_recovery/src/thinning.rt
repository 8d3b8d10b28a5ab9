//! Spare copies of a coded volume's files.
ghost use Rattle.std.specs.Prelude.{◌≤◌, ◌<◌, length, false, None, ◌≡◌, IsTrue, IfErr, IsErrOf, OnOk, Contains};
ghost use Rattle.std.specs.List.{All};
ghost use Rattle.image_meaning.specs.Files.{contents, files_of};
ghost use Rattle.site_model.specs.Counts.{Calls};
ghost use Rattle.coded_volume.specs.Checking.{IsSiteFault};
ghost use Rattle.site_recovery.specs.Changes.{TakesAway};
ghost use Rattle.site_recovery.specs.Listing.{AreInOrder};
ghost use Rattle.site_recovery.specs.Removing.{HasFinalsBut, HasAllButJournals, AreListedGone};
ghost use Rattle.site_recovery.specs.CodedGone.{ClearsUnless, IsSpare, HasShardHomes, AreCopiesGone};
ghost use Rattle.site_recovery.specs.CodedGone.{IsStray, AreStraysGone, AreJournalsGone};

use crate::asking::clear_at;
use crate::clearing::clear_listed;
use crate::forms::{Goes, Listed};
use crate::removing::remove_if;
use file_names::{Kind, MAX_SHARDS, final_name};
use site_model::{OpenFault, Site};
use std::alloc::Global;

/// Removes the data files of a coded volume, also those that a vacuum made, and every copy of a shard but the lowest,
/// of which `homes` has the server, where they are listed. No other file is asked for.
pub(crate) fn clear_copies<T: Site>(
    alloc: Global,
    site: &mut T,
    volume: u32,
    files: &[Listed],
    homes: &[Option<u32>; 16],
) -> Result<(), OpenFault>
    requires order { AreInOrder (T.servers site.old) files.now }
    requires listed { IsTrue T.tells → HasAllButJournals (T.disk site.old).files volume files.now }
    requires homes { IsTrue T.tells
        → HasShardHomes (files_of (contents (T.disk site.old).files) volume) homes.now }
    ensures effect { IsTrue T.tells → TakesAway
        (IsSpare volume (files_of (contents (T.disk site.old).files) volume)) (T.disk site.old)
        (T.disk site.new) }
    ensures done { OnOk result (IsTrue T.tells
        → AreCopiesGone volume (files_of (contents (T.disk site.old).files) volume) (T.disk site.new).files) }
    ensures why { IfErr result IsSiteFault }
    ensures runs { Calls T.counts T.servers site.old site.new (λ s. IsErrOf result (OpenFault.Fault s)) }
{
    clear_listed(alloc, site, files, volume, Kind::Dat, None)?;
    clear_listed(alloc, site, files, volume, Kind::Cpd, None)?;
    for shard in 0..MAX_SHARDS {
        clear_listed(
            alloc,
            site,
            files,
            volume,
            Kind::Shard(shard),
            homes[usize::from(shard)],
        )?;
    }
    Ok(())
}

/// Removes the index, the text and the journal at each server that doesn't keep them, where they are listed. A holder may
/// have got its journal since, so that one is removed listed or not. No other file is asked for.
pub(crate) fn clear_strays<T: Site>(
    alloc: Global,
    site: &mut T,
    volume: u32,
    files: &[Listed],
    holders: &[u32],
    keeps: &[bool],
) -> Result<(), OpenFault>
    requires order { AreInOrder (T.servers site.old) files.now }
    requires listed { IsTrue T.tells
        → HasFinalsBut (Contains holders.now) (T.disk site.old).files volume files.now }
    requires holders { All (λ server. server < T.servers site.old) holders.now }
    requires enough { T.servers site.old ≤ length keeps.now }
    ensures effect { IsTrue T.tells → TakesAway (IsStray volume keeps.now) (T.disk site.old)
        (T.disk site.new) }
    ensures done { OnOk result (IsTrue T.tells → AreStraysGone volume keeps.now (T.disk site.new).files) }
    ensures why { IfErr result IsSiteFault }
    ensures runs { Calls T.counts T.servers site.old site.new (λ s. IsErrOf result (OpenFault.Fault s)) }
{
    clear_journals(alloc, site, volume, holders, keeps)?;
    clear_beside(alloc, site, volume, files, keeps)
}

// Removes the journal at each of the servers that doesn't keep it.
fn clear_journals<T: Site>(
    alloc: Global,
    site: &mut T,
    volume: u32,
    servers: &[u32],
    keeps: &[bool],
) -> Result<(), OpenFault>
    requires servers { All (λ server. server < T.servers site.old) servers.now }
    requires enough { T.servers site.old ≤ length keeps.now }
    ensures effect { IsTrue T.tells → TakesAway (IsStray volume keeps.now) (T.disk site.old)
        (T.disk site.new) }
    ensures done { OnOk result (IsTrue T.tells
        → AreJournalsGone volume servers.now keeps.now (T.disk site.new).files) }
    ensures why { IfErr result IsSiteFault }
    ensures runs { Calls T.counts T.servers site.old site.new (λ s. IsErrOf result (OpenFault.Fault s)) }
{
    let name = final_name(alloc, volume, Kind::Ecj)?;
    for &server in servers {
        clear_unless(site, server, &name, keeps[server as usize])?;
    }
    Ok(())
}

fn clear_unless<T: Site>(site: &mut T, server: u32, name: &str, keep: bool) -> Result<(), OpenFault>
    requires { server < T.servers site.old }
    ensures effect { IsTrue T.tells → ClearsUnless keep (server, name.now) (T.disk site.old)
        (T.disk site.new) }
    ensures done { OnOk result (keep ≡ false → IsTrue T.tells
        → (T.disk site.new).files (server, name.now) ≡ None) }
    ensures why { IfErr result IsSiteFault }
    ensures runs { Calls T.counts T.servers site.old site.new (λ s. IsErrOf result (OpenFault.Fault s)) }
{
    if keep {
        return Ok(());
    }
    clear_at(site, server, name)
}

// Removes the listed indexes, texts and journals of the volume at each server that doesn't keep them.
fn clear_beside<T: Site>(
    alloc: Global,
    site: &mut T,
    volume: u32,
    files: &[Listed],
    keeps: &[bool],
) -> Result<(), OpenFault>
    requires order { AreInOrder (T.servers site.old) files.now }
    requires enough { T.servers site.old ≤ length keeps.now }
    ensures effect { IsTrue T.tells → TakesAway (IsStray volume keeps.now) (T.disk site.old)
        (T.disk site.new) }
    ensures done { OnOk result (IsTrue T.tells
        → AreListedGone volume keeps.now files.now (T.disk site.new).files) }
    ensures why { IfErr result IsSiteFault }
    ensures runs { Calls T.counts T.servers site.old site.new (λ s. IsErrOf result (OpenFault.Fault s)) }
{
    for listed in files {
        if !keeps[listed.server as usize] {
            remove_if(alloc, site, listed, Goes::Beside { volume })?;
        }
    }
    Ok(())
}
