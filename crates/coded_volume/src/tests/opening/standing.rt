//! Whether the shards of volume 7 stand at four servers in memory as a table has them, and are enough of any ratio.
ghost use Rattle.std.specs.Prelude.{◌≡◌, ◌↔◌, IsTrue, IfOk, Some};
ghost use Rattle.file_names.specs.Names.{IsKind};
ghost use Rattle.site_mem.specs.Site.{disk_at};
ghost use Rattle.shard_table.specs.Table.{IsRow};
ghost use Rattle.image_meaning.specs.Files.{has_index, stands};
ghost use Rattle.coded_volume.specs.Checking.{files_on};
ghost use Rattle.coded_volume.specs.CheckingTests.{HasRow, HasTwelve, IsCodedAs};

use file_names::{Kind, MAX_SHARDS, final_name};
use shard_table::Places;
use site_mem::MemSite;
use site_model::Site;
use std::alloc::{AllocError, Global};

// So many shards give a volume of any ratio.
const ENOUGH: u8 = 12;

/// Whether the volume is coded, of the shards at these places.
pub(crate) fn is_coded_as(
    alloc: Global,
    site: &MemSite,
    places: &Places,
) -> Result<bool, AllocError>
    requires servers { site.now.servers ≡ 4 }
    requires row { IsRow 4 places.now }
    ensures { IfOk result (λ coded. IsTrue coded
        → IsCodedAs places.now (files_on (disk_at site.now).files 7)) }
{
    if !has_enough(places) {
        return Ok(false);
    }
    for server in 0..site.servers() {
        if has_index(alloc, site, server)? || !has_row(alloc, site, server, places)? {
            return Ok(false);
        }
    }
    Ok(true)
}

// Whether the first shards have places.
fn has_enough(places: &Places) -> bool
    ensures { IsTrue result → HasTwelve places.now }
{
    for shard in 0..ENOUGH {
        if places[usize::from(shard)].is_none() {
            return false;
        }
    }
    true
}

fn has_index(alloc: Global, site: &MemSite, server: u32) -> Result<bool, AllocError>
    ensures { IfOk result (λ has. has ≡ has_index (files_on (disk_at site.now).files 7) server) }
{
    let idx = stands_at(alloc, site, server, Kind::Idx)?;
    let cpx = stands_at(alloc, site, server, Kind::Cpx)?;
    Ok(idx || cpx)
}

// Whether the shards at the server are those that have their place there.
fn has_row(alloc: Global, site: &MemSite, server: u32, places: &Places) -> Result<bool, AllocError>
    ensures { IfOk result (λ has. IsTrue has
        → HasRow places.now (files_on (disk_at site.now).files 7) server 16) }
{
    for shard in 0..MAX_SHARDS {
        let stands = stands_at(alloc, site, server, Kind::Shard(shard))?;
        let place = places[usize::from(shard)];
        if stands != is_at(place, server) {
            return Ok(false);
        }
    }
    Ok(true)
}

fn is_at(place: Option<u32>, server: u32) -> bool
    ensures { IsTrue result ↔ (place ≡ Some server) }
{
    place == Some(server)
}

fn stands_at(alloc: Global, site: &MemSite, server: u32, kind: Kind) -> Result<bool, AllocError>
    requires { IsKind kind }
    ensures { IfOk result (λ has. has ≡ stands (files_on (disk_at site.now).files 7) server kind) }
{
    let name = final_name(alloc, 7, kind)?;
    Ok(site.file(server, &name).is_some())
}
