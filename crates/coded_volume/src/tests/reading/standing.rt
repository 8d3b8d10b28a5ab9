// Whether the shards of volume 7 stand at a site in memory as a table has them.
ghost use Rattle.std.specs.Prelude.{◌≡◌, ◌≤◌, ℕ, IfOk, IsTrue, Some, length};
ghost use Rattle.site_mem.specs.Site.{disk_at};
ghost use Rattle.degraded_read.specs.Gathering.{shard_name, standing_in};
ghost use Rattle.degraded_read.specs.Reading.{ArePlaced, IsShardFile};

use crate::tests::VOLUME;
use file_names::{Kind, MAX_SHARDS, final_name};
use shard_table::Places;
use site_mem::MemSite;
use site_model::MAX_SERVERS;
use std::alloc::{AllocError, Global};

// Whether a file stands, with so many bytes.
fn is_file(site: &MemSite, server: u32, name: &str, size: u64) -> bool
    ensures { IsTrue result → (shard : ℕ) → name.now ≡ shard_name 7 shard
        → IsShardFile (disk_at site.now).files 7 size shard server }
{
    match site.file(server, name) {
        Some(bytes) => server < MAX_SERVERS && bytes.len() as u64 == size,
        None => false,
    }
}

// Whether a file stands at a place, with so many bytes, if there is a place.
fn is_placed(site: &MemSite, place: Option<u32>, name: &str, size: u64) -> bool
    ensures { IsTrue result → (shard server : ℕ) → name.now ≡ shard_name 7 shard
        → place ≡ Some server → IsShardFile (disk_at site.now).files 7 size shard server }
{
    match place {
        Some(server) => is_file(site, server, name, size),
        None => true,
    }
}

/// Whether each shard that has a place stands there, with so many bytes.
pub fn are_placed(
    alloc: Global,
    site: &MemSite,
    places: &Places,
    size: u64,
) -> Result<bool, AllocError>
    ensures { IfOk result (λ yes. IsTrue yes → ArePlaced (disk_at site.now).files 7 size places.now) }
{
    for shard in 0..MAX_SHARDS {
        let name = final_name(alloc, VOLUME, Kind::Shard(shard))?;
        if !is_placed(site, places[usize::from(shard)], &name, size) {
            return Ok(false);
        }
    }
    Ok(true)
}
