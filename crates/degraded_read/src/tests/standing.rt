//! Whether the shards of volume 7 stand at a site in memory as a table has them.
ghost use Rattle.std.specs.Prelude.{◌≡◌, ℕ, IsTrue, Some, map};
ghost use Rattle.std.specs.String.{string_bytes};
ghost use Rattle.site_mem.specs.Site.{disk_at};
ghost use Rattle.degraded_read.specs.Gathering.{AreNames, shard_name};
ghost use Rattle.degraded_read.specs.Reading.{ArePlaced, IsShardFile};

use shard_table::{Places, ROOM};
use site_mem::MemSite;

// Whether a file stands, with so many bytes.
fn is_file(site: &MemSite, server: u32, name: &str, size: u64) -> bool
    ensures { IsTrue result → (shard : ℕ) → name.now ≡ shard_name 7 shard
        → IsShardFile (disk_at site.now).files 7 size shard server }
{
    match site.file(server, name) {
        Some(bytes) => server < 64 && bytes.len() as u64 == size,
        None => false,
    }
}

// Whether a file stands at a place, with so many bytes, if there is a place.
fn is_placed(site: &MemSite, place: Option<u32>, name: &str, size: u64) -> bool
    ensures { IsTrue result → (shard server : ℕ) → name.now ≡ shard_name 7 shard
        → place ≡ Some server → IsShardFile (disk_at site.now).files 7 size shard server }
{
    match place {
        Some(server) => is_file(site, server, name, size),
        None => true,
    }
}

/// Whether each shard that has a place stands there, with so many bytes.
pub fn are_placed(site: &MemSite, places: &Places, names: &[String], size: u64) -> bool
    requires { AreNames 7 (map string_bytes names.now) }
    ensures { IsTrue result → ArePlaced (disk_at site.now).files 7 size places.now }
{
    for shard in 0..ROOM {
        if !is_placed(site, places[shard], names[shard].as_str(), size) {
            return false;
        }
    }
    true
}
