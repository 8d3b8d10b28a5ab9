//! The entry of an id in the indexes beside the shards of a volume.
ghost use Rattle.std.specs.Prelude.{◌≡◌, ◌<◌, ◌≤◌, ℕ, IsTrue, IfErr, IfOk, IsErrOf, length, false};
ghost use Rattle.site_model.specs.Counts.{Calls};
ghost use Rattle.shard_table.specs.Table.{row_of};
ghost use Rattle.degraded_read.specs.Gathering.{reliable, standing_in};
ghost use Rattle.coded_volume.specs.Searching.{HasOneOf, HaveAtMost, IsFound, TakesSearches};

use ecx_index::find;
use shard_table::ShardTable;
use site_model::{DeviceFault, Site};
use volume_forms::Entry;

/// The entry of the id by the index at the lowest server with one of the volume's first shards that answers. The
/// fault is that of the lowest one, where none does.
pub(crate) fn find_anywhere<T: Site>(
    site: &mut T,
    table: &ShardTable,
    volume: u32,
    shards: u8,
    name: &str,
    id: u64,
) -> Result<Option<Entry>, DeviceFault>
    requires servers { table.now.servers ≡ T.servers site.old }
    requires shards { shards ≤ 16 }
    requires some { 0 < length (standing_in (row_of table.now volume) shards) }
    ensures found { IfOk result (λ found. IsTrue T.tells
        → IsFound (T.disk site.old).files (row_of table.now volume) shards name.now id found) }
    ensures few { IfErr result (λ _. reliable (row_of table.now volume)
        (T.counts site.old) (T.counts site.new) shards ≡ 0) }
    ensures same { IsTrue T.tells → T.disk site.new ≡ T.disk site.old }
    ensures calls { IsTrue T.tells → (n : ℕ)
        → HaveAtMost n (T.disk site.old).files (row_of table.now volume) shards name.now
        → TakesSearches (length (standing_in (row_of table.now volume) shards)) n
        (T.counts site.old) (T.counts site.new) }
    ensures runs { Calls T.counts T.servers site.old site.new
        (λ s. IsErrOf result (record { server = s })) }
{
    let mut failed = None;
    for server in 0..table.servers() {
        if !has_one(table, volume, shards, server) {
            continue;
        }
        match find(site, server, name, id) {
            Ok(found) => return Ok(found),
            Err(fault) => failed = Some(failed.unwrap_or(fault)),
        }
    }
    Err(failed.unwrap())
}

// Whether one of the volume's first shards is at the server.
fn has_one(table: &ShardTable, volume: u32, shards: u8, server: u32) -> bool
    requires { shards ≤ 16 }
    ensures yes { IsTrue result → HasOneOf (row_of table.now volume) shards server }
    ensures no { result ≡ false → HasOneOf (row_of table.now volume) shards server → ⊥ }
{
    table.row(volume)[..usize::from(shards)].contains(&Some(server))
}
