//! Whether the shards of a coded volume suffice for a plan.
ghost use Rattle.std.specs.Prelude.{◌≡◌, ◌↔◌, IsTrue, length};
ghost use Rattle.shard_table.specs.Table.{row_of};
ghost use Rattle.plan_steps.specs.Plans.{place_if, places_of};
ghost use Rattle.plan_code.specs.Made.{HasNoneBeyond, StandEnough};

use file_names::MAX_SHARDS;
use shard_table::ShardTable;
use stripe_layout::Geometry;

/// Whether the table's shards of the volume are of the ratio, and at least as many as it has data shards, as a plan
/// of a coded volume needs.
pub fn stand_enough(table: &ShardTable, volume: u32, geometry: &Geometry) -> bool
    ensures { IsTrue result ↔ StandEnough geometry.now (row_of table.now volume) }
{
    count_standing(table, volume, geometry) >= geometry.ratio.data_count()
        && none_beyond(table, volume, geometry)
}

// How many shards of the ratio stand.
fn count_standing(table: &ShardTable, volume: u32, geometry: &Geometry) -> u8
    ensures { result ≡ length (places_of geometry.now (row_of table.now volume)) }
{
    let mut count = 0;
    for shard in 0..geometry.ratio.shard_count() {
        count += count_at(table.place(volume, shard));
    }
    count
}

// One, if the shard has a place.
fn count_at(place: Option<u32>) -> u8
    ensures { result ≡ length (place_if 0 place) }
{
    match place {
        Some(_) => 1,
        None => 0,
    }
}

// Whether no other shard does.
fn none_beyond(table: &ShardTable, volume: u32, geometry: &Geometry) -> bool
    ensures { IsTrue result ↔ HasNoneBeyond geometry.now (row_of table.now volume) }
{
    let _row = table.row(volume);
    for shard in geometry.ratio.shard_count()..MAX_SHARDS {
        if table.place(volume, shard).is_some() {
            return false;
        }
    }
    true
}
