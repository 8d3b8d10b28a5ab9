//! Where missing shards go: each to the server that has the fewest by then.
ghost use Rattle.std.specs.Prelude.{◌≡◌, ◌<◌, IfOk, OnOk};
ghost use Rattle.file_names.specs.Names.{max_shards};
ghost use Rattle.shard_table.specs.Table.{IsAdded, row_of};
ghost use Rattle.plan_steps.specs.Plans.{AreFilled, filled, missing_of};
ghost use Rattle.plan_mend.specs.Filling.{FillsOne, KeepsVolume};

use file_names::MAX_SHARDS;
use shard_table::ShardTable;
use std::alloc::{AllocError, Global};
use stripe_layout::Geometry;

/// A table of this volume alone, with its shards where they stand.
pub(crate) fn copy_of(
    alloc: Global,
    table: &ShardTable,
    volume: u32,
) -> Result<ShardTable, AllocError>
    ensures servers { IfOk result (λ copy. copy.servers ≡ table.now.servers) }
    ensures added { IfOk result (λ copy. IsAdded copy volume) }
    ensures row { IfOk result (λ copy. row_of copy volume ≡ row_of table.now volume) }
{
    let _row = table.row(volume);
    let mut copy = ShardTable::new(alloc, table.servers());
    copy.add_volume(volume)?;
    for shard in 0..MAX_SHARDS {
        copy.set(volume, shard, table.place(volume, shard));
    }
    Ok(copy)
}

/// Places the missing shards of the ratio, by rising number, and answers them with their servers.
pub(crate) fn fill(
    alloc: Global,
    table: &mut ShardTable,
    volume: u32,
    geometry: &Geometry,
) -> Result<Vec<(u8, u32)>, AllocError>
    requires added { IsAdded table.old volume }
    ensures filled { IfOk result (λ targets. AreFilled table.old.servers (row_of table.old volume)
        (missing_of geometry.now (row_of table.old volume)) targets.items) }
    ensures row { IfOk result (λ targets. row_of table.new volume
        ≡ filled (row_of table.old volume) targets.items) }
    ensures keeps { KeepsVolume table.old table.new volume }
{
    let mut targets = Vec::new(alloc);
    for shard in 0..geometry.ratio.shard_count() {
        fill_one(table, &mut targets, volume, shard)?;
    }
    Ok(targets)
}

// Places the shard, if it is missing.
fn fill_one(
    table: &mut ShardTable,
    targets: &mut Vec<(u8, u32)>,
    volume: u32,
    shard: u8,
) -> Result<(), AllocError>
    requires added { IsAdded table.old volume }
    requires shard { shard < max_shards }
    ensures filled { OnOk result (FillsOne table.old.servers shard (row_of table.old volume)
        (row_of table.new volume) targets.old.items targets.new.items) }
    ensures keeps { KeepsVolume table.old table.new volume }
{
    if table.place(volume, shard).is_some() {
        return Ok(());
    }
    let server = table.choose(volume);
    targets.push((shard, server))?;
    table.set(volume, shard, Some(server));
    Ok(())
}
