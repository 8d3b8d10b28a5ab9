//! What the plans of a coded volume have in common.
ghost use Rattle.std.specs.Prelude.{◌≡◌, ◌++◌, IfOk, OnOk};
ghost use Rattle.shard_table.specs.Table.{row_of};
ghost use Rattle.plan_steps.specs.Plans.{place_if, places_of};
ghost use Rattle.plan_code.specs.Made.{FitTypes, IsCodedOf, LeavesAll};

use plan_steps::Plan;
use shard_table::ShardTable;
use std::alloc::{AllocError, Global};
use stripe_layout::{Geometry, Info};
use world_model::types::Command;

/// The plan of a coded volume that makes and moves no shard: a balance without moves. The volume's shards are those
/// that the table has, its index has so many entries, and these ids are deleted.
pub fn coded_plan(
    alloc: Global,
    table: &ShardTable,
    volume: u32,
    info: &Info,
    entry_count: u64,
    deleted: &[u64],
) -> Result<Plan, AllocError>
    ensures coded { IfOk result (IsCodedOf volume info.now entry_count deleted.now
        (row_of table.now volume)) }
    ensures leaves { IfOk result LeavesAll }
    ensures given { FitTypes table.now.servers (row_of table.now volume) deleted.now }
{
    let _servers = table.servers();
    let _row = table.row(volume);
    let deleted = Vec::from_slice(alloc, deleted)?;
    let places = places_of(alloc, table, volume, &info.geometry)?;
    Ok(Plan {
        command: Command::Balance,
        volume,
        home: 0,
        info: *info,
        entries: Vec::new(alloc),
        entry_count,
        deleted,
        places,
        targets: Vec::new(alloc),
        moves: Vec::new(alloc),
    })
}

// The shards that stand, in their order, with their servers.
fn places_of(
    alloc: Global,
    table: &ShardTable,
    volume: u32,
    geometry: &Geometry,
) -> Result<Vec<(u8, u32)>, AllocError>
    ensures { IfOk result (λ places. places.items ≡ places_of geometry.now (row_of table.now volume)) }
{
    let mut places = Vec::new(alloc);
    for shard in 0..geometry.ratio.shard_count() {
        add_place(&mut places, shard, table.place(volume, shard))?;
    }
    Ok(places)
}

fn add_place(places: &mut Vec<(u8, u32)>, shard: u8, place: Option<u32>) -> Result<(), AllocError>
    ensures { OnOk result (places.new.items ≡ places.old.items ++ place_if shard place) }
{
    if let Some(server) = place {
        places.push((shard, server))?;
    }
    Ok(())
}
