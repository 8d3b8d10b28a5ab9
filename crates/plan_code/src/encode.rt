//! The plan of an encode.
ghost use Rattle.std.specs.Prelude.{◌≡◌, ◌%◌, ◌^◌, ◌<◌, IfOk, map};
ghost use Rattle.std.specs.FinMap.{len, values};
ghost use Rattle.stripe_layout.specs.Laws.Info.{IsInRange};
ghost use Rattle.shard_table.specs.Table.{IsAdded, row_of};
ghost use Rattle.plan_steps.specs.Ending.{HasNoPlaces};
ghost use Rattle.plan_steps.specs.Plans.{IsPlan, all_numbers};
ghost use Rattle.plan_code.specs.Made.{IsEncodeOf};

use needle_map::NeedleMap;
use plan_steps::Plan;
use shard_table::ShardTable;
use std::alloc::{AllocError, Global};
use stripe_layout::{Geometry, Info};
use volume_forms::Entry;
use world_model::types::Command;

/// The plan that makes a coded volume of a plain one, which stands at its home with a data file of `dat_size`
/// bytes and this index of its needles. Shard i goes to server i, counted round.
pub fn encode_plan(
    alloc: Global,
    table: &ShardTable,
    volume: u32,
    home: u32,
    dat_size: u64,
    geometry: Geometry,
    index: &NeedleMap,
) -> Result<Plan, AllocError>
    requires added { IsAdded table.now volume }
    requires none { HasNoPlaces (row_of table.now volume) }
    requires home { home < table.now.servers }
    requires range { IsInRange (record { dat_size = dat_size; geometry = geometry }) }
    requires few { len index.now < 2 ^ 60 }
    ensures plan { IfOk result (λ plan. IsEncodeOf table.now.servers volume home
        (record { dat_size = dat_size; geometry = geometry }) (values index.now) plan) }
    ensures made { IfOk result (λ plan. IsPlan plan table.now.servers) }
{
    let entries = entries_of(alloc, index)?;
    let targets = targets_of(alloc, &geometry, table.servers())?;
    Ok(Plan {
        command: Command::Encode {
            ratio: geometry.ratio,
        },
        volume,
        home,
        info: Info { dat_size, geometry },
        entries,
        entry_count: 0,
        deleted: Vec::new(alloc),
        places: Vec::new(alloc),
        targets,
        moves: Vec::new(alloc),
    })
}

// The entries by rising id.
fn entries_of(alloc: Global, index: &NeedleMap) -> Result<Vec<Entry>, AllocError>
    ensures { IfOk result (λ entries. entries.items ≡ values index.now) }
{
    index.iter().collect(alloc)
}

// The servers of all shards.
fn targets_of(
    alloc: Global,
    geometry: &Geometry,
    servers: u32,
) -> Result<Vec<(u8, u32)>, AllocError>
    requires { 0 < servers }
    ensures { IfOk result (λ targets. targets.items ≡ map (λ i. (i, i % servers))
        (all_numbers geometry.now)) }
{
    (0..geometry.ratio.shard_count())
        .map(|shard| (shard, u32::from(shard) % servers))
        .collect(alloc)
}
