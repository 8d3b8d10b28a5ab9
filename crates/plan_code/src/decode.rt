//! The plan of a decode.
ghost use Rattle.std.specs.Prelude.{◌≡◌, ◌+◌, ◌*◌, ◌^◌, ◌<◌, ◌≤◌, IfOk, length};
ghost use Rattle.std.specs.FinMap.{len};
ghost use Rattle.world_model.specs.Sizes.{deletion_length, max_dat};
ghost use Rattle.stripe_layout.specs.Laws.Info.{IsInRange};
ghost use Rattle.shard_table.specs.Table.{IsAdded, row_of};
ghost use Rattle.image_meaning.specs.Files.{lowest};
ghost use Rattle.plan_steps.specs.Planned.{held};
ghost use Rattle.plan_steps.specs.Plans.{IsPlan};
ghost use Rattle.plan_code.specs.Made.{IsDecodeOf, StandEnough};

use crate::coded_plan;
use needle_map::NeedleMap;
use plan_steps::Plan;
use shard_table::ShardTable;
use site_model::MAX_SERVERS;
use std::alloc::{AllocError, Global};
use stripe_layout::Info;
use world_model::types::Command;

/// The plan that makes a plain volume of a coded one at the lowest server with a shard. The index is the volume's,
/// and these ids are deleted.
pub fn decode_plan(
    alloc: Global,
    table: &ShardTable,
    volume: u32,
    info: &Info,
    index: &NeedleMap,
    deleted: &[u64],
) -> Result<Plan, AllocError>
    requires added { IsAdded table.now volume }
    requires shards { StandEnough info.now.geometry (row_of table.now volume) }
    requires range { IsInRange info.now }
    requires few { len index.now < 2 ^ 60 }
    requires room { info.now.dat_size + deletion_length * length deleted.now ≤ max_dat }
    ensures plan { IfOk result (IsDecodeOf volume info.now (len index.now) deleted.now
        (row_of table.now volume)) }
    ensures made { IfOk result (λ plan. IsPlan plan table.now.servers) }
{
    let entry_count = index.len() as u64;
    let mut plan = coded_plan(alloc, table, volume, info, entry_count, deleted)?;
    plan.command = Command::Decode;
    plan.home = lowest_holder(&plan).unwrap();
    Ok(plan)
}

// The lowest server with a shard.
fn lowest_holder(plan: &Plan) -> Option<u32>
    ensures { result ≡ lowest (held plan.now) }
{
    (0..MAX_SERVERS).find(|server| plan.held(*server))
}
