//! The plan of a rebuild.
ghost use Rattle.std.specs.Prelude.{◌+◌, ◌*◌, ◌^◌, ◌<◌, ◌≤◌, IfOk, length};
ghost use Rattle.world_model.specs.Sizes.{deletion_length, max_dat};
ghost use Rattle.stripe_layout.specs.Laws.Info.{IsInRange};
ghost use Rattle.shard_table.specs.Table.{IsAdded, row_of};
ghost use Rattle.plan_steps.specs.Plans.{IsPlan};
ghost use Rattle.plan_code.specs.Made.{StandEnough};
ghost use Rattle.plan_mend.specs.Made.{IsRebuildOf};

use crate::fill::{copy_of, fill};
use plan_code::coded_plan;
use plan_steps::Plan;
use shard_table::ShardTable;
use std::alloc::{AllocError, Global};
use stripe_layout::Info;
use world_model::types::Command;

/// The plan that makes the missing shards of a coded volume, and then moves shards as a balance does. Each missing
/// shard, by rising number, goes to the server that has the fewest by then. The volume's index has so many entries,
/// and these ids are deleted.
pub fn rebuild_plan(
    alloc: Global,
    table: &ShardTable,
    volume: u32,
    info: &Info,
    entries: u64,
    deleted: &[u64],
) -> Result<Plan, AllocError>
    requires added { IsAdded table.now volume }
    requires shards { StandEnough info.now.geometry (row_of table.now volume) }
    requires range { IsInRange info.now }
    requires few { entries < 2 ^ 60 }
    requires room { info.now.dat_size + deletion_length * length deleted.now ≤ max_dat }
    ensures plan { IfOk result (IsRebuildOf table.now.servers volume info.now entries deleted.now
        (row_of table.now volume)) }
    ensures made { IfOk result (λ plan. IsPlan plan table.now.servers) }
{
    let mut plan = coded_plan(alloc, table, volume, info, entries, deleted)?;
    let mut filled = copy_of(alloc, table, volume)?;
    plan.command = Command::Rebuild;
    plan.targets = fill(alloc, &mut filled, volume, &info.geometry)?;
    plan.moves = filled.moves_for_even(volume)?;
    Ok(plan)
}
