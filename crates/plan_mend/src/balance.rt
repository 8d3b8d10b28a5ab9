//! The plan of a balance.
ghost use Rattle.std.specs.Prelude.{◌+◌, ◌*◌, ◌^◌, ◌<◌, ◌≤◌, IfOk, length};
ghost use Rattle.world_model.specs.Sizes.{deletion_length, max_dat};
ghost use Rattle.stripe_layout.specs.Laws.Info.{IsInRange};
ghost use Rattle.shard_table.specs.Table.{IsAdded, row_of};
ghost use Rattle.plan_steps.specs.Plans.{IsPlan};
ghost use Rattle.plan_code.specs.Made.{StandEnough};
ghost use Rattle.plan_mend.specs.Made.{IsBalanceOf};

use plan_code::coded_plan;
use plan_steps::Plan;
use shard_table::ShardTable;
use std::alloc::{AllocError, Global};
use stripe_layout::Info;

/// The plan that moves shards of a coded volume until no two servers' counts differ by more than one. The volume's
/// index has so many entries, and these ids are deleted.
pub fn balance_plan(
    alloc: Global,
    table: &ShardTable,
    volume: u32,
    info: &Info,
    entries: u64,
    deleted: &[u64],
) -> Result<Plan, AllocError>
    requires added { IsAdded table.now volume }
    requires shards { StandEnough info.now.geometry (row_of table.now volume) }
    requires range { IsInRange info.now }
    requires few { entries < 2 ^ 60 }
    requires room { info.now.dat_size + deletion_length * length deleted.now ≤ max_dat }
    ensures plan { IfOk result (IsBalanceOf table.now.servers volume info.now entries deleted.now
        (row_of table.now volume)) }
    ensures made { IfOk result (λ plan. IsPlan plan table.now.servers) }
{
    let mut plan = coded_plan(alloc, table, volume, info, entries, deleted)?;
    plan.moves = table.moves_for_even(volume)?;
    Ok(plan)
}
