//! Plans of a volume of 56 bytes some of whose shards are missing, or not even: over four, five and 64 servers.
ghost use Rattle.std.specs.Prelude.{◌≡◌, ◌<◌, ◌≤◌, IfOk};
ghost use Rattle.stripe_layout.specs.Laws.Info.{IsInRange};
ghost use Rattle.shard_table.specs.Table.{IsAdded};
ghost use Rattle.plan_steps.specs.Next.{IsSized};

use crate::{balance_plan, rebuild_plan};
use file_names::MAX_SHARDS;
use plan_code::stand_enough;
use plan_steps::{Plan, Progress, Step};
use shard_table::{ShardMove, ShardTable};
use std::alloc::{AllocError, Global};
use std::process::Abort;
use std::test::Fail;
use stripe_layout::{Geometry, Info};
use world_model::types::{Command, Ratio};

const VOLUME: u32 = 7;

fn info(ratio: Ratio) -> Info
    ensures range { IsInRange result }
    ensures size { result.dat_size ≡ 56 }
{
    Info {
        dat_size: 56,
        geometry: Geometry {
            ratio,
            large: 16,
            small: 8,
        },
    }
}

// The shards of a volume, in turn on the first `used` servers, without those on the servers before `from`.
#[derive(Clone, Copy)]
struct Round {
    ratio: Ratio,
    servers: u32,
    used: u32,
    from: u32,
}

impl Round {
    fn table(self, alloc: Global) -> Result<ShardTable, AllocError>
        requires some { 0 < self.used }
        requires within { self.used ≤ self.servers }
        requires few { self.servers ≤ 64 }
        ensures { IfOk result (λ table. IsAdded table 7) }
    {
        let mut table = ShardTable::new(alloc, self.servers);
        table.add_volume(VOLUME)?;
        for shard in 0..MAX_SHARDS {
            let server = u32::from(shard) % self.used;
            if shard < self.ratio.shard_count() && server >= self.from {
                table.set(VOLUME, shard, Some(server));
            }
        }
        Ok(table)
    }

    fn rebuild(self, rt: &impl Abort, alloc: Global) -> Result<Plan, AllocError>
        requires some { 0 < self.used }
        requires within { self.used ≤ self.servers }
        requires few { self.servers ≤ 64 }
        ensures { IfOk result IsSized }
    {
        let info = info(self.ratio);
        let table = self.table(alloc)?;
        assert!(rt; stand_enough(&table, VOLUME, &info.geometry));
        rebuild_plan(alloc, &table, VOLUME, &info, 1, &[5])
    }

    fn balance(self, rt: &impl Abort, alloc: Global) -> Result<Plan, AllocError>
        requires some { 0 < self.used }
        requires within { self.used ≤ self.servers }
        requires few { self.servers ≤ 64 }
        ensures { IfOk result IsSized }
    {
        let info = info(self.ratio);
        let table = self.table(alloc)?;
        assert!(rt; stand_enough(&table, VOLUME, &info.geometry));
        balance_plan(alloc, &table, VOLUME, &info, 1, &[])
    }
}

const WITHOUT_THE_FIRST: Round = Round {
    ratio: Ratio::TenFour,
    servers: 4,
    used: 4,
    from: 1,
};

#[test]
fn a_rebuild_fills_the_emptiest_servers(rt: HostRuntime) -> Result<(), Fail> {
    let alloc = rt.alloc();
    let plan = WITHOUT_THE_FIRST.rebuild(&rt, alloc)?;
    assert_eq!(rt; plan.command, Command::Rebuild);
    assert_eq!(rt; plan.entry_count, 1);
    assert_eq!(rt; plan.deleted.as_slice(), [5].as_slice());
    assert_eq!(rt; plan.places.len(), 10);
    let targets = [(0, 0), (4, 0), (8, 0), (12, 0)];
    assert_eq!(rt; plan.targets.as_slice(), targets.as_slice());
    assert_eq!(rt; plan.moves.len(), 0);
    let progress = Progress::new(alloc, &plan)?;
    assert_eq!(rt; progress.files.len(), 7);
    assert_eq!(rt; plan.next(&progress), Some(Step::PutInfo { server: 0 }));
    Ok(())
}

#[test]
fn each_missing_shard_counts_once_it_is_placed(rt: HostRuntime) -> Result<(), Fail> {
    let alloc = rt.alloc();
    let five = Round {
        ratio: Ratio::ThreeTwo,
        servers: 5,
        used: 5,
        from: 2,
    };
    let plan = five.rebuild(&rt, alloc)?;
    assert_eq!(rt; plan.targets.as_slice(), [(0, 0), (1, 1)].as_slice());
    let many = Round {
        ratio: Ratio::TenFour,
        servers: 64,
        used: 64,
        from: 4,
    };
    let plan = many.rebuild(&rt, alloc)?;
    let targets = [(0, 0), (1, 1), (2, 2), (3, 3)];
    assert_eq!(rt; plan.targets.as_slice(), targets.as_slice());
    assert_eq!(rt; plan.moves.len(), 0);
    Ok(())
}

const fn moved(shard: u8) -> ShardMove {
    ShardMove {
        shard,
        from: 1,
        to: 0,
    }
}

#[test]
fn a_balance_moves_the_highest_shards(rt: HostRuntime) -> Result<(), Fail> {
    let alloc = rt.alloc();
    let plan = WITHOUT_THE_FIRST.balance(&rt, alloc)?;
    assert_eq!(rt; plan.command, Command::Balance);
    assert_eq!(rt; plan.targets.len(), 0);
    assert_eq!(rt; plan.moves.as_slice(), [moved(13), moved(9)].as_slice());
    let progress = Progress::new(alloc, &plan)?;
    assert_eq!(rt; progress.files.len(), 7);
    assert_eq!(rt; plan.next(&progress), Some(Step::PutInfo { server: 0 }));
    let even = Round {
        from: 0,
        ..WITHOUT_THE_FIRST
    };
    let plan = even.balance(&rt, alloc)?;
    assert_eq!(rt; plan.moves.len(), 0);
    assert_eq!(rt; plan.next(&Progress::new(alloc, &plan)?), None);
    Ok(())
}

// All shards are there, but on two of three servers.
#[test]
fn a_rebuild_without_missing_shards_is_a_balance(rt: HostRuntime) -> Result<(), Fail> {
    let alloc = rt.alloc();
    let crowded = Round {
        ratio: Ratio::ThreeTwo,
        servers: 3,
        used: 2,
        from: 0,
    };
    let plan = crowded.rebuild(&rt, alloc)?;
    assert_eq!(rt; plan.targets.len(), 0);
    let last = ShardMove {
        shard: 4,
        from: 0,
        to: 2,
    };
    assert_eq!(rt; plan.moves.as_slice(), [last].as_slice());
    Ok(())
}
