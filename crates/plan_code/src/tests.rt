//! Plans of a volume of 56 bytes: encodes over four, five and 64 servers, and decodes of what is left of them.
ghost use Rattle.std.specs.Prelude.{◌≡◌, ◌^◌, ◌<◌, ◌≤◌, IfOk};
ghost use Rattle.std.specs.FinMap.{len};
ghost use Rattle.stripe_layout.specs.Laws.Info.{IsInRange};
ghost use Rattle.shard_table.specs.Table.{IsAdded};
ghost use Rattle.plan_steps.specs.Next.{IsSized};

use crate::{decode_plan, encode_plan, stand_enough};
use file_names::MAX_SHARDS;
use needle_map::NeedleMap;
use plan_steps::{Plan, Progress, Step};
use shard_table::ShardTable;
use std::alloc::{AllocError, Global};
use std::process::Abort;
use std::test::Fail;
use stripe_layout::{Geometry, Info};
use volume_forms::Entry;
use world_model::types::{Command, Ratio};

const VOLUME: u32 = 7;

fn info(ratio: Ratio) -> Info
    ensures range { IsInRange result }
    ensures size { result.dat_size ≡ 56 }
{
    Info {
        dat_size: 56,
        geometry: Geometry {
            ratio,
            large: 16,
            small: 8,
        },
    }
}

const fn entry(id: u64, offset: u32) -> Entry {
    Entry {
        id,
        offset,
        size: 14,
    }
}

// Two needles.
fn index(alloc: Global) -> Result<NeedleMap, AllocError>
    ensures { IfOk result (λ index. len index < 2 ^ 60) }
{
    let mut index = NeedleMap::new(alloc);
    index.put(entry(9, 7))?;
    index.put(entry(4, 1))?;
    Ok(index)
}

fn encode(alloc: Global, ratio: Ratio, servers: u32, home: u32) -> Result<Plan, AllocError>
    requires few { servers ≤ 64 }
    requires home { home < servers }
    ensures { IfOk result IsSized }
{
    let mut table = ShardTable::new(alloc, servers);
    table.add_volume(VOLUME)?;
    let Info { dat_size, geometry } = info(ratio);
    let index = index(alloc)?;
    encode_plan(alloc, &table, VOLUME, home, dat_size, geometry, &index)
}

#[test]
fn an_encode_goes_round_the_servers(rt: HostRuntime) -> Result<(), Fail> {
    let ratio = Ratio::TenFour;
    let plan = encode(rt.alloc(), ratio, 4, 2)?;
    assert_eq!(rt; plan.command, Command::Encode { ratio });
    assert_eq!(rt; plan.volume, VOLUME);
    assert_eq!(rt; plan.home, 2);
    assert_eq!(rt; plan.info, info(ratio));
    assert_eq!(rt;
        plan.entries.as_slice(),
        [entry(4, 1), entry(9, 7)].as_slice()
    );
    assert_eq!(rt; plan.targets.len(), 14);
    assert_eq!(rt; plan.targets[3], (3, 3));
    assert_eq!(rt; plan.targets[4], (4, 0));
    assert_eq!(rt; plan.targets[13], (13, 1));
    let progress = Progress::new(rt.alloc(), &plan)?;
    assert_eq!(rt; progress.files.len(), 24);
    assert_eq!(rt; plan.next(&progress), Some(Step::PutInfo { server: 0 }));
    Ok(())
}

#[test]
fn an_encode_leaves_the_servers_that_get_no_shard(rt: HostRuntime) -> Result<(), Fail> {
    let five = encode(rt.alloc(), Ratio::ThreeTwo, 5, 4)?;
    let targets = [(0, 0), (1, 1), (2, 2), (3, 3), (4, 4)];
    assert_eq!(rt; five.targets.as_slice(), targets.as_slice());
    assert_eq!(rt; Progress::new(rt.alloc(), &five)?.files.len(), 17);
    let many = encode(rt.alloc(), Ratio::TenFour, 64, 63)?;
    assert_eq!(rt; many.targets.len(), 14);
    assert_eq!(rt; many.targets[13], (13, 13));
    assert_eq!(rt; Progress::new(rt.alloc(), &many)?.files.len(), 44);
    Ok(())
}

// The shards of the ratio, in turn on the servers, without those of the servers before this one.
fn round(alloc: Global, ratio: Ratio, servers: u32, from: u32) -> Result<ShardTable, AllocError>
    requires some { 0 < servers }
    requires few { servers ≤ 64 }
    ensures { IfOk result (λ table. IsAdded table 7) }
{
    let mut table = ShardTable::new(alloc, servers);
    table.add_volume(VOLUME)?;
    for shard in 0..MAX_SHARDS {
        let server = u32::from(shard) % servers;
        if shard < ratio.shard_count() && server >= from {
            table.set(VOLUME, shard, Some(server));
        }
    }
    Ok(table)
}

fn decode(
    rt: &impl Abort,
    alloc: Global,
    table: &ShardTable,
    ratio: Ratio,
    deleted: &[u64],
) -> Result<Plan, AllocError>
    requires { IsAdded table.now 7 }
    ensures { IfOk result IsSized }
{
    let info = info(ratio);
    let index = index(alloc)?;
    assert!(rt; stand_enough(table, VOLUME, &info.geometry));
    assert!(rt; deleted.len() < 10);
    decode_plan(alloc, table, VOLUME, &info, &index, deleted)
}

#[test]
fn a_decode_goes_to_the_lowest_holder(rt: HostRuntime) -> Result<(), Fail> {
    let ratio = Ratio::TenFour;
    let alloc = rt.alloc();
    let plan = decode(&rt, alloc, &round(alloc, ratio, 4, 0)?, ratio, &[])?;
    assert_eq!(rt; plan.command, Command::Decode);
    assert_eq!(rt; plan.home, 0);
    assert_eq!(rt; plan.entry_count, 2);
    assert_eq!(rt; plan.places.len(), 14);
    assert_eq!(rt; plan.places[13], (13, 1));
    let progress = Progress::new(alloc, &plan)?;
    assert_eq!(rt; progress.files.len(), 28);
    let first = Step::JoinPiece {
        row: 0,
        block: 0,
        at: 0,
    };
    assert_eq!(rt; plan.next(&progress), Some(first));
    let less = decode(&rt, alloc, &round(alloc, ratio, 4, 1)?, ratio, &[5])?;
    assert_eq!(rt; less.home, 1);
    assert_eq!(rt; less.places.len(), 10);
    assert_eq!(rt; less.deleted.as_slice(), [5].as_slice());
    let few = decode(
        &rt,
        alloc,
        &round(alloc, Ratio::ThreeTwo, 64, 2)?,
        Ratio::ThreeTwo,
        &[],
    )?;
    assert_eq!(rt; few.home, 2);
    assert_eq!(rt; few.places.as_slice(), [(2, 2), (3, 3), (4, 4)].as_slice());
    Ok(())
}

#[test]
fn too_few_shards_and_foreign_ones_are_told(rt: HostRuntime) -> Result<(), Fail> {
    let alloc = rt.alloc();
    let table = round(alloc, Ratio::TenFour, 4, 2)?;
    assert!(rt; !stand_enough(&table, VOLUME, &info(Ratio::TenFour).geometry));
    assert!(rt; !stand_enough(&table, VOLUME, &info(Ratio::ThreeTwo).geometry));
    Ok(())
}
