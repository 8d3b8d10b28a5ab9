//! The first lists of the plans of a volume of 56 bytes with 10 + 4 shards over four servers.
ghost use Rattle.std.specs.Prelude.{◌≡◌, IfOk, length};
ghost use Rattle.plan_steps.specs.Next.{IsSized};

use crate::{Plan, Progress, Stage};
use file_names::Kind;
use shard_table::ShardMove;
use std::alloc::{AllocError, Global};
use std::test::Fail;
use stripe_layout::{Geometry, Info};
use world_model::types::{Command, Ratio};

const SERVERS: u8 = 4;

const SHARDS: u8 = 14;

/// Shard i at server i, counted round, from this server on.
pub(crate) fn round(alloc: Global, from: u8) -> Result<Vec<(u8, u32)>, AllocError> {
    let mut places = Vec::new(alloc);
    for shard in 0..SHARDS {
        let server = shard % SERVERS;
        if server >= from {
            places.push((shard, u32::from(server)))?;
        }
    }
    Ok(places)
}

/// A plan with nothing to make or to move.
pub(crate) fn plan(alloc: Global, command: Command, home: u32, places: Vec<(u8, u32)>) -> Plan
    ensures sized { IsSized result }
    ensures size { result.info.dat_size ≡ 56 }
    ensures none_deleted { length result.deleted.items ≡ 0 }
{
    Plan {
        command,
        volume: 7,
        home,
        info: Info {
            dat_size: 56,
            geometry: Geometry {
                ratio: Ratio::TenFour,
                large: 16,
                small: 8,
            },
        },
        entries: Vec::new(alloc),
        entry_count: 1,
        deleted: Vec::new(alloc),
        places,
        targets: Vec::new(alloc),
        moves: Vec::new(alloc),
    }
}

/// The encode at server 2.
pub(crate) fn encode(alloc: Global) -> Result<Plan, AllocError>
    ensures { IfOk result IsSized }
{
    let ratio = Ratio::TenFour;
    let mut plan = plan(alloc, Command::Encode { ratio }, 2, Vec::new(alloc));
    plan.targets = round(alloc, 0)?;
    Ok(plan)
}

fn at_the_first(alloc: Global) -> Result<Vec<(u8, u32)>, AllocError> {
    let mut targets = Vec::new(alloc);
    for shard in [0, 4, 8, 12] {
        targets.push((shard, 0))?;
    }
    Ok(targets)
}

/// The rebuild without server 0.
pub(crate) fn rebuild(alloc: Global) -> Result<Plan, AllocError>
    ensures { IfOk result IsSized }
{
    let mut plan = plan(alloc, Command::Rebuild, 0, round(alloc, 1)?);
    plan.targets = at_the_first(alloc)?;
    Ok(plan)
}

fn from_the_second(alloc: Global) -> Result<Vec<ShardMove>, AllocError> {
    let mut moves = Vec::new(alloc);
    for shard in [13, 9] {
        moves.push(ShardMove {
            shard,
            from: 1,
            to: 0,
        })?;
    }
    Ok(moves)
}

/// The balance without server 0.
pub(crate) fn balance(alloc: Global) -> Result<Plan, AllocError>
    ensures { IfOk result IsSized }
{
    let mut plan = plan(alloc, Command::Balance, 0, round(alloc, 1)?);
    plan.moves = from_the_second(alloc)?;
    Ok(plan)
}

/// The decode of all shards to server 0.
pub(crate) fn decode(alloc: Global) -> Result<Plan, AllocError>
    ensures { IfOk result IsSized }
{
    Ok(plan(alloc, Command::Decode, 0, round(alloc, 0)?))
}

/// The decode of a volume of 400 bytes.
pub(crate) fn decode_long(alloc: Global) -> Result<Plan, AllocError>
    ensures { IfOk result IsSized }
{
    let mut plan = plan(alloc, Command::Decode, 0, round(alloc, 0)?);
    plan.info.dat_size = 400;
    Ok(plan)
}

/// And of the first one with one deleted id.
pub(crate) fn decode_less(alloc: Global) -> Result<Plan, AllocError>
    ensures { IfOk result IsSized }
{
    let mut plan = plan(alloc, Command::Decode, 0, round(alloc, 0)?);
    let mut deleted = Vec::new(alloc);
    deleted.push(5)?;
    plan.deleted = deleted;
    Ok(plan)
}

fn is_list(progress: &Progress, wanted: &[(u32, Kind, Stage)]) -> bool {
    progress.place == 8
        && progress.files.len() == wanted.len()
        && progress.files.iter().zip(wanted).all(|(file, (server, kind, stage))| {
            file.server == *server && file.kind == *kind && file.stage == *stage && file.length == 0
        })
}

#[test]
fn an_encode_ends_with_the_plain_files(rt: HostRuntime) -> Result<(), Fail> {
    let progress = Progress::new(rt.alloc(), &encode(rt.alloc())?)?;
    assert_eq!(rt; progress.files.len(), 24);
    let ends = [
        (21, Kind::Shard(13), 1),
        (22, Kind::Idx, 2),
        (23, Kind::Dat, 2),
    ];
    for (at, kind, server) in ends {
        assert!(rt; at < progress.files.len());
        assert_eq!(rt; progress.files[at].kind, kind);
        assert_eq!(rt; progress.files[at].server, server);
    }
    Ok(())
}

#[test]
fn a_rebuild_makes_the_missing_shards(rt: HostRuntime) -> Result<(), Fail> {
    let progress = Progress::new(rt.alloc(), &rebuild(rt.alloc())?)?;
    let wanted = [
        (0, Kind::Vif, Stage::Absent),
        (0, Kind::Ecx, Stage::Absent),
        (0, Kind::Ecj, Stage::Absent),
        (0, Kind::Shard(0), Stage::Absent),
        (0, Kind::Shard(4), Stage::Absent),
        (0, Kind::Shard(8), Stage::Absent),
        (0, Kind::Shard(12), Stage::Absent),
    ];
    assert!(rt; is_list(&progress, &wanted));
    Ok(())
}

#[test]
fn a_moved_shard_comes_before_it_goes(rt: HostRuntime) -> Result<(), Fail> {
    let progress = Progress::new(rt.alloc(), &balance(rt.alloc())?)?;
    let wanted = [
        (0, Kind::Vif, Stage::Absent),
        (0, Kind::Ecx, Stage::Absent),
        (0, Kind::Ecj, Stage::Absent),
        (0, Kind::Shard(13), Stage::Absent),
        (1, Kind::Shard(13), Stage::Registered),
        (0, Kind::Shard(9), Stage::Absent),
        (1, Kind::Shard(9), Stage::Registered),
    ];
    assert!(rt; is_list(&progress, &wanted));
    Ok(())
}

#[test]
fn a_decode_removes_all_that_it_found(rt: HostRuntime) -> Result<(), Fail> {
    let mut places = Vec::new(rt.alloc());
    places.push((0, 3))?;
    places.push((1, 1))?;
    let progress = Progress::new(rt.alloc(), &plan(rt.alloc(), Command::Decode, 1, places))?;
    let wanted = [
        (1, Kind::Dat, Stage::Absent),
        (1, Kind::Idx, Stage::Absent),
        (3, Kind::Shard(0), Stage::Registered),
        (1, Kind::Shard(1), Stage::Registered),
        (1, Kind::Ecx, Stage::Registered),
        (1, Kind::Ecj, Stage::Registered),
        (1, Kind::Vif, Stage::Registered),
        (3, Kind::Ecx, Stage::Registered),
        (3, Kind::Ecj, Stage::Registered),
        (3, Kind::Vif, Stage::Registered),
    ];
    assert!(rt; is_list(&progress, &wanted));
    Ok(())
}
