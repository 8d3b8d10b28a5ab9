//! The steps of each plan of the volume of 56 bytes, one after the other, to its end, each of them legal.
ghost use Rattle.std.specs.Prelude.{◌≡◌, IfOk};
ghost use Rattle.shard_table.specs.Table.{IsAdded};
ghost use Rattle.plan_steps.specs.Next.{IsSized};

use crate::list_tests::{balance, decode, decode_less, decode_long, encode, rebuild};
use crate::{FileState, Plan, Progress, Stage, Step};
use file_names::{Kind, MAX_SHARDS};
use shard_table::ShardTable;
use std::alloc::{AllocError, Global};
use std::test::Fail;

const SERVERS: u32 = 4;

fn is_shard(kind: Kind) -> bool {
    match kind {
        Kind::Shard(_) => true,
        _ => false,
    }
}

// So many bytes more, if it is a file that the step appends to.
fn grown(file: FileState, appends: bool, bytes: u64) -> FileState {
    if !appends || file.stage == Stage::Registered || file.stage == Stage::Synced {
        return file;
    }
    FileState {
        length: file.length.saturating_add(bytes),
        stage: Stage::Writing,
        ..file
    }
}

fn staged(file: FileState, finishes: bool, stage: Stage) -> FileState {
    if finishes {
        FileState { stage, ..file }
    } else {
        file
    }
}

// The file after the step. Each list has at most one entry, and each block one piece of 8 bytes.
fn after(step: Step, file: FileState) -> FileState {
    let kind = file.kind;
    match step {
        Step::PutInfo { server } => staged(
            file,
            file.is_file(server, Kind::Vif),
            Stage::Registered,
        ),
        Step::WriteEntries { .. } => grown(file, kind == Kind::Ecx || kind == Kind::Idx, 0),
        Step::PutJournal { server, .. } => grown(file, file.is_file(server, Kind::Ecj), 0),
        Step::MakePiece { .. } => grown(file, is_shard(kind), 8),
        Step::MendPiece { .. } => grown(file, is_shard(kind), 8),
        Step::JoinPiece { .. } => grown(file, kind == Kind::Dat, 8),
        Step::JoinDeletes { .. } => grown(file, kind == Kind::Dat, 32),
        Step::CopyPiece { to, kind, .. } => {
            let bytes = if is_shard(kind) { 8 } else { 16 };
            grown(file, file.is_file(to, kind), bytes)
        }
        Step::Sync { server, kind } => staged(file, file.is_file(server, kind), Stage::Synced),
        Step::Register { server, kind } => staged(
            file,
            file.is_file(server, kind),
            Stage::Registered,
        ),
        Step::Unregister { server, kind } => staged(file, file.is_file(server, kind), Stage::Gone),
        Step::DropIndex { server } => staged(file, file.is_file(server, Kind::Idx), Stage::Gone),
        Step::DropData { server } => staged(file, file.is_file(server, Kind::Dat), Stage::Gone),
    }
}

fn take(progress: &mut Progress, step: Step, joined: u64) {
    for at in 0..progress.files.len() {
        progress.files[at] = after(step, progress.files[at]);
    }
    if let Step::WriteEntries { .. } = step {
        progress.place = joined;
    }
}

// A shard's place, where a table may have it.
fn set(table: &mut ShardTable, shard: u8, place: Option<u32>)
    requires { IsAdded table.old 7 }
    ensures { IsAdded table.new 7 }
{
    if shard >= MAX_SHARDS {
        return;
    }
    match place {
        Some(server) if server >= table.servers() => {}
        _ => table.set(7, shard, place),
    }
}

// The shards as they stand when the plan begins.
fn table_of(alloc: Global, plan: &Plan) -> Result<ShardTable, AllocError>
    ensures { IfOk result (λ table. IsAdded table 7) }
{
    let mut table = ShardTable::new(alloc, SERVERS);
    table.add_volume(7)?;
    for (shard, server) in &plan.places {
        set(&mut table, *shard, Some(*server));
    }
    Ok(table)
}

// The table after the step.
fn follow(table: &mut ShardTable, step: Step)
    requires { IsAdded table.old 7 }
    ensures { IsAdded table.new 7 }
{
    match step {
        Step::Register {
            server,
            kind: Kind::Shard(shard),
        } => set(table, shard, Some(server)),
        _ => {}
    }
}

// How many steps the plan has, where the data file that a decode joins has this length. None, if one isn't legal.
fn steps(alloc: Global, plan: &Plan, joined: u64) -> Result<Option<u32>, AllocError>
    requires { IsSized plan.now }
{
    let mut progress = Progress::new(alloc, plan)?;
    let mut table = table_of(alloc, plan)?;
    for count in 0..100 {
        let Some(step) = plan.next(&progress) else {
            return Ok(Some(count));
        };
        if !plan.legal(&step, &table, &progress) {
            return Ok(None);
        }
        take(&mut progress, step, joined);
        follow(&mut table, step);
    }
    Ok(Some(100))
}

#[test]
fn each_plan_comes_to_its_end(rt: HostRuntime) -> Result<(), Fail> {
    let alloc = rt.alloc();
    assert_eq!(rt; steps(alloc, &encode(alloc)?, 0)?, Some(44));
    assert_eq!(rt; steps(alloc, &rebuild(alloc)?, 0)?, Some(16));
    assert_eq!(rt; steps(alloc, &balance(alloc)?, 0)?, Some(15));
    assert_eq!(rt; steps(alloc, &decode(alloc)?, 56)?, Some(38));
    assert_eq!(rt; steps(alloc, &decode_less(alloc)?, 88)?, Some(39));
    Ok(())
}

// Whether the step is legal before any other was taken.
fn may_begin(alloc: Global, plan: &Plan, step: Step) -> Result<bool, AllocError>
    requires { IsSized plan.now }
{
    let progress = Progress::new(alloc, plan)?;
    Ok(plan.legal(&step, &table_of(alloc, plan)?, &progress))
}

#[test]
fn no_step_comes_before_its_time(rt: HostRuntime) -> Result<(), Fail> {
    let alloc = rt.alloc();
    let plan = encode(alloc)?;
    assert!(rt; may_begin(alloc, &plan, Step::PutInfo { server: 3 })?);
    assert!(rt; !may_begin(alloc, &plan, Step::DropIndex { server: 2 })?);
    assert!(rt; !may_begin(alloc, &plan, Step::DropData { server: 2 })?);
    let kind = Kind::Shard(5);
    assert!(rt; !may_begin(alloc, &plan, Step::Sync { server: 1, kind })?);
    assert!(rt; !may_begin(alloc, &plan, Step::Register { server: 1, kind })?);
    let plan = decode(alloc)?;
    assert!(rt; !may_begin(alloc, &plan, Step::PutInfo { server: 3 })?);
    assert!(rt; !may_begin(alloc, &plan, Step::Unregister { server: 1, kind })?);
    assert!(rt; !may_begin(alloc, &plan, Step::JoinDeletes { at: 0 })?);
    let late = Step::JoinPiece {
        row: 0,
        block: 1,
        at: 0,
    };
    assert!(rt; !may_begin(alloc, &plan, late)?);
    Ok(())
}

// The next step where the first file of the plan's list has come so far.
fn next_from(plan: &Plan, mut progress: Progress, at: usize, length: u64) -> Option<Step>
    requires { IsSized plan.now }
{
    if at < progress.files.len() {
        progress.files[at].stage = Stage::Writing;
        progress.files[at].length = length;
    }
    plan.next(&progress)
}

#[test]
fn a_piece_goes_on_where_the_file_ends(rt: HostRuntime) -> Result<(), Fail> {
    let plan = decode(rt.alloc())?;
    let first = Step::JoinPiece {
        row: 0,
        block: 0,
        at: 0,
    };
    assert_eq!(rt; plan.next(&Progress::new(rt.alloc(), &plan)?), Some(first));
    let middle = Step::JoinPiece {
        row: 0,
        block: 6,
        at: 3,
    };
    assert_eq!(rt;
        next_from(&plan, Progress::new(rt.alloc(), &plan)?, 0, 51),
        Some(middle)
    );
    let end = Step::Sync {
        server: 0,
        kind: Kind::Dat,
    };
    assert_eq!(rt;
        next_from(&plan, Progress::new(rt.alloc(), &plan)?, 0, 56),
        Some(end)
    );
    let plan = decode_long(rt.alloc())?;
    let large = Step::JoinPiece {
        row: 1,
        block: 9,
        at: 15,
    };
    assert_eq!(rt;
        next_from(&plan, Progress::new(rt.alloc(), &plan)?, 0, 319),
        Some(large)
    );
    let small = Step::JoinPiece {
        row: 2,
        block: 1,
        at: 0,
    };
    assert_eq!(rt;
        next_from(&plan, Progress::new(rt.alloc(), &plan)?, 0, 328),
        Some(small)
    );
    Ok(())
}
