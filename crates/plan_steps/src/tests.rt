//! The plan of an encode over four servers, and one of a balance: what may come and what may go.
use crate::{FileState, Plan, Progress, Stage};
use file_names::Kind;
use shard_table::ShardTable;
use std::alloc::{AllocError, Global};
use std::test::Fail;
use stripe_layout::{Geometry, Info};
use world_model::types::{Command, Ratio};

const SERVERS: u32 = 4;

const HOME: u32 = 2;

const SHARDS: u8 = 14;

// A plan of volume 7, with these shards at the start.
fn plan(alloc: Global, command: Command, places: Vec<(u8, u32)>) -> Plan {
    Plan {
        command,
        volume: 7,
        home: HOME,
        info: Info {
            dat_size: 48,
            geometry: Geometry {
                ratio: Ratio::TenFour,
                large: 16,
                small: 4,
            },
        },
        entries: Vec::new(alloc),
        entry_count: 0,
        deleted: Vec::new(alloc),
        places,
        targets: Vec::new(alloc),
        moves: Vec::new(alloc),
    }
}

fn encode(alloc: Global) -> Plan {
    let ratio = Ratio::TenFour;
    plan(alloc, Command::Encode { ratio }, Vec::new(alloc))
}

// A file that is written, or that was found and goes; the first `finished` files of the list are finished.
fn add(
    files: &mut Vec<FileState>,
    finished: usize,
    server: u32,
    kind: Kind,
    found: bool,
) -> Result<(), AllocError> {
    let is_finished = files.len() < finished;
    let stage = match (is_finished, found) {
        (false, false) => Stage::Absent,
        (false, true) => Stage::Registered,
        (true, false) => Stage::Registered,
        (true, true) => Stage::Gone,
    };
    files.push(FileState {
        server,
        kind,
        length: 0,
        stage,
    })?;
    Ok(())
}

// The list of the encode: texts, indexes, shards, and the files of the plain volume.
fn encode_list(alloc: Global, finished: usize) -> Result<Progress, AllocError> {
    let mut files = Vec::new(alloc);
    for server in 0..SERVERS {
        add(&mut files, finished, server, Kind::Vif, false)?;
    }
    for server in 0..SERVERS {
        add(&mut files, finished, server, Kind::Ecx, false)?;
    }
    for shard in 0..SHARDS {
        let server = u32::from(shard % 4);
        add(&mut files, finished, server, Kind::Shard(shard), false)?;
    }
    add(&mut files, finished, HOME, Kind::Idx, true)?;
    add(&mut files, finished, HOME, Kind::Dat, true)?;
    Ok(Progress { files, place: 8 })
}

#[test]
fn a_shard_waits_for_the_text_and_the_index_beside_it(rt: HostRuntime) -> Result<(), Fail> {
    let plan = encode(rt.alloc());
    let texts = encode_list(rt.alloc(), 4)?;
    assert!(rt; plan.may_register(&texts, 1, Kind::Ecx));
    assert!(rt; !plan.may_register(&texts, 1, Kind::Shard(5)));
    let two_indexes = encode_list(rt.alloc(), 6)?;
    assert!(rt; plan.may_register(&two_indexes, 1, Kind::Shard(5)));
    assert!(rt; !plan.may_register(&two_indexes, 2, Kind::Shard(6)));
    assert!(rt; !plan.may_register(&two_indexes, 1, Kind::Idx));
    assert!(rt; !plan.may_register(&two_indexes, 1, Kind::Cpx));
    Ok(())
}

#[test]
fn the_index_goes_after_all_shards_and_then_its_data_file(rt: HostRuntime) -> Result<(), Fail> {
    let plan = encode(rt.alloc());
    let table = ShardTable::new(rt.alloc(), SERVERS);
    let one_missing = encode_list(rt.alloc(), 21)?;
    assert!(rt; !plan.may_remove(&one_missing, &table, HOME, Kind::Idx));
    let all_shards = encode_list(rt.alloc(), 22)?;
    assert!(rt; plan.may_remove(&all_shards, &table, HOME, Kind::Idx));
    assert!(rt; !plan.may_remove(&all_shards, &table, HOME, Kind::Dat));
    let no_index = encode_list(rt.alloc(), 23)?;
    assert!(rt; plan.may_remove(&no_index, &table, HOME, Kind::Dat));
    assert!(rt; !plan.may_remove(&no_index, &table, 1, Kind::Shard(5)));
    Ok(())
}

#[test]
fn files_are_finished_from_the_front(rt: HostRuntime) -> Result<(), Fail> {
    let plan = encode(rt.alloc());
    let begun = encode_list(rt.alloc(), 0)?;
    assert_eq!(rt; plan.first_open(&begun), Some(0));
    assert!(rt; plan.has_file(&begun, HOME, Kind::Dat));
    let texts = encode_list(rt.alloc(), 4)?;
    assert_eq!(rt; plan.first_open(&texts), Some(4));
    assert!(rt; plan.has_file(&texts, 3, Kind::Vif));
    let ended = encode_list(rt.alloc(), 24)?;
    assert_eq!(rt; plan.first_open(&ended), None);
    assert!(rt; !plan.has_file(&ended, HOME, Kind::Dat));
    Ok(())
}

#[test]
fn a_shard_goes_once_the_table_names_another_server(rt: HostRuntime) -> Result<(), Fail> {
    let mut places = Vec::new(rt.alloc());
    places.push((9, 1))?;
    let plan = plan(rt.alloc(), Command::Balance, places);
    let progress = Progress {
        files: Vec::new(rt.alloc()),
        place: 8,
    };
    let mut table = ShardTable::new(rt.alloc(), SERVERS);
    table.add_volume(7)?;
    table.set(7, 9, Some(1));
    assert!(rt; plan.has_shard(&progress, 9));
    assert!(rt; !plan.may_remove(&progress, &table, 1, Kind::Shard(9)));
    assert!(rt; !plan.may_remove(&progress, &table, 1, Kind::Vif));
    table.set(7, 9, Some(0));
    assert!(rt; plan.may_remove(&progress, &table, 1, Kind::Shard(9)));
    assert!(rt; plan.may_remove(&progress, &table, 3, Kind::Vif));
    Ok(())
}
