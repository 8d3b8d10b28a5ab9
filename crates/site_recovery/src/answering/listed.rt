//! What an opening answers of volumes of any form. For the recovery of coded volumes, to come.
ghost use Rattle.std.specs.Prelude.{◌≡◌, ◌<◌, ◌≤◌, IfOk, OnOk, map};
ghost use Rattle.std.specs.List.{All, filter_map};
ghost use Rattle.std.specs.List.Sorted.{IsStrictlyIncreasing};
ghost use Rattle.std.specs.Option.{ForSome};
ghost use Rattle.site_model.specs.Counts.{max_servers};
ghost use Rattle.shard_table.specs.Table.{IsAdded, no_places, row_of};
ghost use Rattle.coded_volume.specs.Checking.{AreCopies};
ghost use Rattle.site_recovery.specs.Opening.{IsWithin};
ghost use Rattle.site_recovery.specs.Answering.{HasRow, HasHomes, HasShardsOf, IsAnswerOf};
ghost use Rattle.site_recovery.specs.Answering.{plain_home, coded_number, lost_number};

use crate::Recovered;
use crate::forms::{ListedForm, TestedGroup};
use crate::placing::homes_of;
use coded_volume::ShardCopy;
use file_names::MAX_SHARDS;
use shard_table::{Places, ShardTable};
use std::alloc::{AllocError, Global};

/// The volumes by what was found of them, with where their shards stand.
pub(crate) fn answer_listed(
    alloc: Global,
    servers: u32,
    tested: &[TestedGroup],
) -> Result<Recovered, AllocError>
    requires some { 0 < servers }
    requires few { servers ≤ max_servers }
    requires rise { IsStrictlyIncreasing (map (λ t. t.group.volume) tested.now) }
    requires within { All (λ t. IsWithin servers t.form) tested.now }
    ensures { IfOk result (IsAnswerOf servers tested.now) }
{
    let plain = plain_homes(alloc, tested)?;
    let coded = coded_numbers(alloc, tested)?;
    let lost = lost_numbers(alloc, tested)?;
    let table = table_of(alloc, servers, tested)?;
    Ok(Recovered {
        table,
        plain,
        coded,
        lost,
    })
}

// The plain volumes, each with its server.
fn plain_homes(alloc: Global, tested: &[TestedGroup]) -> Result<Vec<(u32, u32)>, AllocError>
    ensures { IfOk result (λ rows. rows.items ≡ filter_map plain_home tested.now) }
{
    let mut rows = Vec::new(alloc);
    for found in tested {
        if let ListedForm::Plain { home, .. } = &found.form {
            rows.push((found.group.volume, *home))?;
        }
    }
    Ok(rows)
}

fn coded_numbers(alloc: Global, tested: &[TestedGroup]) -> Result<Vec<u32>, AllocError>
    ensures { IfOk result (λ volumes. volumes.items ≡ filter_map coded_number tested.now) }
{
    let mut volumes = Vec::new(alloc);
    for found in tested {
        if let ListedForm::Coded { .. } = &found.form {
            volumes.push(found.group.volume)?;
        }
    }
    Ok(volumes)
}

fn lost_numbers(alloc: Global, tested: &[TestedGroup]) -> Result<Vec<u32>, AllocError>
    ensures { IfOk result (λ volumes. volumes.items ≡ filter_map lost_number tested.now) }
{
    let mut volumes = Vec::new(alloc);
    for found in tested {
        if let ListedForm::Lost = &found.form {
            volumes.push(found.group.volume)?;
        }
    }
    Ok(volumes)
}

// The shards of the coded volumes.
fn table_of(alloc: Global, servers: u32, tested: &[TestedGroup]) -> Result<ShardTable, AllocError>
    requires some { 0 < servers }
    requires few { servers ≤ max_servers }
    requires rise { IsStrictlyIncreasing (map (λ t. t.group.volume) tested.now) }
    requires within { All (λ t. IsWithin servers t.form) tested.now }
    ensures servers { IfOk result (λ table. table.servers ≡ servers) }
    ensures shards { IfOk result (HasShardsOf tested.now) }
{
    let mut table = ShardTable::new(alloc, servers);
    for found in tested {
        if let ListedForm::Coded { copies, .. } = &found.form {
            add_homes(&mut table, found.group.volume, copies)?;
        }
    }
    Ok(table)
}

// Adds a volume that has no shards in the table, with each shard at the lowest server with a copy.
fn add_homes(table: &mut ShardTable, volume: u32, copies: &[ShardCopy]) -> Result<(), AllocError>
    requires fresh { row_of table.old volume ≡ no_places }
    requires copies { AreCopies table.old.servers copies.now }
    ensures homes { OnOk result (HasHomes table.new volume copies.now) }
    ensures others { OnOk result (HasRow volume (row_of table.new volume) table.old table.new) }
{
    table.add_volume(volume)?;
    set_homes(table, volume, &homes_of(copies));
    Ok(())
}

// Sets the places of all shards of a volume that has none.
fn set_homes(table: &mut ShardTable, volume: u32, homes: &Places)
    requires fresh { row_of table.old volume ≡ no_places }
    requires added { IsAdded table.old volume }
    requires servers { All (λ home. ForSome home (λ server. server < table.old.servers)) homes.now }
    ensures { HasRow volume homes.now table.old table.new }
{
    for shard in 0..MAX_SHARDS {
        table.set(volume, shard, homes[usize::from(shard)]);
    }
}
