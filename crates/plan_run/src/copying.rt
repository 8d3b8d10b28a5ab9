//! The steps that copy a piece of a shard or of an index. For `run_step`, to come.
ghost use Rattle.std.specs.Prelude.{◌≡◌, ◌≤◌, ◌<◌, ◌+◌, ◌-◌, ◌*◌, ◌^◌, IsTrue, IfErr, IsErrOf, OnOk, Some, drop, length, min, take};
ghost use Rattle.site_model.specs.Disk.{bytes_of};
ghost use Rattle.site_model.specs.Counts.{TakesCalls, widest_piece};
ghost use Rattle.world_model.specs.Sizes.{max_dat};
ghost use Rattle.stripe_layout.specs.Stripes.{GeometryInRange, shard_length, shards_in_all};
ghost use Rattle.shard_table.specs.Table.{row_of};
ghost use Rattle.image_meaning.specs.Share.{share_of};
ghost use Rattle.degraded_read.specs.Reading.{HasEnoughShards, shards_standing};
ghost use Rattle.degraded_read.specs.Readers.{IsReader};
ghost use Rattle.degraded_read.specs.Reads.{IsFew, OnlyReads};
ghost use Rattle.file_names.specs.declared.Kind.TheVariants.{Ecx, Shard};
ghost use Rattle.plan_steps.specs.declared.step.Step.TheVariants as step;
ghost use Rattle.plan_steps.specs.AsTold.{StandsAsTold};
ghost use Rattle.plan_steps.specs.Next.{next_step};
ghost use Rattle.plan_steps.specs.Stepping.{IsDue};
ghost use Rattle.plan_steps.specs.Progressing.{running};
ghost use Rattle.plan_run.specs.Copying.{AreCoded, FailsWritingOrFew, GivesShardPart};
ghost use Rattle.plan_run.specs.Places.{HasTable};
ghost use Rattle.plan_run.specs.Stepping.{IsAtWork, Steps, TakesFew};

use crate::grow_file;
use crate::names::FileNames;
use crate::steps::place_of;
use degraded_read::Reader;
use file_names::Kind;
use plan_steps::{Plan, Progress};
use shard_table::ShardTable;
use site_model::{DeviceFault, PIECE, Site};
use volume_forms::ENTRY_LENGTH;

/// Reads a part of a shard of the plan's volume, around servers that fail.
pub(crate) fn read_part<T: Site>(
    site: &mut T,
    plan: &Plan,
    progress: &Progress,
    names: &FileNames,
    table: &ShardTable,
    reader: &mut Reader,
    shard: u8,
    at: u64,
    out: &mut [u8],
) -> Result<(), DeviceFault>
    requires work { IsAtWork (running plan.now progress.now) (T.servers site.old) names.now }
    requires table { HasTable (running plan.now progress.now) (T.servers site.old) table.now }
    requires reader { IsReader plan.now.volume widest_piece reader.old }
    requires told { IsTrue T.tells → StandsAsTold plan.now progress.now.files.items
        (share_of (T.disk site.old).files plan.now.volume) }
    requires coded { IsTrue T.tells → AreCoded (running plan.now progress.now) (T.disk site.old).files }
    requires enough { HasEnoughShards plan.now.info (row_of table.now plan.now.volume) }
    requires shard { shard < shards_in_all plan.now.info.geometry }
    requires range { at + length out.old ≤ shard_length plan.now.info.geometry plan.now.info.dat_size }
    requires narrow { length out.old ≤ widest_piece }
    ensures part { OnOk result (IsTrue T.tells
        → GivesShardPart (running plan.now progress.now) (T.disk site.old).files shard at out.new) }
    ensures few { IfErr result (λ _. IsFew plan.now.info.geometry.ratio (row_of table.now plan.now.volume)
        (T.counts site.old) (T.counts site.new)) }
    ensures reads { OnlyReads (IsTrue T.tells) T.disk T.counts T.servers (TakesCalls 16 widest_piece)
        site.old site.new (λ s. IsErrOf result (record { server = s })) }
    ensures reader { IsReader plan.now.volume widest_piece reader.new }
    ensures size { length out.new ≡ length out.old }
{
    reader.read_shard(site, table, &plan.info, shard, at, out)
}

// How long the piece of a shard is that begins here.
fn shard_piece(plan: &Plan, at: u64) -> usize
    requires geometry { GeometryInRange plan.now.info.geometry }
    requires dat_size { plan.now.info.dat_size ≤ max_dat }
    requires at { at ≤ shard_length plan.now.info.geometry plan.now.info.dat_size }
    ensures size { result ≡ min widest_piece
        (shard_length plan.now.info.geometry plan.now.info.dat_size - at) }
    ensures fits { at + result < 2 ^ 64 }
{
    let rest = plan.info.geometry.shard_length(plan.info.dat_size) - at;
    rest.min(PIECE as u64) as usize
}

/// Puts a piece of a shard, as it stands at other servers, behind a temporary file. It is read around servers that
/// fail, so it doesn't matter which server the step names.
pub(crate) fn copy_shard_step<T: Site>(
    site: &mut T,
    plan: &Plan,
    progress: &mut Progress,
    names: &FileNames,
    table: &ShardTable,
    reader: &mut Reader,
    from: u32,
    to: u32,
    shard: u8,
    at: u64,
    room: &mut [u8],
) -> Result<(), DeviceFault>
    requires work { IsAtWork (running plan.now progress.old) (T.servers site.old) names.now }
    requires due { IsDue (running plan.now progress.old) (step.CopyPiece from to (Shard shard) at) }
    requires next { next_step plan.now progress.old.files.items progress.old.place
        ≡ Some (step.CopyPiece from to (Shard shard) at) }
    requires told { IsTrue T.tells → StandsAsTold plan.now progress.old.files.items
        (share_of (T.disk site.old).files plan.now.volume) }
    requires table { HasTable (running plan.now progress.old) (T.servers site.old) table.now }
    requires reader { IsReader plan.now.volume widest_piece reader.old }
    requires room { 65536 ≤ length room.old }
    ensures steps { Steps (IsTrue T.tells) (running plan.now progress.old)
        (step.CopyPiece from to (Shard shard) at) (running plan.now progress.new) result
        (T.disk site.old) (T.disk site.new) }
    ensures few { TakesFew T.counts T.servers result site.old site.new }
    ensures fails { FailsWritingOrFew T.counts plan.now.info (row_of table.now plan.now.volume)
        result site.old site.new }
    ensures reader { IsReader plan.now.volume widest_piece reader.new }
    ensures room { length room.new ≡ length room.old }
{
    let place = place_of(progress, to, Kind::Shard(shard));
    let size = shard_piece(plan, at);
    read_part(
        site,
        plan,
        progress,
        names,
        table,
        reader,
        shard,
        at,
        &mut room[..size],
    )?;
    let piece = &room[..size];
    grow_file(
        site,
        plan,
        progress,
        place,
        names.temp(place),
        names.last(place),
        piece,
    )
}

// How long the piece of the index is that begins here.
fn index_piece(plan: &Plan, at: u64) -> usize
    requires count { plan.now.entry_count < 2 ^ 60 }
    requires at { at ≤ 16 * plan.now.entry_count }
    ensures size { result ≡ min widest_piece (16 * plan.now.entry_count - at) }
    ensures fits { at + result < 2 ^ 64 }
{
    let rest = ENTRY_LENGTH as u64 * plan.entry_count - at;
    rest.min(PIECE as u64) as usize
}

// Reads a part of a file, all or nothing.
fn read_file<T: Site>(
    site: &mut T,
    server: u32,
    name: &str,
    at: u64,
    out: &mut [u8],
) -> Result<(), DeviceFault>
    requires server { server < T.servers site.old }
    requires within { IsTrue T.tells
        → at + length out.old ≤ length (bytes_of ((T.disk site.old).files (server, name.now))) }
    requires narrow { length out.old ≤ widest_piece }
    ensures part { OnOk result (IsTrue T.tells
        → out.new ≡ take (length out.old) (drop at (bytes_of ((T.disk site.old).files (server, name.now))))) }
    ensures reads { OnlyReads (IsTrue T.tells) T.disk T.counts T.servers (TakesCalls 1 widest_piece)
        site.old site.new (λ s. IsErrOf result (record { server = s })) }
    ensures size { length out.new ≡ length out.old }
{
    match site.read(server, name, at, out) {
        Ok(()) => Ok(()),
        Err(_) => Err(DeviceFault { server }),
    }
}

/// Puts a piece of the index, as it stands at the server that the step names, behind a temporary file. The index has
/// the same name at every server.
pub(crate) fn copy_index_step<T: Site>(
    site: &mut T,
    plan: &Plan,
    progress: &mut Progress,
    names: &FileNames,
    from: u32,
    to: u32,
    at: u64,
    room: &mut [u8],
) -> Result<(), DeviceFault>
    requires work { IsAtWork (running plan.now progress.old) (T.servers site.old) names.now }
    requires due { IsDue (running plan.now progress.old) (step.CopyPiece from to Ecx at) }
    requires next { next_step plan.now progress.old.files.items progress.old.place
        ≡ Some (step.CopyPiece from to Ecx at) }
    requires told { IsTrue T.tells → StandsAsTold plan.now progress.old.files.items
        (share_of (T.disk site.old).files plan.now.volume) }
    requires room { 65536 ≤ length room.old }
    ensures steps { Steps (IsTrue T.tells) (running plan.now progress.old) (step.CopyPiece from to Ecx at)
        (running plan.now progress.new) result (T.disk site.old) (T.disk site.new) }
    ensures few { TakesFew T.counts T.servers result site.old site.new }
    ensures room { length room.new ≡ length room.old }
{
    let place = place_of(progress, to, Kind::Ecx);
    let name = names.last(place);
    let size = index_piece(plan, at);
    read_file(site, from, name, at, &mut room[..size])?;
    let piece = &room[..size];
    grow_file(site, plan, progress, place, names.temp(place), name, piece)
}
