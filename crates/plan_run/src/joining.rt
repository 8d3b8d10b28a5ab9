//! The step that joins a piece of a decode's data file. For `run_step`, to come.
ghost use Rattle.std.specs.Prelude.{◌≡◌, ◌≤◌, ◌<◌, ◌+◌, ◌-◌, IsTrue, length, min};
ghost use Rattle.site_model.specs.Counts.{widest_piece};
ghost use Rattle.world_model.specs.Sizes.{max_dat};
ghost use Rattle.stripe_layout.specs.Stripes.{GeometryInRange};
ghost use Rattle.stripe_layout.specs.Rows.{all_rows, row_block, row_start};
ghost use Rattle.shard_table.specs.Table.{row_of};
ghost use Rattle.image_meaning.specs.Share.{share_of};
ghost use Rattle.degraded_read.specs.Readers.{IsReader};
ghost use Rattle.plan_steps.specs.declared.step.Step.TheVariants as step;
ghost use Rattle.plan_steps.specs.AsTold.{StandsAsTold};
ghost use Rattle.plan_steps.specs.Stepping.{IsDue};
ghost use Rattle.plan_steps.specs.Progressing.{running};
ghost use Rattle.plan_run.specs.Copying.{FailsWritingOrFew};
ghost use Rattle.plan_run.specs.Places.{HasTable};
ghost use Rattle.plan_run.specs.Stepping.{IsAtWork, Steps, TakesFew};

use crate::copying::read_part;
use crate::grow_file;
use crate::names::FileNames;
use crate::steps::place_of;
use degraded_read::Reader;
use file_names::Kind;
use plan_steps::{Plan, Progress};
use shard_make::row_place;
use shard_table::ShardTable;
use site_model::{DeviceFault, PIECE, Site};
use stripe_layout::Info;

// Where a piece of the data file, of which so much was joined before, stands in its shard, and how long it is.
fn join_part(info: &Info, from: u64, row: u64, at: u64) -> (u64, usize)
    requires geometry { GeometryInRange info.now.geometry }
    requires size { info.now.dat_size ≤ max_dat }
    requires row { row < all_rows info.now.geometry info.now.dat_size }
    requires at { at < row_block info.now.geometry info.now.dat_size row }
    requires from { from < info.now.dat_size }
    ensures start { result.0 ≡ row_start info.now.geometry info.now.dat_size row + at }
    ensures size { result.1 ≡ min (min widest_piece
        (row_block info.now.geometry info.now.dat_size row - at)) (info.now.dat_size - from) }
{
    let (start, block) = row_place(&info.geometry, info.dat_size, row);
    let rest = (block - at).min(PIECE as u64).min(info.dat_size - from);
    (start + at, rest as usize)
}

/// Puts a piece of the data file, as it stands in a block of a shard, behind the temporary one. It is read around
/// servers that fail.
pub(crate) fn join_step<T: Site>(
    site: &mut T,
    plan: &Plan,
    progress: &mut Progress,
    names: &FileNames,
    table: &ShardTable,
    reader: &mut Reader,
    row: u64,
    block: u8,
    at: u64,
    room: &mut [u8],
) -> Result<(), DeviceFault>
    requires work { IsAtWork (running plan.now progress.old) (T.servers site.old) names.now }
    requires due { IsDue (running plan.now progress.old) (step.JoinPiece row block at) }
    requires told { IsTrue T.tells → StandsAsTold plan.now progress.old.files.items
        (share_of (T.disk site.old).files plan.now.volume) }
    requires table { HasTable (running plan.now progress.old) (T.servers site.old) table.now }
    requires reader { IsReader plan.now.volume widest_piece reader.old }
    requires room { 65536 ≤ length room.old }
    ensures steps { Steps (IsTrue T.tells) (running plan.now progress.old) (step.JoinPiece row block at)
        (running plan.now progress.new) result (T.disk site.old) (T.disk site.new) }
    ensures few { TakesFew T.counts T.servers result site.old site.new }
    ensures fails { FailsWritingOrFew T.counts plan.now.info (row_of table.now plan.now.volume)
        result site.old site.new }
    ensures reader { IsReader plan.now.volume widest_piece reader.new }
    ensures room { length room.new ≡ length room.old }
{
    let place = place_of(progress, plan.home, Kind::Dat);
    let joined = progress.files[place].length;
    let (start, size) = join_part(&plan.info, joined, row, at);
    read_part(
        site,
        plan,
        progress,
        names,
        table,
        reader,
        block,
        start,
        &mut room[..size],
    )?;
    let piece = &room[..size];
    grow_file(
        site,
        plan,
        progress,
        place,
        names.temp(place),
        names.last(place),
        piece,
    )
}
