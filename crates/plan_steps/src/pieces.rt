//! Where the pieces of shards and of a data file stand in the rows.
#![tactic(auto)]

ghost use Rattle.std.specs.Prelude.{◌≡◌, ◌+◌, ◌*◌, ◌^◌, ◌<◌, ◌≤◌};
ghost use Rattle.world_model.specs.Sizes.{max_dat};
ghost use Rattle.stripe_layout.specs.Stripes.{GeometryInRange, large_rows, row_width};
ghost use Rattle.stripe_layout.specs.Pieces.{large_part};
ghost use Rattle.plan_steps.specs.Next.{data_step, join_in_rows, join_step, make_in_rows, make_step};

use crate::Step;
use stripe_layout::Info;
use volume_forms::ENTRY_LENGTH;
use world_model::limits::DELETION_LENGTH;

/// The length of an entry of an index, and of a pair of a journal.
pub(crate) const ENTRY: u64 = ENTRY_LENGTH as u64;

// The rows of large blocks, and how far they go in each shard.
fn large_rows(info: &Info) -> (u64, u64)
    requires geometry { GeometryInRange info.now.geometry }
    requires size { info.now.dat_size ≤ max_dat }
    ensures rows { result.0 ≡ large_rows info.now.geometry info.now.dat_size }
    ensures part { result.1 ≡ large_part info.now.geometry info.now.dat_size }
    ensures few { result.0 ≤ result.1 }
    ensures within { row_width info.now.geometry * result.1 ≤ max_dat }
{
    let (rows, _) = info.geometry.rows(info.dat_size);
    (rows, rows * u64::from(info.geometry.large))
}

#[tactic(auto, using(crate::proofs::Rows::quotient_within))]
fn make_in_rows(size: u64, from: u64, at: u64) -> Step
    requires some { 0 < size }
    requires fits { from + at < 2 ^ 64 }
    ensures { result ≡ make_in_rows size from at }
{
    Step::MakePiece {
        row: from + at / size,
        at: at % size,
    }
}

/// The piece of all shards from this place on.
pub(crate) fn make_step(info: &Info, at: u64) -> Step
    requires geometry { GeometryInRange info.now.geometry }
    requires size { info.now.dat_size ≤ max_dat }
    ensures { result ≡ make_step info.now at }
{
    let (rows, part) = large_rows(info);
    if at < part {
        make_in_rows(u64::from(info.geometry.large), 0, at)
    } else {
        make_in_rows(u64::from(info.geometry.small), rows, at - part)
    }
}

#[tactic(auto, using(crate::proofs::Rows::blocks_within))]
fn join_in_rows(width: u64, size: u64, from: u64, at: u64) -> Step
    requires width { 0 < width }
    requires few { width ≤ 12 }
    requires some { 0 < size }
    requires fits { from + at < 2 ^ 64 }
    ensures { result ≡ join_in_rows width size from at }
{
    let block = at / size;
    Step::JoinPiece {
        row: from + block / width,
        block: (block % width) as u8,
        at: at % size,
    }
}

/// The piece of the data file from this place on.
pub(crate) fn join_step(info: &Info, at: u64) -> Step
    requires geometry { GeometryInRange info.now.geometry }
    requires size { info.now.dat_size ≤ max_dat }
    ensures { result ≡ join_step info.now at }
{
    let (rows, part) = large_rows(info);
    let width = u64::from(info.geometry.ratio.data_count());
    let end = width * part;
    if at < end {
        join_in_rows(width, u64::from(info.geometry.large), 0, at)
    } else {
        join_in_rows(width, u64::from(info.geometry.small), rows, at - end)
    }
}

/// The piece of the data file from this place on, or else of the deletions behind it.
pub(crate) fn data_step(info: &Info, at: u64) -> Step
    requires geometry { GeometryInRange info.now.geometry }
    requires size { info.now.dat_size ≤ max_dat }
    ensures { result ≡ data_step info.now at }
{
    if at < info.dat_size {
        join_step(info, at)
    } else {
        Step::JoinDeletes {
            at: (at - info.dat_size) / DELETION_LENGTH,
        }
    }
}
