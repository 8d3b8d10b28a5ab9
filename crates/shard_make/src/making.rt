//! One piece of each shard.
ghost use Rattle.std.specs.Prelude.{◌≡◌, ◌<◌, ◌≤◌, ◌+◌, ◌*◌, ◌^◌, IsTrue, IsErrOf, IfErr, OnOk, length};
ghost use Rattle.site_model.specs.Counts.{Calls, TakesCalls, widest_piece};
ghost use Rattle.world_model.specs.Sizes.{max_dat};
ghost use Rattle.world_model.specs.Ratios.{data_count, parity_count};
ghost use Rattle.stripe_layout.specs.Stripes.{GeometryInRange};
ghost use Rattle.stripe_layout.specs.Rows.{all_rows, row_block, row_start};
ghost use Rattle.shard_make.specs.Rooms.{AreColumns, IsKeptBefore};
ghost use Rattle.shard_make.specs.Made.{ArePiecesFrom, Grows, HavePieces, IsFault, Makes, calls_of, count_of, dat_in, piece_of, piece_width};

use crate::names::ShardNames;
use crate::reading::{RowPieces, read_pieces};
use crate::writing::append_pieces;
use rs_kernel::encode_piece;
use site_model::{DeviceFault, PIECE, Site};
use stripe_layout::Geometry;
use world_model::types::Ratio;

/// Makes one piece of each shard: reads the bytes of a row's blocks from the place `at` of each block on, at most
/// 65,536 and to the blocks' end, computes the parity pieces, and puts the pieces behind the bytes of the
/// temporary files of the shards.
pub fn make_piece<T: Site>(
    site: &mut T,
    names: &ShardNames,
    geometry: Geometry,
    dat_size: u64,
    row: u64,
    at: u64,
    buffer: &mut [u8],
) -> Result<(), DeviceFault>
    requires ratio { geometry.ratio ≡ names.now.ratio }
    requires geometry { GeometryInRange geometry }
    requires size { dat_size ≤ max_dat }
    requires row { row < all_rows geometry dat_size }
    requires at { at < row_block geometry dat_size row }
    requires buffer { count_of names.now * widest_piece ≤ length buffer.old }
    requires servers { names.now.servers ≡ T.servers site.old }
    requires dat { IsTrue T.tells → length (dat_in names.now (T.disk site.old).files) ≡ dat_size }
    ensures effect { IsTrue T.tells → Grows names.now (piece_width geometry dat_size row at)
        (T.disk site.old) (T.disk site.new) }
    ensures done { OnOk result (IsTrue T.tells → HavePieces names.now
        (piece_of geometry (dat_in names.now (T.disk site.old).files) row at)
        (T.disk site.old) (T.disk site.new)) }
    ensures takes { TakesCalls (calls_of geometry.ratio) widest_piece (T.counts site.old)
        (T.counts site.new) }
    ensures runs { Calls T.counts T.servers site.old site.new
        (λ s. IsErrOf result (record { server = s })) }
    ensures cause { IfErr result (λ fault. IsFault names.now
        (IsTrue T.tells → T.disk site.new ≡ T.disk site.old) fault.server
        (T.counts site.old) (T.counts site.new)) }
{
    let pieces = pieces_of_row(&geometry, dat_size, row, at);
    let all = usize::from(names.ratio.shard_count()) * pieces.size;
    make_in(site, names, dat_size, pieces, &mut buffer[..all])
}

// Makes these pieces in a room that they fill.
fn make_in<T: Site>(
    site: &mut T,
    names: &ShardNames,
    dat_size: u64,
    row: RowPieces,
    room: &mut [u8],
) -> Result<(), DeviceFault>
    requires servers { names.now.servers ≡ T.servers site.old }
    requires dat { IsTrue T.tells → length (dat_in names.now (T.disk site.old).files) ≡ dat_size }
    requires narrow { row.size ≤ widest_piece }
    requires range { row.from + data_count names.now.ratio * row.apart < 2 ^ 63 }
    requires room { length room.old ≡ count_of names.now * row.size }
    ensures effect { IsTrue T.tells → Grows names.now row.size (T.disk site.old) (T.disk site.new) }
    ensures done { OnOk result (IsTrue T.tells → Makes names.now row.from row.apart row.size room.new
        (T.disk site.old) (T.disk site.new)) }
    ensures takes { TakesCalls (calls_of names.now.ratio) widest_piece (T.counts site.old)
        (T.counts site.new) }
    ensures runs { Calls T.counts T.servers site.old site.new
        (λ s. IsErrOf result (record { server = s })) }
    ensures cause { IfErr result (λ fault. IsFault names.now
        (IsTrue T.tells → T.disk site.new ≡ T.disk site.old) fault.server
        (T.counts site.old) (T.counts site.new)) }
{
    read_pieces(site, names, dat_size, row, room)?;
    add_parity(names.ratio, row.size, room);
    append_pieces(site, names, row.size, room)
}

// Computes the pieces of the parity shards behind those of the data shards.
fn add_parity(ratio: Ratio, size: usize, room: &mut [u8])
    requires { length room.old ≡ (data_count ratio + parity_count ratio) * size }
    ensures kept { IsKeptBefore (data_count ratio * size) room.old room.new }
    ensures columns { AreColumns (data_count ratio) (parity_count ratio) size room.new }
{
    let (source, parity) = room.split_at_mut(usize::from(ratio.data_count()) * size);
    encode_piece(ratio, source, parity);
}

// Where the pieces from a place of a row's blocks on stand.
fn pieces_of_row(geometry: &Geometry, dat_size: u64, row: u64, at: u64) -> RowPieces
    requires geometry { GeometryInRange geometry.now }
    requires size { dat_size ≤ max_dat }
    requires row { row < all_rows geometry.now dat_size }
    requires at { at < row_block geometry.now dat_size row }
    ensures { ArePiecesFrom geometry.now dat_size row at result }
{
    let (start, block) = row_place(geometry, dat_size, row);
    RowPieces {
        from: u64::from(geometry.ratio.data_count()) * start + at,
        apart: block,
        size: (block - at).min(PIECE as u64) as usize,
    }
}

/// Where the blocks of a row begin in each shard, and their size. A row is one of those of a data file of this size.
pub fn row_place(geometry: &Geometry, dat_size: u64, row: u64) -> (u64, u64)
    requires geometry { GeometryInRange geometry.now }
    requires size { dat_size ≤ max_dat }
    requires row { row < all_rows geometry.now dat_size }
    ensures start { result.0 ≡ row_start geometry.now dat_size row }
    ensures block { result.1 ≡ row_block geometry.now dat_size row }
{
    let (large_rows, _) = geometry.rows(dat_size);
    let large = u64::from(geometry.large);
    let small = u64::from(geometry.small);
    if row < large_rows {
        (row * large, large)
    } else {
        (large_rows * large + (row - large_rows) * small, small)
    }
}
