//! The pieces of a row, from the data file.
ghost use Rattle.std.specs.Prelude.{◌≡◌, ◌<◌, ◌≤◌, ◌+◌, ◌*◌, ◌^◌, ℕ, IsTrue, IsErr, IfErr, OnOk, length, slice_index, true, false};
ghost use Rattle.site_model.specs.Counts.{widest_piece};
ghost use Rattle.world_model.specs.Ratios.{data_count};
ghost use Rattle.shard_make.specs.Rooms.{HoldPieces, HoldsPiece, IsKeptBefore};
ghost use Rattle.shard_make.specs.Made.{ReadsAt, dat_in};

use crate::names::ShardNames;
use site_model::{DeviceFault, Failed, Site};

/// Where the pieces of a row begin in the data file: the first one there, and each so far behind the one before.
#[derive(Clone, Copy)]
pub(crate) struct RowPieces {
    pub from: u64,
    pub apart: u64,
    pub size: usize,
}

/// Reads the pieces of all data shards, one behind the other. What would lie past the end of the data file is
/// zeros, and isn't read.
pub(crate) fn read_pieces<T: Site>(
    site: &mut T,
    names: &ShardNames,
    dat_size: u64,
    row: RowPieces,
    room: &mut [u8],
) -> Result<(), DeviceFault>
    requires servers { names.now.servers ≡ T.servers site.old }
    requires dat { IsTrue T.tells → length (dat_in names.now (T.disk site.old).files) ≡ dat_size }
    requires narrow { row.size ≤ widest_piece }
    requires range { row.from + data_count names.now.ratio * row.apart < 2 ^ 63 }
    requires room { data_count names.now.ratio * row.size ≤ length room.old }
    ensures pieces { OnOk result (IsTrue T.tells → HoldPieces (dat_in names.now (T.disk site.old).files)
        room.new row.from row.apart row.size (data_count names.now.ratio)) }
    ensures reads { ReadsAt (IsTrue T.tells) T.disk T.counts T.servers names.now.home
        (data_count names.now.ratio) site.old site.new (IsErr result) }
    ensures blame { IfErr result (λ fault. fault.server ≡ names.now.home) }
{
    for shard in 0..names.ratio.data_count() {
        read_piece(site, names, dat_size, row, shard, room)?;
    }
    Ok(())
}

// Reads the piece of a data shard behind those of the shards before it.
fn read_piece<T: Site>(
    site: &mut T,
    names: &ShardNames,
    dat_size: u64,
    row: RowPieces,
    shard: u8,
    room: &mut [u8],
) -> Result<(), DeviceFault>
    requires servers { names.now.servers ≡ T.servers site.old }
    requires dat { IsTrue T.tells → length (dat_in names.now (T.disk site.old).files) ≡ dat_size }
    requires narrow { row.size ≤ widest_piece }
    requires shard { shard < data_count names.now.ratio }
    requires range { row.from + data_count names.now.ratio * row.apart < 2 ^ 63 }
    requires room { data_count names.now.ratio * row.size ≤ length room.old }
    ensures piece { OnOk result (IsTrue T.tells → HoldsPiece (dat_in names.now (T.disk site.old).files)
        room.new (row.from + shard * row.apart) row.size shard) }
    ensures before { IsKeptBefore (shard * row.size) room.old room.new }
    ensures reads { ReadsAt (IsTrue T.tells) T.disk T.counts T.servers names.now.home 1
        site.old site.new (IsErr result) }
    ensures blame { IfErr result (λ fault. fault.server ≡ names.now.home) }
{
    let at = row.from + u64::from(shard) * row.apart;
    let place = usize::from(shard) * row.size;
    let end = place + row.size;
    match fill(site, names, dat_size, at, &mut room[place..end]) {
        Ok(()) => Ok(()),
        Err(_) => Err(DeviceFault { server: names.home }),
    }
}

// Fills `out` with the bytes of the data file from a place on, and with zeros past its end.
fn fill<T: Site>(
    site: &mut T,
    names: &ShardNames,
    dat_size: u64,
    at: u64,
    out: &mut [u8],
) -> Result<(), Failed>
    requires servers { names.now.servers ≡ T.servers site.old }
    requires dat { IsTrue T.tells → length (dat_in names.now (T.disk site.old).files) ≡ dat_size }
    requires narrow { length out.old ≤ widest_piece }
    ensures bytes { OnOk result (IsTrue T.tells → (j : ℕ) → j < length out.old
        → slice_index out.new j ≡ slice_index (dat_in names.now (T.disk site.old).files) (at + j)) }
    ensures reads { ReadsAt (IsTrue T.tells) T.disk T.counts T.servers names.now.home 1
        site.old site.new (IsErr result) }
{
    let count = dat_size.saturating_sub(at).min(out.len() as u64) as usize;
    out[count..].fill(0);
    if count == 0 {
        return Ok(());
    }
    site.read(names.home, names.dat.as_str(), at, &mut out[..count])
}
