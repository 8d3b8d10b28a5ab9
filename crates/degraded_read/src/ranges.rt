//! A range of a data file: the pieces of its shards, one after the other, each in parts.
ghost use Rattle.std.specs.Prelude.{◌≡◌, ◌<◌, ◌≤◌, ◌+◌, ◌^◌, ℕ, IsTrue, IfErr, IsErrOf, None, OnOk, length, min};
ghost use Rattle.std.specs.List.{AllByRecursion, sum_by};
ghost use Rattle.world_model.specs.Sizes.{max_dat};
ghost use Rattle.stripe_layout.specs.Pieces.{IsPiece};
ghost use Rattle.stripe_layout.specs.Stripes.{GeometryInRange, shard_length};
ghost use Rattle.shard_table.specs.Table.{row_of};
ghost use Rattle.degraded_read.specs.declared.fault.ReadFault.{ReadFault};
ghost use Rattle.degraded_read.specs.Reading.{HasEnoughShards, HasPlaces, NoneRose};
ghost use Rattle.degraded_read.specs.Ranges.{FillsPiece, FillsPieces, GivesRange, IsKeptBefore};
ghost use Rattle.degraded_read.specs.Ranges.{TakesParts, TakesReads, parts_in, parts_of};
ghost use Rattle.site_model.specs.Counts.{widest_piece};
ghost use Rattle.degraded_read.specs.Readers.{IsReader};
ghost use Rattle.degraded_read.specs.Reads.{FailsBy, IsFew, OnlyReads};

use crate::ReadFault;
use crate::reader::Reader;
use shard_table::ShardTable;
use site_model::{DeviceFault, PIECE, Site};
use std::alloc::Global;
use stripe_layout::pieces::Pieces;
use stripe_layout::{Info, Piece};

impl Reader {
    /// Reads a range of the data file, from `offset` on. Each piece of a shard is read in parts of at most
    /// 65,536 bytes. The fault is that of the lowest server that failed in any part.
    pub fn read_range<T: Site>(
        &mut self,
        site: &mut T,
        table: &ShardTable,
        info: &Info,
        offset: u64,
        out: &mut [u8],
    ) -> Result<(), DeviceFault>
        requires servers { table.now.servers ≡ T.servers site.old }
        requires placed { IsTrue T.tells → HasPlaces (T.disk site.old).files self.old.volume
            info.now (row_of table.now self.old.volume) }
        requires enough { HasEnoughShards info.now (row_of table.now self.old.volume) }
        requires geometry { GeometryInRange info.now.geometry }
        requires dat_size { info.now.dat_size ≤ max_dat }
        requires range { offset + length out.old ≤ info.now.dat_size }
        requires room { min (length out.old) widest_piece ≤ self.old.widest }
        ensures range { OnOk result (IsTrue T.tells
            → GivesRange (T.disk site.old).files self.old.volume info.now (row_of table.now self.old.volume)
            (NoneRose (T.counts site.old) (T.counts site.new)) offset out.new) }
        ensures few { IfErr result (λ _. IsFew info.now.geometry.ratio (row_of table.now self.old.volume)
            (T.counts site.old) (T.counts site.new)) }
        ensures reads { OnlyReads (IsTrue T.tells) T.disk T.counts T.servers
            (TakesParts info.now (row_of table.now self.old.volume) offset (length out.old))
            site.old site.new (λ s. IsErrOf result (record { server = s })) }
        ensures reader { IsReader self.old.volume self.old.widest self.new }
    {
        let pieces = info
            .geometry
            .locate(info.dat_size, offset, out.len() as u64);
        self.read_pieces(site, table, info, pieces, out)
    }

    // Reads pieces of shards into `out`, one after the other.
    fn read_pieces<T: Site>(
        &mut self,
        site: &mut T,
        table: &ShardTable,
        info: &Info,
        pieces: Pieces,
        out: &mut [u8],
    ) -> Result<(), DeviceFault>
        requires servers { table.now.servers ≡ T.servers site.old }
        requires placed { IsTrue T.tells → HasPlaces (T.disk site.old).files self.old.volume
            info.now (row_of table.now self.old.volume) }
        requires enough { HasEnoughShards info.now (row_of table.now self.old.volume) }
        requires pieces { AllByRecursion (IsPiece info.now.geometry info.now.dat_size) pieces }
        requires fits { shard_length info.now.geometry info.now.dat_size < 2 ^ 64 }
        requires within { sum_by (λ p. p.length) pieces ≡ length out.old }
        requires room { min (length out.old) widest_piece ≤ self.old.widest }
        ensures pieces { OnOk result (IsTrue T.tells
            → FillsPieces (T.disk site.old).files self.old.volume info.now
            (row_of table.now self.old.volume) (NoneRose (T.counts site.old) (T.counts site.new))
            pieces out.new) }
        ensures few { IfErr result (λ _. IsFew info.now.geometry.ratio (row_of table.now self.old.volume)
            (T.counts site.old) (T.counts site.new)) }
        ensures reads { OnlyReads (IsTrue T.tells) T.disk T.counts T.servers
            (TakesReads (parts_of pieces) info.now (row_of table.now self.old.volume))
            site.old site.new (λ s. IsErrOf result (record { server = s })) }
        ensures reader { IsReader self.old.volume self.old.widest self.new }
    {
        let mut failed = None;
        let mut done = 0;
        for piece in pieces {
            self.read_piece(site, table, info, piece, &mut failed, done, out)?;
            done += piece.length as usize;
        }
        Ok(())
    }

    // Reads a piece of a shard into `out`, from a place of it on, in parts. `failed` is the lowest server
    // that failed so far.
    fn read_piece<T: Site>(
        &mut self,
        site: &mut T,
        table: &ShardTable,
        info: &Info,
        piece: Piece,
        failed: &mut Option<u32>,
        from: usize,
        out: &mut [u8],
    ) -> Result<(), DeviceFault>
        requires servers { table.now.servers ≡ T.servers site.old }
        requires placed { IsTrue T.tells → HasPlaces (T.disk site.old).files self.old.volume
            info.now (row_of table.now self.old.volume) }
        requires enough { HasEnoughShards info.now (row_of table.now self.old.volume) }
        requires piece { IsPiece info.now.geometry info.now.dat_size piece }
        requires fits { shard_length info.now.geometry info.now.dat_size < 2 ^ 64 }
        requires within { from + piece.length ≤ length out.old }
        requires room { min piece.length widest_piece ≤ self.old.widest }
        ensures piece { OnOk result (IsTrue T.tells
            → FillsPiece (T.disk site.old).files self.old.volume info.now (row_of table.now self.old.volume)
            (failed.new ≡ None) piece from out.new) }
        ensures before { IsKeptBefore from out.old out.new }
        ensures fails { FailsBy info.now.geometry.ratio (row_of table.now self.old.volume) result
            failed.old failed.new (T.counts site.old) (T.counts site.new) }
        ensures reads { OnlyReads (IsTrue T.tells) T.disk T.counts T.servers
            (TakesReads (parts_in piece.length) info.now (row_of table.now self.old.volume))
            site.old site.new (λ s. ⊥) }
        ensures reader { IsReader self.old.volume self.old.widest self.new }
    {
        let count = piece.length as usize;
        let mut done = 0;
        while done < count {
            let size = PIECE.min(count - done);
            let part = Piece {
                shard: piece.shard,
                at: piece.at + done as u64,
                length: size as u64,
            };
            self.read_between(site, table, info, part, failed, from + done, out)?;
            done += size;
        }
        Ok(())
    }
}

/// Reads a range of the volume's data file, as `Reader::read_range` does, by a reader of its own. Where there is
/// no memory for that, nothing is read.
pub fn read_range<T: Site>(
    alloc: Global,
    site: &mut T,
    table: &ShardTable,
    volume: u32,
    info: &Info,
    offset: u64,
    out: &mut [u8],
) -> Result<(), ReadFault>
    requires servers { table.now.servers ≡ T.servers site.old }
    requires placed { IsTrue T.tells
        → HasPlaces (T.disk site.old).files volume info.now (row_of table.now volume) }
    requires enough { HasEnoughShards info.now (row_of table.now volume) }
    requires geometry { GeometryInRange info.now.geometry }
    requires dat_size { info.now.dat_size ≤ max_dat }
    requires range { offset + length out.old ≤ info.now.dat_size }
    ensures range { OnOk result (IsTrue T.tells
        → GivesRange (T.disk site.old).files volume info.now (row_of table.now volume)
        (NoneRose (T.counts site.old) (T.counts site.new)) offset out.new) }
    ensures few { (server : ℕ) → IsErrOf result (ReadFault.Fault (record { server = server }))
        → IsFew info.now.geometry.ratio (row_of table.now volume) (T.counts site.old) (T.counts site.new) }
    ensures reads { OnlyReads (IsTrue T.tells) T.disk T.counts T.servers
        (TakesParts info.now (row_of table.now volume) offset (length out.old))
        site.old site.new (λ s. IsErrOf result (ReadFault.Fault (record { server = s }))) }
    ensures memory { IsErrOf result ReadFault.Memory → site.new ≡ site.old }
{
    let pieces = info
        .geometry
        .locate(info.dat_size, offset, out.len() as u64);
    let mut reader = Reader::for_ranges(alloc, volume, out.len())?;
    reader.read_pieces(site, table, info, pieces, out)?;
    Ok(())
}
