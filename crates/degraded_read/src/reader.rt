//! Reads of a volume's shards, with the names and the room that they need.
ghost use Rattle.std.specs.Prelude.{◌≡◌, ◌<◌, ◌≤◌, ◌+◌, ◌*◌, IsTrue, IfErr, IsErrOf, IfOk, OnOk, None, length, map, min};
ghost use Rattle.std.specs.String.{string_bytes};
ghost use Rattle.site_model.specs.Counts.{TakesCalls, widest_piece};
ghost use Rattle.stripe_layout.specs.Stripes.{shard_length, shards_in_all};
ghost use Rattle.shard_table.specs.Table.{row_of};
ghost use Rattle.degraded_read.specs.Gathering.{AreNames};
ghost use Rattle.degraded_read.specs.Reading.{GivesPart, HasEnoughShards, HasPlaces, NoneRose, shards_standing};
ghost use Rattle.degraded_read.specs.Ranges.{FillsPiece, IsKeptBefore};
ghost use Rattle.degraded_read.specs.Reads.{FailsBy, IsFew, OnlyReads};

use crate::reading::read_part;
use file_names::{FileName, Kind, MAX_SHARDS, spell};
use shard_table::ShardTable;
use site_model::{DeviceFault, PIECE, Site};
use std::alloc::{AllocError, Global};
use stripe_layout::{Info, Piece};
use whole_file::zeros;

// How many data shards the widest ratio has.
const MOST_DATA: usize = 12;

/// Reads parts of one volume's shards. It keeps the names of their files and the room for as many of its
/// widest parts as the widest ratio has data shards.
#[derive(Drop)]
pub struct Reader {
    volume: u32,
    names: Vec<String>,
    room: Vec<u8>,
    widest: usize,
    ghost names_are: { AreNames volume (map string_bytes names.items) },
    ghost room_is: { length room.items ≡ 12 * widest },
    ghost narrow: { widest ≤ widest_piece },
}

/// The names of the volume's shards.
pub(crate) fn names_of(alloc: Global, volume: u32) -> Result<Vec<String>, AllocError>
    ensures { IfOk result (λ names. AreNames volume (map string_bytes names.items)) }
{
    let mut names = Vec::new(alloc);
    for shard in 0..MAX_SHARDS {
        let name = FileName {
            volume,
            kind: Kind::Shard(shard),
            temp: false,
        };
        names.push(spell(alloc, &name)?)?;
    }
    Ok(names)
}

impl Reader {
    ghost use Rattle.degraded_read.specs.Readers.{IsReader};

    /// A reader of the volume, for ranges of any length.
    pub fn new(alloc: Global, volume: u32) -> Result<Reader, AllocError>
        ensures { IfOk result (IsReader volume widest_piece) }
    {
        Reader::for_ranges(alloc, volume, PIECE)
    }

    /// A reader of the volume, for ranges that are at most so long. It has no more room than they need.
    pub fn for_ranges(alloc: Global, volume: u32, longest: usize) -> Result<Reader, AllocError>
        ensures { IfOk result (IsReader volume (min longest widest_piece)) }
    {
        let names = names_of(alloc, volume)?;
        let widest = longest.min(PIECE);
        let room = zeros(alloc, MOST_DATA * widest)?;
        Ok(Reader {
            volume,
            names,
            room,
            widest,
        })
    }

    /// Reads a part of a shard, which may be missing itself.
    pub fn read_shard<T: Site>(
        &mut self,
        site: &mut T,
        table: &ShardTable,
        info: &Info,
        shard: u8,
        at: u64,
        out: &mut [u8],
    ) -> Result<(), DeviceFault>
        requires servers { table.now.servers ≡ T.servers site.old }
        requires placed { IsTrue T.tells → HasPlaces (T.disk site.old).files self.old.volume
            info.now (row_of table.now self.old.volume) }
        requires enough { HasEnoughShards info.now (row_of table.now self.old.volume) }
        requires shard { shard < shards_in_all info.now.geometry }
        requires range { at + length out.old ≤ shard_length info.now.geometry info.now.dat_size }
        requires part { length out.old ≤ self.old.widest }
        ensures part { OnOk result (IsTrue T.tells
            → GivesPart (T.disk site.old).files self.old.volume info.now (row_of table.now self.old.volume)
            (NoneRose (T.counts site.old) (T.counts site.new)) shard at out.new) }
        ensures few { IfErr result (λ _. IsFew info.now.geometry.ratio (row_of table.now self.old.volume)
            (T.counts site.old) (T.counts site.new)) }
        ensures reads { OnlyReads (IsTrue T.tells) T.disk T.counts T.servers
            (TakesCalls (shards_standing info.now (row_of table.now self.old.volume)) (length out.old))
            site.old site.new (λ s. IsErrOf result (record { server = s })) }
        ensures reader { IsReader self.old.volume self.old.widest self.new }
    {
        let mut failed = None;
        read_part(
            site,
            self.volume,
            self.names.as_slice(),
            table,
            info,
            shard,
            at,
            &mut failed,
            self.room.as_mut_slice(),
            out,
        )
    }

    /// Reads a part of a shard into `out`, from a place of it on. `failed` is the lowest server that failed
    /// so far.
    pub(crate) fn read_between<T: Site>(
        &mut self,
        site: &mut T,
        table: &ShardTable,
        info: &Info,
        part: Piece,
        failed: &mut Option<u32>,
        from: usize,
        out: &mut [u8],
    ) -> Result<(), DeviceFault>
        requires servers { table.now.servers ≡ T.servers site.old }
        requires placed { IsTrue T.tells → HasPlaces (T.disk site.old).files self.old.volume
            info.now (row_of table.now self.old.volume) }
        requires enough { HasEnoughShards info.now (row_of table.now self.old.volume) }
        requires shard { part.shard < shards_in_all info.now.geometry }
        requires range { part.at + part.length ≤ shard_length info.now.geometry info.now.dat_size }
        requires part { part.length ≤ self.old.widest }
        requires within { from + part.length ≤ length out.old }
        ensures part { OnOk result (IsTrue T.tells
            → FillsPiece (T.disk site.old).files self.old.volume info.now (row_of table.now self.old.volume)
            (failed.new ≡ None) part from out.new) }
        ensures before { IsKeptBefore from out.old out.new }
        ensures fails { FailsBy info.now.geometry.ratio (row_of table.now self.old.volume) result
            failed.old failed.new (T.counts site.old) (T.counts site.new) }
        ensures reads { OnlyReads (IsTrue T.tells) T.disk T.counts T.servers
            (TakesCalls (shards_standing info.now (row_of table.now self.old.volume)) part.length)
            site.old site.new (λ s. ⊥) }
        ensures reader { IsReader self.old.volume self.old.widest self.new }
    {
        let end = from + part.length as usize;
        read_part(
            site,
            self.volume,
            self.names.as_slice(),
            table,
            info,
            part.shard,
            part.at,
            failed,
            self.room.as_mut_slice(),
            &mut out[from..end],
        )
    }
}
