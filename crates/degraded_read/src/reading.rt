//! A part of a shard, from the shard itself or from others.
ghost use Rattle.std.specs.Prelude.{◌≡◌, ◌<◌, ◌≤◌, ◌+◌, ◌*◌, IsTrue, IfSome, OnOk, None, slice_set, length, map};
ghost use Rattle.std.specs.String.{string_bytes};
ghost use Rattle.site_model.specs.Counts.{TakesCalls, widest_piece};
ghost use Rattle.world_model.specs.Ratios.{data_count};
ghost use Rattle.stripe_layout.specs.Stripes.{shard_length, shards_in_all};
ghost use Rattle.shard_table.specs.Table.{row_of};
ghost use Rattle.degraded_read.specs.Gathering.{AreNames};
ghost use Rattle.degraded_read.specs.Reading.{GivesPart, HasEnoughShards, HasPlaces, IsOwnPlace, shards_standing};
ghost use Rattle.degraded_read.specs.Reads.{FailsBy, OnlyReads};

use crate::gathering::{lower, read_into};
use crate::restoring::restored;
use shard_table::{Places, ShardTable};
use site_model::{DeviceFault, Site};
use stripe_layout::Info;
use world_model::types::Ratio;

// The places without that of one shard.
fn without(places: &Places, shard: u8) -> Places
    requires { shard < 16 }
    ensures { result ≡ slice_set places.now shard None }
{
    let mut rest = *places;
    rest[usize::from(shard)] = None;
    rest
}

// The server of a shard that holds data.
fn own_place(places: &Places, ratio: Ratio, shard: u8) -> Option<u32>
    requires { shard < 16 }
    ensures { IfSome result (λ server. IsOwnPlace places.now ratio shard server) }
{
    if shard < ratio.data_count() {
        places[usize::from(shard)]
    } else {
        None
    }
}

/// Reads a part of a shard: from the shard itself, if it holds data and stands and its device answers, and
/// else from as many others as give it. `failed` is the lowest server that failed so far.
pub(crate) fn read_part<T: Site>(
    site: &mut T,
    volume: u32,
    names: &[String],
    table: &ShardTable,
    info: &Info,
    shard: u8,
    at: u64,
    failed: &mut Option<u32>,
    room: &mut [u8],
    out: &mut [u8],
) -> Result<(), DeviceFault>
    requires names { AreNames volume (map string_bytes names.now) }
    requires servers { table.now.servers ≡ T.servers site.old }
    requires placed { IsTrue T.tells
        → HasPlaces (T.disk site.old).files volume info.now (row_of table.now volume) }
    requires enough { HasEnoughShards info.now (row_of table.now volume) }
    requires shard { shard < shards_in_all info.now.geometry }
    requires range { at + length out.old ≤ shard_length info.now.geometry info.now.dat_size }
    requires narrow { length out.old ≤ widest_piece }
    requires room { data_count info.now.geometry.ratio * length out.old ≤ length room.old }
    ensures part { OnOk result (IsTrue T.tells → GivesPart (T.disk site.old).files volume info.now
        (row_of table.now volume) (failed.new ≡ None) shard at out.new) }
    ensures fails { FailsBy info.now.geometry.ratio (row_of table.now volume) result failed.old failed.new
        (T.counts site.old) (T.counts site.new) }
    ensures reads { OnlyReads (IsTrue T.tells) T.disk T.counts T.servers
        (TakesCalls (shards_standing info.now (row_of table.now volume)) (length out.old))
        site.old site.new (λ s. ⊥) }
{
    // Asked for what it promises of files: they hold bytes, so any shards, as many as give the others, are
    // a codeword's.
    let _servers = site.servers();
    let ratio = info.geometry.ratio;
    let row = table.row(volume);
    let Some(server) = own_place(row, ratio, shard) else {
        return restored(
            site, volume, names, row, ratio, shard, at, failed, room, out,
        );
    };
    let size = out.len();
    let name = names[usize::from(shard)].as_str();
    match read_into(site, server, name, at, size, 0, out) {
        Ok(()) => Ok(()),
        Err(_) => {
            *failed = Some(lower(*failed, server));
            let places = without(row, shard);
            restored(
                site, volume, names, &places, ratio, shard, at, failed, room, out,
            )
        }
    }
}
