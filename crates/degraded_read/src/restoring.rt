//! A part of a shard from other shards.
ghost use Rattle.std.specs.Prelude.{◌≡◌, ◌<◌, ◌≤◌, ◌+◌, ◌*◌, IsTrue, IsSome, Some, None, OnOk, length, map};
ghost use Rattle.std.specs.String.{string_bytes};
ghost use Rattle.site_model.specs.Counts.{TakesCalls, widest_piece};
ghost use Rattle.world_model.specs.Ratios.{data_count, parity_count};
ghost use Rattle.degraded_read.specs.Gathering.{AreNames, HoldRange, IsRestoredPart, OnServers, standing_in};
ghost use Rattle.degraded_read.specs.Reads.{FailsBy, OnlyReads};

use crate::gathering::gather;
use rs_kernel::restore_piece;
use shard_table::Places;
use site_model::{DeviceFault, Site};
use world_model::types::Ratio;

/// Writes a part of a shard from as many others as give it. `failed` is the lowest server that failed so far.
pub(crate) fn restored<T: Site>(
    site: &mut T,
    volume: u32,
    names: &[String],
    places: &Places,
    ratio: Ratio,
    shard: u8,
    at: u64,
    failed: &mut Option<u32>,
    room: &mut [u8],
    out: &mut [u8],
) -> Result<(), DeviceFault>
    requires names { AreNames volume (map string_bytes names.now) }
    requires servers { OnServers (T.servers site.old) places.now }
    requires range { IsTrue T.tells
        → HoldRange (T.disk site.old).files volume places.now (at + length out.old) }
    requires enough { failed.old ≡ None
        → data_count ratio ≤ length (standing_in places.now (data_count ratio + parity_count ratio)) }
    requires shard { shard < data_count ratio + parity_count ratio }
    requires narrow { length out.old ≤ widest_piece }
    requires room { data_count ratio * length out.old ≤ length room.old }
    ensures part { OnOk result (IsTrue T.tells → IsRestoredPart ratio (T.disk site.old).files volume
        places.now shard at failed.new out.new) }
    ensures fails { FailsBy ratio places.now result failed.old failed.new
        (T.counts site.old) (T.counts site.new) }
    ensures reads { OnlyReads (IsTrue T.tells) T.disk T.counts T.servers
        (TakesCalls (length (standing_in places.now (data_count ratio + parity_count ratio)))
        (length out.old)) site.old site.new (λ s. ⊥) }
{
    let size = out.len();
    let found = gather(site, volume, names, places, ratio, at, size, *failed, room);
    *failed = found.failed;
    let enough = usize::from(ratio.data_count());
    if found.count < enough {
        return Err(blamed(found.failed));
    }
    restore_piece(
        ratio,
        &found.have[..found.count],
        &room[..enough * size],
        shard,
        out,
    );
    Ok(())
}

// The fault of the server that failed.
fn blamed(failed: Option<u32>) -> DeviceFault
    requires { IsSome failed }
    ensures { failed ≡ Some result.server }
{
    match failed {
        Some(server) => DeviceFault { server },
        None => unreachable!(),
    }
}
