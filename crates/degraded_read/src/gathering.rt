//! The same bytes of as many shards as give all others.
ghost use Rattle.std.specs.Prelude.{◌≡◌, ◌⊎◌, ◌<◌, ◌≤◌, ◌+◌, ◌*◌, ℕ, IsTrue, Some, length, map, take, IsErr, OnOk, slice_index};
ghost use Rattle.std.specs.String.{string_bytes};
ghost use Rattle.site_model.specs.Disk.{bytes_of};
ghost use Rattle.site_model.specs.Counts.{Counts, IsLater, TakesCalls, widest_piece};
ghost use Rattle.world_model.specs.Ratios.{data_count, parity_count};
ghost use Rattle.degraded_read.specs.Gathering.{AreNames, AreNumbers, HasEnough, HasGathered, HoldRange};
ghost use Rattle.degraded_read.specs.Gathering.{OnServers, reads_of, standing_in};
ghost use Rattle.degraded_read.specs.Ranges.{IsKeptBefore};
ghost use Rattle.degraded_read.specs.Reads.{OnlyReads, ReadsOnce, StaysBlamed};

use shard_table::{Places, ROOM};
use site_model::{Failed, Site};
use world_model::types::Ratio;

/// Which shards were read, in ascending order, and the lowest server that failed, if one did.
#[derive(Drop)]
pub(crate) struct Gathered {
    pub have: [u8; ROOM],
    pub count: usize,
    pub failed: Option<u32>,
}

/// Reads the same bytes of the shards of a volume that stand, the lowest first, until there are enough, one
/// piece behind the other, and passes over those that fail. `failed` is the lowest server that failed before.
pub(crate) fn gather<T: Site>(
    site: &mut T,
    volume: u32,
    names: &[String],
    places: &Places,
    ratio: Ratio,
    at: u64,
    size: usize,
    failed: Option<u32>,
    room: &mut [u8],
) -> Gathered
    requires names { AreNames volume (map string_bytes names.now) }
    requires servers { OnServers (T.servers site.old) places.now }
    requires range { IsTrue T.tells → HoldRange (T.disk site.old).files volume places.now (at + size) }
    requires narrow { size ≤ widest_piece }
    requires room { data_count ratio * size ≤ length room.old }
    ensures gathered { (old : Counts) → IsLater old (T.counts site.old)
        → HasEnough (data_count ratio) (data_count ratio + parity_count ratio) (IsTrue T.tells)
        (T.disk site.old).files volume places.now at size old (T.counts site.new)
        (take result.count result.have) result.failed room.new }
    ensures blamed { StaysBlamed failed result.failed (T.counts site.old) (T.counts site.new) }
    ensures numbers { AreNumbers (data_count ratio) result.count result.have }
    ensures reads { OnlyReads (IsTrue T.tells) T.disk T.counts T.servers
        (TakesCalls (length (standing_in places.now (data_count ratio + parity_count ratio))) size)
        site.old site.new (λ s. ⊥) }
{
    let mut so_far = Gathered {
        have: [0; ROOM],
        count: 0,
        failed,
    };
    let enough = usize::from(ratio.data_count());
    let all = ratio.shard_count();
    let mut shard = 0;
    while shard < all && so_far.count < enough {
        gather_one(
            site,
            volume,
            names,
            places,
            shard,
            at,
            size,
            &mut so_far,
            room,
        );
        shard += 1;
    }
    so_far
}

// Reads one shard, if it stands, into the place behind those that were read.
fn gather_one<T: Site>(
    site: &mut T,
    volume: u32,
    names: &[String],
    places: &Places,
    shard: u8,
    at: u64,
    size: usize,
    so_far: &mut Gathered,
    room: &mut [u8],
)
    requires names { AreNames volume (map string_bytes names.now) }
    requires shard { shard < 16 }
    requires servers { OnServers (T.servers site.old) places.now }
    requires range { IsTrue T.tells → HoldRange (T.disk site.old).files volume places.now (at + size) }
    requires count { so_far.old.count < 16 }
    requires numbers { length so_far.old.have ≡ 16 }
    requires narrow { size ≤ widest_piece }
    requires room { (so_far.old.count + 1) * size ≤ length room.old }
    ensures gathered { (old : Counts) → IsLater old (T.counts site.old)
        → HasGathered (IsTrue T.tells) (T.disk site.old).files volume places.now at size old
        (T.counts site.old) shard (take so_far.old.count so_far.old.have) so_far.old.failed room.old
        → HasGathered (IsTrue T.tells) (T.disk site.old).files volume places.now at size old
        (T.counts site.new) (shard + 1) (take so_far.new.count so_far.new.have) so_far.new.failed room.new }
    ensures blamed { StaysBlamed so_far.old.failed so_far.new.failed
        (T.counts site.old) (T.counts site.new) }
    ensures numbers { AreNumbers (so_far.old.count + 1) so_far.new.count so_far.new.have }
    ensures reads { OnlyReads (IsTrue T.tells) T.disk T.counts T.servers
        (TakesCalls (reads_of places.now shard) size) site.old site.new (λ s. ⊥) }
{
    let Some(server) = places[usize::from(shard)] else {
        return;
    };
    let from = so_far.count * size;
    let name = names[usize::from(shard)].as_str();
    match read_into(site, server, name, at, size, from, room) {
        Ok(()) => {
            so_far.have[so_far.count] = shard;
            so_far.count += 1;
        }
        Err(_) => so_far.failed = Some(lower(so_far.failed, server)),
    }
}

/// Reads so many bytes of a file into the room from a place on.
pub(crate) fn read_into<T: Site>(
    site: &mut T,
    server: u32,
    name: &str,
    at: u64,
    size: usize,
    from: usize,
    room: &mut [u8],
) -> Result<(), Failed>
    requires server { server < T.servers site.old }
    requires range { IsTrue T.tells
        → at + size ≤ length (bytes_of ((T.disk site.old).files (server, name.now))) }
    requires room { from + size ≤ length room.old }
    ensures bytes { OnOk result (IsTrue T.tells → (i : ℕ) → i < size → slice_index room.new (from + i)
        ≡ slice_index (bytes_of ((T.disk site.old).files (server, name.now))) (at + i)) }
    ensures before { IsKeptBefore from room.old room.new }
    ensures reads { ReadsOnce (IsTrue T.tells) T.disk T.counts T.servers server size site.old site.new
        (IsErr result) }
{
    site.read(server, name, at, &mut room[from..from + size])
}

/// The lower of two servers.
pub(crate) fn lower(failed: Option<u32>, server: u32) -> u32
    ensures { (result ≡ server) ⊎ (failed ≡ Some result) }
{
    match failed {
        Some(other) => other.min(server),
        None => server,
    }
}
