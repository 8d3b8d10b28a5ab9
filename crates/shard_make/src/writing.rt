//! The pieces of a row, into the temporary files of the shards.
ghost use Rattle.std.specs.Prelude.{◌≡◌, ◌<◌, ◌≤◌, ◌+◌, ◌*◌, IsTrue, IsErr, IsErrOf, IfErr, OnOk, Some, length};
ghost use Rattle.site_model.specs.Disk.{Appends, grown};
ghost use Rattle.site_model.specs.Counts.{Calls, CountsWrite, TakesCalls, widest_piece};
ghost use Rattle.shard_make.specs.Rooms.{piece_in};
ghost use Rattle.shard_make.specs.Made.{Grows, HavePieces, IsAppendFault, count_of, shard_place};

use crate::names::ShardNames;
use site_model::{DeviceFault, Site};

/// Puts each shard's piece, which stand one behind the other, behind the bytes of its temporary file.
pub(crate) fn append_pieces<T: Site>(
    site: &mut T,
    names: &ShardNames,
    size: usize,
    pieces: &[u8],
) -> Result<(), DeviceFault>
    requires servers { names.now.servers ≡ T.servers site.old }
    requires narrow { size ≤ widest_piece }
    requires pieces { length pieces.now ≡ count_of names.now * size }
    ensures effect { IsTrue T.tells → Grows names.now size (T.disk site.old) (T.disk site.new) }
    ensures done { OnOk result (IsTrue T.tells
        → HavePieces names.now (piece_in pieces.now size) (T.disk site.old) (T.disk site.new)) }
    ensures takes { TakesCalls (count_of names.now) widest_piece (T.counts site.old) (T.counts site.new) }
    ensures runs { Calls T.counts T.servers site.old site.new
        (λ s. IsErrOf result (record { server = s })) }
    ensures cause { IfErr result (λ fault. IsAppendFault names.now fault.server
        (T.counts site.old) (T.counts site.new)) }
{
    for shard in 0..names.ratio.shard_count() {
        append_piece(site, names, size, pieces, shard)?;
    }
    Ok(())
}

// The same for one shard.
fn append_piece<T: Site>(
    site: &mut T,
    names: &ShardNames,
    size: usize,
    pieces: &[u8],
    shard: u8,
) -> Result<(), DeviceFault>
    requires servers { names.now.servers ≡ T.servers site.old }
    requires pieces { length pieces.now ≡ count_of names.now * size }
    requires shard { shard < count_of names.now }
    ensures done { OnOk result (IsTrue T.tells → (T.disk site.new).files (shard_place names.now shard)
        ≡ Some (grown ((T.disk site.old).files (shard_place names.now shard))
        (piece_in pieces.now size shard))) }
    ensures effect { IsTrue T.tells → Appends (shard_place names.now shard) (piece_in pieces.now size shard)
        (T.disk site.old) (T.disk site.new) }
    ensures counts { CountsWrite (shard_place names.now shard).0 size (T.counts site.old) (T.counts site.new)
        (IsErr result) }
    ensures servers { T.servers site.new ≡ T.servers site.old }
    ensures blame { IfErr result (λ fault. fault.server ≡ (shard_place names.now shard).0) }
{
    let number = usize::from(shard);
    let at = number * size;
    let server = names.target(shard);
    let name = names.shards[number].as_str();
    match site.append(server, name, &pieces[at..at + size]) {
        Ok(()) => Ok(()),
        Err(_) => Err(DeviceFault { server }),
    }
}
