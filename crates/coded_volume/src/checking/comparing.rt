//! Whether a file is the same at two servers.
ghost use Rattle.std.specs.Prelude.{◌≡◌, ◌<◌, ◌↔◌, IsTrue, IfOk, IfErr, IsErrOf};
ghost use Rattle.site_model.specs.Disk.{bytes_of, length_of, standing};
ghost use Rattle.site_model.specs.Counts.{Calls};
ghost use Rattle.coded_volume.specs.Checking.{IsSiteFault};

use crate::checking::asking::{piece_at, size_at};
use site_model::{OpenFault, PIECE, Site};
use std::alloc::Global;

/// Whether the file of this name is absent at both servers, or stands with the same bytes.
pub(crate) fn are_same_files<T: Site>(
    alloc: Global,
    site: &mut T,
    name: &str,
    server: u32,
    other: u32,
) -> Result<bool, OpenFault>
    requires server { server < T.servers site.old }
    requires other { other < T.servers site.old }
    ensures equal { IfOk result (λ equal. IsTrue T.tells
        → (IsTrue equal ↔ (standing ((T.disk site.old).files (server, name.now))
        ≡ standing ((T.disk site.old).files (other, name.now))))) }
    ensures same { IsTrue T.tells → T.disk site.new ≡ T.disk site.old }
    ensures why { IfErr result IsSiteFault }
    ensures runs { Calls T.counts T.servers site.old site.new (λ s. IsErrOf result (OpenFault.Fault s)) }
{
    let size = size_at(site, server, name)?;
    if size_at(site, other, name)? != size {
        return Ok(false);
    }
    have_same_bytes(alloc, site, name, server, other, size.unwrap_or(0))
}

// Whether the files have the same bytes, of which there are so many. They are read in pieces, up to one that differs.
fn have_same_bytes<T: Site>(
    alloc: Global,
    site: &mut T,
    name: &str,
    server: u32,
    other: u32,
    length: u64,
) -> Result<bool, OpenFault>
    requires server { server < T.servers site.old }
    requires other { other < T.servers site.old }
    requires length { IsTrue T.tells → length_of ((T.disk site.old).files (server, name.now)) ≡ length }
    requires other_length { IsTrue T.tells → length_of ((T.disk site.old).files (other, name.now)) ≡ length }
    ensures equal { IfOk result (λ equal. IsTrue T.tells
        → (IsTrue equal ↔ (bytes_of ((T.disk site.old).files (server, name.now))
        ≡ bytes_of ((T.disk site.old).files (other, name.now))))) }
    ensures same { IsTrue T.tells → T.disk site.new ≡ T.disk site.old }
    ensures why { IfErr result IsSiteFault }
    ensures runs { Calls T.counts T.servers site.old site.new (λ s. IsErrOf result (OpenFault.Fault s)) }
{
    let mut at = 0;
    while at < length {
        let count = (length - at).min(PIECE as u64);
        let piece = piece_at(alloc, site, server, name, at, count as usize)?;
        let others = piece_at(alloc, site, other, name, at, count as usize)?;
        if !are_equal(&piece, &others) {
            return Ok(false);
        }
        at += count;
    }
    Ok(true)
}

fn are_equal(piece: &[u8], others: &[u8]) -> bool
    ensures { IsTrue result ↔ (piece.now ≡ others.now) }
{
    piece == others
}
