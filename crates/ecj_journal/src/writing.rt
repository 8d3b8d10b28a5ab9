//! A journal written whole.
ghost use Rattle.std.specs.Prelude.{◌≡◌, ◌<◌, ◌+◌, ◌*◌, ◌⊎◌, IsTrue, IfOk, IfErr, IsErrOf, OnOk, length};
ghost use Rattle.site_model.specs.Counts.{CallsAt, TakesCalls, widest_piece};
ghost use Rattle.wire_num.specs.Pairs.{journal_bytes};
ghost use Rattle.file_names.specs.Names.{final_place, temp_place};
ghost use Rattle.whole_file.specs.Pieces.{append_pieces};
ghost use Rattle.whole_file.specs.Whole.{WritesWhole, IsWritten};

use crate::appending::half_of;
use file_names::Kind;
use site_model::Site;
use std::alloc::{AllocError, Global};
use whole_file::{FileFault, write_whole};

/// Writes the volume's journal at a server anew, with each of these ids twice.
pub fn write_pairs<T: Site>(
    alloc: Global,
    site: &mut T,
    server: u32,
    volume: u32,
    ids: &[u64],
) -> Result<(), FileFault>
    requires { server < T.servers site.old }
    ensures effect { IsTrue T.tells
        → WritesWhole (final_place server volume Kind.Ecj) (temp_place server volume Kind.Ecj)
        (journal_bytes ids.now) (T.disk site.old) (T.disk site.new) }
    ensures done { OnOk result (IsTrue T.tells
        → IsWritten (final_place server volume Kind.Ecj) (temp_place server volume Kind.Ecj)
        (journal_bytes ids.now) (T.disk site.new)) }
    ensures memory { IsErrOf result FileFault.Memory → site.new ≡ site.old }
    ensures calls { TakesCalls (append_pieces (16 * length ids.now) + 4) widest_piece
        (T.counts site.old) (T.counts site.new) }
    ensures runs { CallsAt T.counts T.servers server site.old site.new
        (IsErrOf result (FileFault.Fault (record { server = server }))) }
    ensures blame { IfErr result (λ fault. (fault ≡ FileFault.Memory)
        ⊎ (fault ≡ FileFault.Fault (record { server = server }))) }
{
    let bytes = bytes_of_pairs(alloc, ids)?;
    write_whole(alloc, site, server, volume, Kind::Ecj, &bytes)
}

fn bytes_of_pairs(alloc: Global, ids: &[u64]) -> Result<Vec<u8>, AllocError>
    ensures { IfOk result (λ bytes. bytes.items ≡ journal_bytes ids.now) }
{
    let mut bytes = Vec::new(alloc);
    for &id in ids {
        let half = half_of(id);
        bytes.extend_from_slice(&half)?;
        bytes.extend_from_slice(&half)?;
    }
    Ok(bytes)
}
