//! Reads of a range and of a whole file, in pieces.
ghost use Rattle.std.specs.Prelude.{◌≡◌, ◌<◌, ◌≤◌, ◌+◌, ◌^◌, ◌⊎◌, IsTrue, IfOk, IfErr, IsErrOf, length, take, drop};
ghost use Rattle.site_model.specs.Disk.{standing, bytes_of, length_of};
ghost use Rattle.site_model.specs.Counts.{CallsAt, TakesCalls, widest_piece};
ghost use Rattle.file_names.specs.Names.{IsKind, final_place};
ghost use Rattle.whole_file.specs.Held.{held};
ghost use Rattle.whole_file.specs.Pieces.{read_pieces};

use crate::FileFault;
use file_names::{Kind, final_name};
use site_model::{DeviceFault, PIECE, Site};
use std::alloc::{AllocError, Global};

/// The bytes of a file from `at` on, this many. The range lies in the file. It is read in pieces of at most
/// 65,536 bytes.
pub fn read_range<T: Site>(
    alloc: Global,
    site: &mut T,
    server: u32,
    name: &str,
    at: u64,
    count: usize,
) -> Result<Vec<u8>, FileFault>
    requires server { server < T.servers site.old }
    requires fits { at + count < 2 ^ 64 }
    requires within { IsTrue T.tells → at + count ≤ length_of ((T.disk site.old).files (server, name.now)) }
    ensures bytes { IfOk result (λ bytes. (length bytes.items ≡ count)
        × (IsTrue T.tells → bytes.items
        ≡ take count (drop at (bytes_of ((T.disk site.old).files (server, name.now)))))) }
    ensures same { IsTrue T.tells → T.disk site.new ≡ T.disk site.old }
    ensures calls { TakesCalls (read_pieces count) widest_piece (T.counts site.old) (T.counts site.new) }
    ensures runs { CallsAt T.counts T.servers server site.old site.new
        (IsErrOf result (FileFault.Fault (record { server = server }))) }
    ensures blame { IfErr result (λ fault. (fault ≡ FileFault.Memory)
        ⊎ (fault ≡ FileFault.Fault (record { server = server }))) }
{
    let mut bytes = zeros(alloc, count)?;
    let mut done = 0;
    while done < count {
        let end = done + (count - done).min(PIECE);
        match site.read(server, name, at + done as u64, &mut bytes[done..end]) {
            Ok(()) => done = end,
            Err(_) => return Err(FileFault::Fault(DeviceFault { server })),
        }
    }
    Ok(bytes)
}

/// The bytes of a volume's file, or `None` where it is absent.
pub fn read_whole<T: Site>(
    alloc: Global,
    site: &mut T,
    server: u32,
    volume: u32,
    kind: Kind,
) -> Result<Option<Vec<u8>>, FileFault>
    requires server { server < T.servers site.old }
    requires kind { IsKind kind }
    ensures bytes { IfOk result (λ found. IsTrue T.tells
        → held found ≡ standing ((T.disk site.old).files (final_place server volume kind))) }
    ensures same { IsTrue T.tells → T.disk site.new ≡ T.disk site.old }
    ensures calls { IsTrue T.tells
        → TakesCalls (1 + read_pieces (length_of ((T.disk site.old).files (final_place server volume kind))))
        widest_piece (T.counts site.old) (T.counts site.new) }
    ensures runs { CallsAt T.counts T.servers server site.old site.new
        (IsErrOf result (FileFault.Fault (record { server = server }))) }
    ensures blame { IfErr result (λ fault. (fault ≡ FileFault.Memory)
        ⊎ (fault ≡ FileFault.Fault (record { server = server }))) }
{
    let name = final_name(alloc, volume, kind)?;
    let size = match site.size(server, &name) {
        Ok(Some(size)) => size as usize,
        Ok(None) => return Ok(None),
        Err(_) => return Err(FileFault::Fault(DeviceFault { server })),
    };
    let bytes = read_range(alloc, site, server, &name, 0, size)?;
    Ok(Some(bytes))
}

/// So many bytes that are 0, to read into.
pub fn zeros(alloc: Global, size: usize) -> Result<Vec<u8>, AllocError>
    ensures { IfOk result (λ v. length v.items ≡ size) }
{
    vec![in alloc; 0; size]
}
