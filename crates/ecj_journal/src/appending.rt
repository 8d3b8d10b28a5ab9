//! An id behind a journal.
ghost use Rattle.std.specs.Prelude.{◌≡◌, ◌<◌, ◌+◌, ◌++◌, ◌^◌, ◌≤◌, IsTrue, IfErr, IsErr, OnOk, Some, length};
ghost use Rattle.site_model.specs.Disk.{bytes_of, firm_file};
ghost use Rattle.site_model.specs.Counts.{CallsAt, HasWriteCause, TakesCalls};
ghost use Rattle.wire_num.specs.Numbers as numbers;
ghost use Rattle.wire_num.specs.Pairs.{pair_bytes};
ghost use Rattle.whole_file.specs.Whole.{AppendsFirm};
ghost use Rattle.ecj_journal.specs.Journals.{AppendsPair, GrowsBy};

use site_model::{DeviceFault, Failed, Site};
use wire_num::put_u64;

/// Puts the id behind a journal of whole pairs, and makes an absent one. Its first half is made firm before
/// the second is written, so a stop leaves the id's pair whole or none. After a fault at most 16 bytes stand
/// behind those that there were.
pub fn append_pair<T: Site>(
    site: &mut T,
    server: u32,
    name: &str,
    id: u64,
) -> Result<(), DeviceFault>
    requires { server < T.servers site.old }
    ensures effect { IsTrue T.tells
        → AppendsPair (server, name.now) id (T.disk site.old) (T.disk site.new) }
    ensures done { OnOk result (IsTrue T.tells → (T.disk site.new).files (server, name.now)
        ≡ Some (firm_file (bytes_of ((T.disk site.old).files (server, name.now)) ++ pair_bytes id))) }
    ensures calls { TakesCalls 4 8 (T.counts site.old) (T.counts site.new) }
    ensures runs { CallsAt T.counts T.servers server site.old site.new (IsErr result) }
    ensures write_cause { HasWriteCause server (T.counts site.old) (T.counts site.new) (IsErr result) }
    ensures blame { IfErr result (λ fault. fault.server ≡ server) }
{
    let half = half_of(id);
    match append_halves(site, server, name, &half, id) {
        Ok(()) => Ok(()),
        Err(_) => Err(DeviceFault { server }),
    }
}

/// The eight bytes of an id.
pub(crate) fn half_of(id: u64) -> [u8; 8]
    ensures { result ≡ numbers.bytes_of 8 id }
{
    let mut half = [0; 8];
    put_u64(&mut half, 0, id);
    half
}

fn append_halves<T: Site>(
    site: &mut T,
    server: u32,
    name: &str,
    half: &[u8],
    id: u64,
) -> Result<(), Failed>
    requires server { server < T.servers site.old }
    requires half { half.now ≡ numbers.bytes_of 8 id }
    ensures effect { IsTrue T.tells
        → AppendsPair (server, name.now) id (T.disk site.old) (T.disk site.new) }
    ensures done { OnOk result (IsTrue T.tells → (T.disk site.new).files (server, name.now)
        ≡ Some (firm_file (bytes_of ((T.disk site.old).files (server, name.now)) ++ pair_bytes id))) }
    ensures calls { TakesCalls 4 8 (T.counts site.old) (T.counts site.new) }
    ensures runs { CallsAt T.counts T.servers server site.old site.new (IsErr result) }
    ensures write_cause { HasWriteCause server (T.counts site.old) (T.counts site.new) (IsErr result) }
{
    append_one(site, server, name, half)?;
    append_one(site, server, name, half)?;
    Ok(())
}

// Appends the bytes in one call, and makes the file firm.
fn append_one<T: Site>(site: &mut T, server: u32, name: &str, bytes: &[u8]) -> Result<(), Failed>
    requires server { server < T.servers site.old }
    requires few { length bytes.now ≤ 8 }
    ensures effect { IsTrue T.tells
        → AppendsFirm (server, name.now) bytes.now (T.disk site.old) (T.disk site.new) }
    ensures grown { IsTrue T.tells
        → GrowsBy 8 (bytes_of ((T.disk site.old).files (server, name.now)))
        (bytes_of ((T.disk site.new).files (server, name.now))) }
    ensures done { OnOk result (IsTrue T.tells → (T.disk site.new).files (server, name.now)
        ≡ Some (firm_file (bytes_of ((T.disk site.old).files (server, name.now)) ++ bytes.now))) }
    ensures calls { TakesCalls 2 8 (T.counts site.old) (T.counts site.new) }
    ensures runs { CallsAt T.counts T.servers server site.old site.new (IsErr result) }
    ensures write_cause { HasWriteCause server (T.counts site.old) (T.counts site.new) (IsErr result) }
{
    site.append(server, name, bytes)?;
    site.sync(server, name)?;
    Ok(())
}
