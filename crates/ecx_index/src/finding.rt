//! A search by halves.
ghost use Rattle.std.specs.Prelude.{◌≡◌, ◌<◌, ◌+◌, ◌*◌, ◌/◌, ◌≤◌, ◌^◌, IsTrue, IfOk, IfErr, IsErr, drop};
ghost use Rattle.site_model.specs.Disk.{bytes_of, length_of};
ghost use Rattle.site_model.specs.Counts.{CallsAt, CountsRead};
ghost use Rattle.volume_forms.specs.Forms.{entry_at};
ghost use Rattle.ecx_index.specs.Search.{entries_in, IsEntryOf, TakesFewReads};

use site_model::{DeviceFault, Site};
use volume_forms::{ENTRY_LENGTH, Entry, read_entry};

const ENTRY: u64 = ENTRY_LENGTH as u64;

/// The entry of the id, or `None`, which says that no entry has the id where the ids of the file rise. The file
/// is searched by halves, one entry of 16 bytes a read. An absent file has no entry, and bytes behind the whole
/// entries don't count.
pub fn find<T: Site>(
    site: &mut T,
    server: u32,
    name: &str,
    id: u64,
) -> Result<Option<Entry>, DeviceFault>
    requires { server < T.servers site.old }
    ensures entry { IfOk result (λ found. IsTrue T.tells
        → IsEntryOf (entries_in ((T.disk site.old).files (server, name.now))) id found) }
    ensures same { IsTrue T.tells → T.disk site.new ≡ T.disk site.old }
    ensures calls { IsTrue T.tells
        → TakesFewReads (length_of ((T.disk site.old).files (server, name.now)) / 16)
        (T.counts site.old) (T.counts site.new) }
    ensures runs { CallsAt T.counts T.servers server site.old site.new (IsErr result) }
    ensures blame { IfErr result (λ fault. fault.server ≡ server) }
{
    let size = match site.size(server, name) {
        Ok(Some(size)) => size,
        Ok(None) => 0,
        Err(_) => return Err(DeviceFault { server }),
    };
    let mut low = 0;
    let mut high = size / ENTRY;
    while low < high {
        let middle = low + (high - low) / 2;
        let entry = entry_in(site, server, name, middle)?;
        if entry.id == id {
            return Ok(Some(entry));
        }
        if entry.id < id {
            low = middle + 1;
        } else {
            high = middle;
        }
    }
    Ok(None)
}

// The entry at this place of the file, counted from 0.
fn entry_in<T: Site>(
    site: &mut T,
    server: u32,
    name: &str,
    place: u64,
) -> Result<Entry, DeviceFault>
    requires server { server < T.servers site.old }
    requires small { 16 * place + 16 < 2 ^ 64 }
    requires within { IsTrue T.tells
        → 16 * place + 16 ≤ length_of ((T.disk site.old).files (server, name.now)) }
    ensures entry { IfOk result (λ entry. IsTrue T.tells
        → entry ≡ entry_at (drop (16 * place) (bytes_of ((T.disk site.old).files (server, name.now))))) }
    ensures same { IsTrue T.tells → T.disk site.new ≡ T.disk site.old }
    ensures counts { CountsRead server 16 (T.counts site.old) (T.counts site.new) (IsErr result) }
    ensures blame { IfErr result (λ fault. fault.server ≡ server) }
    ensures servers { T.servers site.new ≡ T.servers site.old }
{
    let mut bytes = [0; 16];
    match site.read(server, name, ENTRY * place, &mut bytes) {
        Ok(()) => Ok(read_entry(&bytes)),
        Err(_) => Err(DeviceFault { server }),
    }
}
