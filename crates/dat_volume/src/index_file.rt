//! An index, read in pieces of whole entries.
ghost use Rattle.std.specs.Prelude.{◌≡◌, ◌+◌, ◌-◌, ◌*◌, ◌/◌, ◌%◌, ◌^◌, ◌<◌, ◌≤◌, ◌⊎◌, min, IsTrue, IfOk, IfErr, IsErr, IsErrOf, OnOk, length, take, drop};
ghost use Rattle.site_model.specs.Disk.{bytes_of, length_of};
ghost use Rattle.site_model.specs.Counts.{CallsAt, widest_piece};
ghost use Rattle.volume_forms.specs.Forms.{entries};
ghost use Rattle.dat_volume.specs.Opening.{index_by, index_by_from};
ghost use Rattle.dat_volume.specs.Scanning.{no_chain, with_entries};

use crate::chain::Chain;
use needle_map::NeedleMap;
use site_model::{DeviceFault, OpenFault, PIECE, Site};
use std::alloc::{AllocError, Global};
use volume_forms::{ENTRY_LENGTH, read_entry};

/// Room for a piece of an index.
pub(crate) fn piece_buffer(alloc: Global) -> Result<Vec<u8>, AllocError>
    ensures { IfOk result (λ buffer. length buffer.items ≡ widest_piece) }
{
    vec![in alloc; 0; PIECE]
}

/// What the entries that end here tell.
pub(crate) fn scan<T: Site>(
    site: &mut T,
    server: u32,
    name: &str,
    end: u64,
    buffer: &mut [u8],
) -> Result<Chain, DeviceFault>
    requires server { server < T.servers site.old }
    requires within { IsTrue T.tells → end ≤ length_of ((T.disk site.old).files (server, name.now)) }
    requires whole { end % 16 ≡ 0 }
    requires room { (0 < length buffer.old) × (length buffer.old % 16 ≡ 0) }
    requires narrow { length buffer.old ≤ widest_piece }
    ensures chain { IfOk result (λ chain. IsTrue T.tells
        → chain ≡ with_entries no_chain
        (entries (take end (bytes_of ((T.disk site.old).files (server, name.now)))))) }
    ensures count { IfOk result (λ chain. 16 * chain.count ≡ end) }
    ensures same { IsTrue T.tells → T.disk site.new ≡ T.disk site.old }
    ensures runs { CallsAt T.counts T.servers server site.old site.new (IsErr result) }
    ensures blame { IfErr result (λ fault. fault.server ≡ server) }
{
    let mut chain = Chain::new();
    let mut at = 0;
    while at < end {
        let count = read_piece(site, server, name, at, end, buffer)?;
        chain = scan_piece(&buffer[..count], chain);
        at += count as u64;
    }
    Ok(chain)
}

/// The index that the entries make that end here.
pub(crate) fn read_index<T: Site>(
    alloc: Global,
    site: &mut T,
    server: u32,
    name: &str,
    end: u64,
) -> Result<NeedleMap, OpenFault>
    requires server { server < T.servers site.old }
    requires within { IsTrue T.tells → end ≤ length_of ((T.disk site.old).files (server, name.now)) }
    requires whole { end % 16 ≡ 0 }
    ensures index { IfOk result (λ index. IsTrue T.tells
        → index ≡ index_by (entries (take end (bytes_of ((T.disk site.old).files (server, name.now)))))) }
    ensures same { IsTrue T.tells → T.disk site.new ≡ T.disk site.old }
    ensures runs { CallsAt T.counts T.servers server site.old site.new
        (IsErrOf result (OpenFault.Fault server)) }
    ensures blame { IfErr result (λ fault. (fault ≡ OpenFault.Memory) ⊎ (fault ≡ OpenFault.Fault server)) }
{
    let mut buffer = piece_buffer(alloc)?;
    index_entries(alloc, site, server, name, end, &mut buffer)
}

fn index_entries<T: Site>(
    alloc: Global,
    site: &mut T,
    server: u32,
    name: &str,
    end: u64,
    buffer: &mut [u8],
) -> Result<NeedleMap, OpenFault>
    requires server { server < T.servers site.old }
    requires within { IsTrue T.tells → end ≤ length_of ((T.disk site.old).files (server, name.now)) }
    requires whole { end % 16 ≡ 0 }
    requires room { (0 < length buffer.old) × (length buffer.old % 16 ≡ 0) }
    requires narrow { length buffer.old ≤ widest_piece }
    ensures index { IfOk result (λ index. IsTrue T.tells
        → index ≡ index_by (entries (take end (bytes_of ((T.disk site.old).files (server, name.now)))))) }
    ensures same { IsTrue T.tells → T.disk site.new ≡ T.disk site.old }
    ensures runs { CallsAt T.counts T.servers server site.old site.new
        (IsErrOf result (OpenFault.Fault server)) }
    ensures blame { IfErr result (λ fault. (fault ≡ OpenFault.Memory) ⊎ (fault ≡ OpenFault.Fault server)) }
{
    let mut index = NeedleMap::new(alloc);
    let mut at = 0;
    while at < end {
        let count = read_piece(site, server, name, at, end, buffer)?;
        index_piece(&buffer[..count], &mut index)?;
        at += count as u64;
    }
    Ok(index)
}

// Fills the front of the buffer with what stands from `at` on, and answers how many bytes.
fn read_piece<T: Site>(
    site: &mut T,
    server: u32,
    name: &str,
    at: u64,
    end: u64,
    buffer: &mut [u8],
) -> Result<usize, DeviceFault>
    requires server { server < T.servers site.old }
    requires some { at < end }
    requires within { IsTrue T.tells → end ≤ length_of ((T.disk site.old).files (server, name.now)) }
    requires narrow { length buffer.old ≤ widest_piece }
    ensures count { IfOk result (λ count. count ≡ min (length buffer.old) (end - at)) }
    ensures room { length buffer.new ≡ length buffer.old }
    ensures bytes { IfOk result (λ count. IsTrue T.tells
        → take count buffer.new
        ≡ take count (drop at (bytes_of ((T.disk site.old).files (server, name.now))))) }
    ensures same { IsTrue T.tells → T.disk site.new ≡ T.disk site.old }
    ensures runs { CallsAt T.counts T.servers server site.old site.new (IsErr result) }
    ensures blame { IfErr result (λ fault. fault.server ≡ server) }
{
    let count = buffer.len().min((end - at) as usize);
    match site.read(server, name, at, &mut buffer[..count]) {
        Ok(()) => Ok(count),
        Err(_) => Err(DeviceFault { server }),
    }
}

fn scan_piece(bytes: &[u8], chain: Chain) -> Chain
    requires { chain.count + length bytes.now / 16 < 2 ^ 64 }
    ensures { result ≡ with_entries chain (entries bytes.now) }
{
    let mut chain = chain;
    let mut rest = bytes;
    while let Some((entry, behind)) = rest.split_first_chunk::<ENTRY_LENGTH>() {
        chain = chain.push(read_entry(entry));
        rest = behind;
    }
    chain
}

// An entry sets its id, or takes it out.
fn index_piece(bytes: &[u8], index: &mut NeedleMap) -> Result<(), AllocError>
    ensures { OnOk result (index.new ≡ index_by_from index.old (entries bytes.now)) }
{
    let mut rest = bytes;
    while let Some((entry, behind)) = rest.split_first_chunk::<ENTRY_LENGTH>() {
        let entry = read_entry(entry);
        if entry.size < 0 {
            index.remove(entry.id);
        } else {
            index.put(entry)?;
        }
        rest = behind;
    }
    Ok(())
}
