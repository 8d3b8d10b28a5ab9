//! The tests of a volume's two files, by which it is told how much of them to keep.
ghost use Rattle.std.specs.Option.{option_map_or};
ghost use Rattle.std.specs.Prelude.{◌≡◌, ◌⊎◌, ◌*◌, ◌<◌, ◌≤◌, ◌^◌, List, IsTrue, IfSome, IfOk, IfErr, IsErr, IsErrOf, MatchBool, Ok, true};
ghost use Rattle.site_model.specs.Disk.{bytes_of, length_of};
ghost use Rattle.site_model.specs.Counts.{CallsAt};
ghost use Rattle.volume_forms.specs.declared.Entry.{Entry};
ghost use Rattle.volume_forms.specs.Forms.{has_super};
ghost use Rattle.dat_volume.specs.Opening.{has_record, last_counts, counted, tested, end_by, Blames, TellsCount, TellsRule};
ghost use Rattle.dat_volume.specs.Laws.Opening.{PassesEntries};
ghost use Rattle.dat_volume.specs.Scanning.{HasChain, FailsEntries, IsAccepted, unless_damaged};

use crate::GetFault;
use crate::chain::{Chain, SUPER_END, end_behind, has_size};
use crate::index_file::{piece_buffer, scan};
use crate::reading::{cookie_at, record_at};
use site_model::{DeviceFault, OpenFault, Site};
use std::alloc::Global;
use volume_forms::{ENTRY_LENGTH, Entry, read_super};
use world_model::limits::MAX_DAT;

// The rule that an index follows the records.
const RULE_RECORDS: u8 = 1;

// The rule that a data file has an accepted super block.
const RULE_SUPER: u8 = 3;

/// How much is kept: the number of entries, and where their records end.
#[derive(Clone, Copy)]
pub(crate) struct Kept {
    pub count: u64,
    pub end: u64,
}

/// Tests the index and the data file of these names: by rule 1, and then the super block.
pub(crate) fn examine<T: Site>(
    alloc: Global,
    site: &mut T,
    server: u32,
    volume: u32,
    dat: &str,
    idx: &str,
) -> Result<Kept, OpenFault>
    requires server { server < T.servers site.old }
    ensures kept { IfOk result (λ kept. IsTrue T.tells
        → (tested (bytes_of ((T.disk site.old).files (server, dat.now)))
        (bytes_of ((T.disk site.old).files (server, idx.now))) ≡ Ok kept.count)
        × (kept.end ≡ end_by (bytes_of ((T.disk site.old).files (server, idx.now))) kept.count)) }
    ensures fits { IfOk result (λ kept. 16 * kept.count < 2 ^ 64) }
    ensures unsound { IfErr result (λ fault. Blames server volume fault
        × (IsTrue T.tells → TellsRule volume (bytes_of ((T.disk site.old).files (server, dat.now)))
        (bytes_of ((T.disk site.old).files (server, idx.now))) fault)) }
    ensures same { IsTrue T.tells → T.disk site.new ≡ T.disk site.old }
    ensures runs { CallsAt T.counts T.servers server site.old site.new
        (IsErrOf result (OpenFault.Fault server)) }
{
    let kept = count_entries(alloc, site, server, volume, dat, idx)?;
    if !has_super(site, server, dat)? {
        return Err(OpenFault::Unsound {
            volume,
            rule: RULE_SUPER,
        });
    }
    Ok(kept)
}

/// Tests them by rule 1 alone.
pub(crate) fn count_entries<T: Site>(
    alloc: Global,
    site: &mut T,
    server: u32,
    volume: u32,
    dat: &str,
    idx: &str,
) -> Result<Kept, OpenFault>
    requires server { server < T.servers site.old }
    ensures kept { IfOk result (λ kept. IsTrue T.tells
        → (counted (bytes_of ((T.disk site.old).files (server, dat.now)))
        (bytes_of ((T.disk site.old).files (server, idx.now))) ≡ Ok kept.count)
        × (kept.end ≡ end_by (bytes_of ((T.disk site.old).files (server, idx.now))) kept.count)) }
    ensures fits { IfOk result (λ kept. 16 * kept.count < 2 ^ 64) }
    ensures unsound { IfErr result (λ fault. Blames server volume fault
        × (IsTrue T.tells → TellsCount volume (bytes_of ((T.disk site.old).files (server, dat.now)))
        (bytes_of ((T.disk site.old).files (server, idx.now))) fault)) }
    ensures same { IsTrue T.tells → T.disk site.new ≡ T.disk site.old }
    ensures runs { CallsAt T.counts T.servers server site.old site.new
        (IsErrOf result (OpenFault.Fault server)) }
{
    let size = size_of(site, server, idx)?;
    let mut buffer = piece_buffer(alloc)?;
    let chain = scan(
        site,
        server,
        idx,
        size - size % ENTRY_LENGTH as u64,
        &mut buffer,
    )?;
    let Some(kept) = accept(alloc, site, server, dat, chain)? else {
        return Err(OpenFault::Unsound {
            volume,
            rule: RULE_RECORDS,
        });
    };
    Ok(kept)
}

// What is kept, or nothing where the entries don't pass. The last entry is kept only where it follows and has its
// record. Where it isn't, the last but two is to have its record too, so that what is kept passes again.
fn accept<T: Site>(
    alloc: Global,
    site: &mut T,
    server: u32,
    dat: &str,
    chain: Chain,
) -> Result<Option<Kept>, OpenFault>
    requires server { server < T.servers site.old }
    ensures kept { IfOk result (λ found. IsTrue T.tells → (es : List Entry) → HasChain es chain
        → IsAccepted (bytes_of ((T.disk site.old).files (server, dat.now))) es found) }
    ensures fewer { IfOk result (λ found. IfSome found (λ kept. kept.count ≤ chain.count)) }
    ensures same { IsTrue T.tells → T.disk site.new ≡ T.disk site.old }
    ensures runs { CallsAt T.counts T.servers server site.old site.new
        (IsErrOf result (OpenFault.Fault server)) }
    ensures blame { IfErr result (λ fault. (fault ≡ OpenFault.Memory) ⊎ (fault ≡ OpenFault.Fault server)) }
{
    if !passes_entries(alloc, site, server, dat, chain)? {
        return Ok(None);
    }
    if last_counts(alloc, site, server, dat, chain)? {
        return Ok(Some(Kept {
            count: chain.count,
            end: end_behind(chain.last),
        }));
    }
    if !has_record_if_any(alloc, site, server, dat, chain.earlier)? {
        return Ok(None);
    }
    Ok(Some(Kept {
        count: chain.count.saturating_sub(1),
        end: end_behind(chain.before),
    }))
}

// All entries but the last follow each other, and the last but one has its record.
fn passes_entries<T: Site>(
    alloc: Global,
    site: &mut T,
    server: u32,
    dat: &str,
    chain: Chain,
) -> Result<bool, OpenFault>
    requires server { server < T.servers site.old }
    ensures passes { IfOk result (λ passes. IsTrue T.tells → (es : List Entry) → HasChain es chain
        → MatchBool passes (PassesEntries (bytes_of ((T.disk site.old).files (server, dat.now))) es)
        (FailsEntries (bytes_of ((T.disk site.old).files (server, dat.now))) es)) }
    ensures same { IsTrue T.tells → T.disk site.new ≡ T.disk site.old }
    ensures runs { CallsAt T.counts T.servers server site.old site.new
        (IsErrOf result (OpenFault.Fault server)) }
    ensures blame { IfErr result (λ fault. (fault ≡ OpenFault.Memory) ⊎ (fault ≡ OpenFault.Fault server)) }
{
    if chain.chained < chain.count.saturating_sub(1) {
        return Ok(false);
    }
    has_record_if_any(alloc, site, server, dat, chain.before)
}

// Whether the last entry follows and has its record.
fn last_counts<T: Site>(
    alloc: Global,
    site: &mut T,
    server: u32,
    dat: &str,
    chain: Chain,
) -> Result<bool, OpenFault>
    requires server { server < T.servers site.old }
    ensures counts { IfOk result (λ counts. IsTrue T.tells → (es : List Entry) → HasChain es chain
        → counts ≡ last_counts (bytes_of ((T.disk site.old).files (server, dat.now))) es) }
    ensures same { IsTrue T.tells → T.disk site.new ≡ T.disk site.old }
    ensures runs { CallsAt T.counts T.servers server site.old site.new
        (IsErrOf result (OpenFault.Fault server)) }
    ensures blame { IfErr result (λ fault. (fault ≡ OpenFault.Memory) ⊎ (fault ≡ OpenFault.Fault server)) }
{
    match chain.last {
        Some(entry) if chain.chained == chain.count => {
            has_record(alloc, site, server, dat, entry)
        }
        _ => Ok(false),
    }
}

// Whether the entry has its record, if there is one.
fn has_record_if_any<T: Site>(
    alloc: Global,
    site: &mut T,
    server: u32,
    dat: &str,
    entry: Option<Entry>,
) -> Result<bool, OpenFault>
    requires server { server < T.servers site.old }
    ensures has { IfOk result (λ has. IsTrue T.tells
        → has ≡ option_map_or (has_record (bytes_of ((T.disk site.old).files (server, dat.now)))) entry
        true) }
    ensures same { IsTrue T.tells → T.disk site.new ≡ T.disk site.old }
    ensures runs { CallsAt T.counts T.servers server site.old site.new
        (IsErrOf result (OpenFault.Fault server)) }
    ensures blame { IfErr result (λ fault. (fault ≡ OpenFault.Memory) ⊎ (fault ≡ OpenFault.Fault server)) }
{
    match entry {
        Some(entry) => has_record(alloc, site, server, dat, entry),
        None => Ok(true),
    }
}

// Whether the record at the entry's place is the entry's. It is read whole only where its header is the entry's.
fn has_record<T: Site>(
    alloc: Global,
    site: &mut T,
    server: u32,
    dat: &str,
    entry: Entry,
) -> Result<bool, OpenFault>
    requires server { server < T.servers site.old }
    ensures has { IfOk result (λ has. IsTrue T.tells
        → has ≡ has_record (bytes_of ((T.disk site.old).files (server, dat.now))) entry) }
    ensures same { IsTrue T.tells → T.disk site.new ≡ T.disk site.old }
    ensures runs { CallsAt T.counts T.servers server site.old site.new
        (IsErrOf result (OpenFault.Fault server)) }
    ensures blame { IfErr result (λ fault. (fault ≡ OpenFault.Memory) ⊎ (fault ≡ OpenFault.Fault server)) }
{
    if !has_size(entry) || end_behind(Some(entry)) > MAX_DAT {
        return Ok(false);
    }
    if let Err(fault) = cookie_at(alloc, site, server, dat, entry) {
        return unless_damaged(fault);
    }
    if let Err(fault) = record_at(alloc, site, server, dat, entry) {
        return unless_damaged(fault);
    }
    Ok(true)
}

// A record that is damaged isn't there.
fn unless_damaged(fault: GetFault) -> Result<bool, OpenFault>
    ensures { result ≡ unless_damaged fault }
{
    match fault {
        GetFault::Damaged { .. } => Ok(false),
        GetFault::Fault(device) => Err(OpenFault::Fault {
            server: device.server,
        }),
        GetFault::Memory => Err(OpenFault::Memory),
    }
}

// Whether the data file begins with an accepted super block.
fn has_super<T: Site>(site: &mut T, server: u32, dat: &str) -> Result<bool, DeviceFault>
    requires server { server < T.servers site.old }
    ensures block { IfOk result (λ has. IsTrue T.tells
        → has ≡ has_super (bytes_of ((T.disk site.old).files (server, dat.now)))) }
    ensures same { IsTrue T.tells → T.disk site.new ≡ T.disk site.old }
    ensures runs { CallsAt T.counts T.servers server site.old site.new (IsErr result) }
    ensures blame { IfErr result (λ fault. fault.server ≡ server) }
{
    let mut block = [0; SUPER_END as usize];
    if size_of(site, server, dat)? < SUPER_END {
        return Ok(false);
    }
    match site.read(server, dat, 0, &mut block) {
        Ok(()) => Ok(read_super(&block).is_ok()),
        Err(_) => Err(DeviceFault { server }),
    }
}

// The length of the file. An absent file counts as one without bytes.
fn size_of<T: Site>(site: &mut T, server: u32, name: &str) -> Result<u64, DeviceFault>
    requires server { server < T.servers site.old }
    ensures size { IfOk result (λ size. IsTrue T.tells
        → size ≡ length_of ((T.disk site.old).files (server, name.now))) }
    ensures same { IsTrue T.tells → T.disk site.new ≡ T.disk site.old }
    ensures runs { CallsAt T.counts T.servers server site.old site.new (IsErr result) }
    ensures blame { IfErr result (λ fault. fault.server ≡ server) }
{
    match site.size(server, name) {
        Ok(size) => Ok(size.unwrap_or(0)),
        Err(_) => Err(DeviceFault { server }),
    }
}
