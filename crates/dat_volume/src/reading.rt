//! A record at the place that an index entry names.
ghost use Rattle.std.specs.Prelude.{◌≡◌, ◌+◌, ◌*◌, ◌<◌, ◌≤◌, ◌^◌, IsTrue, IfOk, IfErr, IsErrOf, OnOk, MatchResult, None, Some, Err, length, take, drop};
ghost use Rattle.wire_num.specs.Numbers.{record_length};
ghost use Rattle.site_model.specs.Disk.{bytes_of, length_of};
ghost use Rattle.site_model.specs.Counts.{CallsAt};
ghost use Rattle.volume_forms.specs.Kept.{fields_size};
ghost use Rattle.dat_volume.specs.Causes.{ReadBlamesServer};
ghost use Rattle.dat_volume.specs.Needles.{bytes_from, header_damage, reading_damage, record_damage, IsRecordAt, IsCookieAt, TellsDamage, HasDifference, IsNoDamage};
ghost use Rattle.dat_volume.specs.Reading.{front_damage, Tells, TellsEnd, IsWholeFault};

use crate::GetFault;
use needle_record::{HEADER_LENGTH, NeedleFault, Record, read_header, take_record};
use site_model::{DeviceFault, Site};
use std::alloc::Global;
use volume_forms::Entry;
use whole_file::read_range;
use wire_num::record_length;
use world_model::limits::MAX_DATA;
use world_model::types::What;

/// Where a record stands, by its entry.
#[derive(Clone, Copy)]
pub struct Place {
    pub at: u64,
    pub length: u64,
}

/// The place of the entry's record.
pub fn place_of(entry: Entry) -> Place
    ensures at { result.at ≡ 8 * entry.offset }
    ensures length { result.length ≡ record_length (fields_size entry.size) }
    ensures short { result.at + result.length < 2 ^ 63 }
    ensures header { 16 ≤ result.length }
{
    Place {
        at: u64::from(entry.offset) * 8,
        length: record_length(fields_size(entry)),
    }
}

// The size of the entry's fields: none, of a deletion.
fn fields_size(entry: Entry) -> u32
    ensures { result ≡ fields_size entry.size }
{
    u32::try_from(entry.size).unwrap_or(0)
}

/// Reads the record of the entry, whole.
pub(crate) fn record_at<T: Site>(
    alloc: Global,
    site: &mut T,
    server: u32,
    name: &str,
    entry: Entry,
) -> Result<Record, GetFault>
    requires server { server < T.servers site.old }
    ensures answer { MatchResult result (λ found. IsTrue T.tells
        → IsRecordAt (bytes_of ((T.disk site.old).files (server, name.now))) (Some entry) (Some found))
        (λ fault. HasDifference fault
        × (IsTrue T.tells → TellsDamage
        (record_damage (bytes_of ((T.disk site.old).files (server, name.now)))) (Some entry) fault)) }
    ensures same { IsTrue T.tells → T.disk site.new ≡ T.disk site.old }
    ensures runs { CallsAt T.counts T.servers server site.old site.new
        (IsErrOf result (GetFault.Fault (record { server = server }))) }
    ensures blame { IfErr result (ReadBlamesServer server) }
{
    let place = place_of(entry);
    let bytes = front_at(alloc, site, server, name, entry, place.length as usize)?;
    match take_record(alloc, bytes) {
        Ok((record, _)) => Ok(record),
        Err(fault) => Err(damage(fault)),
    }
}

/// Reads the cookie of the entry's record, by the header alone.
pub(crate) fn cookie_at<T: Site>(
    alloc: Global,
    site: &mut T,
    server: u32,
    name: &str,
    entry: Entry,
) -> Result<u32, GetFault>
    requires server { server < T.servers site.old }
    ensures answer { MatchResult result (λ cookie. IsTrue T.tells
        → IsCookieAt (bytes_of ((T.disk site.old).files (server, name.now))) (Some entry) (Some cookie))
        (λ fault. HasDifference fault
        × (IsTrue T.tells → TellsDamage
        (header_damage (bytes_of ((T.disk site.old).files (server, name.now)))) (Some entry) fault)) }
    ensures same { IsTrue T.tells → T.disk site.new ≡ T.disk site.old }
    ensures runs { CallsAt T.counts T.servers server site.old site.new
        (IsErrOf result (GetFault.Fault (record { server = server }))) }
    ensures blame { IfErr result (ReadBlamesServer server) }
{
    let bytes = front_at(alloc, site, server, name, entry, HEADER_LENGTH)?;
    Ok(read_header(&bytes).cookie)
}

// The first bytes of the entry's record. The record ends within the file, and its header is the entry's.
fn front_at<T: Site>(
    alloc: Global,
    site: &mut T,
    server: u32,
    name: &str,
    entry: Entry,
    count: usize,
) -> Result<Vec<u8>, GetFault>
    requires server { server < T.servers site.old }
    requires header { 16 ≤ count }
    requires within { count ≤ record_length (fields_size entry.size) }
    ensures front { IfOk result (λ bytes. (length bytes.items ≡ count)
        × (front_damage bytes.items entry ≡ None)) }
    ensures answer { MatchResult result (λ bytes. IsTrue T.tells
        → (bytes.items ≡ take count
        (bytes_from (bytes_of ((T.disk site.old).files (server, name.now))) entry))
        × (header_damage (bytes_of ((T.disk site.old).files (server, name.now))) entry
        ≡ None)) (λ fault. HasDifference fault
        × (IsTrue T.tells → TellsDamage
        (header_damage (bytes_of ((T.disk site.old).files (server, name.now)))) (Some entry) fault)) }
    ensures same { IsTrue T.tells → T.disk site.new ≡ T.disk site.old }
    ensures runs { CallsAt T.counts T.servers server site.old site.new
        (IsErrOf result (GetFault.Fault (record { server = server }))) }
    ensures blame { IfErr result (ReadBlamesServer server) }
{
    let place = place_of(entry);
    check_end(site, server, name, place)?;
    let bytes = range_at(alloc, site, server, name, place.at, count)?;
    check_header(&bytes, entry)?;
    Ok(bytes)
}

// The record ends within the file.
fn check_end<T: Site>(site: &mut T, server: u32, name: &str, place: Place) -> Result<(), GetFault>
    requires fits { place.at + place.length < 2 ^ 64 }
    requires server { server < T.servers site.old }
    ensures within { OnOk result (IsTrue T.tells
        → place.at + place.length ≤ length_of ((T.disk site.old).files (server, name.now))) }
    ensures told { IfErr result (λ fault. HasDifference fault
        × (IsTrue T.tells → TellsEnd (place.at + place.length)
        (length_of ((T.disk site.old).files (server, name.now))) fault)) }
    ensures same { IsTrue T.tells → T.disk site.new ≡ T.disk site.old }
    ensures runs { CallsAt T.counts T.servers server site.old site.new
        (IsErrOf result (GetFault.Fault (record { server = server }))) }
    ensures blame { IfErr result (ReadBlamesServer server) }
{
    let length = match site.size(server, name) {
        Ok(size) => size.unwrap_or(0),
        Err(_) => return Err(GetFault::Fault(DeviceFault { server })),
    };
    let end = place.at + place.length;
    if end > length {
        return Err(damaged(What::End, end, length));
    }
    Ok(())
}

fn range_at<T: Site>(
    alloc: Global,
    site: &mut T,
    server: u32,
    name: &str,
    at: u64,
    count: usize,
) -> Result<Vec<u8>, GetFault>
    requires fits { at + count < 2 ^ 64 }
    requires within { IsTrue T.tells → at + count ≤ length_of ((T.disk site.old).files (server, name.now)) }
    requires server { server < T.servers site.old }
    ensures count { IfOk result (λ bytes. length bytes.items ≡ count) }
    ensures bytes { IfOk result (λ bytes. IsTrue T.tells
        → bytes.items ≡ take count (drop at (bytes_of ((T.disk site.old).files (server, name.now))))) }
    ensures fault { IfErr result IsNoDamage }
    ensures same { IsTrue T.tells → T.disk site.new ≡ T.disk site.old }
    ensures runs { CallsAt T.counts T.servers server site.old site.new
        (IsErrOf result (GetFault.Fault (record { server = server }))) }
    ensures blame { IfErr result (ReadBlamesServer server) }
{
    Ok(read_range(alloc, site, server, name, at, count)?)
}

/// Sees that the bytes begin with the header of the entry's record.
#[tactic(auto, unfolding(crate::specs::Reading::front_damage))]
pub fn check_header(bytes: &[u8], entry: Entry) -> Result<(), GetFault>
    requires { 16 ≤ length bytes.now }
    ensures ok { OnOk result (front_damage bytes.now entry ≡ None) }
    ensures told { IfErr result (Tells (front_damage bytes.now entry)) }
    ensures differ { IfErr result HasDifference }
{
    let header = read_header(bytes);
    if header.id != entry.id {
        return Err(damaged(What::Id, entry.id, header.id));
    }
    let size = fields_size(entry);
    if header.size != size {
        return Err(damaged(What::Size, u64::from(size), u64::from(header.size)));
    }
    Ok(())
}

fn damaged(what: What, a: u64, b: u64) -> GetFault
    ensures { result ≡ GetFault.Damaged what a b }
{
    GetFault::Damaged { what, a, b }
}

/// What the fault of a record that is whole tells. A record of the entry's size is whole, so it is not short.
pub fn damage(fault: NeedleFault) -> GetFault
    requires { IsWholeFault fault }
    ensures told { Tells (reading_damage (Err fault)) result }
    ensures differ { HasDifference result }
{
    match fault {
        NeedleFault::SizeMismatch { size, taken } => damaged(What::Body, u64::from(size), taken),
        NeedleFault::Checksum { stored, computed } => {
            damaged(What::Checksum, u64::from(stored), u64::from(computed))
        }
        NeedleFault::EmptyBody { size } => damaged(What::Empty, u64::from(size), 0),
        NeedleFault::TooLarge { length } => damaged(
            What::Large,
            u64::from(length),
            MAX_DATA as u64,
        ),
        NeedleFault::Short => unreachable!(),
        NeedleFault::Memory => GetFault::Memory,
    }
}
