//! Reading a record from the front of some bytes.

ghost use Rattle.std.specs.Prelude.{◌≡◌, ℕ, ◌+◌, ◌^◌, ◌<◌, ◌≤◌, [], length, take, drop, IfOk, MatchOption, Ok, slice_index};
ghost use Rattle.wire_num.specs.Numbers.{number_of, record_length};
ghost use Rattle.needle_record.specs.Spelling.{SpellsNeedle};
ghost use Rattle.needle_record.specs.Reading.{content_at, content_in, content_or_fault, needle_at, needle_of};
ghost use Rattle.needle_record.specs.Given.{Gives, GivesBy, content_of};
ghost use Rattle.world_model.specs.declared.types.Content.{Content};
ghost use Rattle.needle_record.specs.declared.Record.{Record};

use crate::fields::{self, Parts, Stop};
use crate::layout::{APPENDED_AT, DATA_AT, HEADER_LENGTH, ID_AT, SIZE_AT};
use crate::{Header, NeedleFault, Record};
use crc32c::{crc, masked};
use std::alloc::Global;
use wire_num::{get_u32, get_u64, record_length};
use world_model::bytes::Bytes;
use world_model::limits::MAX_DATA;
use world_model::types::Content;

/// The header that the bytes begin with.
pub fn read_header(bytes: &[u8]) -> Header
    requires { 16 ≤ length bytes.now }
    ensures cookie { result.cookie ≡ number_of 4 bytes.now }
    ensures id { result.id ≡ number_of 8 (drop 4 bytes.now) }
    ensures size { result.size ≡ number_of 4 (drop 12 bytes.now) }
{
    Header {
        cookie: get_u32(bytes, 0),
        id: get_u64(bytes, ID_AT),
        size: get_u32(bytes, SIZE_AT),
    }
}

// Accepts data whose checksum is one of both forms and that has a length that may stand.
fn accept(data: &[u8], size: u32, stored: u32) -> Result<(), NeedleFault>
    requires { length «data».now < 2 ^ 32 }
    ensures { (c : Content) → c.bytes ≡ «data».now
        → GivesBy (λ _. c) result (content_or_fault size stored (Ok (c, []))) }
{
    let computed = crc(data);
    if stored != computed && stored != masked(computed) {
        return Err(NeedleFault::Checksum { stored, computed });
    }
    if data.is_empty() {
        return Err(NeedleFault::EmptyBody { size });
    }
    if data.len() > MAX_DATA {
        return Err(NeedleFault::TooLarge {
            length: data.len() as u32,
        });
    }
    Ok(())
}

// The length of the data, which stands behind the four bytes of its length, and the parts of a content: of fields that
// take exactly their `size`, with the checksum that is `stored` behind them.
fn parts_of(
    alloc: Global,
    fields: &[u8],
    size: u32,
    stored: u32,
) -> Result<(usize, Parts), NeedleFault>
    requires { length fields.now ≡ size }
    ensures given { GivesBy (λ x. content_of (take x.0 (drop 4 fields.now)) x.1) result
        (content_or_fault size stored (content_at fields.now)) }
    ensures within { IfOk result (λ x. 4 + x.0 ≤ size) }
{
    let (data, parts, rest) = match fields::content_at(alloc, fields) {
        Ok(found) => found,
        Err(Stop::Past(excess)) => {
            let taken = u64::from(size) + u64::from(excess);
            return Err(NeedleFault::SizeMismatch { size, taken });
        }
        Err(Stop::Memory) => return Err(NeedleFault::Memory),
    };
    if !rest.is_empty() {
        let taken = (fields.len() - rest.len()) as u64;
        return Err(NeedleFault::SizeMismatch { size, taken });
    }
    match accept(data, size, stored) {
        Ok(()) => Ok((data.len(), parts)),
        Err(why) => Err(why),
    }
}

// The content of the data that stands in a record, of this length, and of the parts.
fn content_with(mut bytes: Vec<u8>, count: usize, parts: Parts) -> Content
    requires { 20 + count ≤ length bytes.items }
    ensures { result ≡ content_of (take count (drop 20 bytes.items)) parts }
{
    bytes.truncate(DATA_AT + count);
    Content {
        bytes: Bytes::behind(bytes, DATA_AT),
        flags: parts.flags,
        name: parts.name,
        mime: parts.mime,
        modified: parts.modified,
        ttl: parts.ttl,
        pairs: parts.pairs,
    }
}

// What the fields of a record hold, which are of this size: nothing, where it is 0.
#[tactic(auto, unfolding(crate::specs::Reading::content_in))]
fn content_in(alloc: Global, size: u32, bytes: Vec<u8>) -> Result<Option<Content>, NeedleFault>
    requires { size + 20 ≤ length bytes.items }
    ensures { Gives result (content_in size (drop 16 bytes.items)) }
{
    if size == 0 {
        return Ok(None);
    }
    let rest = &bytes[HEADER_LENGTH..];
    let end = size as usize;
    let (count, parts) = parts_of(alloc, &rest[..end], size, get_u32(rest, end))?;
    Ok(Some(content_with(bytes, count, parts)))
}

// The record that is all of the bytes, with fields of this size.
#[tactic(auto, unfolding(crate::specs::Reading::needle_of))]
fn record_of(alloc: Global, size: u32, bytes: Vec<u8>) -> Result<(Record, u64), NeedleFault>
    requires { length bytes.items ≡ record_length size }
    ensures { Gives result (needle_of size bytes.items) }
{
    let header = read_header(&bytes);
    let appended = get_u64(&bytes, APPENDED_AT + size as usize);
    let content = content_in(alloc, size, bytes)?;
    let record = Record {
        cookie: header.cookie,
        id: header.id,
        content,
        appended,
    };
    Ok((record, record_length(size)))
}

// The size of the fields of the record that stands whole in front, or that there is none.
#[tactic(auto, unfolding(crate::specs::Reading::needle_at))]
fn first_size(bytes: &[u8]) -> Option<u32>
    ensures { MatchOption result (needle_at bytes.now ≡ Err NeedleFault.Short)
        (λ size. (record_length size ≤ length bytes.now)
        × (needle_at bytes.now ≡ needle_of size (take (record_length size) bytes.now))) }
{
    if bytes.len() < HEADER_LENGTH {
        return None;
    }
    let size = read_header(bytes).size;
    if (bytes.len() as u64) < record_length(size) {
        return None;
    }
    Some(size)
}

fn first_record(alloc: Global, bytes: &[u8]) -> Result<(Record, u64), NeedleFault>
    ensures { Gives result (needle_at bytes.now) }
{
    let Some(size) = first_size(bytes) else {
        return Err(NeedleFault::Short);
    };
    match Vec::from_slice(alloc, &bytes[..record_length(size) as usize]) {
        Ok(own) => record_of(alloc, size, own),
        Err(_) => Err(NeedleFault::Memory),
    }
}

fn first_record_of(alloc: Global, mut bytes: Vec<u8>) -> Result<(Record, u64), NeedleFault>
    ensures { Gives result (needle_at bytes.items) }
{
    let Some(size) = first_size(&bytes) else {
        return Err(NeedleFault::Short);
    };
    bytes.truncate(record_length(size) as usize);
    record_of(alloc, size, bytes)
}

/// The record that the bytes begin with, and its length in bytes. Anything may follow it.
///
/// Faults come in the order of `NeedleFault`, and each only where no earlier one holds. Memory may
/// run out at any of them.
pub fn read_record(alloc: Global, bytes: &[u8]) -> Result<(Record, u64), NeedleFault>
    // What is read is spelled by the bytes that it took.
    ensures spelled { IfOk result (λ x. SpellsNeedle x.0 (take x.1 bytes.now)) }
    // What is spelled at the front is read.
    ensures only { (r : Record) (n : ℕ) → n ≤ length bytes.now → SpellsNeedle r (take n bytes.now)
        → Gives result (Ok (r, n)) }
    // Which fault it is.
    ensures exact { Gives result (needle_at bytes.now) }
{
    first_record(alloc, bytes)
}

// Each byte is below 256, as its type says.
fn bytes_have_room(bytes: &[u8])
    ensures { (i : ℕ) → slice_index bytes.now i < 256 }
{
    let _ = bytes;
}

/// The same of bytes that are given away. The data is not copied: it stays in them.
pub fn take_record(alloc: Global, bytes: Vec<u8>) -> Result<(Record, u64), NeedleFault>
    ensures spelled { IfOk result (λ x. SpellsNeedle x.0 (take x.1 bytes.items)) }
    ensures only { (r : Record) (n : ℕ) → n ≤ length bytes.items → SpellsNeedle r (take n bytes.items)
        → Gives result (Ok (r, n)) }
    ensures exact { Gives result (needle_at bytes.items) }
{
    bytes_have_room(&bytes);
    first_record_of(alloc, bytes)
}
