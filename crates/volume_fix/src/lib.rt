//! The index entries that the headers of a data file's records give.
#![tactic(auto)]

ghost use Rattle.std.specs.Prelude.{◌≡◌, ◌+◌, ◌/◌, ◌%◌, ◌^◌, ◌<◌, ◌≤◌, ◌==◌, if◌then◌else◌, pos, negsuc, [], ◌∷◌, ◌++◌, length, drop, vec_len, vec_capacity, IfOk};
ghost use Rattle.world_model.specs.Sizes.{max_dat};
ghost use Rattle.volume_fix.specs.Walk.{LeavesNoHeader, entry_or_past, walk};

use needle_record::{HEADER_LENGTH, ID_AT, SIZE_AT};
use volume_forms::{DELETED_SIZE, Entry, OFFSET_UNIT};
use wire_num::{get_u32, get_u64, record_length};

// The greatest size that an index entry has.
const MAX_SIZE: u32 = 0x7fff_ffff;

/// A record that ends past the end, or whose size is over 2^31 - 1: its place and its length.
#[derive(Clone, Copy, Debug, PartialEq, Eq)]
pub struct Past {
    pub at: u64,
    pub length: u64,
}

/// Appends to `out` the entries of the records whose headers lie whole in `chunk`, in order, and answers the place
/// behind the last of them.
///
/// The chunk begins with the record at the place `at` of a data file. `Past` is the first record that ends behind
/// `end` or has a size over 2^31 - 1; `out` then has the entries of the records before it.
pub fn headers(chunk: &[u8], at: u64, end: u64, out: &mut Vec<Entry>) -> Result<u64, Past>
    requires header { 16 ≤ length chunk.now }
    requires aligned { at % 8 ≡ 0 }
    requires end { end ≤ max_dat }
    requires reserved { vec_len out.old + (length chunk.now / 32 + 1) ≤ vec_capacity out.old }
    ensures entries { out.new.items ≡ out.old.items ++ (walk end at chunk.now).entries }
    ensures next { result ≡ (walk end at chunk.now).next }
    ensures left { IfOk result (LeavesNoHeader end at (length chunk.now)) }
{
    let mut at = at;
    let mut rest = chunk;
    while rest.len() >= HEADER_LENGTH {
        let (entry, length) = read_entry(rest, at, end)?;
        push_reserved(out, entry);
        at += length;
        rest = behind(rest, length);
    }
    Ok(at)
}

// The entry and the length of the record whose header the bytes begin with.
fn read_entry(bytes: &[u8], at: u64, end: u64) -> Result<(Entry, u64), Past>
    requires header { 16 ≤ length bytes.now }
    requires end { end ≤ max_dat }
    ensures { result ≡ entry_or_past end at bytes.now }
{
    let size = get_u32(bytes, SIZE_AT);
    let length = record_length(size);
    if at > end || length > end - at || size > MAX_SIZE {
        return Err(Past { at, length });
    }
    let entry = Entry {
        id: get_u64(bytes, ID_AT),
        offset: (at / OFFSET_UNIT) as u32,
        size: entry_size(size),
    };
    Ok((entry, length))
}

// The size in the entry of a record whose fields have this size.
fn entry_size(size: u32) -> i32
    requires { size < 2 ^ 31 }
    ensures { result ≡ (if size == 0 then negsuc 0 else pos size) }
{
    if size == 0 { DELETED_SIZE } else { size as i32 }
}

// Appends where there is room.
fn push_reserved(out: &mut Vec<Entry>, entry: Entry)
    requires { vec_len out.old < vec_capacity out.old }
    ensures items { out.new.items ≡ out.old.items ++ entry ∷ [] }
    ensures len { vec_len out.new ≡ vec_len out.old + 1 }
    ensures capacity { vec_capacity out.old ≤ vec_capacity out.new }
{
    let Ok(()) = out.push(entry) else {
        unreachable!()
    };
}

// The bytes behind the first `length`, none if there are fewer.
fn behind(bytes: &[u8], length: u64) -> &[u8]
    ensures { result.now ≡ drop length bytes.now }
{
    let start = bytes.len().min(length as usize);
    &bytes[start..]
}

#[cfg(test)]
mod tests;
