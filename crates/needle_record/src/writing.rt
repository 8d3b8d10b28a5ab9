//! Writing a record: behind other bytes, or over them.

ghost use Rattle.std.specs.Prelude.{◌≡◌, ◌+◌, ◌<◌, ◌≤◌, ◌++◌, length, take, drop, Option, IfSome, OnOk, OnErr, vec_len, vec_capacity};
ghost use Rattle.std.specs.Option.{option_map_or};
ghost use Rattle.wire_num.specs.Numbers.{record_length};
ghost use Rattle.world_model.specs.Sizes.{FitsRecord, size_of_content};
ghost use Rattle.needle_record.specs.Spelling.{body_of, canonical, data_of, deletion_of, length_of_record, record_size};
ghost use Rattle.needle_record.specs.Appending.{Appends};

use crate::Record;
use crate::appending::{push_body, push_u32, push_u64, push_zeros};
use crate::layout::ID_AT;
use crate::sizes::record_size;
use crc32c::crc;
use std::alloc::AllocError;
use wire_num::{padding, put_u64, record_length};
use world_model::limits::DELETION_LENGTH;
use world_model::types::Content;

/// Writes the deletion of the id, with cookie 0 and append time 0, into the 32 bytes from `at`.
pub fn put_deletion(out: &mut [u8], at: usize, id: u64)
    requires { at + 32 ≤ length out.old }
    ensures { out.new ≡ take at out.old ++ (canonical (deletion_of id) ++ drop (at + 32) out.old) }
{
    // Beside the id all is zero: cookie, size, the checksum of no data, append time and padding.
    let mut record = [0; DELETION_LENGTH as usize];
    put_u64(&mut record, ID_AT, id);
    out[at..at + DELETION_LENGTH as usize].copy_from_slice(&record);
}

fn push_content(out: &mut Vec<u8>, content: &Option<Content>)
    requires fits { IfSome content.now FitsRecord }
    requires room { vec_len out.old + option_map_or size_of_content content.now 0 ≤ vec_capacity out.old }
    ensures { Appends out.old out.new (option_map_or size_of_content content.now 0) (body_of content.now) }
{
    if let Some(content) = content {
        push_body(out, content);
    }
}

fn data_of(content: &Option<Content>) -> &[u8]
    ensures { result.now ≡ data_of content.now }
{
    match content {
        Some(content) => content.bytes.as_slice(),
        None => &[],
    }
}

fn push_record(out: &mut Vec<u8>, needle: &Record, size: u32)
    requires fits { IfSome needle.now.content FitsRecord }
    requires size { size ≡ record_size needle.now }
    requires room { vec_len out.old + record_length size ≤ vec_capacity out.old }
    ensures { Appends out.old out.new (record_length size) (canonical needle.now) }
{
    push_u32(out, needle.cookie);
    push_u64(out, needle.id);
    push_u32(out, size);
    push_content(out, &needle.content);
    push_u32(out, crc(data_of(&needle.content)));
    push_u64(out, needle.appended);
    push_zeros(out, padding(size) as usize);
}

/// Appends the record, with the plain checksum and zeros as padding.
pub fn write_record(needle: &Record, out: &mut Vec<u8>) -> Result<(), AllocError>
    requires { IfSome needle.now.content FitsRecord }
    ensures ok { OnOk result (out.new.items ≡ out.old.items ++ canonical needle.now) }
    ensures err { OnErr result (out.new.items ≡ out.old.items) }

    // Only room that was missing makes it fail.
    ensures full { OnErr result (vec_capacity out.old < vec_len out.old + length_of_record needle.now) }
{
    let size = record_size(needle);
    out.reserve(record_length(size) as usize)?;
    push_record(out, needle, size);
    Ok(())
}
