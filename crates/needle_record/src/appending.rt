//! Fields appended to a `Vec` that has the room for them, so that no allocation can fail half-way.

ghost use Rattle.std.specs.Prelude.{◌≡◌, ◌+◌, ◌<◌, ◌≤◌, ◌^◌, length, IfSome, replicate, ◌++◌, vec_len, vec_capacity};
ghost use Rattle.wire_num.specs.Numbers.{bytes_of};
ghost use Rattle.world_model.specs.Sizes.{FitsRecord, size_of_content, text_size, number_size};
ghost use Rattle.needle_record.specs.Spelling.{body, text_bytes, number_bytes};
ghost use Rattle.needle_record.specs.Appending.{Appends};

use crate::flags::flag_byte;
use wire_num::{put_u16, put_u32, put_u40, put_u64};
use world_model::bytes::Bytes;
use world_model::types::Content;

// The longest padding of a record.
const ZEROS: [u8; 8] = [0; 8];

fn push_bytes(out: &mut Vec<u8>, bytes: &[u8])
    requires { vec_len out.old + length bytes.now ≤ vec_capacity out.old }
    ensures { Appends out.old out.new (length bytes.now) bytes.now }
{
    let _ = out.extend_from_slice(bytes);
}

fn push_u8(out: &mut Vec<u8>, value: u8)
    requires { vec_len out.old + 1 ≤ vec_capacity out.old }
    ensures { Appends out.old out.new 1 (bytes_of 1 value) }
{
    push_bytes(out, &[value]);
}

fn push_u16(out: &mut Vec<u8>, value: u16)
    requires { vec_len out.old + 2 ≤ vec_capacity out.old }
    ensures { Appends out.old out.new 2 (bytes_of 2 value) }
{
    let mut field = [0; 2];
    put_u16(&mut field, 0, value);
    push_bytes(out, &field);
}

pub fn push_u32(out: &mut Vec<u8>, value: u32)
    requires { vec_len out.old + 4 ≤ vec_capacity out.old }
    ensures { Appends out.old out.new 4 (bytes_of 4 value) }
{
    let mut field = [0; 4];
    put_u32(&mut field, 0, value);
    push_bytes(out, &field);
}

fn push_u40(out: &mut Vec<u8>, value: u64)
    requires fits { value < 2 ^ 40 }
    requires room { vec_len out.old + 5 ≤ vec_capacity out.old }
    ensures { Appends out.old out.new 5 (bytes_of 5 value) }
{
    let mut field = [0; 5];
    put_u40(&mut field, 0, value);
    push_bytes(out, &field);
}

pub fn push_u64(out: &mut Vec<u8>, value: u64)
    requires { vec_len out.old + 8 ≤ vec_capacity out.old }
    ensures { Appends out.old out.new 8 (bytes_of 8 value) }
{
    let mut field = [0; 8];
    put_u64(&mut field, 0, value);
    push_bytes(out, &field);
}

pub fn push_zeros(out: &mut Vec<u8>, count: usize)
    requires few { count ≤ 8 }
    requires room { vec_len out.old + count ≤ vec_capacity out.old }
    ensures { Appends out.old out.new count (replicate count 0) }
{
    push_bytes(out, &ZEROS[..count]);
}

fn push_data(out: &mut Vec<u8>, bytes: &[u8])
    requires fits { length bytes.now < 2 ^ 32 }
    requires room { vec_len out.old + (4 + length bytes.now) ≤ vec_capacity out.old }
    ensures { Appends out.old out.new (4 + length bytes.now) (bytes_of 4 (length bytes.now) ++ bytes.now) }
{
    push_u32(out, bytes.len() as u32);
    push_bytes(out, bytes);
}

// A name or a mime type.
fn push_text(out: &mut Vec<u8>, text: &Option<Bytes>)
    requires fits { IfSome text.now (λ t. length t < 256) }
    requires room { vec_len out.old + text_size 1 text.now ≤ vec_capacity out.old }
    ensures { Appends out.old out.new (text_size 1 text.now) (text_bytes 1 text.now) }
{
    if let Some(text) = text {
        let bytes = text.as_slice();
        push_u8(out, bytes.len() as u8);
        push_bytes(out, bytes);
    }
}

fn push_pairs(out: &mut Vec<u8>, pairs: &Option<Bytes>)
    requires fits { IfSome pairs.now (λ t. length t < 2 ^ 16) }
    requires room { vec_len out.old + text_size 2 pairs.now ≤ vec_capacity out.old }
    ensures { Appends out.old out.new (text_size 2 pairs.now) (text_bytes 2 pairs.now) }
{
    if let Some(pairs) = pairs {
        let bytes = pairs.as_slice();
        push_u16(out, bytes.len() as u16);
        push_bytes(out, bytes);
    }
}

fn push_modified(out: &mut Vec<u8>, modified: Option<u64>)
    requires fits { IfSome modified (λ n. n < 2 ^ 40) }
    requires room { vec_len out.old + number_size 5 modified ≤ vec_capacity out.old }
    ensures { Appends out.old out.new (number_size 5 modified) (number_bytes 5 modified) }
{
    if let Some(modified) = modified {
        push_u40(out, modified);
    }
}

fn push_ttl(out: &mut Vec<u8>, ttl: Option<u16>)
    requires { vec_len out.old + number_size 2 ttl ≤ vec_capacity out.old }
    ensures { Appends out.old out.new (number_size 2 ttl) (number_bytes 2 ttl) }
{
    if let Some(ttl) = ttl {
        push_u16(out, ttl);
    }
}

/// The body of a record with this content.
pub fn push_body(out: &mut Vec<u8>, content: &Content)
    requires fits { FitsRecord content.now }
    requires room { vec_len out.old + size_of_content content.now ≤ vec_capacity out.old }
    ensures { Appends out.old out.new (size_of_content content.now) (body content.now) }
{
    push_data(out, content.bytes.as_slice());
    push_u8(out, flag_byte(content));
    push_text(out, &content.name);
    push_text(out, &content.mime);
    push_modified(out, content.modified);
    push_ttl(out, content.ttl);
    push_pairs(out, &content.pairs);
}
