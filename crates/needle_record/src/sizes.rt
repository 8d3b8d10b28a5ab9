//! How many bytes the body of a record takes.

ghost use Rattle.std.specs.Prelude.{◌≡◌, ◌<◌, ◌≤◌, ◌^◌, length, IfSome};
ghost use Rattle.std.specs.Option.{option_map_or};
ghost use Rattle.world_model.specs.Sizes.{FitsRecord, size_of_content, text_size};
ghost use Rattle.needle_record.specs.Spelling.{record_size};

use crate::Record;
use crate::layout::{MODIFIED_LENGTH, PAIRS_PREFIX, PLAIN_BODY_LENGTH, TEXT_PREFIX, TTL_LENGTH};
use world_model::bytes::Bytes;
use world_model::types::Content;

// A text with its length in `prefix` bytes, where it stands.
fn text_size(prefix: u32, text: &Option<Bytes>) -> u32
    requires short_prefix { prefix ≤ 2 }
    requires short_text { IfSome text.now (λ t. length t < 2 ^ 16) }
    ensures { result ≡ text_size prefix text.now }
{
    match text {
        Some(text) => prefix + text.as_slice().len() as u32,
        None => 0,
    }
}

// A number of `width` bytes, where it stands.
fn number_size<T>(width: u32, number: &Option<T>) -> u32
    ensures { result ≡ option_map_or (λ _. width) number.now 0 }
{
    match number {
        Some(_) => width,
        None => 0,
    }
}

/// The bytes of the body of a record with this content.
pub fn content_size(content: &Content) -> u32
    requires { FitsRecord content.now }
    ensures { result ≡ size_of_content content.now }
{
    PLAIN_BODY_LENGTH
        + content.bytes.as_slice().len() as u32
        + text_size(TEXT_PREFIX, &content.name)
        + text_size(TEXT_PREFIX, &content.mime)
        + number_size(MODIFIED_LENGTH, &content.modified)
        + number_size(TTL_LENGTH, &content.ttl)
        + text_size(PAIRS_PREFIX, &content.pairs)
}

/// The bytes of the record's body: none, of a deletion.
pub fn record_size(needle: &Record) -> u32
    requires { IfSome needle.now.content FitsRecord }
    ensures { result ≡ record_size needle.now }
{
    match &needle.content {
        Some(content) => content_size(content),
        None => 0,
    }
}
