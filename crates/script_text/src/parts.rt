//! The content of a needle, by the words of a `put`.
ghost use Rattle.std.specs.Prelude.{codes};
ghost use Rattle.script_text.specs.Grammar.{content_in, flags_in, hex_in, part_in, ttl_in, u64_in};
ghost use Rattle.script_text.specs.Reading.{Reads, ReadsPart};

use crate::LineFault;
use crate::values::{data_word, flags_word, hex_word, ttl_word, u64_word};
use crate::words::Words;
use std::alloc::Global;
use world_model::bytes::Bytes;
use world_model::types::Content;

/// The data in one word, and the parts in the words behind it, in their order.
pub(crate) fn content(
    alloc: Global,
    bytes: &[u8],
    mut words: Words<'_>,
) -> Result<Content, LineFault>
    ensures { Reads (content_in bytes.now words.entry) result }
{
    let bytes = data_word(alloc, bytes)?;
    let flags = flags_part(&mut words)?;
    let name = hex_part(alloc, b"name=", &mut words)?;
    let mime = hex_part(alloc, b"mime=", &mut words)?;
    let modified = modified_part(&mut words)?;
    let ttl = ttl_part(&mut words)?;
    let pairs = hex_part(alloc, b"pairs=", &mut words)?;
    if words.next().is_some() {
        return Err(LineFault::Syntax);
    }
    Ok(Content {
        bytes,
        flags: flags.unwrap_or(0),
        name,
        mime,
        modified,
        ttl,
        pairs,
    })
}

// Bytes behind their key.
fn hex_part(alloc: Global, key: &[u8], words: &mut Words<'_>) -> Result<Option<Bytes>, LineFault>
    ensures { ReadsPart (part_in key.now hex_in words.old) result words.new }
{
    match words.part(key) {
        None => Ok(None),
        Some(word) => hex_word(alloc, word).map(Some),
    }
}

fn flags_part(words: &mut Words<'_>) -> Result<Option<u8>, LineFault>
    ensures { ReadsPart (part_in (codes "flags=") flags_in words.old) result words.new }
{
    match words.part(b"flags=") {
        None => Ok(None),
        Some(word) => match flags_word(word) {
            None => Err(LineFault::Syntax),
            value => Ok(value),
        },
    }
}

fn modified_part(words: &mut Words<'_>) -> Result<Option<u64>, LineFault>
    ensures { ReadsPart (part_in (codes "modified=") u64_in words.old) result words.new }
{
    match words.part(b"modified=") {
        None => Ok(None),
        Some(word) => match u64_word(word) {
            None => Err(LineFault::Syntax),
            value => Ok(value),
        },
    }
}

fn ttl_part(words: &mut Words<'_>) -> Result<Option<u16>, LineFault>
    ensures { ReadsPart (part_in (codes "ttl=") ttl_in words.old) result words.new }
{
    match words.part(b"ttl=") {
        None => Ok(None),
        Some(word) => match ttl_word(word) {
            None => Err(LineFault::Syntax),
            value => Ok(value),
        },
    }
}
