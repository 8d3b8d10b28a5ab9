//! The fields of a body. Each reader gives the field's value and the bytes after it.

ghost use Rattle.std.specs.Prelude.{◌≡◌, ◌<◌, ◌≤◌, ◌^◌, length, take, drop, IfOk};
ghost use Rattle.needle_record.specs.Reading.{bytes_at, number_at, text_at, part_at, content_at};
ghost use Rattle.needle_record.specs.Given.{GivesField, content_of};

use crate::flags::{self, has};
use std::alloc::{AllocError, Global};
use wire_num::{get_u16, get_u32, get_u40};
use world_model::bytes::Bytes;

/// Why a field is not read.
#[derive(Clone, Copy)]
pub enum Stop {
    /// The field passes the end by so many bytes.
    Past(u32),
    /// Memory ran out.
    Memory,
}

/// All of a content but its data.
#[derive(Drop)]
pub struct Parts {
    pub flags: u8,
    pub name: Option<Bytes>,
    pub mime: Option<Bytes>,
    pub modified: Option<u64>,
    pub ttl: Option<u16>,
    pub pairs: Option<Bytes>,
}

impl From<AllocError> for Stop {
    ghost use Rattle.std.specs.Prelude.{◌≡◌};
    ghost use Rattle.needle_record.specs.declared.fields.Stop.TheVariants.{Memory};

    ghost from_gives = { λ _ e. e ≡ Memory };

    fn from(_e: AllocError) -> Stop {
        Stop::Memory
    }
}

fn take(rest: &[u8], count: u32) -> Result<(&[u8], &[u8]), Stop>
    ensures given { GivesField (λ x. (x.0.now, x.1.now)) result (bytes_at count rest.now) }
    ensures long { IfOk result (λ x. length x.0.now ≡ count) }
{
    let count = count as usize;
    if rest.len() < count {
        return Err(Stop::Past((count - rest.len()) as u32));
    }
    Ok(rest.split_at(count))
}

fn u8_at(rest: &[u8]) -> Result<(u8, &[u8]), Stop>
    ensures { GivesField (λ x. (x.0, x.1.now)) result (number_at 1 rest.now) }
{
    let (field, rest) = take(rest, 1)?;
    Ok((field[0], rest))
}

fn u16_at(rest: &[u8]) -> Result<(u16, &[u8]), Stop>
    ensures { GivesField (λ x. (x.0, x.1.now)) result (number_at 2 rest.now) }
{
    let (field, rest) = take(rest, 2)?;
    Ok((get_u16(field, 0), rest))
}

fn u32_at(rest: &[u8]) -> Result<(u32, &[u8]), Stop>
    ensures { GivesField (λ x. (x.0, x.1.now)) result (number_at 4 rest.now) }
{
    let (field, rest) = take(rest, 4)?;
    Ok((get_u32(field, 0), rest))
}

fn u40_at(rest: &[u8]) -> Result<(u64, &[u8]), Stop>
    ensures { GivesField (λ x. (x.0, x.1.now)) result (number_at 5 rest.now) }
{
    let (field, rest) = take(rest, 5)?;
    Ok((get_u40(field, 0), rest))
}

fn text_of(alloc: Global, count: u32, rest: &[u8]) -> Result<(Bytes, &[u8]), Stop>
    ensures { GivesField (λ x. (x.0, x.1.now)) result (bytes_at count rest.now) }
{
    let (text, rest) = take(rest, count)?;
    Ok((Bytes::new(Vec::from_slice(alloc, text)?), rest))
}

// The data, where it stands.
#[tactic(auto, unfolding(crate::specs::Reading::text_at))]
fn data_at(rest: &[u8]) -> Result<(&[u8], &[u8]), Stop>
    ensures given { GivesField (λ x. (x.0.now, x.1.now)) result (text_at 4 rest.now) }
    ensures place { IfOk result (λ x. x.0.now ≡ take (length x.0.now) (drop 4 rest.now)) }
{
    let (length, rest) = u32_at(rest)?;
    take(rest, length)
}

// A name or a mime type.
#[tactic(auto, unfolding(crate::specs::Reading::text_at))]
fn text_part(alloc: Global, stands: bool, rest: &[u8]) -> Result<(Option<Bytes>, &[u8]), Stop>
    ensures { GivesField (λ x. (x.0, x.1.now)) result (part_at stands (text_at 1) rest.now) }
{
    if !stands {
        return Ok((None, rest));
    }
    let (length, rest) = u8_at(rest)?;
    let (text, rest) = text_of(alloc, u32::from(length), rest)?;
    Ok((Some(text), rest))
}

fn modified_part(stands: bool, rest: &[u8]) -> Result<(Option<u64>, &[u8]), Stop>
    ensures { GivesField (λ x. (x.0, x.1.now)) result (part_at stands (number_at 5) rest.now) }
{
    if !stands {
        return Ok((None, rest));
    }
    let (modified, rest) = u40_at(rest)?;
    Ok((Some(modified), rest))
}

fn ttl_part(stands: bool, rest: &[u8]) -> Result<(Option<u16>, &[u8]), Stop>
    ensures { GivesField (λ x. (x.0, x.1.now)) result (part_at stands (number_at 2) rest.now) }
{
    if !stands {
        return Ok((None, rest));
    }
    let (ttl, rest) = u16_at(rest)?;
    Ok((Some(ttl), rest))
}

#[tactic(auto, unfolding(crate::specs::Reading::text_at))]
fn pairs_part(alloc: Global, stands: bool, rest: &[u8]) -> Result<(Option<Bytes>, &[u8]), Stop>
    ensures { GivesField (λ x. (x.0, x.1.now)) result (part_at stands (text_at 2) rest.now) }
{
    if !stands {
        return Ok((None, rest));
    }
    let (length, rest) = u16_at(rest)?;
    let (text, rest) = text_of(alloc, u32::from(length), rest)?;
    Ok((Some(text), rest))
}

/// The content that the bytes begin with: its data, where it stands, and its parts.
#[tactic(auto, unfolding(crate::specs::Reading::content_at))]
pub fn content_at(alloc: Global, rest: &[u8]) -> Result<(&[u8], Parts, &[u8]), Stop>
    ensures given { GivesField (λ x. (content_of x.0.now x.1, x.2.now)) result (content_at rest.now) }
    ensures place { IfOk result (λ x. x.0.now ≡ take (length x.0.now) (drop 4 rest.now)) }
{
    let (bytes, rest) = data_at(rest)?;
    let (flags, rest) = u8_at(rest)?;
    let (name, rest) = text_part(alloc, has(flags, flags::NAME), rest)?;
    let (mime, rest) = text_part(alloc, has(flags, flags::MIME), rest)?;
    let (modified, rest) = modified_part(has(flags, flags::MODIFIED), rest)?;
    let (ttl, rest) = ttl_part(has(flags, flags::TTL), rest)?;
    let (pairs, rest) = pairs_part(alloc, has(flags, flags::PAIRS), rest)?;
    let parts = Parts {
        flags: flags & flags::KEPT,
        name,
        mime,
        modified,
        ttl,
        pairs,
    };
    Ok((bytes, parts, rest))
}
