//! The flag byte of a body: which optional parts stand, and flags that are kept unread.

ghost use Rattle.std.specs.Prelude.{◌≡◌};
ghost use Rattle.world_model.specs.Sizes.{FitsRecord};
ghost use Rattle.needle_record.specs.Spelling.{flag_byte, part_bit};
ghost use Rattle.needle_record.specs.Reading.{has_bit};

use world_model::types::Content;

pub const NAME: u8 = 0x02;

pub const MIME: u8 = 0x04;

pub const MODIFIED: u8 = 0x08;

pub const TTL: u8 = 0x10;

pub const PAIRS: u8 = 0x20;

/// The flags that are kept and given back unread: compressed, 0x40, and chunk manifest.
pub const KEPT: u8 = 0xc1;

/// Whether the bit is set.
pub fn has(flags: u8, bit: u8) -> bool
    ensures { result ≡ has_bit bit flags }
{
    flags & bit != 0
}

// The bit, where the part stands.
fn part_bit<T>(part: &Option<T>, bit: u8) -> u8
    ensures { result ≡ part_bit bit part.now }
{
    match part {
        Some(_) => bit,
        None => 0,
    }
}

/// The kept flags, and the bits of the parts that stand.
pub fn flag_byte(content: &Content) -> u8
    requires { FitsRecord content.now }
    ensures { result ≡ flag_byte content.now }
{
    content.flags
        + part_bit(&content.name, NAME)
        + part_bit(&content.mime, MIME)
        + part_bit(&content.modified, MODIFIED)
        + part_bit(&content.ttl, TTL)
        + part_bit(&content.pairs, PAIRS)
}
