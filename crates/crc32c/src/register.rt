//! The shift register behind bytes, one at a time and by sixteens (M. Kounavis and F. Berry, A
//! Systematic Approach to Building High Performance Software-Based CRC Generators, 2005).

ghost use Rattle.std.specs.Prelude.{◌≡◌, bit_xor, fold};
ghost use Rattle.crc32c.specs.Register.{register, turns};

use crate::tables::{
    TABLE_0, TABLE_1, TABLE_2, TABLE_3, TABLE_4, TABLE_5, TABLE_6, TABLE_7, TABLE_8, TABLE_9,
    TABLE_10, TABLE_11, TABLE_12, TABLE_13, TABLE_14, TABLE_15,
};

// The register behind one more byte.
#[inline(always)]
fn after_byte(sum: u32, byte: u8) -> u32
    ensures { result ≡ turns 8 (bit_xor sum byte) }
{
    TABLE_0[((sum ^ u32::from(byte)) & 0xff) as usize] ^ (sum >> 8)
}

/// The register behind these bytes, one after the other.
#[tactic(auto, unfolding(crate::specs::Register::register))]
pub fn after_each(start: u32, bytes: &[u8]) -> u32
    ensures { result ≡ register start bytes.now }
{
    bytes.iter().fold(start, |sum, byte| after_byte(sum, *byte))
}

// The word behind 64 zero bits.
#[inline(always)]
fn behind_64(word: u64) -> u32
    ensures { result ≡ turns 64 word }
{
    TABLE_0[((word >> 56) & 0xff) as usize]
        ^ TABLE_1[((word >> 48) & 0xff) as usize]
        ^ TABLE_2[((word >> 40) & 0xff) as usize]
        ^ TABLE_3[((word >> 32) & 0xff) as usize]
        ^ TABLE_4[((word >> 24) & 0xff) as usize]
        ^ TABLE_5[((word >> 16) & 0xff) as usize]
        ^ TABLE_6[((word >> 8) & 0xff) as usize]
        ^ TABLE_7[(word & 0xff) as usize]
}

// The word behind 128 zero bits.
#[inline(always)]
fn behind_128(word: u64) -> u32
    ensures { result ≡ turns 128 word }
{
    TABLE_8[((word >> 56) & 0xff) as usize]
        ^ TABLE_9[((word >> 48) & 0xff) as usize]
        ^ TABLE_10[((word >> 40) & 0xff) as usize]
        ^ TABLE_11[((word >> 32) & 0xff) as usize]
        ^ TABLE_12[((word >> 24) & 0xff) as usize]
        ^ TABLE_13[((word >> 16) & 0xff) as usize]
        ^ TABLE_14[((word >> 8) & 0xff) as usize]
        ^ TABLE_15[(word & 0xff) as usize]
}

// The register behind sixteen more bytes.
#[inline(always)]
fn after_block(sum: u32, block: &[u8; 16]) -> u32
    ensures { result ≡ register sum block.now }
{
    let (words, _) = block.as_chunks::<8>();
    let first = u64::from_le_bytes(words[0]) ^ u64::from(sum);
    let second = u64::from_le_bytes(words[1]);
    // What stands on the sum before comes last, so that the rest needn't wait for it.
    behind_64(second) ^ behind_128(first)
}

// The register behind these blocks.
fn after_all(start: u32, blocks: &[[u8; 16]]) -> u32
    ensures { result ≡ fold register start blocks.now }
{
    blocks
        .iter()
        .fold(start, |sum, block| after_block(sum, block))
}

/// The register behind these bytes, sixteen at a time.
pub fn after_blocks(start: u32, bytes: &[u8]) -> u32
    ensures { result ≡ register start bytes.now }
{
    let (blocks, rest) = bytes.as_chunks::<16>();
    after_each(after_all(start, blocks), rest)
}
