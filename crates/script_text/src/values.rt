//! Numbers and bytes, as words spell them.
ghost use Rattle.std.specs.Prelude.{◌≡◌, ◌≢◌, slice_index, SomeIff};
ghost use Rattle.std.specs.Str.Parse.{digits_value};
ghost use Rattle.script_text.specs.Numerals.{IsNumber, is_plain};
ghost use Rattle.script_text.specs.Grammar.{cookie_in, data_in, flags_in, hex_in, hex_of_length, number_in, steps_in, ttl_in, u32_in, u64_in};
ghost use Rattle.script_text.specs.Reading.{Reads};

use crate::LineFault;
use hex::{FromHex, FromHexError};
use std::alloc::Global;
use wire_num::{get_u16, get_u32};
use world_model::bytes::Bytes;

// The flags that a record keeps, beside those of its parts, are the bits of 0xc1.
const UNKEPT_FLAGS: u8 = 0x3e;

/// A number in decimal digits, without sign and leading zeros, of at most `most`.
pub fn number(word: &[u8], most: u64) -> Option<u64>
    ensures { result ≡ number_in most word.now }
{
    if !is_plain(word) {
        return None;
    }
    let number = digits(word)?;
    if number <= most { Some(number) } else { None }
}

// No sign stands in front, and no zero before other bytes.
fn is_plain(word: &[u8]) -> bool
    ensures { result ≡ is_plain word.now }
{
    match word {
        [b'+', ..] | [b'0', _, ..] => false,
        _ => true,
    }
}

// The number that decimal digits write, if it has room.
fn digits(word: &[u8]) -> Option<u64>
    requires { slice_index word.now 0 ≢ 43 }
    ensures { SomeIff result (IsNumber word.now) (digits_value 10 word.now) }
{
    str::from_utf8(word).ok()?.parse().ok()
}

/// The same, of at most 2^64 - 1.
pub fn u64_word(word: &[u8]) -> Option<u64>
    ensures { result ≡ u64_in word.now }
{
    number(word, u64::MAX)
}

/// The same, of at most 2^32 - 1.
pub fn u32_word(word: &[u8]) -> Option<u32>
    ensures { result ≡ u32_in word.now }
{
    number(word, u64::from(u32::MAX)).map(|number| number as u32)
}

/// A number of steps: 1 to 1000000.
pub(crate) fn steps_word(word: &[u8]) -> Option<u32>
    ensures { result ≡ steps_in word.now }
{
    const MAX_STEPS: u64 = 1_000_000;
    match number(word, MAX_STEPS)? {
        0 => None,
        steps => Some(steps as u32),
    }
}

/// The bytes of an even number of hexadecimal digits of either case.
pub(crate) fn hex_word(alloc: Global, word: &[u8]) -> Result<Bytes, LineFault>
    ensures { Reads (hex_in word.now) result }
{
    match hex::decode(alloc, word) {
        Ok(bytes) => Ok(Bytes::new(bytes)),
        Err(FromHexError::OutOfMemory) => Err(LineFault::Memory),
        Err(_) => Err(LineFault::Syntax),
    }
}

/// The data of a needle: digits that are not empty, or `-` for none.
pub(crate) fn data_word(alloc: Global, word: &[u8]) -> Result<Bytes, LineFault>
    ensures { Reads (data_in word.now) result }
{
    match word {
        b"-" => Ok(Bytes::new(Vec::new(alloc))),
        [] => Err(LineFault::Syntax),
        _ => hex_word(alloc, word),
    }
}

// The bytes of twice so many hexadecimal digits.
fn hex_array<const N: usize>(word: &[u8]) -> Option<[u8; N]>
    ensures { result ≡ hex_of_length N word.now }
{
    <[u8; N]>::from_hex(word).ok()
}

/// Eight hexadecimal digits.
pub(crate) fn cookie_word(word: &[u8]) -> Option<u32>
    ensures { result ≡ cookie_in word.now }
{
    let bytes = hex_array::<4>(word)?;
    Some(get_u32(&bytes, 0))
}

/// Four hexadecimal digits, as a time to live stands in a record.
pub(crate) fn ttl_word(word: &[u8]) -> Option<u16>
    ensures { result ≡ ttl_in word.now }
{
    let bytes = hex_array::<2>(word)?;
    Some(get_u16(&bytes, 0))
}

/// Two hexadecimal digits, of flags that are kept and given back.
pub(crate) fn flags_word(word: &[u8]) -> Option<u8>
    ensures { result ≡ flags_in word.now }
{
    let [flags] = hex_array::<1>(word)?;
    if flags & UNKEPT_FLAGS == 0 {
        Some(flags)
    } else {
        None
    }
}
