//! Prints the CRC-32C of 64 KiB by the crate `crc32c` and by a sum byte by byte. With the word `time` it
//! measures both as well, and prints bytes in a microsecond and the ratio.
#![tactic(auto)]

mod plain;

use crc32c::crc;
use plain::PlainCrc;
use std::io;
use std::time::Instant;

// The length of the text in bytes.
const TEXT_LENGTH: usize = 65536;

// How often the text is summed in one measurement.
const PASSES: u64 = 8;

// How many measurements each sum has; the fastest counts.
const ROUNDS: u64 = 500;

// A text that looks random: xorshift of 64 bits (G. Marsaglia, Xorshift RNGs, 2003).
fn fill(text: &mut [u8]) {
    let mut state = 88_172_645_463_325_252_u64;
    for byte in text.iter_mut() {
        state ^= state << 13;
        state ^= state >> 7;
        state ^= state << 17;
        *byte = ((state >> 32) & 0xff) as u8;
    }
}

// The text is changed by each sum, so that no sum can be taken from the one before.
fn feed_back(text: &mut [u8], sum: u32) {
    if let Some(first) = text.first_mut() {
        *first ^= (sum & 0xff) as u8;
    }
}

// Nanoseconds for all passes of the fast sum.
fn time_fast(rt: &HostRuntime, text: &mut [u8]) -> io::Result<u64> {
    let start = Instant::now(rt)?;
    for _ in 0..PASSES {
        let sum = crc(text);
        feed_back(text, sum);
    }
    Ok(u64::try_from(start.elapsed(rt)?.as_nanos()).unwrap_or(u64::MAX))
}

// Nanoseconds for all passes of the plain sum.
fn time_plain(rt: &HostRuntime, plain: &PlainCrc, text: &mut [u8]) -> io::Result<u64> {
    let start = Instant::now(rt)?;
    for _ in 0..PASSES {
        let sum = plain.crc(text);
        feed_back(text, sum);
    }
    Ok(u64::try_from(start.elapsed(rt)?.as_nanos()).unwrap_or(u64::MAX))
}

// Bytes in a microsecond, which are megabytes in a second.
fn rate(nanoseconds: u64) -> u64 {
    PASSES * TEXT_LENGTH as u64 * 1000 / nanoseconds.max(1)
}

fn measure(rt: &HostRuntime, plain: &PlainCrc, text: &mut [u8]) -> io::Result<()> {
    let mut fast_time = u64::MAX;
    let mut plain_time = u64::MAX;
    for _ in 0..ROUNDS {
        plain_time = plain_time.min(time_plain(rt, plain, text)?);
        fast_time = fast_time.min(time_fast(rt, text)?);
    }
    let (fast_rate, plain_rate) = (rate(fast_time), rate(plain_time));
    println!(rt; "byte by byte {plain_rate} MB/s")?;
    println!(rt; "by sixteens {fast_rate} MB/s")?;
    let ratio = fast_rate.saturating_mul(100) / plain_rate.max(1);
    println!(rt; "ratio {}.{:02}", ratio / 100, ratio % 100)
}

fn main(rt: HostRuntime) -> io::Result<()> {
    let mut text = Vec::from_elem(rt.alloc(), 0u8, TEXT_LENGTH)?;
    fill(text.as_mut_slice());
    let plain = PlainCrc::new();
    println!(rt; "byte by byte {:08x}", plain.crc(text.as_slice()))?;
    println!(rt; "by sixteens {:08x}", crc(text.as_slice()))?;
    for word in std::env::args(&rt)? {
        if word.as_str() == "time" {
            measure(&rt, &plain, text.as_mut_slice())?;
        }
    }
    Ok(())
}
