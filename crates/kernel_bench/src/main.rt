//! Encodes and restores pieces of 64 KiB in each ratio, and prints what came out. Each word that it is run with
//! asks for one round of timing.
#![tactic(auto)]

ghost use Rattle.std.specs.Prelude.{◌≡◌, ◌<◌, ◌+◌, ◌*◌, EachIndex, IfOk, length, slice_index};
ghost use Rattle.world_model.specs.Ratios.{data_count, parity_count};
ghost use Rattle.rs_kernel.specs.Pieces.{AreEnough, HaveOneSize};

use rs_kernel::{encode_piece, mul_add, restore_piece, restore_pieces};
use std::alloc::AllocError;
use std::time::{Duration, Instant};
use std::{env, io};
use world_model::types::Ratio;

// The bytes of a piece.
const SIZE: usize = 65536;

// How often a call is repeated between two readings of the clock.
const REPEATS: u64 = 200;

// The shards that are lost: the first, as many as there are parity shards.
fn lost(ratio: Ratio) -> &'static [u8]
    ensures count { length result.now ≡ parity_count ratio }
    ensures shards { EachIndex result.now
        (λ p. slice_index result.now p < data_count ratio + parity_count ratio) }
{
    match ratio {
        Ratio::ThreeTwo => &[0, 1],
        Ratio::SixThree => &[0, 1, 2],
        Ratio::TenFour => &[0, 1, 2, 3],
        Ratio::TwelveFour => &[0, 1, 2, 3],
    }
}

// The shards that are read then.
fn kept(ratio: Ratio) -> &'static [u8]
    ensures { AreEnough (data_count ratio) (parity_count ratio) result.now }
{
    match ratio {
        Ratio::ThreeTwo => &[2, 3, 4],
        Ratio::SixThree => &[3, 4, 5, 6, 7, 8],
        Ratio::TenFour => &[4, 5, 6, 7, 8, 9, 10, 11, 12, 13],
        Ratio::TwelveFour => &[4, 5, 6, 7, 8, 9, 10, 11, 12, 13, 14, 15],
    }
}

// Bytes that no compiler can guess.
fn fill(bytes: &mut [u8]) {
    let mut state = 88172645463325252u64;
    for byte in bytes.iter_mut() {
        state ^= state << 13;
        state ^= state >> 7;
        state ^= state << 17;
        *byte = ((state >> 32) & 0xff) as u8;
    }
}

// The 64-bit checksum of Fowler, Noll and Vo, in its form 1a.
fn checksum(bytes: &[u8]) -> u64 {
    let mut sum = 0xcbf29ce484222325u64;
    for byte in bytes {
        sum = (sum ^ u64::from(*byte)).wrapping_mul(0x100000001b3);
    }
    sum
}

// Prints how many megabytes a second were read, where each call reads so many pieces.
fn report(rt: &HostRuntime, call: &str, word: &str, pieces: u8, took: Duration) -> io::Result<()> {
    let bytes = u64::from(pieces) * SIZE as u64 * REPEATS;
    let micros = u64::try_from(took.as_micros()).unwrap_or(u64::MAX);
    let rate = bytes.checked_div(micros).unwrap_or(0);
    println!(rt; "{call}_{word} {rate} MB/s")
}

fn time_encode(rt: &HostRuntime, ratio: Ratio, pieces: &[u8], parity: &mut [u8]) -> io::Result<()>
    requires { HaveOneSize (parity_count ratio) parity.old (data_count ratio) pieces.now }
{
    let start = Instant::now(rt)?;
    for _ in 0..REPEATS {
        encode_piece(ratio, pieces, parity);
    }
    report(
        rt,
        "encode",
        ratio.word(),
        ratio.data_count(),
        start.elapsed(rt)?,
    )
}

// Times all lost shards at once.
fn time_restore(rt: &HostRuntime, ratio: Ratio, pieces: &[u8], made: &mut [u8]) -> io::Result<()>
    requires { HaveOneSize (parity_count ratio) made.old (data_count ratio) pieces.now }
{
    let (have, want) = (kept(ratio), lost(ratio));
    let start = Instant::now(rt)?;
    for _ in 0..REPEATS {
        restore_pieces(ratio, have, pieces, want, made);
    }
    report(
        rt,
        "restore",
        ratio.word(),
        ratio.data_count(),
        start.elapsed(rt)?,
    )
}

// Times one lost shard.
fn time_restore_one(rt: &HostRuntime, ratio: Ratio, pieces: &[u8], out: &mut [u8]) -> io::Result<()>
    requires { length pieces.now ≡ data_count ratio * length out.old }
{
    let have = kept(ratio);
    let start = Instant::now(rt)?;
    for _ in 0..REPEATS {
        restore_piece(ratio, have, pieces, 0, out);
    }
    report(
        rt,
        "restore_one",
        ratio.word(),
        ratio.data_count(),
        start.elapsed(rt)?,
    )
}

// Prints what the calls make of the pieces.
fn show(
    rt: &HostRuntime,
    ratio: Ratio,
    pieces: &[u8],
    made: &mut [u8],
    out: &mut [u8],
) -> io::Result<()>
    requires made { HaveOneSize (parity_count ratio) made.old (data_count ratio) pieces.now }
    requires out { length pieces.now ≡ data_count ratio * length out.old }
{
    let (word, have) = (ratio.word(), kept(ratio));
    encode_piece(ratio, pieces, made);
    println!(rt; "{word} parity {:016x}", checksum(made))?;
    restore_pieces(ratio, have, pieces, lost(ratio), made);
    println!(rt; "{word} restored {:016x}", checksum(made))?;
    restore_piece(ratio, have, pieces, 0, out);
    println!(rt; "{word} one restored {:016x}", checksum(out))
}

// Shows what a ratio makes, and times it in so many rounds.
fn try_ratio(rt: &HostRuntime, ratio: Ratio, rounds: usize) -> io::Result<()> {
    let mut pieces = buffer(rt, usize::from(ratio.data_count()) * SIZE)?;
    let mut made = buffer(rt, usize::from(ratio.parity_count()) * SIZE)?;
    let mut out = buffer(rt, SIZE)?;
    let (pieces, made, out) = (
        pieces.as_mut_slice(),
        made.as_mut_slice(),
        out.as_mut_slice(),
    );
    fill(pieces);
    show(rt, ratio, pieces, made, out)?;
    for _ in 0..rounds {
        time_encode(rt, ratio, pieces, made)?;
        time_restore(rt, ratio, pieces, made)?;
        time_restore_one(rt, ratio, pieces, out)?;
    }
    Ok(())
}

// Shows a multiple of a piece, and times ten of them.
fn try_multiples(rt: &HostRuntime, rounds: usize) -> io::Result<()> {
    let mut piece = buffer(rt, SIZE)?;
    let mut out = buffer(rt, SIZE)?;
    let (piece, out) = (piece.as_mut_slice(), out.as_mut_slice());
    fill(piece);
    mul_add(out, piece, 150);
    println!(rt; "multiple {:016x}", checksum(out))?;
    for _ in 0..rounds {
        let start = Instant::now(rt)?;
        for _ in 0..REPEATS {
            for c in 2..12u8 {
                mul_add(out, piece, c);
            }
        }
        report(rt, "mul_add", "ten", 10, start.elapsed(rt)?)?;
    }
    Ok(())
}

// A buffer of zeros.
fn buffer(rt: &HostRuntime, size: usize) -> Result<Vec<u8>, AllocError>
    ensures { IfOk result (λ buffer. length buffer.items ≡ size) }
{
    Vec::from_elem(rt.alloc(), 0u8, size)
}

fn main(rt: HostRuntime) -> io::Result<()> {
    let rounds = env::args(&rt)?.skip(1).count();
    try_ratio(&rt, Ratio::ThreeTwo, rounds)?;
    try_ratio(&rt, Ratio::SixThree, rounds)?;
    try_ratio(&rt, Ratio::TenFour, rounds)?;
    try_ratio(&rt, Ratio::TwelveFour, rounds)?;
    try_multiples(&rt, rounds)
}
