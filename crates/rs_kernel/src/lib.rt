//! Codewords of many columns at once.
//!
//! Pieces of equal length stand one after the other, one for each shard. Byte i of each piece is column i.
#![tactic(auto)]

ghost use Rattle.std.specs.Prelude.{◌≡◌, ◌<◌, ◌≤◌, ◌*◌, ◌/◌, ◌+◌, length, slice_index, EachIndex};
ghost use Rattle.gf256.specs.Field.{field_add, field_mul};
ghost use Rattle.rs_code.specs.Shards.{HasSizes, AreShards};
ghost use Rattle.world_model.specs.Ratios.{data_count, parity_count};
ghost use Rattle.rs_code.specs.Coefficients.{AreFirst};
ghost use Rattle.rs_kernel.specs.Pieces.{AreBehind, AreCodewords, AreEnough, AreRestored, AreRows, HaveOneSize, IsPieceCount, IsRestored, IsRow};
ghost use Rattle.rs_kernel.specs.Weights.{coefficients_of, rows_of};

mod lanes;
mod sums;

use gf256::{add, mul};
use lanes::{WIDTH, Weight, load};
use rs_code::Code;
use world_model::types::Ratio;

/// Adds `c` times `src` to `out`, at each place.
pub fn mul_add(out: &mut [u8], src: &[u8], c: u8)
    requires { length src.now ≡ length out.old }
    ensures { EachIndex out.new (λ i. slice_index out.new i
        ≡ field_add (slice_index out.old i) (field_mul c (slice_index src.now i))) }
{
    let weight = Weight::new(c);
    let blocks = out.len() / WIDTH;
    for index in 0..blocks {
        let at = index * WIDTH;
        weight
            .added(load(out, at), load(src, at))
            .copy_to_slice(&mut out[at..]);
    }
    for at in blocks * WIDTH..out.len() {
        out[at] = add(out[at], mul(c, src[at]));
    }
}

// The numbers of shards.
static NUMBERS: [u8; 16] = [0, 1, 2, 3, 4, 5, 6, 7, 8, 9, 10, 11, 12, 13, 14, 15];

// The numbers of the data shards.
fn data_numbers(ratio: Ratio) -> &'static [u8]
    ensures { AreFirst (data_count ratio) result.now }
{
    &NUMBERS[..usize::from(ratio.data_count())]
}

// The numbers of the parity shards.
fn parity_numbers(ratio: Ratio) -> &'static [u8]
    ensures { AreBehind (data_count ratio) (parity_count ratio) result.now }
{
    &NUMBERS[usize::from(ratio.data_count())..usize::from(ratio.shard_count())]
}

/// Calls the kernel of a ratio, with the numbers of its data and parity shards: a row for each ratio.
macro_rules! by_ratio {
    ($ratio:expr, $kernel:ident($($argument:expr),*)) => {
        match $ratio {
            Ratio::ThreeTwo => $kernel::<3, 2>($($argument),*),
            Ratio::SixThree => $kernel::<6, 3>($($argument),*),
            Ratio::TenFour => $kernel::<10, 4>($($argument),*),
            Ratio::TwelveFour => $kernel::<12, 4>($($argument),*),
        }
    };
}

// What the bytes of K shards are multiplied by, so that their sum is the byte of shard `want`.
fn weights_for<const K: usize, const M: usize>(have: &[u8; K], want: u8) -> [Weight; K]
    requires sizes { HasSizes K M }
    requires have { AreShards (K + M) have.now }
    requires want { want < K + M }
    ensures { IsRow K M have.now (coefficients_of result) want }
{
    let row = Code::<K, M>::new().coefficients(have, want);
    made_ready(&row)
}

// The coefficients, ready for look-ups.
fn made_ready<const K: usize>(row: &[u8; K]) -> [Weight; K]
    ensures { coefficients_of result ≡ row.now }
{
    let mut weights = [Weight::new(0); K];
    for place in 0..K {
        weights[place] = Weight::new(row[place]);
    }
    weights
}

// The same for each of the shards `want`.
fn weights_for_each<const K: usize, const M: usize, const R: usize>(
    have: &[u8; K],
    want: &[u8],
) -> [[Weight; K]; R]
    requires sizes { HasSizes K M }
    requires count { length want.now ≡ R }
    requires have { AreShards (K + M) have.now }
    requires want { EachIndex want.now (λ p. slice_index want.now p < K + M) }
    ensures { AreRows K M have.now (rows_of result) want.now }
{
    let mut weights = [[Weight::new(0); K]; R];
    for row in 0..R {
        weights[row] = weights_for::<K, M>(have, want[row]);
    }
    weights
}

// Writes R pieces, one for each of the shards `want`.
fn restore_rows<const K: usize, const M: usize, const R: usize>(
    have: &[u8; K],
    pieces: &[u8],
    want: &[u8],
    out: &mut [u8],
)
    requires sizes { HasSizes K M }
    requires kernel { IsPieceCount K }
    requires few { R ≤ 32 }
    requires count { length want.now ≡ R }
    requires some { 0 < R }
    requires pieces { HaveOneSize R out.old K pieces.now }
    requires have { AreShards (K + M) have.now }
    requires want { EachIndex want.now (λ p. slice_index want.now p < K + M) }
    ensures { AreRestored K M (length out.new / R) have.now pieces.now want.now out.new }
{
    let weights = weights_for_each::<K, M, R>(have, want);
    let size = out.len() / R;
    sums::weigh(&weights, pieces, size, out);
}

// Writes a piece for each of the shards `want` of a code of K and M.
fn restore<const K: usize, const M: usize>(have: &[u8], pieces: &[u8], want: &[u8], out: &mut [u8])
    requires sizes { HasSizes K M }
    requires kernel { IsPieceCount K }
    requires have { AreEnough K M have.now }
    requires some { 0 < length want.now }
    requires few { length want.now ≤ 4 }
    requires want { EachIndex want.now (λ p. slice_index want.now p < K + M) }
    requires pieces { HaveOneSize (length want.now) out.old K pieces.now }
    ensures { AreRestored K M (length out.new / length want.now) have.now pieces.now want.now out.new }
{
    let mut shards = [0; K];
    shards.copy_from_slice(have);
    match want.len() {
        1 => restore_rows::<K, M, 1>(&shards, pieces, want, out),
        2 => restore_rows::<K, M, 2>(&shards, pieces, want, out),
        3 => restore_rows::<K, M, 3>(&shards, pieces, want, out),
        _ => restore_rows::<K, M, 4>(&shards, pieces, want, out),
    }
}

/// Writes a piece for each of the shards `want`, one after the other, and reads each of the pieces once: byte i
/// is that of the shard in each column i. The pieces are those of the shards `have`, as many as the ratio has data
/// shards, and all pieces are of one length.
pub fn restore_pieces(ratio: Ratio, have: &[u8], pieces: &[u8], want: &[u8], out: &mut [u8])
    requires have { AreEnough (data_count ratio) (parity_count ratio) have.now }
    requires some { 0 < length want.now }
    requires few { length want.now ≤ 4 }
    requires want { EachIndex want.now
        (λ p. slice_index want.now p < data_count ratio + parity_count ratio) }
    requires pieces { HaveOneSize (length want.now) out.old (data_count ratio) pieces.now }
    ensures { AreRestored (data_count ratio) (parity_count ratio) (length out.new / length want.now)
        have.now pieces.now want.now out.new }
{
    by_ratio!(ratio, restore(have, pieces, want, out));
}

/// The same for one shard.
pub fn restore_piece(ratio: Ratio, have: &[u8], pieces: &[u8], want: u8, out: &mut [u8])
    requires have { AreEnough (data_count ratio) (parity_count ratio) have.now }
    requires want { want < data_count ratio + parity_count ratio }
    requires pieces { length pieces.now ≡ data_count ratio * length out.old }
    ensures { IsRestored (data_count ratio) (parity_count ratio) (length out.new)
        have.now pieces.now want out.new }
{
    restore_pieces(ratio, have, pieces, &[want], out);
}

/// Writes the parity pieces of the data pieces, so that each column is a codeword.
pub fn encode_piece(ratio: Ratio, source: &[u8], parity: &mut [u8])
    requires { HaveOneSize (parity_count ratio) parity.old (data_count ratio) source.now }
    ensures { AreCodewords (data_count ratio) (parity_count ratio)
        (length parity.new / parity_count ratio) source.now parity.new }
{
    restore_pieces(
        ratio,
        data_numbers(ratio),
        source,
        parity_numbers(ratio),
        parity,
    );
}

#[cfg(test)]
mod tests;
