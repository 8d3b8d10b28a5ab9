//! The kernels against columns that were computed elsewhere, and against sums byte by byte.
ghost use Rattle.std.specs.Prelude.{◌≡◌, ◌<◌, ◌≤◌, ◌*◌, length};
ghost use Rattle.std.specs.Prelude.{◌+◌, slice_index, EachIndex};
ghost use Rattle.rs_code.specs.Shards.{HasSizes};
ghost use Rattle.world_model.specs.Ratios.{data_count, parity_count};
ghost use Rattle.rs_kernel.specs.Pieces.{AreEnough};

use super::*;
use std::alloc::Global;
use std::process::Abort;
use std::test::Fail;

// Bytes that no rule of the code makes.
fn fill(bytes: &mut [u8]) {
    let mut state = 88172645463325252u64;
    for byte in bytes.iter_mut() {
        state ^= state << 13;
        state ^= state >> 7;
        state ^= state << 17;
        *byte = ((state >> 32) & 0xff) as u8;
    }
}

// Lengths about those of a vector and of a block, and a piece's own.
const SIZES: [usize; 10] = [1, 7, 16, 17, 31, 33, 64, 511, 513, 65536];

// Of five columns the bytes of a data shard: its number, the square of it, a seven, and a 1 at the last shard and at
// the one before it.
fn column_bytes(shard: u8, shards: u8) -> [u8; 5] {
    let last = shards.saturating_sub(1);
    let before = shards.saturating_sub(2);
    [
        shard,
        mul(shard, shard),
        7,
        u8::from(shard == last),
        u8::from(shard == before),
    ]
}

// These columns have this parity, as five bytes of each of its shards.
fn columns_make(rt: &impl Abort, ratio: Ratio, parity: &[[u8; 5]]) {
    let (data_count, parity_count) = (ratio.data_count(), ratio.parity_count());
    let mut data = [0; 60];
    for (shard, piece) in (0..data_count).zip(data.chunks_exact_mut(5)) {
        for (byte, value) in piece.iter_mut().zip(column_bytes(shard, data_count)) {
            *byte = value;
        }
    }
    let mut made = [0; 20];
    encode_piece(
        ratio,
        &data[..usize::from(data_count) * 5],
        &mut made[..usize::from(parity_count) * 5],
    );
    assert_eq!(rt; parity.len(), usize::from(parity_count));
    for (piece, wanted) in made.chunks_exact(5).zip(parity) {
        assert_eq!(rt; piece, wanted.as_slice());
    }
}

#[test]
fn columns_make_their_parity(rt: HostRuntime) {
    let five = [[3, 5, 7, 1, 1], [4, 16, 7, 6, 8]];
    let nine = [[6, 20, 7, 2, 3], [7, 21, 7, 3, 2], [8, 64, 7, 232, 254]];
    let fourteen = [
        [10, 68, 7, 2, 3],
        [11, 69, 7, 3, 2],
        [12, 80, 7, 4, 5],
        [13, 81, 7, 5, 4],
    ];
    let sixteen = [
        [12, 80, 7, 20, 18],
        [13, 81, 7, 18, 20],
        [14, 84, 7, 28, 27],
        [15, 85, 7, 27, 28],
    ];
    columns_make(&rt, Ratio::ThreeTwo, &five);
    columns_make(&rt, Ratio::SixThree, &nine);
    columns_make(&rt, Ratio::TenFour, &fourteen);
    columns_make(&rt, Ratio::TwelveFour, &sixteen);
}

// The shards whose bits stand in the mask, the first K of them.
fn chosen<const K: usize>(mask: u32) -> [u8; K] {
    let mut shards = [0; K];
    let mut free = shards.iter_mut();
    for shard in 0..16u8 {
        if (mask >> shard) & 1 == 1 {
            if let Some(place) = free.next() {
                *place = shard;
            }
        }
    }
    shards
}

// Each byte of a column is restored from these.
fn gives_all(rt: &impl Abort, ratio: Ratio, column: &[u8], have: &[u8])
    requires { AreEnough (data_count ratio) (parity_count ratio) have.now }
{
    let mut known = [0; 12];
    for (byte, shard) in known.iter_mut().zip(have) {
        *byte = column.get(usize::from(*shard)).copied().unwrap_or(0);
    }
    let pieces = &known[..usize::from(ratio.data_count())];
    for want in 0..ratio.shard_count() {
        let mut out = [0; 1];
        restore_piece(ratio, have, pieces, want, &mut out);
        let byte = column.get(usize::from(want));
        assert_eq!(rt; byte, Some(&out[0]), "shard {want} from {have:?}");
    }
}

// How many sets of K of the shards give each of them.
fn sets_that_give_all<const K: usize, const M: usize>(
    rt: &impl Abort,
    alloc: Global,
    ratio: Ratio,
) -> Result<u32, Fail>
    requires sizes { HasSizes K M }
    requires data { data_count ratio ≡ K }
    requires parity { parity_count ratio ≡ M }
{
    let column = encoded(alloc, ratio, 1)?;
    let code = Code::<K, M>::new();
    let mut sets = 0u32;
    for mask in 0..65536u32 {
        let have = chosen::<K>(mask);
        if mask.count_ones() as usize == K && code.are_shards(&have) {
            gives_all(rt, ratio, column.as_slice(), &have);
            sets = sets.saturating_add(1);
        }
    }
    Ok(sets)
}

#[test]
fn each_set_of_shards_gives_all(rt: HostRuntime) -> Result<(), Fail> {
    let alloc = rt.alloc();
    let five = sets_that_give_all::<3, 2>(&rt, alloc, Ratio::ThreeTwo)?;
    let nine = sets_that_give_all::<6, 3>(&rt, alloc, Ratio::SixThree)?;
    let fourteen = sets_that_give_all::<10, 4>(&rt, alloc, Ratio::TenFour)?;
    let sixteen = sets_that_give_all::<12, 4>(&rt, alloc, Ratio::TwelveFour)?;
    assert_eq!(rt; (five, nine, fourteen, sixteen), (10, 84, 1001, 1820));
    Ok(())
}

#[test]
fn multiples_are_added(rt: HostRuntime) {
    let mut out = [1; 33];
    mul_add(&mut out, &[128; 33], 2);
    assert_eq!(rt; out, [28; 33]);
}

// The data pieces of this length, and then their parity pieces.
fn encoded(alloc: Global, ratio: Ratio, size: usize) -> Result<Vec<u8>, Fail>
    requires { size ≤ 65536 }
{
    let mut pieces = Vec::from_elem(alloc, 0u8, usize::from(ratio.data_count()) * size)?;
    let mut parity = Vec::from_elem(alloc, 0u8, usize::from(ratio.parity_count()) * size)?;
    fill(pieces.as_mut_slice());
    encode_piece(ratio, pieces.as_slice(), parity.as_mut_slice());
    pieces.extend_from_slice(parity.as_slice())?;
    Ok(pieces)
}

// The piece of one shard.
fn piece(pieces: &[u8], size: usize, shard: u8) -> &[u8]
    requires { 0 < size }
{
    pieces
        .chunks_exact(size)
        .nth(usize::from(shard))
        .unwrap_or(&[])
}

// The pieces of these shards.
fn gathered(alloc: Global, pieces: &[u8], size: usize, have: &[u8]) -> Result<Vec<u8>, Fail>
    requires { 0 < size }
{
    let mut gathered = Vec::new(alloc);
    for shard in have {
        gathered.extend_from_slice(piece(pieces, size, *shard))?;
    }
    Ok(gathered)
}

// Adds `c` times `src` to `out` byte by byte, by a table of the products.
fn plain_mul_add(out: &mut [u8], src: &[u8], c: u8) {
    let mut products = [0; 256];
    for value in 0..=255u8 {
        products[usize::from(value)] = mul(c, value);
    }
    for (byte, value) in out.iter_mut().zip(src) {
        *byte ^= products[usize::from(*value)];
    }
}

// A parity piece by one multiple of each data piece after the other.
fn plain_parity(alloc: Global, pieces: &[u8], size: usize, p: u8) -> Result<Vec<u8>, Fail>
    requires size { 0 < size }
    requires shard { p < 4 }
{
    let code = Code::<10, 4>::new();
    let mut sum = Vec::from_elem(alloc, 0u8, size)?;
    for d in 0..10u8 {
        let coefficient = code.parity_coefficient(p, d);
        plain_mul_add(sum.as_mut_slice(), piece(pieces, size, d), coefficient);
    }
    Ok(sum)
}

#[test]
fn parity_is_the_plain_sum(rt: HostRuntime) -> Result<(), Fail> {
    for size in SIZES {
        let size = size.clamp(1, 65536);
        let pieces = encoded(rt.alloc(), Ratio::TenFour, size)?;
        for p in 0..4u8 {
            let plain = plain_parity(rt.alloc(), pieces.as_slice(), size, p)?;
            let fused = piece(pieces.as_slice(), size, 10 + p);
            assert!(rt; plain.as_slice() == fused, "parity {p} of {size}");
        }
    }
    Ok(())
}

#[test]
fn multiples_are_the_plain_ones(rt: HostRuntime) -> Result<(), Fail> {
    for size in SIZES {
        let size = size.clamp(1, 65536);
        let mut source = Vec::from_elem(rt.alloc(), 0u8, size)?;
        let mut fast = Vec::from_elem(rt.alloc(), 1u8, size)?;
        let mut plain = Vec::from_elem(rt.alloc(), 1u8, size)?;
        fill(source.as_mut_slice());
        mul_add(fast.as_mut_slice(), source.as_slice(), 150);
        plain_mul_add(plain.as_mut_slice(), source.as_slice(), 150);
        assert!(rt; fast.as_slice() == plain.as_slice(), "{size} bytes");
    }
    Ok(())
}

// Restores the first shard, and then two, three and four of the first five at once, from these.
fn restores(
    rt: &impl Abort,
    alloc: Global,
    ratio: Ratio,
    pieces: &[u8],
    size: usize,
    have: &[u8],
) -> Result<(), Fail>
    requires size { (0 < size) × (size ≤ 65536) }
    requires have { AreEnough (data_count ratio) (parity_count ratio) have.now }
{
    let source = gathered(alloc, pieces, size, have)?;
    assert_eq!(rt; source.len(), usize::from(ratio.data_count()) * size);
    let mut out = Vec::from_elem(alloc, 0u8, size)?;
    let mut two = Vec::from_elem(alloc, 0u8, 2 * size)?;
    let mut three = Vec::from_elem(alloc, 0u8, 3 * size)?;
    let mut four = Vec::from_elem(alloc, 0u8, 4 * size)?;
    restore_piece(ratio, have, source.as_slice(), 0, out.as_mut_slice());
    restore_pieces(ratio, have, source.as_slice(), &[1, 0], two.as_mut_slice());
    restore_pieces(
        ratio,
        have,
        source.as_slice(),
        &[4, 0, 2],
        three.as_mut_slice(),
    );
    restore_pieces(
        ratio,
        have,
        source.as_slice(),
        &[3, 0, 2, 1],
        four.as_mut_slice(),
    );
    stands_there(rt, pieces, size, &[0], out.as_slice());
    stands_there(rt, pieces, size, &[1, 0], two.as_slice());
    stands_there(rt, pieces, size, &[4, 0, 2], three.as_slice());
    stands_there(rt, pieces, size, &[3, 0, 2, 1], four.as_slice());
    Ok(())
}

// The pieces of these shards were restored.
fn stands_there(rt: &impl Abort, pieces: &[u8], size: usize, want: &[u8], out: &[u8])
    requires { 0 < size }
{
    for (place, shard) in (0..4u8).zip(want) {
        let restored = piece(out, size, place);
        assert!(rt;
            restored == piece(pieces, size, *shard),
            "shard {shard} of {size} among some"
        );
    }
}

#[test]
fn enough_shards_restore_the_others(rt: HostRuntime) -> Result<(), Fail> {
    for size in SIZES {
        let size = size.clamp(1, 65536);
        let alloc = rt.alloc();
        let five = encoded(alloc, Ratio::ThreeTwo, size)?;
        restores(
            &rt,
            alloc,
            Ratio::ThreeTwo,
            five.as_slice(),
            size,
            &[4, 1, 3],
        )?;
        let nine = encoded(alloc, Ratio::SixThree, size)?;
        restores(
            &rt,
            alloc,
            Ratio::SixThree,
            nine.as_slice(),
            size,
            &[3, 4, 5, 6, 7, 8],
        )?;
        let most = encoded(alloc, Ratio::TenFour, size)?;
        let ten = [13, 0, 11, 2, 9, 4, 7, 6, 5, 8];
        restores(&rt, alloc, Ratio::TenFour, most.as_slice(), size, &ten)?;
        let all = encoded(alloc, Ratio::TwelveFour, size)?;
        let twelve = [15, 14, 13, 12, 11, 10, 9, 8, 7, 6, 5, 4];
        restores(&rt, alloc, Ratio::TwelveFour, all.as_slice(), size, &twelve)?;
    }
    Ok(())
}
