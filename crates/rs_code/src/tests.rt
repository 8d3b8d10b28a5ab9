//! Tests of the public calls, by worked rows.
use super::*;

const DATA: [u8; 10] = [0, 1, 2, 3, 4, 5, 6, 7, 8, 9];

// The sum of weight times byte.
fn weighed(row: &[u8], bytes: &[u8]) -> u8 {
    row.iter()
        .zip(bytes)
        .fold(0, |sum, (weight, byte)| add(sum, mul(*weight, *byte)))
}

// The byte at each of these shards.
fn bytes_at(column: &[u8; 14], shards: &[u8; 10]) -> [u8; 10] {
    let mut bytes = [0; 10];
    for (byte, shard) in bytes.iter_mut().zip(shards) {
        *byte = column.get(usize::from(*shard)).copied().unwrap_or(0);
    }
    bytes
}

// The shards whose bits stand in the mask, the first ten of them.
fn chosen(mask: u32) -> [u8; 10] {
    let mut shards = [0; 10];
    let mut free = shards.iter_mut();
    for shard in 0..14u8 {
        if (mask >> shard) & 1 == 1 {
            if let Some(place) = free.next() {
                *place = shard;
            }
        }
    }
    shards
}

#[test]
fn coefficients_of_ten_and_four(rt: HostRuntime) {
    let code = Code::<10, 4>::new();
    assert_eq!(rt; code.parity_coefficient(0, 9), 2);
    assert_eq!(rt; code.parity_coefficient(1, 9), 3);
    assert_eq!(rt; code.parity_coefficient(2, 8), 5);
    assert!(rt; code.are_shards(&DATA));
    assert_eq!(rt;
        code.coefficients(&DATA, 10),
        [129, 150, 175, 184, 210, 196, 254, 232, 3, 2]
    );
    assert_eq!(rt;
        code.coefficients(&DATA, 13),
        [214, 191, 10, 98, 111, 6, 183, 223, 4, 5]
    );
    assert_eq!(rt; code.coefficients(&DATA, 1), [0, 1, 0, 0, 0, 0, 0, 0, 0, 0]);
}

#[test]
fn coefficients_of_other_sizes(rt: HostRuntime) {
    let code = Code::<3, 2>::new();
    assert!(rt; code.are_shards(&[0, 1, 2]));
    assert_eq!(rt; weighed(&code.coefficients(&[0, 1, 2], 3), &[0, 1, 2]), 3);
    assert_eq!(rt; weighed(&code.coefficients(&[0, 1, 2], 4), &[0, 1, 2]), 4);
    assert_eq!(rt;
        (code.parity_coefficient(0, 2), code.parity_coefficient(1, 2)),
        (1, 6)
    );
    assert_eq!(rt; Code::<6, 3>::new().parity_coefficient(2, 1), 223);
    assert_eq!(rt; Code::<12, 4>::new().parity_coefficient(0, 10), 18);
    assert_eq!(rt; Code::<1, 31>::new().parity_coefficient(30, 0), 1);
}

#[test]
fn parity_of_columns(rt: HostRuntime) {
    let code = Code::<10, 4>::new();
    assert!(rt; code.are_shards(&DATA));
    let first = code.coefficients(&DATA, 10);
    let second = code.coefficients(&DATA, 11);
    let third = code.coefficients(&DATA, 12);
    let fourth = code.coefficients(&DATA, 13);
    let columns = [
        (DATA, [10, 11, 12, 13]),
        ([7; 10], [7; 4]),
        ([0, 1, 4, 5, 16, 17, 20, 21, 64, 65], [68, 69, 80, 81]),
        ([0, 0, 0, 0, 0, 0, 0, 0, 0, 1], [2, 3, 4, 5]),
        ([0, 0, 0, 0, 0, 0, 0, 0, 1, 0], [3, 2, 5, 4]),
    ];
    for (bytes, parity) in columns {
        let sums = [&first, &second, &third, &fourth].map(|row| weighed(row, &bytes));
        assert_eq!(rt; sums, parity, "of {bytes:?}");
    }
}

#[test]
fn each_ten_of_fourteen_shards_give_the_others(rt: HostRuntime) {
    let code = Code::<10, 4>::new();
    let columns = [
        [0, 1, 2, 3, 4, 5, 6, 7, 8, 9, 10, 11, 12, 13],
        [
            5, 53, 175, 115, 129, 217, 123, 103, 157, 29, 20, 253, 108, 92,
        ],
        [
            200, 35, 126, 217, 52, 143, 234, 69, 160, 251, 14, 61, 193, 124,
        ],
    ];
    let mut choices = 0u32;
    for mask in 0..1u32 << 14 {
        if mask.count_ones() == 10 {
            let have = chosen(mask);
            assert!(rt; code.are_shards(&have));
            for want in 0..14u8 {
                let row = code.coefficients(&have, want);
                for column in &columns {
                    let byte = weighed(&row, &bytes_at(column, &have));
                    assert_eq!(rt; byte, column[usize::from(want)], "{want} from {mask}");
                }
            }
            choices = choices.saturating_add(1);
        }
    }
    assert_eq!(rt; choices, 1001);
}

#[test]
fn shards_are_different_and_of_the_code(rt: HostRuntime) {
    let code = Code::<3, 2>::new();
    assert!(rt; code.are_shards(&[4, 0, 2]));
    assert!(rt; !code.are_shards(&[4, 0, 4]));
    assert!(rt; !code.are_shards(&[0, 1, 5]));
}
