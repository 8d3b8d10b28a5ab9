//! Tests of the public calls, by worked rows.
use super::*;

#[test]
fn pads_to_a_multiple_of_eight(rt: HostRuntime) {
    for (size, padding_bytes, length) in [(14, 6, 48), (12, 8, 48), (0, 4, 32)] {
        assert_eq!(rt; padding(size), padding_bytes, "at {size}");
        assert_eq!(rt; record_length(size), length, "at {size}");
    }
}

#[test]
fn puts_the_highest_byte_first(rt: HostRuntime) {
    let mut out = [0xee; 21];
    put_u16(&mut out, 1, 0x0102);
    put_u32(&mut out, 3, 0x0304_0506);
    put_u40(&mut out, 7, 0x07_0809_0a0b);
    put_u64(&mut out, 12, 0x0c0d_0e0f_1011_1213);
    assert_eq!(rt;
        out,
        [
            0xee, 1, 2, 3, 4, 5, 6, 7, 8, 9, 10, 11, 12, 13, 14, 15, 16, 17, 18, 19, 0xee,
        ]
    );
}

#[test]
fn gets_the_highest_byte_first(rt: HostRuntime) {
    let bytes = [9, 1, 2, 3, 4, 5, 6, 7, 8];
    assert_eq!(rt; get_u16(&bytes, 1), 0x0102);
    assert_eq!(rt; get_u32(&bytes, 1), 0x0102_0304);
    assert_eq!(rt; get_u40(&bytes, 1), 0x01_0203_0405);
    assert_eq!(rt; get_u64(&bytes, 1), 0x0102_0304_0506_0708);
}
