//! Tests of the public calls, by worked rows.
use super::*;
use register::after_each;

#[test]
fn known_checksums(rt: HostRuntime) {
    assert_eq!(rt; crc(b""), 0);
    assert_eq!(rt; crc(b"123456789"), 0xe306_9283);
    assert_eq!(rt; crc(&[0; 32]), 0x8a91_36aa);
    assert_eq!(rt; crc(&[0xff; 32]), 0x62a8_ab43);
}

#[test]
fn a_sum_goes_on(rt: HostRuntime) {
    assert_eq!(rt; crc_on(crc(b"1234"), b"56789"), 0xe306_9283);
    assert_eq!(rt; crc_on(0, &[0; 32]), 0x8a91_36aa);
}

#[test]
fn a_checksum_is_masked(rt: HostRuntime) {
    assert_eq!(rt; masked(0xe306_9283), 0xc78a_b0e5);
}

#[test]
fn by_sixteens_as_one_by_one(rt: HostRuntime) {
    let mut bytes = [0; 80];
    for (i, byte) in bytes.iter_mut().enumerate() {
        *byte = (i * 89 % 251) as u8;
    }
    for len in 0..=80 {
        let front = &bytes[..len];
        assert_eq!(rt; crc(front), !after_each(START, front), "at {len}");
    }
}
