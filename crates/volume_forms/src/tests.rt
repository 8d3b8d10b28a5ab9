//! Tests of the public calls, by worked rows.
use super::*;

#[test]
fn reads_a_super_block_or_names_its_first_fault(rt: HostRuntime) {
    let fresh = SuperBlock {
        version: 3,
        placement: 0,
        ttl: 0,
        revision: 0,
    };
    let odd = SuperBlock {
        version: 3,
        placement: 0x12,
        ttl: 0x0304,
        revision: 0x0506,
    };
    assert_eq!(rt; read_super(&[3, 0, 0, 0, 0, 0, 0, 0]), Ok(fresh));
    assert_eq!(rt; read_super(&[3, 0x12, 3, 4, 5, 6, 0, 0, 9]), Ok(odd));
    assert_eq!(rt; read_super(&[2, 0, 0, 0, 0, 0, 0]), Err(SuperFault::Short));
    assert_eq!(rt;
        read_super(&[2, 0, 0, 0, 0, 0, 0, 0]),
        Err(SuperFault::Version)
    );
    assert_eq!(rt;
        read_super(&[2, 0, 0, 0, 0, 0, 0, 1]),
        Err(SuperFault::Version)
    );
    assert_eq!(rt;
        read_super(&[3, 0, 0, 0, 0, 0, 0, 1]),
        Err(SuperFault::Extra)
    );
}

#[test]
fn writes_a_super_block(rt: HostRuntime) {
    let block = SuperBlock {
        version: 3,
        placement: 0x12,
        ttl: 0x0304,
        revision: 0x0506,
    };
    assert_eq!(rt; write_super(&block), [3, 0x12, 3, 4, 5, 6, 0, 0]);
}

#[test]
fn an_entry_stands_in_sixteen_bytes(rt: HostRuntime) {
    let deletion = Entry {
        id: 0x0102_0304_0506_0708,
        offset: 0x090a_0b0c,
        size: -1,
    };
    let bytes = [
        1, 2, 3, 4, 5, 6, 7, 8, 9, 10, 11, 12, 0xff, 0xff, 0xff, 0xff,
    ];
    assert_eq!(rt; write_entry(&deletion), bytes);
    assert_eq!(rt; read_entry(&bytes), deletion);
}

#[test]
fn a_size_is_signed(rt: HostRuntime) {
    let bytes = [0, 0, 0, 0, 0, 0, 0, 7, 0, 0, 0, 1, 0, 0, 0, 14];
    let entry = Entry {
        id: 7,
        offset: 1,
        size: 14,
    };
    assert_eq!(rt; read_entry(&bytes), entry);
    assert_eq!(rt; write_entry(&entry), bytes);
}
