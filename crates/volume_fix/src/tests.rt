//! Tests of the public calls, by worked rows.
use super::*;
use std::test::Fail;
use wire_num::{put_u32, put_u64};

// The end of a volume's records in these tests, past all of them.
const END: u64 = 1000;

#[test]
fn entries_of_a_needle_and_of_its_deletion(rt: HostRuntime) -> Result<(), Fail> {
    let mut chunk = [0u8; 64];
    put_u64(&mut chunk, 4, 7);
    put_u32(&mut chunk, 12, 14);
    put_u64(&mut chunk, 52, 7);

    let mut out = Vec::with_capacity(rt.alloc(), 3)?;
    assert_eq!(rt; headers(&chunk, 8, END, &mut out), Ok(88));
    let wanted = [
        Entry {
            id: 7,
            offset: 1,
            size: 14,
        },
        Entry {
            id: 7,
            offset: 7,
            size: -1,
        },
    ];
    assert_eq!(rt; out.as_slice(), wanted.as_slice());
    Ok(())
}

#[test]
fn a_record_behind_the_end_is_past(rt: HostRuntime) -> Result<(), Fail> {
    let mut chunk = [0u8; 16];
    put_u32(&mut chunk, 12, 14);
    let mut out = Vec::with_capacity(rt.alloc(), 1)?;
    assert_eq!(rt;
        headers(&chunk, 8, 40, &mut out),
        Err(Past { at: 8, length: 48 })
    );
    assert_eq!(rt; out.len(), 0);
    Ok(())
}

#[test]
fn a_size_that_no_entry_has_is_past(rt: HostRuntime) -> Result<(), Fail> {
    let mut chunk = [0u8; 48];
    put_u32(&mut chunk, 44, 0x8000_0000);
    let mut out = Vec::with_capacity(rt.alloc(), 2)?;
    let past = Past {
        at: 40,
        length: 0x8000_0020,
    };
    assert_eq!(rt; headers(&chunk, 8, 1 << 35, &mut out), Err(past));
    assert_eq!(rt; out.len(), 1);
    Ok(())
}
