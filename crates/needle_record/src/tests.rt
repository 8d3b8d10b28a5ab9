//! Tests of the public calls, by worked rows.
ghost use Rattle.std.specs.Prelude.{◌≡◌, IfOk, IfSome};
ghost use Rattle.world_model.specs.Sizes.{FitsRecord};

use super::*;
use std::alloc::{AllocError, Global};
use std::test::Fail;
use world_model::bytes::Bytes;

// Cookie 2a, id 1, data "123456789", nothing else.
const PLAIN: &str =
    "0000002a00000000000000010000000e0000000931323334353637383900e30692830000000000000000000000000000";

// The same data with id 9, flags 80, name "a", mime "b", modified 1, ttl 0301 and pairs "{}".
const ALL_PARTS: &str =
    "0000002a00000000000000090000001d00000009313233343536373839be01610162000000000103010002\
    7b7de3069283000000000000000000000000000000";

fn bytes(alloc: Global, text: &[u8]) -> Result<Bytes, AllocError>
    ensures { IfOk result (λ b. b ≡ text.now) }
{
    Ok(Bytes::new(Vec::from_slice(alloc, text)?))
}

fn plain(alloc: Global) -> Result<Record, AllocError>
    ensures { IfOk result (λ r. IfSome r.content FitsRecord) }
{
    let content = Content {
        bytes: bytes(alloc, b"123456789")?,
        flags: 0,
        name: None,
        mime: None,
        modified: None,
        ttl: None,
        pairs: None,
    };
    Ok(Record {
        cookie: 0x2a,
        id: 1,
        content: Some(content),
        appended: 0,
    })
}

fn all_parts(alloc: Global) -> Result<Record, AllocError>
    ensures { IfOk result (λ r. IfSome r.content FitsRecord) }
{
    let content = Content {
        bytes: bytes(alloc, b"123456789")?,
        flags: 0x80,
        name: Some(bytes(alloc, b"a")?),
        mime: Some(bytes(alloc, b"b")?),
        modified: Some(1),
        ttl: Some(0x0301),
        pairs: Some(bytes(alloc, b"{}")?),
    };
    Ok(Record {
        cookie: 0x2a,
        id: 9,
        content: Some(content),
        appended: 0,
    })
}

// What the text in hex is read as, and as how many bytes.
fn read(alloc: Global, hex: &str) -> Result<Result<(Record, u64), NeedleFault>, Fail> {
    let bytes = hex::decode(alloc, hex)?;
    Ok(read_record(alloc, &bytes))
}

fn fault(alloc: Global, hex: &str) -> Result<Option<NeedleFault>, Fail> {
    Ok(read(alloc, hex)?.err())
}

#[test]
fn a_record_is_written_behind_other_bytes(rt: HostRuntime) -> Result<(), Fail> {
    let alloc = rt.alloc();
    let mut out = vec![in alloc; 7u8]?;
    write_record(&plain(alloc)?, &mut out)?;
    assert_eq!(rt;
        hex::encode(alloc, &out)?.as_str(),
        format!(in alloc; "07{PLAIN}")?.as_str()
    );
    Ok(())
}

#[test]
fn all_parts_are_written(rt: HostRuntime) -> Result<(), Fail> {
    let alloc = rt.alloc();
    let mut out = Vec::new(alloc);
    let record = all_parts(alloc)?;
    assert_eq!(rt; record_size(&record), 0x1d);
    write_record(&record, &mut out)?;
    assert_eq!(rt; hex::encode(alloc, &out)?.as_str(), ALL_PARTS);
    Ok(())
}

fn is_text(part: &Option<Bytes>, text: &[u8]) -> bool {
    match part {
        Some(bytes) => bytes.as_slice() == text,
        None => false,
    }
}

#[test]
fn a_record_is_read_back(rt: HostRuntime) -> Result<(), Fail> {
    let (record, length) = read(rt.alloc(), PLAIN)?.ok().ok_or("a record")?;
    let header = (record.cookie, record.id, record.appended, length);
    let content = record.content.ok_or("a content")?;
    let parts = (
        content.flags,
        content.name.is_some(),
        content.mime.is_some(),
        content.pairs.is_some(),
        content.modified,
        content.ttl,
    );
    let is_plain = header == (0x2a, 1, 0, 48)
        && parts == (0, false, false, false, None, None)
        && content.bytes.as_slice() == b"123456789".as_slice();
    assert!(rt; is_plain);
    Ok(())
}

#[test]
fn all_parts_are_read_back(rt: HostRuntime) -> Result<(), Fail> {
    let (record, length) = read(rt.alloc(), ALL_PARTS)?.ok().ok_or("a record")?;
    let content = record.content.ok_or("a content")?;
    let numbers = (length, content.flags, content.modified, content.ttl);
    let has_all = numbers == (64, 0x80, Some(1), Some(0x0301))
        && content.bytes.as_slice() == b"123456789".as_slice()
        && is_text(&content.name, b"a")
        && is_text(&content.mime, b"b")
        && is_text(&content.pairs, b"{}");
    assert!(rt; has_all);
    Ok(())
}

#[test]
fn a_record_is_taken_out_of_longer_bytes(rt: HostRuntime) -> Result<(), Fail> {
    let alloc = rt.alloc();
    let bytes = hex::decode(alloc, format!(in alloc; "{PLAIN}{ALL_PARTS}")?.as_str())?;
    let (record, length) = take_record(alloc, bytes).map_err(|_| "unread")?;
    let content = record.content.ok_or("a content")?;
    assert_eq!(rt; length, 48);
    assert_eq!(rt; content.bytes.as_slice(), b"123456789".as_slice());
    Ok(())
}

#[test]
fn faults_come_in_order(rt: HostRuntime) -> Result<(), Fail> {
    let alloc = rt.alloc();
    let cases = [
        // The last byte is not there, nor all of a header.
        (
            "0000002a00000000000000010000000e0000000931323334353637383900e306928300000000000000000000000000",
            NeedleFault::Short,
        ),
        ("0000002a0000000000000001000000", NeedleFault::Short),
        // Eight bytes of data in a body of fourteen: the ninth digit is the flags, of which 1, 8,
        // 10 and 20 stand, and the five bytes of last modified pass the end.
        (
            "0000002a00000000000000010000000e0000000831323334353637383900e30692830000000000000000000000000000",
            NeedleFault::SizeMismatch {
                size: 14,
                taken: 18,
            },
        ),
        // A size that the fields don't fill, though the checksum is right.
        (
            "0000002a00000000000000010000000f000000093132333435363738390000e306928300000000000000000000000000",
            NeedleFault::SizeMismatch {
                size: 15,
                taken: 14,
            },
        ),
        (
            "0000002a00000000000000010000000e0000000931323334353637383900e30692840000000000000000000000000000",
            NeedleFault::Checksum {
                stored: 0xe306_9284,
                computed: 0xe306_9283,
            },
        ),
        (
            "0000002a0000000000000001000000050000000000000000000000000000000000000000000000000000000000000000",
            NeedleFault::EmptyBody { size: 5 },
        ),
    ];
    for (hex, why) in cases {
        assert_eq!(rt; fault(alloc, hex)?, Some(why), "{hex}");
    }
    Ok(())
}

#[test]
fn the_masked_checksum_is_read(rt: HostRuntime) -> Result<(), Fail> {
    let masked =
        "0000002a00000000000000010000000e0000000931323334353637383900c78ab0e50000000000000000000000000000";
    assert_eq!(rt; fault(rt.alloc(), masked)?, None);
    Ok(())
}

#[test]
fn a_deletion_is_read_whatever_its_checksum(rt: HostRuntime) -> Result<(), Fail> {
    let deletion = "0000002a000000000000000100000000e3069283000000000000000000000000";
    let (record, length) = read(rt.alloc(), deletion)?.ok().ok_or("a record")?;
    assert_eq!(rt; (record.cookie, record.id, length), (0x2a, 1, 32));
    assert!(rt; record.content.is_none());
    Ok(())
}

#[test]
fn a_deletion_is_put_over_other_bytes(rt: HostRuntime) {
    let mut out = [0xee; 34];
    put_deletion(&mut out, 1, 0x0102_0304_0506_0708);
    let mut wanted = [0; 34];
    wanted[0] = 0xee;
    wanted[5..13].copy_from_slice(&[1, 2, 3, 4, 5, 6, 7, 8]);
    wanted[33] = 0xee;
    assert_eq!(rt; out, wanted);
}

#[test]
fn a_header_is_read(rt: HostRuntime) {
    let bytes = [0, 0, 0, 0x2a, 0, 0, 0, 0, 0, 0, 0, 9, 0, 0, 0, 0x1d, 7];
    let header = Header {
        cookie: 0x2a,
        id: 9,
        size: 0x1d,
    };
    assert_eq!(rt; read_header(&bytes), header);
}
