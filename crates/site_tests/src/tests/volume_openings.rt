//! Files that are opened, and the needles that are read of them.
ghost use Rattle.std.specs.Prelude.{◌≡◌, IfOk};

use super::helpers::{
    DAT, DELETED_IDX, IDX, ONE_DAT, ONE_IDX, Running, SERVER, VOLUME, deletion, has_index, needle,
    open,
};
use dat_volume::{DatVolume, GetFault};
use needle_record::record_size;
use site_mem::MemSite;
use site_model::OpenFault;
use std::alloc::{AllocError, Global};
use std::process::Abort;
use std::test::Fail;
use wire_num::record_length;
use world_model::types::What;

fn site_of(alloc: Global, dat: &[u8], idx: &[u8]) -> Result<MemSite, AllocError>
    ensures { IfOk result (λ site. site.servers ≡ 1) }
{
    let mut site = MemSite::new(alloc, 1)?;
    site.add_file(SERVER, DAT, dat)?;
    site.add_file(SERVER, IDX, idx)?;
    Ok(site)
}

// The files of one needle, with bytes behind each.
fn one_needle_and(alloc: Global, dat: &[u8], idx: &[u8]) -> Result<MemSite, Fail>
    ensures { IfOk result (λ site. site.servers ≡ 1) }
{
    let mut all_dat = hex::decode(alloc, ONE_DAT)?;
    all_dat.extend_from_slice(dat)?;
    let mut all_idx = hex::decode(alloc, ONE_IDX)?;
    all_idx.extend_from_slice(idx)?;
    Ok(site_of(alloc, &all_dat, &all_idx)?)
}

// The two files are these.
fn see_files(
    rt: &impl Abort,
    alloc: Global,
    site: &MemSite,
    dat: &str,
    idx: &str,
) -> Result<(), Fail> {
    let dat = hex::decode(alloc, dat)?;
    assert_eq!(rt; site.file(SERVER, DAT), Some(dat.as_slice()));
    let idx = hex::decode(alloc, idx)?;
    assert_eq!(rt; site.file(SERVER, IDX), Some(idx.as_slice()));
    Ok(())
}

#[test]
fn bytes_behind_the_records_go_at_the_opening(rt: HostRuntime) -> Result<(), Fail> {
    let alloc = rt.alloc();
    let cases: [(&[u8], &[u8]); 3] = [
        (&[0xaa; 11], &[0xaa; 5]),
        (&[0xaa; 11], &[0xff; 16]),
        (&[], &[0xff; 16]),
    ];
    for (dat, idx) in cases {
        let site = one_needle_and(alloc, dat, idx)?;
        let mut running = Running::open(&rt, alloc, site)?;
        see_files(&rt, alloc, &running.site, ONE_DAT, ONE_IDX)?;
        assert_eq!(rt; running.volume.used(), 56);
        let (cookie, data) = running.needle(alloc, 1)?.ok_or("the needle")?;
        assert_eq!(rt; cookie, 0x2a);
        assert_eq!(rt; data.as_slice(), b"123456789".as_slice());
    }
    Ok(())
}

// Opens files that no opening accepts, and sees that they stay as they are.
fn see_unsound(rt: &impl Abort, alloc: Global, dat: &str, idx: &str, rule: u8) -> Result<(), Fail> {
    let dat_bytes = hex::decode(alloc, dat)?;
    let idx_bytes = hex::decode(alloc, idx)?;
    let mut site = site_of(alloc, &dat_bytes, &idx_bytes)?;
    let opened = open(rt, alloc, &mut site)?;
    let wanted = OpenFault::Unsound {
        volume: VOLUME,
        rule,
    };
    assert_eq!(rt; opened.err(), Some(wanted));
    see_files(rt, alloc, &site, dat, idx)
}

#[test]
fn a_broken_rule_is_told_by_its_number(rt: HostRuntime) -> Result<(), Fail> {
    let alloc = rt.alloc();
    let bad_idx = "ffffffffffffffffffffffffffffffffffffffffffffffffffffffffffffffff";
    see_unsound(&rt, alloc, ONE_DAT, bad_idx, 1)?;
    let bad_dat = "02000000000000000000002a00000000000000010000000e00000009313233343536373839\
                   00e30692830000000000000000000000000000";
    see_unsound(&rt, alloc, bad_dat, ONE_IDX, 3)
}

#[test]
fn a_volume_that_is_loaded_keeps_its_files(rt: HostRuntime) -> Result<(), Fail> {
    let alloc = rt.alloc();
    let mut site = one_needle_and(alloc, &[1, 2, 3], &[0; 16])?;
    let stands = has_index(alloc, &site)?;
    assert!(rt; stands);
    let volume = DatVolume::load(alloc, &mut site, SERVER, VOLUME)?;
    assert_eq!(rt; volume.used(), 56);
    assert_eq!(rt; site.file(SERVER, DAT).map(|dat| dat.len()), Some(59));
    Ok(())
}

#[test]
fn puts_and_deletes_are_found_again(rt: HostRuntime) -> Result<(), Fail> {
    let alloc = rt.alloc();
    let mut running = Running::create(alloc)?;
    running.put(&rt, alloc, &needle(alloc, 1, 0x2a, b"123456789")?)?;
    see_files(&rt, alloc, &running.site, ONE_DAT, ONE_IDX)?;
    assert_eq!(rt; running.cookie(alloc, 1)?, Some(0x2a));
    assert_eq!(rt; running.cookie(alloc, 2)?, None);
    running.put(&rt, alloc, &deletion(1, 0x2a))?;
    assert_eq!(rt; running.volume.used(), 88);
    assert_eq!(rt; running.cookie(alloc, 1)?, None);
    let idx = hex::decode(alloc, DELETED_IDX)?;
    assert_eq!(rt; running.site.file(SERVER, IDX), Some(idx.as_slice()));
    Ok(())
}

#[test]
fn a_checksum_that_was_changed_is_told(rt: HostRuntime) -> Result<(), Fail> {
    let alloc = rt.alloc();
    let mut running = Running::create(alloc)?;
    for id in 1..4u64 {
        running.put(&rt, alloc, &needle(alloc, id, 0x2a, b"123456789")?)?;
    }
    let mut dat = Vec::from_slice(alloc, running.site.file(SERVER, DAT).ok_or("a data file")?)?;
    let idx = Vec::from_slice(alloc, running.site.file(SERVER, IDX).ok_or("an index")?)?;
    // The last byte of the first record's checksum.
    assert!(rt; dat.len() == 152);
    assert_eq!(rt; dat[41], 0x83);
    dat[41] = 0x84;
    let mut changed = Running::open(&rt, alloc, site_of(alloc, &dat, &idx)?)?;
    let wanted = GetFault::Damaged {
        what: What::Checksum,
        a: 3_808_858_756,
        b: 3_808_858_755,
    };
    assert_eq!(rt; changed.get_fault(alloc, 1), Some(wanted));
    assert_eq!(rt; changed.cookie(alloc, 1)?, Some(0x2a));
    Ok(())
}

// A record of exactly one piece is put by two appends and two syncs.
#[test]
fn a_put_of_one_piece_makes_four_calls(rt: HostRuntime) -> Result<(), Fail> {
    let alloc = rt.alloc();
    let mut running = Running::create(alloc)?;
    for (length, calls) in [(1, 4), (65_502, 4), (65_503, 5)] {
        let data = vec![in alloc; 7u8; length]?;
        assert!(rt; 0 < data.len() && data.len() <= 1 << 21);
        let record = needle(alloc, 1, 0x2a, &data)?;
        let before = running.site.calls();
        running.put(&rt, alloc, &record)?;
        assert_eq!(rt; running.site.calls(), before.saturating_add(calls));
    }
    assert_eq!(rt;
        record_length(record_size(&needle(alloc, 1, 0x2a, &vec![in alloc; 7u8; 65_502]?)?)),
        65_536
    );
    Ok(())
}
