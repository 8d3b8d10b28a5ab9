//! Openings of volumes whose vacuum was stopped.
use super::helpers::{data_with, holds, index_with};
use site_mem::{MemSite, Tear};
use site_recovery::recover;
use std::alloc::Global;
use std::process::Abort;
use std::test::Fail;

// The data file that a vacuum makes where no needle is live: without records, and its revision is raised by one.
const VACUUMED: [u8; 8] = [3, 0, 0, 0, 1, 0, 0, 0];

// A data file that is longer than its super block.
const LONG: &[u8] = b"123456789";

const TEARS: [Tear; 4] = [Tear::None, Tear::All, Tear::Half, Tear::Fill(0xff)];

// A vacuum that was stopped once the new index had its name, at server 0, and at server 1 once the new data file had its own.
fn made_site(alloc: Global) -> Result<MemSite, Fail> {
    let mut site = MemSite::new(alloc, 2)?;
    site.add_file(0, "2.dat", &data_with(alloc, 4)?)?;
    site.add_file(0, "2.idx", &index_with(4))?;
    site.add_file(0, "2.cpd", &VACUUMED)?;
    site.add_file(0, "2.cpx", b"")?;
    site.add_file(1, "2.dat", &VACUUMED)?;
    site.add_file(1, "2.idx", &index_with(4))?;
    site.add_file(1, "2.cpx", b"")?;
    Ok(site)
}

// Recovers the site, or what a stop left of it. Whether the volume is the new one, at server 0 alone.
fn is_new(alloc: Global, site: &mut MemSite) -> Result<bool, Fail> {
    let found = recover(alloc, site)?;
    Ok(
        found.plain.as_slice() == [(2, 0)].as_slice()
            && holds(site, 0, "2.dat", &VACUUMED)
            && holds(site, 0, "2.idx", b"")
            && site.file(0, "2.cpd").is_none()
            && site.file(0, "2.cpx").is_none()
            && site.file(1, "2.dat").is_none()
            && site.file(1, "2.idx").is_none()
            && site.file(1, "2.cpx").is_none(),
    )
}

#[test]
fn a_vacuum_is_finished_from_its_index_on(rt: HostRuntime) -> Result<(), Fail> {
    let alloc = rt.alloc();
    let mut site = made_site(alloc)?;
    assert!(rt; is_new(alloc, &mut site)?);
    for tear in TEARS {
        for call in 1..=site.calls() {
            let mut left = site.left(alloc, call, tear)?;
            assert!(rt; is_new(alloc, &mut left)?, "at call {call}, {tear:?}");
        }
    }
    Ok(())
}

// A vacuum of volume 3 that was stopped before the new index had its name. Volume 6 has a new data file alone, and
// volume 9 is lost.
fn unmade_site(alloc: Global) -> Result<MemSite, Fail> {
    let mut site = MemSite::new(alloc, 1)?;
    site.add_file(0, "3.dat", &data_with(alloc, 4)?)?;
    site.add_file(0, "3.idx", &index_with(4))?;
    site.add_file(0, "3.cpd", &VACUUMED)?;
    site.add_file(0, "3.cpx.tmp", b"")?;
    site.add_file(0, "6.cpd", LONG)?;
    site.add_file(0, "9.dat", LONG)?;
    site.add_file(0, "9.cpd", &VACUUMED)?;
    Ok(site)
}

// Recovers the site, or what a stop left of it. Whether volume 3 is the old one, volume 6 is gone, and volume 9 as it was.
fn is_old(alloc: Global, site: &mut MemSite) -> Result<bool, Fail> {
    let found = recover(alloc, site)?;
    Ok(
        found.plain.as_slice() == [(3, 0)].as_slice()
            && found.lost.as_slice() == [9].as_slice()
            && holds(site, 0, "3.dat", &data_with(alloc, 4)?)
            && holds(site, 0, "3.idx", &index_with(4))
            && site.file(0, "3.cpd").is_none()
            && site.file(0, "3.cpx.tmp").is_none()
            && site.file(0, "6.cpd").is_none()
            && holds(site, 0, "9.dat", LONG)
            && holds(site, 0, "9.cpd", &VACUUMED),
    )
}

#[test]
fn a_vacuum_is_forgotten_before_its_index(rt: HostRuntime) -> Result<(), Fail> {
    let alloc = rt.alloc();
    let mut site = unmade_site(alloc)?;
    assert!(rt; is_old(alloc, &mut site)?);
    for tear in TEARS {
        for call in 1..=site.calls() {
            let mut left = site.left(alloc, call, tear)?;
            assert!(rt; is_old(alloc, &mut left)?, "at call {call}, {tear:?}");
        }
    }
    Ok(())
}
