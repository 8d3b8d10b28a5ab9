//! Sites that are recovered: what the rules say of one server's files, and a recovery that is stopped within each of its
//! calls.
ghost use Rattle.std.specs.Prelude.{◌≡◌, IfOk};

use super::helpers::{DAT, DELETED_IDX, IDX, ONE_DAT, ONE_IDX, SERVER, VOLUME};
use site_mem::{MemSite, Tear};
use site_model::{OpenFault, Site};
use site_recovery::recover;
use std::alloc::Global;
use std::process::Abort;
use std::test::Fail;

// The records of `DELETED_IDX`: "123456789" under id 1, and the deletion of id 1.
const DELETED_DAT: &str =
    "03000000000000000000002a00000000000000010000000e00000009313233343536373839\
     00e30692830000000000000000000000000000\
     0000002a00000000000000010000000000000000000000000000000000000000";

// What a recovery makes of a volume's two files at one server.
#[derive(Clone, Copy)]
enum Outcome {
    /// So many bytes of each are kept.
    Kept { dat: usize, idx: usize },
    /// This rule is broken, and both stay as they were.
    Unsound { rule: u8 },
}

use Outcome::{Kept, Unsound};

// The files in hexadecimal, the data file absent where it is `None`, and what becomes of them.
type Row = (Option<&'static str>, &'static str, Outcome);

const ROWS: [Row; 13] = [
    // No data file, or one that is too short: it has no record, and no super block.
    (None, "", Unsound { rule: 3 }),
    (None, ONE_IDX, Unsound { rule: 3 }),
    (None, DELETED_IDX, Unsound { rule: 1 }),
    (Some("03000000000000"), ONE_IDX, Unsound { rule: 3 }),
    (Some("03000000000000"), DELETED_IDX, Unsound { rule: 1 }),
    // A super block of another version.
    (
        Some(
            "02000000000000000000002a00000000000000010000000e00000009313233343536373839\
             00e30692830000000000000000000000000000",
        ),
        ONE_IDX,
        Unsound { rule: 3 },
    ),
    // One entry, which isn't its record's: by its id, or by all of it. Two such entries.
    (
        Some(ONE_DAT),
        "0000000000000002000000010000000e",
        Kept { dat: 8, idx: 0 },
    ),
    (
        Some(ONE_DAT),
        "ffffffffffffffffffffffffffffffff",
        Kept { dat: 8, idx: 0 },
    ),
    (
        Some(ONE_DAT),
        "ffffffffffffffffffffffffffffffffffffffffffffffffffffffffffffffff",
        Unsound { rule: 1 },
    ),
    // Two entries: both are their records', the last lacks a byte, or has another id, or the last but one has.
    (Some(DELETED_DAT), DELETED_IDX, Kept { dat: 88, idx: 32 }),
    (
        Some(DELETED_DAT),
        "0000000000000001000000010000000e000000000000000100000007ffffff",
        Kept { dat: 56, idx: 16 },
    ),
    (
        Some(DELETED_DAT),
        "0000000000000001000000010000000e000000000000000200000007ffffffff",
        Kept { dat: 56, idx: 16 },
    ),
    (
        Some(DELETED_DAT),
        "0000000000000002000000010000000e000000000000000100000007ffffffff",
        Unsound { rule: 1 },
    ),
];

// Recovers one server with these files, and sees what becomes of them.
fn see_row(rt: &impl Abort, alloc: Global, row: &Row) -> Result<(), Fail> {
    let (dat, idx, outcome) = *row;
    let dat_bytes = hex::decode(alloc, dat.unwrap_or(""))?;
    let idx_bytes = hex::decode(alloc, idx)?;
    let mut site = MemSite::new(alloc, 1)?;
    if dat.is_some() {
        site.add_file(SERVER, DAT, &dat_bytes)?;
    }
    site.add_file(SERVER, IDX, &idx_bytes)?;
    let fault = recover(alloc, &mut site).err();
    let (wanted, dat_length, idx_length) = match outcome {
        Kept { dat, idx } => (None, dat, idx),
        Unsound { rule } => {
            let volume = VOLUME;
            let broken = OpenFault::Unsound { volume, rule };
            (Some(broken), dat_bytes.len(), idx_bytes.len())
        }
    };
    assert_eq!(rt; fault, wanted, "with the index {idx}");
    let dat_left = site.file(SERVER, DAT);
    assert_eq!(rt; dat_left.is_some(), dat.is_some());
    see_front(rt, dat_left.unwrap_or(&[]), &dat_bytes, dat_length);
    let idx_left = site.file(SERVER, IDX).ok_or("an index")?;
    see_front(rt, idx_left, &idx_bytes, idx_length);
    Ok(())
}

// So much is left of the bytes.
fn see_front(rt: &impl Abort, left: &[u8], bytes: &[u8], length: usize) {
    assert_eq!(rt; left.len(), length);
    assert!(rt; bytes.starts_with(left));
}

#[test]
fn each_image_is_cut_or_breaks_its_rule(rt: HostRuntime) -> Result<(), Fail> {
    for row in &ROWS {
        see_row(&rt, rt.alloc(), row)?;
    }
    Ok(())
}

// Volume 7 with its index at two servers, of which the lower one has torn files, and its data file at a third. Volume 9
// is lost, volume 5 is absent, and volume 4 has a temporary file alone.
fn torn_site(alloc: Global) -> Result<MemSite, Fail>
    ensures { IfOk result (λ site. site.servers ≡ 3) }
{
    let dat = hex::decode(alloc, ONE_DAT)?;
    let idx = hex::decode(alloc, ONE_IDX)?;
    let mut torn_dat = dat.to_vec(alloc)?;
    torn_dat.extend_from_slice(&[0xaa; 11])?;
    let mut torn_idx = idx.to_vec(alloc)?;
    torn_idx.extend_from_slice(&[0xaa; 5])?;
    let mut site = MemSite::new(alloc, 3)?;
    site.add_file(0, "7.dat", &dat)?;
    site.add_file(0, "7.idx.tmp", &idx)?;
    site.add_file(1, "7.dat", &torn_dat)?;
    site.add_file(1, "7.idx", &torn_idx)?;
    site.add_file(2, "7.dat", &dat)?;
    site.add_file(2, "7.idx", &idx)?;
    site.add_file(0, "9.dat.tmp", &dat)?;
    site.add_file(2, "9.dat", &torn_dat)?;
    site.add_file(2, "5.dat", &[3, 0, 0, 0, 0, 0, 0, 0])?;
    site.add_file(1, "4.dat.tmp", &dat)?;
    Ok(site)
}

// Recovers the site, or what a stop left of it. Whether volume 7 stands at server 1 alone without its torn bytes, and of
// all other files volume 9's data file alone.
fn is_recovered(alloc: Global, site: &mut MemSite) -> Result<bool, Fail>
    requires { site.old.servers ≡ 3 }
    ensures { site.new.servers ≡ 3 }
{
    let found = recover(alloc, site)?;
    let counts = [
        site.list(alloc, 0)?.len(),
        site.list(alloc, 1)?.len(),
        site.list(alloc, 2)?.len(),
    ];
    let dat = hex::decode(alloc, ONE_DAT)?;
    let idx = hex::decode(alloc, ONE_IDX)?;
    let mut lost = hex::decode(alloc, ONE_DAT)?;
    lost.extend_from_slice(&[0xaa; 11])?;
    Ok(
        found.plain.as_slice() == [(7, 1)].as_slice()
            && found.lost.as_slice() == [9].as_slice()
            && counts == [0, 2, 1]
            && site.file(1, "7.dat") == Some(dat.as_slice())
            && site.file(1, "7.idx") == Some(idx.as_slice())
            && site.file(2, "9.dat") == Some(lost.as_slice()),
    )
}

// Each stop within the recovery leaves a site that is recovered to the same files.
fn see_stops(rt: &impl Abort, alloc: Global, site: &MemSite, tear: Tear) -> Result<(), Fail>
    requires { site.now.servers ≡ 3 }
{
    for call in 1..=site.calls() {
        let mut left = site.left(alloc, call, tear)?;
        assert!(rt; is_recovered(alloc, &mut left)?, "at call {call}, {tear:?}");
    }
    Ok(())
}

#[test]
fn a_stopped_recovery_is_finished_by_the_next(rt: HostRuntime) -> Result<(), Fail> {
    let alloc = rt.alloc();
    let mut site = torn_site(alloc)?;
    assert!(rt; is_recovered(alloc, &mut site)?);
    for tear in [Tear::None, Tear::All, Tear::Half, Tear::Fill(0xff)] {
        see_stops(&rt, alloc, &site, tear)?;
    }
    Ok(())
}
