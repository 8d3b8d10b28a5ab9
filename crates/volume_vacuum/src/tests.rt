//! A vacuum at the one server of a site in memory, of volumes of three records.
ghost use Rattle.std.specs.Prelude.{◌≡◌, ◌≤◌, IsTrue, IfOk, length};
ghost use Rattle.site_mem.specs.Site.{disk_at};
ghost use Rattle.dat_volume.specs.Places.{dat_in};

use crate::vacuum;
use dat_volume::{DatVolume, GetFault};
use file_names::{Kind, final_name};
use needle_map::NeedleMap;
use site_mem::MemSite;
use site_model::DeviceFault;
use std::alloc::{AllocError, Global};
use std::process::Abort;
use std::test::Fail;
use volume_forms::Entry;
use world_model::types::What;

const VOLUME: u32 = 7;

const DAT: &str = "7.dat";

const IDX: &str = "7.idx";

// The cookie and the id of a record.
const HEAD: usize = 12;

const SUPER: [u8; 8] = [3, 0, 0, 0, 0, 0, 0, 0];

// A needle of nine bytes with the id 1, its deletion, and the same needle with the id 2.
const FIRST: [u8; 48] = [
    0, 0, 0, 0x2a, 0, 0, 0, 0, 0, 0, 0, 1, 0, 0, 0, 0x0e, 0, 0, 0, 9, 0x31, 0x32, 0x33, 0x34, 0x35,
    0x36, 0x37, 0x38, 0x39, 0, 0xe3, 6, 0x92, 0x83, 0, 0, 0, 0, 0, 0, 0, 5, 0, 0, 0, 0, 0, 0,
];

const DELETION: [u8; 32] = [
    0, 0, 0, 0x2a, 0, 0, 0, 0, 0, 0, 0, 1, 0, 0, 0, 0, 0, 0, 0, 0, 0, 0, 0, 0, 0, 0, 0, 6, 0, 0, 0,
    0,
];

const SECOND: [u8; 48] = [
    0, 0, 0, 0x2a, 0, 0, 0, 0, 0, 0, 0, 2, 0, 0, 0, 0x0e, 0, 0, 0, 9, 0x31, 0x32, 0x33, 0x34, 0x35,
    0x36, 0x37, 0x38, 0x39, 0, 0xe3, 6, 0x92, 0x83, 0, 0, 0, 0, 0, 0, 0, 7, 0, 0, 0, 0, 0, 0,
];

// Their entries.
const ENTRIES: [u8; 48] = [
    0, 0, 0, 0, 0, 0, 0, 1, 0, 0, 0, 1, 0, 0, 0, 0x0e, 0, 0, 0, 0, 0, 0, 0, 1, 0, 0, 0, 7, 0xff,
    0xff, 0xff, 0xff, 0, 0, 0, 0, 0, 0, 0, 2, 0, 0, 0, 0x0b, 0, 0, 0, 0x0e,
];

// The super block and the index of what is left.
const NEW_SUPER: [u8; 8] = [3, 0, 0, 0, 0, 1, 0, 0];

const NEW_ENTRY: [u8; 16] = [0, 0, 0, 0, 0, 0, 0, 2, 0, 0, 0, 1, 0, 0, 0, 0x0e];

// The entry of the first needle behind that.
const NEXT_ENTRY: [u8; 16] = [0, 0, 0, 0, 0, 0, 0, 1, 0, 0, 0, 7, 0, 0, 0, 0x0e];

#[derive(Drop)]
struct Server {
    site: MemSite,
    volume: DatVolume,
    ghost one: { site.servers ≡ 1 },
    ghost here: { volume.server ≡ 0 },
}

impl Server {
    // With these parts of a data file, an index, and these live entries.
    fn new(alloc: Global, parts: &[&[u8]], live: &[Entry]) -> Result<Server, Fail> {
        let mut site = MemSite::new(alloc, 1)?;
        let dat = joined(alloc, parts)?;
        site.add_file(0, DAT, &dat)?;
        site.add_file(0, IDX, &ENTRIES)?;
        let mut index = NeedleMap::new(alloc);
        for entry in live {
            index.put(*entry)?;
        }
        let volume = DatVolume::adopt(0, VOLUME, index, dat.len() as u64);
        Ok(Server { site, volume })
    }

    // With a deleted needle, and one whose record begins with this cookie and id.
    fn with_deletion(alloc: Global, head: &[u8]) -> Result<Server, Fail> {
        let live = Entry {
            id: 2,
            offset: 11,
            size: 14,
        };
        Server::new(
            alloc,
            &[&SUPER, &FIRST, &DELETION, head, &SECOND[HEAD..]],
            &[live],
        )
    }

    fn vacuum(&mut self, rt: &impl Abort, alloc: Global) -> Result<Result<(), GetFault>, Fail> {
        let is_long = has_front(alloc, &self.site, self.volume.volume())?;
        assert!(rt; is_long);
        Ok(vacuum(alloc, &mut self.site, &mut self.volume))
    }

    fn has_needle(&mut self, alloc: Global, id: u64) -> Result<bool, Fail> {
        let found = self.volume.get(alloc, &mut self.site, id)?;
        Ok(found.is_some())
    }

    // Sees what both files hold.
    fn see(&self, rt: &impl Abort, alloc: Global, dat: &[&[u8]], idx: &[u8]) -> Result<(), Fail> {
        let bytes = joined(alloc, dat)?;
        assert_eq!(rt; self.site.file(0, DAT), Some(bytes.as_slice()));
        assert_eq!(rt; self.site.file(0, IDX), Some(idx));
        Ok(())
    }

    fn see_unchanged(&self, rt: &impl Abort, alloc: Global, head: &[u8]) -> Result<(), Fail> {
        assert_eq!(rt; self.volume.used(), 136);
        let dat: [&[u8]; 5] = [&SUPER, &FIRST, &DELETION, head, &SECOND[HEAD..]];
        self.see(rt, alloc, &dat, &ENTRIES)
    }
}

fn joined(alloc: Global, parts: &[&[u8]]) -> Result<Vec<u8>, AllocError> {
    let mut bytes = Vec::new(alloc);
    for part in parts {
        bytes.extend_from_slice(part)?;
    }
    Ok(bytes)
}

// Whether the volume's data file has room for a super block.
fn has_front(alloc: Global, site: &MemSite, volume: u32) -> Result<bool, AllocError>
    ensures { IfOk result (λ is_long. IsTrue is_long
        → 8 ≤ length (dat_in (disk_at site.now).files 0 volume)) }
{
    let name = final_name(alloc, volume, Kind::Dat)?;
    match site.file(0, &name) {
        Some(bytes) => Ok(bytes.len() >= SUPER.len()),
        None => Ok(false),
    }
}

#[test]
fn a_deleted_needle_gives_its_space_back(rt: HostRuntime) -> Result<(), Fail> {
    let alloc = rt.alloc();
    let mut server = Server::with_deletion(alloc, &SECOND[..HEAD])?;
    let done = server.vacuum(&rt, alloc)?;
    assert_eq!(rt; done, Ok(()));
    server.see(&rt, alloc, &[&NEW_SUPER, &SECOND], &NEW_ENTRY)?;
    assert_eq!(rt; server.volume.used(), 56);
    for name in ["7.cpd", "7.cpx", "7.cpd.tmp", "7.cpx.tmp"] {
        assert_eq!(rt; server.site.file(0, name), None);
    }
    assert_eq!(rt; server.has_needle(alloc, 1)?, false);
    assert_eq!(rt; server.has_needle(alloc, 2)?, true);
    Ok(())
}

#[test]
fn records_keep_the_order_of_their_places(rt: HostRuntime) -> Result<(), Fail> {
    let alloc = rt.alloc();
    let live = [(1, 13), (2, 7)].map(|(id, offset)| Entry {
        id,
        offset,
        size: 14,
    });
    let mut server = Server::new(alloc, &[&SUPER, &FIRST, &SECOND, &FIRST], &live)?;
    let done = server.vacuum(&rt, alloc)?;
    assert_eq!(rt; done, Ok(()));
    let idx = joined(alloc, &[&NEW_ENTRY, &NEXT_ENTRY])?;
    server.see(&rt, alloc, &[&NEW_SUPER, &SECOND, &FIRST], &idx)?;
    // The two records stand side by side, so they are copied by one read and one append.
    assert_eq!(rt; server.site.calls(), 16);
    Ok(())
}

#[test]
fn each_call_that_fails_is_told(rt: HostRuntime) -> Result<(), Fail> {
    let alloc = rt.alloc();
    let mut run = Server::with_deletion(alloc, &SECOND[..HEAD])?;
    let done = run.vacuum(&rt, alloc)?;
    assert_eq!(rt; done, Ok(()));
    for call in 1..=run.site.calls() {
        let mut server = Server::with_deletion(alloc, &SECOND[..HEAD])?;
        server.site.fail_call(call)?;
        let failed = server.vacuum(&rt, alloc)?;
        assert_eq!(rt; failed, Err(GetFault::Fault(DeviceFault { server: 0 })));
        assert_eq!(rt; server.site.calls(), call);
        assert_eq!(rt; server.volume.used(), 136);
    }
    Ok(())
}

#[test]
fn a_damaged_header_is_told_before_the_first_write(rt: HostRuntime) -> Result<(), Fail> {
    let alloc = rt.alloc();
    let head = [0, 0, 0, 0x2a, 0, 0, 0, 0, 0, 0, 0, 3];
    let mut server = Server::with_deletion(alloc, &head)?;
    let wanted = GetFault::Damaged {
        what: What::Id,
        a: 2,
        b: 3,
    };
    let damaged = server.vacuum(&rt, alloc)?;
    assert_eq!(rt; damaged, Err(wanted));
    server.see_unchanged(&rt, alloc, &head)
}
