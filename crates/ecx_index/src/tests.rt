//! Searches in files of several lengths, and whole files loaded.
ghost use Rattle.std.specs.Prelude.{◌≡◌};

use crate::{find, load};
use needle_map::NeedleMap;
use site_mem::MemSite;
use site_model::{DeviceFault, OpenFault};
use std::alloc::Global;
use std::process::Abort;
use std::test::Fail;
use volume_forms::{Entry, write_entry};

const VOLUME: u32 = 7;

const INDEX: &str = "7.ecx";

// What is told of a file that isn't a sorted index.
const UNSOUND: OpenFault = OpenFault::Unsound {
    volume: VOLUME,
    rule: 5,
};

// How far one id is from the next.
const STRIDE: u64 = 3;

// The entry at this place. The first ids are 1, 4 and 7.
fn entry(place: u64) -> Entry {
    Entry {
        id: place.saturating_mul(STRIDE).saturating_add(1),
        offset: 9,
        size: 14,
    }
}

// A site of one server.
#[derive(Drop)]
struct Server {
    site: MemSite,
    ghost one: { site.servers ≡ 1 },
}

impl Server {
    // With an index of so many entries.
    fn with_entries(alloc: Global, count: u64) -> Result<Server, Fail> {
        let mut bytes = Vec::new(alloc);
        for place in 0..count {
            bytes.extend_from_slice(&write_entry(&entry(place)))?;
        }
        Server::with_bytes(alloc, &bytes)
    }

    // With an index of these bytes.
    fn with_bytes(alloc: Global, bytes: &[u8]) -> Result<Server, Fail> {
        let mut site = MemSite::new(alloc, 1)?;
        site.add_file(0, INDEX, bytes)?;
        Ok(Server { site })
    }

    fn load(&mut self, alloc: Global) -> Result<NeedleMap, OpenFault> {
        load(alloc, &mut self.site, 0, VOLUME)
    }

    // Searches the id, and sees that this takes one look at the size and at most so many reads.
    fn see(
        &mut self,
        rt: &impl Abort,
        id: u64,
        wanted: Option<Entry>,
        reads: u64,
    ) -> Result<(), Fail> {
        let before = self.site.calls();
        let found = find(&mut self.site, 0, INDEX, id)?;
        assert_eq!(rt; found, wanted, "id {id}");
        let calls = self.site.calls().saturating_sub(before);
        assert!(rt; calls <= reads.saturating_add(1), "id {id}: {calls} calls");
        Ok(())
    }
}

#[test]
fn each_id_is_found_in_few_reads(rt: HostRuntime) -> Result<(), Fail> {
    for (count, reads) in [(1, 1), (3, 2), (4, 3), (1000, 10)] {
        let mut server = Server::with_entries(rt.alloc(), count)?;
        for place in 0..count {
            let wanted = entry(place);
            server.see(&rt, wanted.id, Some(wanted), reads)?;
            server.see(&rt, wanted.id.saturating_add(1), None, reads)?;
        }
        server.see(&rt, 0, None, reads)?;
        assert_eq!(rt; server.site.wants(), 0);
    }
    Ok(())
}

#[test]
fn no_id_is_found_in_an_absent_file(rt: HostRuntime) -> Result<(), Fail> {
    let site = MemSite::new(rt.alloc(), 1)?;
    let mut server = Server { site };
    server.see(&rt, 1, None, 0)
}

#[test]
fn a_failing_call_is_told(rt: HostRuntime) -> Result<(), Fail> {
    let mut server = Server::with_entries(rt.alloc(), 3)?;
    server.site.fail_call(1)?;
    server.site.fail_call(3)?;
    let no_size = find(&mut server.site, 0, INDEX, 7);
    assert_eq!(rt; no_size, Err(DeviceFault { server: 0 }));
    let no_read = find(&mut server.site, 0, INDEX, 7);
    assert_eq!(rt; no_read, Err(DeviceFault { server: 0 }));
    server.see(&rt, 7, Some(entry(2)), 2)
}

// A piece has 4,096 entries.
#[test]
fn all_entries_are_loaded_in_pieces(rt: HostRuntime) -> Result<(), Fail> {
    for (count, calls) in [
        (0, 1),
        (1, 2),
        (3, 2),
        (4, 2),
        (1000, 2),
        (4096, 2),
        (5000, 3),
    ] {
        let mut server = Server::with_entries(rt.alloc(), count)?;
        let index = server.load(rt.alloc())?;
        assert_eq!(rt; index.len() as u64, count);
        for (place, found) in index.iter().enumerate() {
            assert_eq!(rt; found, entry(place as u64));
        }
        assert_eq!(rt; server.site.calls(), calls, "{count} entries");
    }
    Ok(())
}

#[test]
fn what_is_no_sorted_index_is_unsound(rt: HostRuntime) -> Result<(), Fail> {
    let alloc = rt.alloc();
    let site = MemSite::new(alloc, 1)?;
    let absent = Server { site }.load(alloc);
    assert_eq!(rt; absent.err(), Some(UNSOUND), "absent");
    let torn = Server::with_bytes(alloc, &[0; 15])?.load(alloc);
    assert_eq!(rt; torn.err(), Some(UNSOUND), "15 bytes");
    let whole = entry(2);
    let seconds = [
        ("an equal id", Entry { id: 7, ..whole }),
        ("a lower id", Entry { id: 6, ..whole }),
        (
            "no content",
            Entry {
                id: 8,
                size: 0,
                ..whole
            },
        ),
        (
            "a deletion",
            Entry {
                id: 8,
                size: -1,
                ..whole
            },
        ),
    ];
    for (what, second) in seconds {
        let mut bytes = Vec::new(alloc);
        bytes.extend_from_slice(&write_entry(&whole))?;
        bytes.extend_from_slice(&write_entry(&second))?;
        let found = Server::with_bytes(alloc, &bytes)?.load(alloc);
        assert_eq!(rt; found.err(), Some(UNSOUND), "{what}");
    }
    Ok(())
}

// Equal ids at the end of a piece and the start of the next.
#[test]
fn ids_rise_from_piece_to_piece(rt: HostRuntime) -> Result<(), Fail> {
    let alloc = rt.alloc();
    let mut bytes = Vec::new(alloc);
    for place in 0..4096 {
        bytes.extend_from_slice(&write_entry(&entry(place)))?;
    }
    bytes.extend_from_slice(&write_entry(&entry(4095)))?;
    let found = Server::with_bytes(alloc, &bytes)?.load(alloc);
    assert_eq!(rt; found.err(), Some(UNSOUND));
    Ok(())
}

#[test]
fn a_failing_call_of_a_load_is_told(rt: HostRuntime) -> Result<(), Fail> {
    let alloc = rt.alloc();
    let mut server = Server::with_entries(alloc, 5000)?;
    server.site.fail_call(1)?;
    server.site.fail_call(4)?;
    let fault = Some(OpenFault::Fault { server: 0 });
    assert_eq!(rt; server.load(alloc).err(), fault, "the size");
    assert_eq!(rt; server.load(alloc).err(), fault, "the second read");
    assert_eq!(rt; server.load(alloc)?.len(), 5000);
    Ok(())
}
