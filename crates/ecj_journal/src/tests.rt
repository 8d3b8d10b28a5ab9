//! Journals at the one server of a site in memory, with stops and without.
ghost use Rattle.std.specs.Prelude.{◌≡◌, ◌<◌, ◌≤◌, IfOk};
ghost use Rattle.site_mem.specs.Site.{counts_at};

use crate::{Journal, append_pair, read_pairs, write_pairs};
use site_mem::{MemSite, Tear};
use site_model::DeviceFault;
use std::alloc::{AllocError, Global};
use std::process::Abort;
use std::test::Fail;
use whole_file::FileFault;

const VOLUME: u32 = 7;

const JOURNAL: &str = "7.ecj";

// The ids that are put behind an absent journal.
const IDS: [u64; 2] = [5, 0x0102_0304_0506_0708];

// The bytes of that journal.
const BYTES: [u8; 32] = [
    0, 0, 0, 0, 0, 0, 0, 5, 0, 0, 0, 0, 0, 0, 0, 5, 1, 2, 3, 4, 5, 6, 7, 8, 1, 2, 3, 4, 5, 6, 7, 8,
];

// The calls that put one id: an append and a sync for each half.
const CALLS: u64 = 4;

#[derive(Drop)]
struct Server {
    site: MemSite,
    ghost one: { site.servers ≡ 1 },
}

impl Server {
    fn new(alloc: Global) -> Result<Server, AllocError> {
        let site = MemSite::new(alloc, 1)?;
        Ok(Server { site })
    }

    // With a journal of these halves, and so many bytes behind them.
    fn with_journal(alloc: Global, halves: &[u64], torn: usize) -> Result<Server, AllocError> {
        let mut bytes = Vec::new(alloc);
        for half in halves {
            bytes.extend_from_slice(&half.to_be_bytes())?;
        }
        for _ in 0..torn {
            bytes.push(1)?;
        }
        let mut site = MemSite::new(alloc, 1)?;
        site.add_file(0, JOURNAL, &bytes)?;
        Ok(Server { site })
    }

    // With both ids, put behind each other.
    fn with_ids(alloc: Global) -> Result<Server, Fail> {
        let mut server = Server::new(alloc)?;
        append_pair(&mut server.site, 0, JOURNAL, IDS[0])?;
        append_pair(&mut server.site, 0, JOURNAL, IDS[1])?;
        Ok(server)
    }

    fn left(&self, alloc: Global, call: u64, tear: Tear) -> Result<Server, AllocError>
        requires some { 0 < call }
        requires made { call ≤ (counts_at self.now.site).calls }
    {
        let site = self.site.left(alloc, call, tear)?;
        Ok(Server { site })
    }

    fn read(&mut self, alloc: Global) -> Result<Journal, FileFault> {
        read_pairs(alloc, &mut self.site, 0, VOLUME)
    }

    // Sees the bytes of the journal.
    fn see_file(&self, rt: &impl Abort, bytes: &[u8]) {
        let is_same = match self.site.file(0, JOURNAL) {
            Some(found) => found == bytes,
            None => false,
        };
        assert!(rt; is_same);
    }

    // Sees what the journal has.
    fn see(&mut self, rt: &impl Abort, alloc: Global, ids: &[u64], rest: u64) -> Result<(), Fail> {
        let journal = self.read(alloc)?;
        assert_eq!(rt; journal.ids.as_slice(), ids);
        assert_eq!(rt; journal.rest, rest);
        Ok(())
    }
}

#[test]
fn each_id_stands_twice(rt: HostRuntime) -> Result<(), Fail> {
    let alloc = rt.alloc();
    let mut server = Server::with_ids(alloc)?;
    server.see_file(&rt, &BYTES);
    assert_eq!(rt; server.site.calls(), 2 * CALLS);
    server.see(&rt, alloc, &IDS, 0)
}

// How many pairs and bytes behind them a stop leaves within a call, counted from the first of the id.
fn pairs_left(call: u64, tear: Tear) -> (usize, u64) {
    let is_second_half = 2 < call;
    match tear {
        Tear::None if is_second_half => (0, 8),
        Tear::None => (0, 0),
        Tear::All if is_second_half => (1, 0),
        Tear::All => (0, 8),
        Tear::Half if is_second_half => (0, 12),
        Tear::Half => (0, 4),
        Tear::Fill(_) if is_second_half => (0, 16),
        Tear::Fill(_) => (0, 8),
    }
}

#[test]
fn a_stop_leaves_a_pair_or_none(rt: HostRuntime) -> Result<(), Fail> {
    let alloc = rt.alloc();
    let run = Server::with_ids(alloc)?;
    for call in 1..=run.site.calls() {
        let before = (call - 1) / CALLS;
        for tear in [Tear::None, Tear::All, Tear::Half, Tear::Fill(0xff)] {
            let (more, rest) = pairs_left(call - CALLS * before, tear);
            let mut left = run.left(alloc, call, tear)?;
            let journal = left.read(alloc)?;
            let count = (before as usize).saturating_add(more);
            assert!(rt; count <= IDS.len());
            assert_eq!(rt;
                journal.ids.as_slice(),
                &IDS[..count],
                "call {call}, {tear:?}"
            );
            assert_eq!(rt; journal.rest, rest, "call {call}, {tear:?}");
        }
    }
    Ok(())
}

#[test]
fn an_unequal_pair_ends_the_journal(rt: HostRuntime) -> Result<(), Fail> {
    let alloc = rt.alloc();
    let cases: [(&[u64], usize, &[u64], u64); 6] = [
        (&[], 0, &[], 0),
        (&[], 15, &[], 15),
        (&[5, 5], 3, &[5], 3),
        (&[5, 5, 6], 0, &[5], 8),
        (&[5, 5, 6, 9], 0, &[5], 16),
        (&[5, 5, 6, 9, 7, 7], 4, &[5], 36),
    ];
    for (halves, torn, ids, rest) in cases {
        Server::with_journal(alloc, halves, torn)?.see(&rt, alloc, ids, rest)?;
    }
    Server::new(alloc)?.see(&rt, alloc, &[], 0)
}

#[test]
fn a_journal_is_written_anew(rt: HostRuntime) -> Result<(), Fail> {
    let alloc = rt.alloc();
    let mut server = Server::with_journal(alloc, &[6, 6, 9], 1)?;
    write_pairs(alloc, &mut server.site, 0, VOLUME, &IDS)?;
    server.see_file(&rt, &BYTES);
    server.see(&rt, alloc, &IDS, 0)?;
    write_pairs(alloc, &mut server.site, 0, VOLUME, &[])?;
    server.see_file(&rt, &[]);
    server.see(&rt, alloc, &[], 0)
}

#[test]
fn a_failing_server_is_told(rt: HostRuntime) -> Result<(), Fail> {
    let alloc = rt.alloc();
    let fault = DeviceFault { server: 0 };
    for call in 1..=CALLS {
        let mut server = Server::new(alloc)?;
        server.site.fail_call(call)?;
        let appended = append_pair(&mut server.site, 0, JOURNAL, 5);
        assert_eq!(rt; appended, Err(fault));
        assert_eq!(rt; server.site.calls(), call);
    }
    let mut server = Server::with_journal(alloc, &[5, 5], 0)?;
    server.site.fail_reads(0, 1);
    let read = server.read(alloc);
    assert_eq!(rt; read.err(), Some(FileFault::Fault(fault)));
    server.site.fail_call(3)?;
    let written = write_pairs(alloc, &mut server.site, 0, VOLUME, &IDS);
    assert_eq!(rt; written, Err(FileFault::Fault(fault)));
    Ok(())
}
