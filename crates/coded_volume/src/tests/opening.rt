//! Openings of a volume of 10 and 4 shards at four servers in memory, whole and with files changed.
ghost use Rattle.std.specs.Prelude.{◌≡◌, ◌<◌, IfOk};
ghost use Rattle.site_mem.specs.Site.{counts_at, disk_at};
ghost use Rattle.shard_table.specs.Table.{IsAdded, row_of};
ghost use Rattle.coded_volume.specs.Checking.{files_on};
ghost use Rattle.coded_volume.specs.CheckingTests.{IsCodedAs};

mod standing;

use crate::CodedVolume;
use crate::tests::opening::standing::is_coded_as;
use shard_table::ShardTable;
use site_mem::MemSite;
use site_model::OpenFault;
use std::alloc::Global;
use std::process::Abort;
use std::test::Fail;
use stripe_layout::{Geometry, Info};
use volume_forms::{Entry, write_entry};
use world_model::types::Ratio;

const VOLUME: u32 = 7;

const SERVERS: u32 = 4;

const TEXT: &str = "7.vif";

const INDEX: &str = "7.ecx";

const JOURNAL: &str = "7.ecj";

const NAMES: [&str; 14] = [
    "7.ec00", "7.ec01", "7.ec02", "7.ec03", "7.ec04", "7.ec05", "7.ec06", "7.ec07", "7.ec08",
    "7.ec09", "7.ec10", "7.ec11", "7.ec12", "7.ec13",
];

// The shards of a data file of 56 bytes with one needle, as another program computes them.
const SHARDS: [[u8; 8]; 14] = [
    [3, 0, 0, 0, 0, 0, 0, 0],
    [0, 0, 0, 0x2a, 0, 0, 0, 0],
    [0, 0, 0, 1, 0, 0, 0, 0x0e],
    [0, 0, 0, 9, 0x31, 0x32, 0x33, 0x34],
    [0x35, 0x36, 0x37, 0x38, 0x39, 0, 0xe3, 6],
    [0x92, 0x83, 0, 0, 0, 0, 0, 0],
    [0; 8],
    [0; 8],
    [0; 8],
    [0; 8],
    [0x3a, 0xd7, 0xfa, 0x5c, 0x9b, 0xbc, 0xef, 9],
    [0x54, 0xd1, 0x1f, 0x9f, 0x1a, 0x25, 0x87, 0x5c],
    [0x9b, 0x9c, 0xb2, 0x38, 0x61, 0xe9, 0x93, 0xa7],
    [0x3d, 0x8d, 0xcf, 0x53, 0x3f, 0x76, 0x9f, 0x34],
];

// What its text says.
const TOLD: &[u8] = b"{\"datSize\":56,\"large\":16,\"small\":8,\"version\":3}";

// The same, one byte shorter than its record.
const TOLD_SHORT: &[u8] = b"{\"datSize\":55,\"large\":16,\"small\":8,\"version\":3}";

// Entries of the ids 1, 5 and 9. That the last two have no record of their own is no matter of an opening.
const ENTRIES: [u8; 48] = [
    0, 0, 0, 0, 0, 0, 0, 1, 0, 0, 0, 1, 0, 0, 0, 0x0e, 0, 0, 0, 0, 0, 0, 0, 5, 0, 0, 0, 1, 0, 0, 0,
    0x0e, 0, 0, 0, 0, 0, 0, 0, 9, 0, 0, 0, 1, 0, 0, 0, 0x0e,
];

// The ids 9 and 1, each twice.
const PAIRS: [u8; 32] = [
    0, 0, 0, 0, 0, 0, 0, 9, 0, 0, 0, 0, 0, 0, 0, 9, 0, 0, 0, 0, 0, 0, 0, 1, 0, 0, 0, 0, 0, 0, 0, 1,
];

const IDS: [u64; 2] = [9, 1];

// The id 5 twice, as if it were deleted two times.
const FIVES: [u8; 32] = [
    0, 0, 0, 0, 0, 0, 0, 5, 0, 0, 0, 0, 0, 0, 0, 5, 0, 0, 0, 0, 0, 0, 0, 5, 0, 0, 0, 0, 0, 0, 0, 5,
];

// The server of each call of an opening, in turn: of the texts, of the first index, of the others with it, of the
// lengths and of the journals.
const CALLED: [u32; 44] = [
    0, 0, 1, 1, 2, 2, 3, 3, // texts
    0, 0, // the first index
    0, 1, 0, 1, 0, 2, 0, 2, 0, 3, 0, 3, // it and each other
    0, 0, 0, 0, 1, 1, 1, 1, 2, 2, 2, 3, 3, 3, // lengths
    0, 0, 1, 1, 2, 2, 3, 3, // journals
];

fn info() -> Info {
    Info {
        dat_size: 56,
        geometry: Geometry {
            ratio: Ratio::TenFour,
            large: 16,
            small: 8,
        },
    }
}

fn unsound(rule: u8) -> OpenFault {
    OpenFault::Unsound {
        volume: VOLUME,
        rule,
    }
}

// A site with the files of the volume, and the table of its shards.
#[derive(Drop)]
struct Placed {
    site: MemSite,
    table: ShardTable,
    ghost servers: { site.servers ≡ 4 },
    ghost none_made: { (counts_at site).calls ≡ 0 },
    ghost same: { table.servers ≡ 4 },
    ghost added: { IsAdded table 7 },
}

impl Placed {
    // With shard i at the server i modulo 4.
    fn new(alloc: Global) -> Result<Placed, Fail> {
        Ok(Placed {
            site: site_of(alloc)?,
            table: table_of(alloc)?,
        })
    }

    // With another file at a server.
    fn put(&mut self, server: u32, name: &str, bytes: &[u8]) -> Result<(), Fail>
        requires { server < 4 }
    {
        self.site.add_file(server, name, bytes)?;
        Ok(())
    }

    // With another file at each server.
    fn put_everywhere(&mut self, name: &str, bytes: &[u8]) -> Result<(), Fail> {
        for server in 0..SERVERS {
            self.put(server, name, bytes)?;
        }
        Ok(())
    }

    // Sees that the shards stand as the table has them, and are enough.
    fn see_coded(&self, rt: &impl Abort, alloc: Global) -> Result<(), Fail>
        ensures { IfOk result (λ _. IsCodedAs (row_of self.now.table 7)
            (files_on (disk_at self.now.site).files 7)) }
    {
        let places = self.table.row(VOLUME);
        assert!(rt; is_coded_as(alloc, &self.site, places)?);
        Ok(())
    }

    fn open(self, rt: &impl Abort, alloc: Global) -> Result<Opened, Fail> {
        self.see_coded(rt, alloc)?;
        let mut site = self.site;
        let table = self.table;
        let volume = CodedVolume::open(alloc, &mut site, &table, VOLUME);
        Ok(Opened { site, volume })
    }

    // What the opening fails with.
    fn told(self, rt: &impl Abort, alloc: Global) -> Result<Option<OpenFault>, Fail> {
        let opened = self.open(rt, alloc)?;
        match opened.volume {
            Ok(_) => Ok(None),
            Err(fault) => Ok(Some(fault)),
        }
    }
}

// What an opening answers, and the site then.
#[derive(Drop)]
struct Opened {
    site: MemSite,
    volume: Result<CodedVolume, OpenFault>,
}

impl Opened {
    // Sees that it has these deleted ids.
    fn see(&self, rt: &impl Abort, ids: &[u64]) {
        match &self.volume {
            Ok(volume) => {
                assert_eq!(rt; *volume.info(), info());
                assert_eq!(rt; volume.deleted(), ids);
            }
            Err(fault) => assert_eq!(rt; Some(*fault), None),
        }
    }
}

fn site_of(alloc: Global) -> Result<MemSite, Fail>
    ensures servers { IfOk result (λ site. site.servers ≡ 4) }
    ensures none_made { IfOk result (λ site. (counts_at site).calls ≡ 0) }
{
    let mut site = MemSite::new(alloc, SERVERS)?;
    for server in 0..SERVERS {
        site.add_file(server, TEXT, TOLD)?;
        site.add_file(server, INDEX, &ENTRIES)?;
        site.add_file(server, JOURNAL, &PAIRS)?;
    }
    for shard in 0..14 {
        site.add_file(
            shard % SERVERS,
            NAMES[shard as usize],
            &SHARDS[shard as usize],
        )?;
    }
    Ok(site)
}

fn table_of(alloc: Global) -> Result<ShardTable, Fail>
    ensures servers { IfOk result (λ table. table.servers ≡ 4) }
    ensures added { IfOk result (λ table. IsAdded table 7) }
{
    let mut table = ShardTable::new(alloc, SERVERS);
    table.add_volume(VOLUME)?;
    for shard in 0..14 {
        table.set(VOLUME, shard, Some(u32::from(shard) % SERVERS));
    }
    Ok(table)
}

#[test]
fn a_sound_volume_opens(rt: HostRuntime) -> Result<(), Fail> {
    let opened = Placed::new(rt.alloc())?.open(&rt, rt.alloc())?;
    opened.see(&rt, &IDS);
    assert_eq!(rt; opened.site.calls(), CALLED.len() as u64);
    Ok(())
}

#[test]
fn the_longest_journal_counts(rt: HostRuntime) -> Result<(), Fail> {
    let alloc = rt.alloc();
    let mut placed = Placed::new(alloc)?;
    placed.put(0, JOURNAL, &PAIRS[..16])?;
    placed.put(2, JOURNAL, &PAIRS[..31])?;
    placed.open(&rt, alloc)?.see(&rt, &IDS);
    let mut placed = Placed::new(alloc)?;
    placed.put_everywhere(JOURNAL, &PAIRS[..16])?;
    placed.open(&rt, alloc)?.see(&rt, &IDS[..1]);
    let mut placed = Placed::new(alloc)?;
    placed.put_everywhere(JOURNAL, &PAIRS[..8])?;
    placed.open(&rt, alloc)?.see(&rt, &[]);
    Ok(())
}

// What an opening tells with this file at this server.
fn told_with(
    rt: &impl Abort,
    alloc: Global,
    server: u32,
    name: &str,
    bytes: &[u8],
) -> Result<Option<OpenFault>, Fail>
    requires { server < 4 }
{
    let mut placed = Placed::new(alloc)?;
    placed.put(server, name, bytes)?;
    placed.told(rt, alloc)
}

#[test]
fn each_rule_is_told(rt: HostRuntime) -> Result<(), Fail> {
    let more = [0; 9];
    let cases: [(u32, &str, &[u8], u8); 12] = [
        (1, TEXT, b"", 4),
        (0, TEXT, b"{}", 4),
        (3, TEXT, TOLD_SHORT, 4),
        (1, INDEX, &ENTRIES[..15], 5),
        (0, INDEX, &ENTRIES[..15], 5),
        (3, INDEX, &ENTRIES[..32], 5),
        (0, INDEX, &ENTRIES[16..32], 5),
        (1, NAMES[1], &more, 6),
        (3, NAMES[11], &more[..7], 6),
        (2, JOURNAL, &[], 8),
        (1, JOURNAL, &[0; 17], 8),
        (0, JOURNAL, &PAIRS[16..], 8),
    ];
    for (server, name, bytes, rule) in cases {
        let told = told_with(&rt, rt.alloc(), server, name, bytes)?;
        assert_eq!(rt; told, Some(unsound(rule)), "{name} at server {server}");
    }
    Ok(())
}

#[test]
fn the_first_rule_that_is_false_is_told(rt: HostRuntime) -> Result<(), Fail> {
    let alloc = rt.alloc();
    let mut placed = Placed::new(alloc)?;
    placed.put(1, JOURNAL, &[0; 17])?;
    assert_eq!(rt; placed.told(&rt, alloc)?, Some(unsound(8)));
    let mut placed = Placed::new(alloc)?;
    placed.put(1, JOURNAL, &[0; 17])?;
    placed.put(2, NAMES[2], &[])?;
    assert_eq!(rt; placed.told(&rt, alloc)?, Some(unsound(6)));
    let mut placed = Placed::new(alloc)?;
    placed.put(1, JOURNAL, &[0; 17])?;
    placed.put(2, NAMES[2], &[])?;
    placed.put_everywhere(TEXT, TOLD_SHORT)?;
    assert_eq!(rt;
        placed.told(&rt, alloc)?,
        Some(unsound(5)),
        "an end past the data file"
    );
    let mut placed = Placed::new(alloc)?;
    placed.put(1, INDEX, &[])?;
    placed.put(2, NAMES[2], &[])?;
    placed.put(3, TEXT, TOLD_SHORT)?;
    assert_eq!(rt; placed.told(&rt, alloc)?, Some(unsound(4)));
    Ok(())
}

// Journals at all holders of ids that are unknown or come twice.
#[test]
fn each_id_is_in_the_index_and_comes_once(rt: HostRuntime) -> Result<(), Fail> {
    let alloc = rt.alloc();
    let mut placed = Placed::new(alloc)?;
    placed.put_everywhere(JOURNAL, &FIVES)?;
    assert_eq!(rt; placed.told(&rt, alloc)?, Some(unsound(8)), "twice");
    let mut placed = Placed::new(alloc)?;
    placed.put_everywhere(JOURNAL, &FIVES[..16])?;
    placed.open(&rt, alloc)?.see(&rt, &[5]);
    let mut placed = Placed::new(alloc)?;
    placed.put_everywhere(INDEX, &ENTRIES[..32])?;
    assert_eq!(rt; placed.told(&rt, alloc)?, Some(unsound(8)), "9 unknown");
    Ok(())
}

// A shard of a number that the ratio hasn't.
#[test]
fn a_shard_beyond_the_ratio_is_unsound(rt: HostRuntime) -> Result<(), Fail> {
    let alloc = rt.alloc();
    let mut placed = Placed::new(alloc)?;
    placed.put(2, "7.ec14", &SHARDS[0])?;
    placed.table.set(VOLUME, 14, Some(2));
    assert_eq!(rt; placed.told(&rt, alloc)?, Some(unsound(6)));
    Ok(())
}

// Two indexes of 5,000 entries, that differ in the last byte.
#[test]
fn indexes_are_compared_to_their_ends(rt: HostRuntime) -> Result<(), Fail> {
    let alloc = rt.alloc();
    let mut bytes = Vec::new(alloc);
    for id in 1..=5000 {
        let entry = Entry {
            id,
            offset: 1,
            size: 14,
        };
        bytes.extend_from_slice(&write_entry(&entry))?;
    }
    let mut placed = Placed::new(alloc)?;
    placed.put_everywhere(INDEX, &bytes)?;
    placed.open(&rt, alloc)?.see(&rt, &IDS);
    let mut other = Placed::new(alloc)?;
    other.put_everywhere(INDEX, &bytes)?;
    bytes.pop();
    bytes.push(13)?;
    other.put(3, INDEX, &bytes)?;
    assert_eq!(rt; other.told(&rt, alloc)?, Some(unsound(5)));
    Ok(())
}

#[test]
fn each_failing_call_is_told_of_its_server(rt: HostRuntime) -> Result<(), Fail> {
    let alloc = rt.alloc();
    for (call, server) in CALLED.into_iter().enumerate() {
        let mut placed = Placed::new(alloc)?;
        placed.site.fail_call(call as u64 + 1)?;
        let told = placed.told(&rt, alloc)?;
        assert_eq!(rt; told, Some(OpenFault::Fault { server }), "call {call}");
    }
    Ok(())
}
