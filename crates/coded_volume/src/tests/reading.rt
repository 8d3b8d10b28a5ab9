// Needles of a volume of 3 and 2 shards, at five servers in memory with a shard each. Some are missing or fail.
ghost use Rattle.std.specs.Prelude.{◌≡◌, ◌≤◌, IfOk, length};
ghost use Rattle.site_mem.specs.Site.{counts_at, disk_at};
ghost use Rattle.world_model.specs.declared.types.Ratio.TheVariants.{ThreeTwo};
ghost use Rattle.shard_table.specs.Table.{IsAdded, row_of};
ghost use Rattle.degraded_read.specs.Gathering.{standing_in};
ghost use Rattle.degraded_read.specs.Reading.{ArePlaced};

mod many;
mod standing;

use super::{VOLUME, info};
use crate::CodedVolume;
use crate::tests::reading::standing::are_placed;
use dat_volume::GetFault;
use degraded_read::count_standing;
use needle_record::Record;
use shard_table::ShardTable;
use site_mem::MemSite;
use site_model::DeviceFault;
use std::alloc::{AllocError, Global};
use std::process::Abort;
use std::test::Fail;
use world_model::types::What;

// The shards, and the servers.
const COUNT: u8 = 5;

// How many shards give the others.
const ENOUGH: usize = 3;

const NAMES: [&str; 5] = ["7.ec00", "7.ec01", "7.ec02", "7.ec03", "7.ec04"];

const INDEX: &str = "7.ecx";

const TEXT: &str = "7.vif";

const TOLD: &[u8] = b"{\"datSize\":56,\"large\":16,\"ratio\":\"3+2\",\"small\":8,\"version\":3}";

type Shards = [[u8; 24]; 5];

// The shards of one needle, as another program computes them.
const SHARDS: Shards = [
    [
        3, 0, 0, 0, 0, 0, 0, 0, 0, 0, 0, 0x2a, 0, 0, 0, 0, 0, 0, 0, 0, 0, 0, 0, 0,
    ],
    [
        0, 0, 0, 1, 0, 0, 0, 0x0e, 0, 0, 0, 9, 0x31, 0x32, 0x33, 0x34, 0, 0, 0, 0, 0, 0, 0, 0,
    ],
    [
        0x35, 0x36, 0x37, 0x38, 0x39, 0, 0xe3, 6, 0x92, 0x83, 0, 0, 0, 0, 0, 0, 0, 0, 0, 0, 0, 0,
        0, 0,
    ],
    [
        0x36, 0x36, 0x37, 0x39, 0x39, 0, 0xe3, 8, 0x92, 0x83, 0, 0x23, 0x31, 0x32, 0x33, 0x34, 0,
        0, 0, 0, 0, 0, 0, 0,
    ],
    [
        0xaf, 0xb4, 0xb2, 0x98, 0x96, 0, 0x70, 0x64, 0x4b, 0x2d, 0, 0xd3, 0x95, 0x8d, 0x85, 0xbd,
        0, 0, 0, 0, 0, 0, 0, 0,
    ],
];

// The needle.
const ID: u64 = 1;

const COOKIE: u32 = 0x2a;

const DATA: &[u8] = b"123456789";

type EntryBytes = [u8; 16];

// Its entry in the index.
const ENTRY: EntryBytes = [0, 0, 0, 0, 0, 0, 0, 1, 0, 0, 0, 1, 0, 0, 0, 0x0e];

// A set of servers, as its bits.
#[derive(Clone, Copy, Debug)]
struct Set(u32);

// How many sets there are.
const SETS: u32 = 1 << 5;

const ALL: Set = Set(SETS - 1);

const NONE: Set = Set(0);

impl Set {
    fn has(self, server: u8) -> bool {
        server < COUNT && (self.0 >> u32::from(server)) & 1 == 1
    }

    fn count(self) -> usize {
        (0..COUNT).filter(|&server| self.has(server)).count()
    }

    fn lowest(self) -> Option<u8> {
        (0..COUNT).find(|&server| self.has(server))
    }
}

// The volume, with each shard at the server of its number.
#[derive(Drop)]
struct Served {
    site: MemSite,
    table: ShardTable,
    volume: CodedVolume,
    ghost servers: { site.servers ≡ 5 },
    ghost same: { table.servers ≡ 5 },
    ghost number: { volume.volume ≡ 7 },
    ghost ratio: { volume.info.geometry.ratio ≡ ThreeTwo },
}

impl Served {
    // With these shards and this entry, without the files of the servers that are lost.
    fn with_files(
        alloc: Global,
        shards: &Shards,
        entry: &EntryBytes,
        lost: Set,
    ) -> Result<Served, Fail> {
        Ok(Served {
            site: site_of(alloc, shards, entry, lost)?,
            table: table_of(alloc, lost)?,
            volume: CodedVolume::fresh(alloc, VOLUME, info()),
        })
    }

    fn without(alloc: Global, lost: Set) -> Result<Served, Fail> {
        Served::with_files(alloc, &SHARDS, &ENTRY, lost)
    }

    fn whole(alloc: Global) -> Result<Served, Fail> {
        Served::without(alloc, NONE)
    }

    // With reads that fail at these servers.
    fn failing(alloc: Global, failing: Set) -> Result<Served, Fail> {
        let mut served = Served::whole(alloc)?;
        fail_reads(&mut served.site, failing);
        Ok(served)
    }

    // Sees that the shards of the table stand, and are enough.
    fn see_shards(&self, rt: &impl Abort, alloc: Global, size: u64) -> Result<(), AllocError>
        ensures placed { IfOk result (λ _. ArePlaced (disk_at self.now.site).files 7 size
            (row_of self.now.table 7)) }
        ensures enough { IfOk result (λ _. 3 ≤ length (standing_in (row_of self.now.table 7) 5)) }
    {
        let places = self.table.row(VOLUME);
        assert!(rt; are_placed(alloc, &self.site, places, size)?);
        assert!(rt; count_standing(places, COUNT) >= ENOUGH);
        Ok(())
    }

    fn get(&mut self, rt: &impl Abort, alloc: Global, id: u64) -> Result<Option<Record>, GetFault> {
        let info = *self.volume.info();
        let size = info.geometry.shard_length(info.dat_size);
        self.see_shards(rt, alloc, size)?;
        self.volume.get(alloc, &mut self.site, &self.table, id)
    }

    fn cookie(&mut self, rt: &impl Abort, alloc: Global, id: u64) -> Result<Option<u32>, GetFault> {
        let info = *self.volume.info();
        let size = info.geometry.shard_length(info.dat_size);
        self.see_shards(rt, alloc, size)?;
        self.volume.cookie(alloc, &mut self.site, &self.table, id)
    }

    // Sees that the needle is answered.
    fn see_needle(&mut self, rt: &impl Abort, alloc: Global, but: Set) -> Result<(), Fail> {
        let found = self.get(rt, alloc, ID)?;
        assert!(rt; is_needle(&found), "but {but:?}");
        let cookie = self.cookie(rt, alloc, ID)?;
        assert_eq!(rt; cookie, Some(COOKIE), "but {but:?}");
        Ok(())
    }
}

fn site_of(
    alloc: Global,
    shards: &Shards,
    entry: &EntryBytes,
    lost: Set,
) -> Result<MemSite, AllocError>
    ensures { IfOk result (λ site. site.servers ≡ 5) }
{
    let mut site = MemSite::new(alloc, 5)?;
    for shard in 0..COUNT {
        if !lost.has(shard) {
            let server = u32::from(shard);
            let number = usize::from(shard);
            site.add_file(server, NAMES[number], &shards[number])?;
            site.add_file(server, INDEX, entry)?;
            site.add_file(server, TEXT, TOLD)?;
        }
    }
    Ok(site)
}

fn table_of(alloc: Global, lost: Set) -> Result<ShardTable, AllocError>
    ensures { IfOk result (λ table. table.servers ≡ 5) }
{
    let mut table = ShardTable::new(alloc, 5);
    table.add_volume(VOLUME)?;
    for shard in 0..COUNT {
        if !lost.has(shard) {
            table.set(VOLUME, shard, Some(u32::from(shard)));
        }
    }
    Ok(table)
}

// Each read at these servers is to fail.
fn fail_reads(site: &mut MemSite, failing: Set)
    requires { site.old.servers ≡ 5 }
    ensures { site.new.servers ≡ 5 }
{
    for server in 0..COUNT {
        if failing.has(server) {
            site.fail_reads(u32::from(server), 1);
        }
    }
}

fn is_needle(found: &Option<Record>) -> bool {
    let Some(record) = found else {
        return false;
    };
    let Some(content) = &record.content else {
        return false;
    };
    record.cookie == COOKIE && record.id == ID && content.bytes.as_slice() == DATA
}

fn fault_of(server: u8) -> GetFault {
    GetFault::Fault(DeviceFault {
        server: u32::from(server),
    })
}

#[test]
fn the_needle_is_read_around_two_servers(rt: HostRuntime) -> Result<(), Fail> {
    let alloc = rt.alloc();
    for bits in 0..SETS {
        let but = Set(bits);
        if but.count() > 2 {
            continue;
        }
        Served::without(alloc, but)?.see_needle(&rt, alloc, but)?;
        Served::failing(alloc, but)?.see_needle(&rt, alloc, but)?;
    }
    Ok(())
}

// Each set of three has a shard that the needle's bytes are read from.
#[test]
fn the_lowest_of_three_that_fail_is_told(rt: HostRuntime) -> Result<(), Fail> {
    let alloc = rt.alloc();
    for bits in 0..SETS {
        let failing = Set(bits);
        if failing.count() == 3 {
            let found = Served::failing(alloc, failing)?.get(&rt, alloc, ID);
            assert_eq!(rt; found.err(), failing.lowest().map(fault_of), "{failing:?}");
        }
    }
    Ok(())
}

#[test]
fn an_absent_id_has_no_needle(rt: HostRuntime) -> Result<(), Fail> {
    let alloc = rt.alloc();
    let mut served = Served::whole(alloc)?;
    assert!(rt; served.get(&rt, alloc, 2)?.is_none());
    assert_eq!(rt; served.cookie(&rt, alloc, 2)?, None);
    Ok(())
}

#[test]
fn no_answer_comes_where_no_index_is_read(rt: HostRuntime) -> Result<(), Fail> {
    let alloc = rt.alloc();
    let mut served = Served::failing(alloc, ALL)?;
    assert_eq!(rt; served.get(&rt, alloc, 2).err(), Some(fault_of(0)));
    assert_eq!(rt; served.cookie(&rt, alloc, 2), Err(fault_of(0)));
    Ok(())
}

#[test]
fn a_deleted_id_takes_no_call(rt: HostRuntime) -> Result<(), Fail> {
    let alloc = rt.alloc();
    let mut site = site_of(alloc, &SHARDS, &ENTRY, NONE)?;
    let table = table_of(alloc, NONE)?;
    let mut volume = CodedVolume::fresh(alloc, VOLUME, info());
    volume.delete(alloc, &mut site, &table, ID)?;
    let calls = site.calls();
    let mut served = Served {
        site,
        table,
        volume,
    };
    assert!(rt; served.get(&rt, alloc, ID)?.is_none());
    assert_eq!(rt; served.cookie(&rt, alloc, ID)?, None);
    assert_eq!(rt; served.site.calls(), calls);
    Ok(())
}

// A look at the index's size and a read of its entry, and a read of each piece: 8, 16, 16 and 8 bytes of the
// record, and 8 and 8 of its header.
#[test]
fn few_calls_are_made(rt: HostRuntime) -> Result<(), Fail> {
    let alloc = rt.alloc();
    let mut served = Served::whole(alloc)?;
    assert!(rt; is_needle(&served.get(&rt, alloc, ID)?));
    assert_eq!(rt; served.site.calls(), 2 + 4);
    assert_eq!(rt; served.cookie(&rt, alloc, ID)?, Some(COOKIE));
    assert_eq!(rt; served.site.calls(), 2 + 4 + 2 + 2);
    assert_eq!(rt; served.site.wants(), 0);
    Ok(())
}

// The data's first byte is '0'.
#[test]
fn a_changed_byte_is_told(rt: HostRuntime) -> Result<(), Fail> {
    let alloc = rt.alloc();
    let mut shards = SHARDS;
    shards[1][12] = b'0';
    let mut served = Served::with_files(alloc, &shards, &ENTRY, NONE)?;
    let damage = GetFault::Damaged {
        what: What::Checksum,
        a: 0xe306_9283,
        b: 0x1738_44cb,
    };
    assert_eq!(rt; served.get(&rt, alloc, ID).err(), Some(damage));
    assert_eq!(rt; served.cookie(&rt, alloc, ID)?, Some(COOKIE));
    Ok(())
}

// An entry of another place, of another id, and of another size.
#[test]
fn an_entry_that_is_not_the_records_is_told(rt: HostRuntime) -> Result<(), Fail> {
    let alloc = rt.alloc();
    let entries = [
        (11, 2, ID, What::End, 64, 56),
        (7, 2, 2, What::Id, 2, 1),
        (15, 15, ID, What::Size, 15, 14),
    ];
    for (at, byte, id, what, a, b) in entries {
        let mut entry = ENTRY;
        entry[at] = byte;
        let mut served = Served::with_files(alloc, &SHARDS, &entry, NONE)?;
        let damage = GetFault::Damaged { what, a, b };
        assert_eq!(rt; served.get(&rt, alloc, id).err(), Some(damage));
        assert_eq!(rt; served.cookie(&rt, alloc, id), Err(damage));
    }
    Ok(())
}
