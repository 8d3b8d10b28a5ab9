//! Reads of volumes of 3 and 2 shards, at five servers in memory with a shard each. Some are missing or fail.
ghost use Rattle.std.specs.Prelude.{◌≡◌, ◌<◌, ◌≤◌, ◌^◌, IfOk, length, map};
ghost use Rattle.std.specs.String.{string_bytes};
ghost use Rattle.site_model.specs.Counts.{widest_piece};
ghost use Rattle.site_mem.specs.Site.{disk_at};
ghost use Rattle.world_model.specs.declared.types.Ratio.TheVariants.{ThreeTwo};
ghost use Rattle.stripe_layout.specs.Stripes.{GeometryInRange};
ghost use Rattle.shard_table.specs.Table.{row_of};
ghost use Rattle.degraded_read.specs.Gathering.{AreNames, standing_in};
ghost use Rattle.degraded_read.specs.Reading.{ArePlaced};

mod standing;

use crate::reader::names_of;
use crate::tests::standing::are_placed;
use crate::{ReadFault, Reader, count_standing, read_range};
use shard_table::ShardTable;
use site_mem::MemSite;
use site_model::{DeviceFault, PIECE};
use std::alloc::{AllocError, Global};
use std::process::Abort;
use std::test::Fail;
use stripe_layout::{Geometry, Info};
use world_model::types::Ratio;

const VOLUME: u32 = 7;

// The shards that a volume has, and the servers.
const COUNT: u8 = 5;

// How many of them give the others.
const ENOUGH: usize = 3;

const NAMES: [&str; 5] = ["7.ec00", "7.ec01", "7.ec02", "7.ec03", "7.ec04"];

// What a volume has, in blocks of `large` and of 8 bytes.
#[derive(Clone, Copy, Debug)]
enum Data {
    /// One needle.
    Needle,
    /// The same, and the first byte of this shard isn't what the others give.
    Spoilt(usize),
    /// A row of large blocks of two parts each.
    TwoParts,
}

// One needle with the data "123456789".
const NEEDLE: [u8; 56] = [
    3, 0, 0, 0, 0, 0, 0, 0, 0, 0, 0, 0x2a, 0, 0, 0, 0, 0, 0, 0, 1, 0, 0, 0, 0x0e, 0, 0, 0, 9, 0x31,
    0x32, 0x33, 0x34, 0x35, 0x36, 0x37, 0x38, 0x39, 0, 0xe3, 6, 0x92, 0x83, 0, 0, 0, 0, 0, 0, 0, 0,
    0, 0, 0, 0, 0, 0,
];

const LENGTH: usize = 24;

// Its shards, as another program computes them.
const SHARDS: [[u8; LENGTH]; 5] = [
    [
        3, 0, 0, 0, 0, 0, 0, 0, 0, 0, 0, 0x2a, 0, 0, 0, 0, 0, 0, 0, 0, 0, 0, 0, 0,
    ],
    [
        0, 0, 0, 1, 0, 0, 0, 0x0e, 0, 0, 0, 9, 0x31, 0x32, 0x33, 0x34, 0, 0, 0, 0, 0, 0, 0, 0,
    ],
    [
        0x35, 0x36, 0x37, 0x38, 0x39, 0, 0xe3, 6, 0x92, 0x83, 0, 0, 0, 0, 0, 0, 0, 0, 0, 0, 0, 0,
        0, 0,
    ],
    [
        0x36, 0x36, 0x37, 0x39, 0x39, 0, 0xe3, 8, 0x92, 0x83, 0, 0x23, 0x31, 0x32, 0x33, 0x34, 0,
        0, 0, 0, 0, 0, 0, 0,
    ],
    [
        0xaf, 0xb4, 0xb2, 0x98, 0x96, 0, 0x70, 0x64, 0x4b, 0x2d, 0, 0xd3, 0x95, 0x8d, 0x85, 0xbd,
        0, 0, 0, 0, 0, 0, 0, 0,
    ],
];

// The byte of each shard of the other volume in its first part, and in all that follows.
const FIRST: [u8; 5] = *b"1230%";

const REST: [u8; 5] = *b"abc`u";

fn info(data: Data) -> Info
    ensures ratio { result.geometry.ratio ≡ ThreeTwo }
    ensures geometry { GeometryInRange result.geometry }
    ensures dat_size { result.dat_size ≤ 2 ^ 35 }
{
    let (dat_size, large) = match data {
        Data::Needle | Data::Spoilt(_) => (56, 16),
        Data::TwoParts => (393_240, 131_072),
    };
    Info {
        dat_size,
        geometry: Geometry {
            ratio: Ratio::ThreeTwo,
            large,
            small: 8,
        },
    }
}

fn shard_of(alloc: Global, data: Data, shard: usize) -> Result<Vec<u8>, AllocError>
    requires { shard < 5 }
{
    match data {
        Data::Needle => SHARDS[shard].to_vec(alloc),
        Data::Spoilt(spoilt) => {
            let mut bytes = SHARDS[shard];
            if shard == spoilt {
                bytes[0] ^= 0xff;
            }
            bytes.to_vec(alloc)
        }
        Data::TwoParts => {
            let mut bytes = vec![in alloc; FIRST[shard]; PIECE]?;
            let rest = vec![in alloc; REST[shard]; PIECE + 8]?;
            bytes.extend_from_slice(&rest)?;
            Ok(bytes)
        }
    }
}

// A set of shards or servers, as its bits.
#[derive(Clone, Copy, Debug)]
struct Set(u32);

// How many sets there are.
const SETS: u32 = 1 << 5;

const ALL: Set = Set(SETS - 1);

const NONE: Set = Set(0);

impl Set {
    fn has(self, number: u8) -> bool {
        number < COUNT && (self.0 >> u32::from(number)) & 1 == 1
    }

    // How many of the volume's shards are in it.
    fn count(self) -> usize {
        (0..COUNT).filter(|&number| self.has(number)).count()
    }

    fn without(self, others: Set) -> Set {
        Set(self.0 & !others.0)
    }

    fn lowest(self) -> Option<u8> {
        (0..COUNT).find(|&number| self.has(number))
    }
}

// A reader of a volume, and a table that has each shard of a set at the server of its number.
#[derive(Drop)]
struct Running {
    data: Data,
    site: MemSite,
    table: ShardTable,
    reader: Reader,
    names: Vec<String>,
    ghost servers: { site.servers ≡ 5 },
    ghost same: { table.servers ≡ 5 },
    ghost volume: { reader.volume ≡ 7 },
    ghost widest: { reader.widest ≡ widest_piece },
    ghost names_are: { AreNames 7 (map string_bytes names.items) },
}

impl Running {
    // With these shards, and servers where each read fails.
    fn new(alloc: Global, data: Data, standing: Set, failing: Set) -> Result<Running, Fail> {
        let mut site = site_of(alloc, data, standing)?;
        fail_reads(&mut site, failing, 1);
        Ok(Running {
            data,
            site,
            table: table_of(alloc, standing)?,
            reader: Reader::new(alloc, VOLUME)?,
            names: names_of(alloc, VOLUME)?,
        })
    }

    // Sees that the shards of the table stand, with so many bytes, and are enough.
    fn see_shards(&self, rt: &impl Abort, size: u64)
        ensures placed { ArePlaced (disk_at self.now.site).files 7 size (row_of self.now.table 7) }
        ensures enough { 3 ≤ length (standing_in (row_of self.now.table 7) 5) }
    {
        let places = self.table.row(VOLUME);
        assert!(rt; are_placed(&self.site, places, &self.names, size));
        assert!(rt; count_standing(places, COUNT) >= ENOUGH);
    }

    fn read_shard(
        &mut self,
        rt: &impl Abort,
        shard: u8,
        at: u64,
        out: &mut [u8],
    ) -> Result<(), DeviceFault>
        requires shard { shard < 5 }
        requires part { length out.old ≤ widest_piece }
    {
        let info = info(self.data);
        let size = info.geometry.shard_length(info.dat_size);
        self.see_shards(rt, size);
        assert!(rt; at <= size && out.len() as u64 <= size - at);
        self.reader
            .read_shard(&mut self.site, &self.table, &info, shard, at, out)
    }

    fn read_range(
        &mut self,
        rt: &impl Abort,
        offset: usize,
        out: &mut [u8],
    ) -> Result<(), DeviceFault> {
        let info = info(self.data);
        let size = info.geometry.shard_length(info.dat_size);
        let offset = offset as u64;
        self.see_shards(rt, size);
        assert!(rt; offset <= info.dat_size && out.len() as u64 <= info.dat_size - offset);
        self.reader
            .read_range(&mut self.site, &self.table, &info, offset, out)
    }

    // Reads the data file from its start on, without the reader.
    fn read_at_once(
        &mut self,
        rt: &impl Abort,
        alloc: Global,
        out: &mut [u8],
    ) -> Result<(), ReadFault> {
        let info = info(self.data);
        let size = info.geometry.shard_length(info.dat_size);
        self.see_shards(rt, size);
        assert!(rt; out.len() as u64 <= info.dat_size);
        read_range(alloc, &mut self.site, &self.table, VOLUME, &info, 0, out)
    }
}

// Five servers, with each shard of the set at the server of its number.
fn site_of(alloc: Global, data: Data, standing: Set) -> Result<MemSite, AllocError>
    ensures { IfOk result (λ site. site.servers ≡ 5) }
{
    let mut site = MemSite::new(alloc, 5)?;
    for shard in 0..COUNT {
        if standing.has(shard) {
            let number = usize::from(shard);
            let bytes = shard_of(alloc, data, number)?;
            site.add_file(u32::from(shard), NAMES[number], &bytes)?;
        }
    }
    Ok(site)
}

// Each read at these servers is to fail, from this call on.
fn fail_reads(site: &mut MemSite, failing: Set, call: u64)
    requires { site.old.servers ≡ 5 }
    ensures { site.new.servers ≡ 5 }
{
    for server in 0..COUNT {
        if failing.has(server) {
            site.fail_reads(u32::from(server), call);
        }
    }
}

fn table_of(alloc: Global, standing: Set) -> Result<ShardTable, AllocError>
    ensures { IfOk result (λ table. table.servers ≡ 5) }
{
    let mut table = ShardTable::new(alloc, 5);
    table.add_volume(VOLUME)?;
    for shard in 0..COUNT {
        if standing.has(shard) {
            table.set(VOLUME, shard, Some(u32::from(shard)));
        }
    }
    Ok(table)
}

#[test]
fn each_shard_and_range_is_read_from_any_three(rt: HostRuntime) -> Result<(), Fail> {
    for standing in 0..SETS {
        for failing in 0..SETS {
            let (standing, failing) = (Set(standing), Set(failing));
            let is_within = failing.without(standing).count() == 0;
            if is_within && standing.without(failing).count() >= ENOUGH {
                see_all(&rt, rt.alloc(), standing, failing)?;
            }
        }
    }
    Ok(())
}

// Sees that these shards, of which some fail, give each shard and each range.
fn see_all(rt: &impl Abort, alloc: Global, standing: Set, failing: Set) -> Result<(), Fail> {
    let mut running = Running::new(alloc, Data::Needle, standing, failing)?;
    for shard in 0..COUNT {
        let mut out = [0; LENGTH];
        let read = running.read_shard(rt, shard, 0, &mut out);
        assert_eq!(rt; read, Ok(()), "{standing:?}, {failing:?}");
        assert_eq!(rt;
            out,
            SHARDS[usize::from(shard)],
            "{standing:?}, {failing:?}"
        );
    }
    see_ranges(rt, &mut running)
}

// Sees what is read from each place of the data file on, to its end and 9 bytes.
fn see_ranges(rt: &impl Abort, running: &mut Running) -> Result<(), Fail> {
    for offset in 0..NEEDLE.len() {
        for end in [NEEDLE.len(), NEEDLE.len().min(offset + 9)] {
            let mut out = [0; 56];
            running.read_range(rt, offset, &mut out[offset..end])?;
            assert!(rt;
                out[offset..end] == NEEDLE[offset..end],
                "{offset} to {end}"
            );
        }
    }
    Ok(())
}

// Sees what is answered where the reads at a set of servers fail.
fn see_around(rt: &impl Abort, alloc: Global, failing: Set, shard: u8) -> Result<(), Fail>
    requires { shard < 5 }
{
    let mut running = Running::new(alloc, Data::Needle, ALL, failing)?;
    let mut out = [0; LENGTH];
    let read = running.read_shard(rt, shard, 0, &mut out);
    let is_direct = shard < 3 && !failing.has(shard);
    match failing.lowest() {
        Some(server) if !is_direct && failing.count() > 2 => {
            let fault = DeviceFault {
                server: u32::from(server),
            };
            assert_eq!(rt; read, Err(fault), "{failing:?}, shard {shard}");
        }
        _ => {
            assert_eq!(rt; read, Ok(()), "{failing:?}, shard {shard}");
            assert_eq!(rt; out, SHARDS[usize::from(shard)], "{failing:?}");
        }
    }
    Ok(())
}

#[test]
fn failing_servers_are_read_around_or_the_lowest_is_told(rt: HostRuntime) -> Result<(), Fail> {
    for bits in 0..SETS {
        for shard in 0..COUNT {
            see_around(&rt, rt.alloc(), Set(bits), shard)?;
        }
    }
    Ok(())
}

// The part of shard 0 is read around server 0, which fails once. That of shard 1 can't be read.
#[test]
fn the_lowest_failure_of_all_parts_is_told(rt: HostRuntime) -> Result<(), Fail> {
    let mut running = Running::new(rt.alloc(), Data::Needle, ALL, NONE)?;
    running.site.fail_call(1)?;
    fail_reads(&mut running.site, Set(0b01110), 5);
    let mut out = [0; 56];
    let read = running.read_range(&rt, 0, &mut out);
    assert_eq!(rt; read, Err(DeviceFault { server: 0 }));
    assert_eq!(rt; running.site.calls(), 9);
    Ok(())
}

#[test]
fn a_part_is_read_by_no_more_reads_than_it_takes(rt: HostRuntime) -> Result<(), Fail> {
    let mut running = Running::new(rt.alloc(), Data::Needle, ALL, NONE)?;
    let mut out = [0; 4];
    running.read_shard(&rt, 1, 12, &mut out)?;
    assert_eq!(rt; out, *b"1234");
    assert_eq!(rt; running.site.calls(), 1);
    running.read_shard(&rt, 4, 2, &mut out)?;
    assert_eq!(rt; out, [0xb2, 0x98, 0x96, 0]);
    assert_eq!(rt; running.site.calls(), 4);
    Ok(())
}

// Sees the first byte of each shard, and of the data file where its shards have them.
fn see_first_bytes(rt: &impl Abort, running: &mut Running, wanted: [u8; 5]) -> Result<(), Fail> {
    for shard in 0..COUNT {
        let mut out = [0; 1];
        running.read_shard(rt, shard, 0, &mut out)?;
        assert_eq!(rt; out, [wanted[usize::from(shard)]], "shard {shard}");
    }
    for (shard, offset) in [(0, 0), (1, 16), (2, 32)] {
        let mut out = [0; 1];
        running.read_range(rt, offset, &mut out)?;
        assert_eq!(rt; out, [wanted[shard]], "from {offset}");
    }
    Ok(())
}

// Another program computes the bytes, from the three lowest shards that stand.
#[test]
fn where_shards_disagree_the_three_lowest_give_all(rt: HostRuntime) -> Result<(), Fail> {
    let alloc = rt.alloc();
    let mut parity = Running::new(alloc, Data::Spoilt(3), ALL, NONE)?;
    see_first_bytes(&rt, &mut parity, [3, 0, 0x35, 0x36, 0xaf])?;
    let mut degraded = Running::new(alloc, Data::Spoilt(3), Set(0b11110), NONE)?;
    see_first_bytes(&rt, &mut degraded, [0xfc, 0, 0x35, 0xc9, 0xc3])?;
    let mut highest = Running::new(alloc, Data::Spoilt(4), Set(0b11011), NONE)?;
    see_first_bytes(&rt, &mut highest, [3, 0, 0x35, 0x36, 0xaf])?;
    let mut direct = Running::new(alloc, Data::Spoilt(1), ALL, NONE)?;
    see_first_bytes(&rt, &mut direct, [3, 0xff, 0x35, 0xc9, 4])
}

// Where the call gets no memory for a reader, nothing is read.
#[test]
fn a_range_is_read_without_a_reader(rt: HostRuntime) -> Result<(), Fail> {
    let alloc = rt.alloc();
    let mut running = Running::new(alloc, Data::Needle, Set(0b11101), NONE)?;
    let mut out = [0; 56];
    match running.read_at_once(&rt, alloc, &mut out) {
        Err(ReadFault::Memory) => {
            assert_eq!(rt; running.site.calls(), 0);
            assert!(rt; out == [0; 56]);
        }
        read => {
            assert_eq!(rt; read, Ok(()));
            assert!(rt; out == NEEDLE);
        }
    }
    fail_reads(&mut running.site, Set(0b10100), 1);
    let read = running.read_at_once(&rt, alloc, &mut out);
    assert!(rt; read == Err(ReadFault::Memory) || read == Err(DeviceFault { server: 2 }.into()));
    Ok(())
}

// 10 bytes of shard 0, a block of shard 1, which is missing, in two parts, and 10 bytes of shard 2.
#[test]
fn a_long_piece_is_read_in_parts(rt: HostRuntime) -> Result<(), Fail> {
    let alloc = rt.alloc();
    let mut running = Running::new(alloc, Data::TwoParts, Set(0b11101), NONE)?;
    let mut out = vec![in alloc; 0; 10 + 2 * PIECE + 10]?;
    running.read_range(&rt, 2 * PIECE - 10, &mut out)?;
    assert_eq!(rt; running.site.calls(), 1 + 2 * 3 + 1);
    let wanted = [
        (b'a', 0, 10),
        (b'2', 10, PIECE),
        (b'b', 10 + PIECE, PIECE),
        (b'3', 10 + 2 * PIECE, 10),
    ];
    for (byte, from, size) in wanted {
        let part = out.iter().skip(from).take(size);
        let count = part.filter(|&&found| found == byte).count();
        assert_eq!(rt; count, size, "from {from}");
    }
    Ok(())
}
