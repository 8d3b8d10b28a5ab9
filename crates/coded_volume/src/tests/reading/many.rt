// The calls of gets from a volume of a thousand needles, with three data shards and no other.
ghost use Rattle.std.specs.Prelude.{◌≡◌, ◌<◌, ◌≤◌, IfOk};
ghost use Rattle.stripe_layout.specs.Stripes.{GeometryInRange};
ghost use Rattle.world_model.specs.declared.types.Ratio.TheVariants.{ThreeTwo};

use super::{INDEX, NAMES, Served, Set, table_of};
use crate::CodedVolume;
use crate::tests::VOLUME;
use site_mem::MemSite;
use std::alloc::{AllocError, Global};
use std::process::Abort;
use std::test::Fail;
use stripe_layout::{Geometry, Info};
use volume_forms::{Entry, write_entry};
use world_model::types::Ratio;

const NEEDLES: u64 = 1000;

// The bytes of a record, and those before the first.
const RECORD: u64 = 48;

const FRONT: [u8; 8] = [3, 0, 0, 0, 0, 0, 0, 0];

// A record is a cookie, its id, and this.
const COOKIE: [u8; 4] = [0, 0, 0, 0x2a];

const REST: [u8; 36] = [
    0, 0, 0, 0x0e, 0, 0, 0, 9, 0x31, 0x32, 0x33, 0x34, 0x35, 0x36, 0x37, 0x38, 0x39, 0, 0xe3, 6,
    0x92, 0x83, 0, 0, 0, 0, 0, 0, 0, 0, 0, 0, 0, 0, 0, 0,
];

// The bytes of a block. All rows are of small ones.
const BLOCK: u64 = 1024;

// The data file with zeros to the end of its last row: 16 rows of three blocks.
const LONG: usize = 49_152;

// The parity shards.
const MISSING: Set = Set(0b11000);

// The most entries that a search by halves looks at among a thousand.
const MOST_LOOKS: u64 = 10;

fn info() -> Info
    ensures dat_size { result.dat_size ≡ 48008 }
    ensures range { GeometryInRange result.geometry }
    ensures ratio { result.geometry.ratio ≡ ThreeTwo }
{
    Info {
        dat_size: 48_008,
        geometry: Geometry {
            ratio: Ratio::ThreeTwo,
            large: 16_384,
            small: 1024,
        },
    }
}

// The ids are odd.
fn id_of(turn: u64) -> u64
    requires { turn < 1000 }
    ensures { result < 2000 }
{
    2 * turn + 1
}

// Where a record begins in the data file.
fn place_of(turn: u64) -> u64
    requires { turn < 1000 }
    ensures { result < 48008 }
{
    FRONT.len() as u64 + RECORD * turn
}

// In how many blocks a record has bytes.
fn pieces_of(turn: u64) -> u64
    requires { turn < 1000 }
    ensures { result ≤ 2 }
{
    let first = place_of(turn);
    let last = first + RECORD - 1;
    1 + u64::from(first / BLOCK != last / BLOCK)
}

fn data_rows(alloc: Global) -> Result<Vec<u8>, AllocError> {
    let mut bytes = Vec::new(alloc);
    bytes.extend_from_slice(&FRONT)?;
    for turn in 0..NEEDLES {
        bytes.extend_from_slice(&COOKIE)?;
        bytes.extend_from_slice(&id_of(turn).to_be_bytes())?;
        bytes.extend_from_slice(&REST)?;
    }
    bytes.resize(LONG, 0)?;
    Ok(bytes)
}

// The blocks of a shard: every third of the rows, from its own on.
fn blocks(alloc: Global, rows: &[u8], shard: usize) -> Result<Vec<u8>, AllocError> {
    let mut bytes = Vec::new(alloc);
    for block in rows.chunks(BLOCK as usize).skip(shard).step_by(3) {
        bytes.extend_from_slice(block)?;
    }
    Ok(bytes)
}

fn entries(alloc: Global) -> Result<Vec<u8>, AllocError> {
    let mut bytes = Vec::new(alloc);
    for turn in 0..NEEDLES {
        let entry = Entry {
            id: id_of(turn),
            offset: (place_of(turn) / 8) as u32,
            size: 14,
        };
        bytes.extend_from_slice(&write_entry(&entry))?;
    }
    Ok(bytes)
}

fn site(alloc: Global) -> Result<MemSite, AllocError>
    ensures { IfOk result (λ site. site.servers ≡ 5) }
{
    let rows = data_rows(alloc)?;
    let mut site = MemSite::new(alloc, 5)?;
    site.add_file(0, INDEX, &entries(alloc)?)?;
    site.add_file(0, NAMES[0], &blocks(alloc, &rows, 0)?)?;
    site.add_file(1, NAMES[1], &blocks(alloc, &rows, 1)?)?;
    site.add_file(2, NAMES[2], &blocks(alloc, &rows, 2)?)?;
    Ok(site)
}

fn thousand(alloc: Global) -> Result<Served, Fail> {
    Ok(Served {
        site: site(alloc)?,
        table: table_of(alloc, MISSING)?,
        volume: CodedVolume::fresh(alloc, VOLUME, info()),
    })
}

// The id of the needle that a get finds, and how many calls it makes.
fn get(
    rt: &impl Abort,
    alloc: Global,
    served: &mut Served,
    id: u64,
) -> Result<(Option<u64>, u64), Fail> {
    let before = served.site.calls();
    let found = served.get(rt, alloc, id)?;
    let calls = served.site.calls().saturating_sub(before);
    Ok((found.map(|record| record.id), calls))
}

// A get asks for the index's size, looks at entries, and reads each piece. Each id between two others is absent.
#[test]
fn a_get_looks_at_few_of_a_thousand_entries(rt: HostRuntime) -> Result<(), Fail> {
    let alloc = rt.alloc();
    let mut served = thousand(alloc)?;
    let mut most = 0;
    for turn in 0..NEEDLES {
        let id = id_of(turn);
        let (found, calls) = get(&rt, alloc, &mut served, id)?;
        assert_eq!(rt; found, Some(id));
        let looks = calls.saturating_sub(1 + pieces_of(turn));
        let (absent, calls) = get(&rt, alloc, &mut served, id + 1)?;
        assert_eq!(rt; absent, None);
        most = most.max(looks).max(calls.saturating_sub(1));
    }
    assert_eq!(rt; most, MOST_LOOKS);
    Ok(())
}
