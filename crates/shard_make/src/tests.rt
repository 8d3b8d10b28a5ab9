//! Shards of whole data files, made at three servers in memory. The data file stands at the second.
ghost use Rattle.std.specs.Prelude.{◌≡◌, ◌*◌, ◌%◌, ◌<◌, ◌≤◌, IsTrue, IfOk, length};
ghost use Rattle.world_model.specs.Sizes.{max_dat};
ghost use Rattle.stripe_layout.specs.Stripes.{GeometryInRange};
ghost use Rattle.site_mem.specs.Site.{disk_at};
ghost use Rattle.shard_make.specs.Made.{dat_in};

use crate::making::row_place;
use crate::{ShardNames, make_piece};
use site_mem::MemSite;
use site_model::{DeviceFault, PIECE};
use std::alloc::{AllocError, Global};
use std::process::Abort;
use std::test::Fail;
use stripe_layout::Geometry;
use world_model::types::Ratio;

const VOLUME: u32 = 7;

const SERVERS: u32 = 3;

const HOME: u32 = 1;

// The temporary names of the shards, and their servers.
const FILES: [(u32, &str); 14] = [
    (0, "7.ec00.tmp"),
    (1, "7.ec01.tmp"),
    (2, "7.ec02.tmp"),
    (0, "7.ec03.tmp"),
    (1, "7.ec04.tmp"),
    (2, "7.ec05.tmp"),
    (0, "7.ec06.tmp"),
    (1, "7.ec07.tmp"),
    (2, "7.ec08.tmp"),
    (0, "7.ec09.tmp"),
    (1, "7.ec10.tmp"),
    (2, "7.ec11.tmp"),
    (0, "7.ec12.tmp"),
    (1, "7.ec13.tmp"),
];

// A super block, and one needle with the data "123456789".
const NEEDLE: [u8; 56] = [
    3, 0, 0, 0, 0, 0, 0, 0, 0, 0, 0, 0x2a, 0, 0, 0, 0, 0, 0, 0, 1, 0, 0, 0, 0x0e, 0, 0, 0, 9, 0x31,
    0x32, 0x33, 0x34, 0x35, 0x36, 0x37, 0x38, 0x39, 0, 0xe3, 6, 0x92, 0x83, 0, 0, 0, 0, 0, 0, 0, 0,
    0, 0, 0, 0, 0, 0,
];

// Its shards of 3 and 2, in a row of blocks of 16 bytes and one of 8, as another program computes them.
const SHARDS: [[u8; 24]; 5] = [
    [
        3, 0, 0, 0, 0, 0, 0, 0, 0, 0, 0, 0x2a, 0, 0, 0, 0, 0, 0, 0, 0, 0, 0, 0, 0,
    ],
    [
        0, 0, 0, 1, 0, 0, 0, 0x0e, 0, 0, 0, 9, 0x31, 0x32, 0x33, 0x34, 0, 0, 0, 0, 0, 0, 0, 0,
    ],
    [
        0x35, 0x36, 0x37, 0x38, 0x39, 0, 0xe3, 6, 0x92, 0x83, 0, 0, 0, 0, 0, 0, 0, 0, 0, 0, 0, 0,
        0, 0,
    ],
    [
        0x36, 0x36, 0x37, 0x39, 0x39, 0, 0xe3, 8, 0x92, 0x83, 0, 0x23, 0x31, 0x32, 0x33, 0x34, 0,
        0, 0, 0, 0, 0, 0, 0,
    ],
    [
        0xaf, 0xb4, 0xb2, 0x98, 0x96, 0, 0x70, 0x64, 0x4b, 0x2d, 0, 0xd3, 0x95, 0x8d, 0x85, 0xbd,
        0, 0, 0, 0, 0, 0, 0, 0,
    ],
];

// The byte of each shard of a longer file in the first piece of its first row, and in all that follows.
const FIRST: [u8; 5] = *b"1230%";

const REST: [u8; 5] = *b"abc`u";

fn geometry(ratio: Ratio, large: u32) -> Geometry
    requires some { 16 ≤ large }
    requires few { large ≤ 131072 }
    requires divides { large % 8 ≡ 0 }
    ensures ratio { result.ratio ≡ ratio }
    ensures range { GeometryInRange result }
{
    Geometry {
        ratio,
        large,
        small: 8,
    }
}

// An encode that goes on piece by piece.
#[derive(Drop)]
struct Encoding {
    site: MemSite,
    names: ShardNames,
    geometry: Geometry,
    dat_size: u64,
    buffer: Vec<u8>,
    ghost servers: { names.servers ≡ site.servers },
    ghost ratio: { geometry.ratio ≡ names.ratio },
    ghost range: { GeometryInRange geometry },
    ghost size: { dat_size ≤ max_dat },
    ghost room: { length buffer.items ≡ 16 * 65536 },
}

fn room(alloc: Global) -> Result<Vec<u8>, AllocError>
    ensures { IfOk result (λ v. length v.items ≡ 16 * 65536) }
{
    vec![in alloc; 0xff; 16 * PIECE]
}

impl Encoding {
    fn new(alloc: Global, geometry: Geometry, dat: &[u8]) -> Result<Encoding, AllocError>
        requires range { GeometryInRange geometry }
        requires size { length dat.now ≤ max_dat }
    {
        let mut site = MemSite::new(alloc, SERVERS)?;
        site.add_file(HOME, "7.dat", dat)?;
        Ok(Encoding {
            site,
            names: ShardNames::new(alloc, VOLUME, geometry.ratio, HOME, SERVERS)?,
            geometry,
            dat_size: dat.len() as u64,
            buffer: room(alloc)?,
        })
    }

    // Whether the data file stands with its length.
    fn has_dat(&self) -> bool
        ensures { IsTrue result
            → length (dat_in self.now.names (disk_at self.now.site).files) ≡ self.now.dat_size }
    {
        match self.site.file(self.names.home, self.names.dat.as_str()) {
            Some(bytes) => bytes.len() as u64 == self.dat_size,
            None => false,
        }
    }

    fn make(&mut self, rt: &impl Abort, row: u64, at: u64) -> Result<(), DeviceFault> {
        let (large_rows, small_rows) = self.geometry.rows(self.dat_size);
        assert!(rt; row < large_rows || row - large_rows < small_rows);
        let (_, block) = row_place(&self.geometry, self.dat_size, row);
        assert!(rt; at < block);
        assert!(rt; self.has_dat());
        make_piece(
            &mut self.site,
            &self.names,
            self.geometry,
            self.dat_size,
            row,
            at,
            self.buffer.as_mut_slice(),
        )
    }

    // Whether the temporary file of a shard is exactly these bytes.
    fn has_shard(&self, shard: usize, bytes: &[u8]) -> bool
        requires { shard < 14 }
    {
        let (server, name) = FILES[shard];
        self.site.file(server, name) == Some(bytes)
    }

    fn has_no_shard(&self, shard: usize) -> bool
        requires { shard < 14 }
    {
        let (server, name) = FILES[shard];
        self.site.file(server, name).is_none()
    }
}

#[test]
fn the_rows_of_a_file_make_its_shards(rt: HostRuntime) -> Result<(), Fail> {
    let mut encoding = Encoding::new(rt.alloc(), geometry(Ratio::ThreeTwo, 16), &NEEDLE)?;
    encoding.make(&rt, 0, 0)?;
    assert_eq!(rt; encoding.site.calls(), 3 + 5);
    for shard in 0..5usize {
        assert!(rt;
            encoding.has_shard(shard, &SHARDS[shard][..16]),
            "shard {shard}"
        );
    }
    encoding.make(&rt, 1, 0)?;
    assert_eq!(rt; encoding.site.calls(), 8 + 1 + 5);
    for shard in 0..5usize {
        assert!(rt; encoding.has_shard(shard, &SHARDS[shard]), "shard {shard}");
    }
    Ok(())
}

#[test]
fn a_row_ends_in_zeros_past_the_file(rt: HostRuntime) -> Result<(), Fail> {
    let mut encoding = Encoding::new(rt.alloc(), geometry(Ratio::TenFour, 16), &NEEDLE)?;
    encoding.make(&rt, 0, 0)?;
    assert_eq!(rt; encoding.site.calls(), 7 + 14);
    assert!(rt; encoding.has_shard(0, &[3, 0, 0, 0, 0, 0, 0, 0]));
    assert!(rt; encoding.has_shard(3, &[0, 0, 0, 9, 0x31, 0x32, 0x33, 0x34]));
    assert!(rt; encoding.has_shard(4, &[0x35, 0x36, 0x37, 0x38, 0x39, 0, 0xe3, 6]));
    for shard in 7..10usize {
        assert!(rt; encoding.has_shard(shard, &[0; 8]), "shard {shard}");
    }
    Ok(())
}

// A file with a row of blocks of two pieces, and one of blocks of 8 bytes.
fn two_pieces(alloc: Global) -> Result<Vec<u8>, AllocError> {
    let mut dat = Vec::new(alloc);
    for shard in 0..3usize {
        let first = vec![in alloc; FIRST[shard]; PIECE]?;
        let rest = vec![in alloc; REST[shard]; PIECE]?;
        dat.extend_from_slice(&first)?;
        dat.extend_from_slice(&rest)?;
    }
    for shard in 0..3usize {
        dat.extend_from_slice(&[REST[shard]; 8])?;
    }
    Ok(dat)
}

#[test]
fn a_long_block_is_made_piece_by_piece(rt: HostRuntime) -> Result<(), Fail> {
    let alloc = rt.alloc();
    let dat = two_pieces(alloc)?;
    assert_eq!(rt; dat.len(), 393_240);
    let mut encoding = Encoding::new(alloc, geometry(Ratio::ThreeTwo, 131_072), &dat)?;
    for (row, at) in [(0u32, 0u32), (0, 65_536), (1, 0)] {
        encoding.make(&rt, u64::from(row), u64::from(at))?;
    }
    assert_eq!(rt; encoding.site.calls(), 3 * (3 + 5));
    for shard in 0..5usize {
        let mut bytes = vec![in alloc; FIRST[shard]; PIECE]?;
        let rest = vec![in alloc; REST[shard]; PIECE + 8]?;
        bytes.extend_from_slice(&rest)?;
        assert!(rt; encoding.has_shard(shard, &bytes), "shard {shard}");
    }
    Ok(())
}

#[test]
fn a_failed_read_is_told_of_the_home(rt: HostRuntime) -> Result<(), Fail> {
    for call in 1..=3u32 {
        let mut encoding = Encoding::new(rt.alloc(), geometry(Ratio::ThreeTwo, 16), &NEEDLE)?;
        encoding.site.fail_call(u64::from(call))?;
        let made = encoding.make(&rt, 0, 0);
        assert_eq!(rt; made, Err(DeviceFault { server: HOME }), "call {call}");
        assert_eq!(rt; encoding.site.calls(), u64::from(call));
        for shard in 0..5usize {
            assert!(rt; encoding.has_no_shard(shard), "shard {shard}");
        }
    }
    Ok(())
}

#[test]
fn a_failed_append_is_told_of_its_target(rt: HostRuntime) -> Result<(), Fail> {
    for failing in 0..5usize {
        let mut encoding = Encoding::new(rt.alloc(), geometry(Ratio::ThreeTwo, 16), &NEEDLE)?;
        encoding.site.fail_call(4 + failing as u64)?;
        let made = encoding.make(&rt, 0, 0);
        let (server, _) = FILES[failing];
        assert_eq!(rt; made, Err(DeviceFault { server }), "shard {failing}");
        assert_eq!(rt; encoding.site.calls(), 4 + failing as u64);
        for shard in 0..failing {
            assert!(rt;
                encoding.has_shard(shard, &SHARDS[shard][..16]),
                "shard {shard}"
            );
        }
    }
    Ok(())
}
