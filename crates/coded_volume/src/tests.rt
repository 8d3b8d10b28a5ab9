//! Deletions on a volume of 3 and 2 shards, at the first four of five servers in memory.
ghost use Rattle.std.specs.Prelude.{◌≡◌, ◌<◌, ◌≤◌};
ghost use Rattle.site_mem.specs.Site.{counts_at};
ghost use Rattle.stripe_layout.specs.Stripes.{GeometryInRange};
ghost use Rattle.world_model.specs.declared.types.Ratio.TheVariants.{ThreeTwo};

mod opening;
mod reading;

use crate::CodedVolume;
use dat_volume::VolumeFault;
use ecj_journal::read_pairs;
use shard_table::ShardTable;
use site_mem::{MemSite, Tear};
use site_model::DeviceFault;
use std::alloc::Global;
use std::process::Abort;
use std::test::Fail;
use stripe_layout::{Geometry, Info};
use world_model::types::Ratio;

const VOLUME: u32 = 7;

const JOURNAL: &str = "7.ecj";

// The servers with shards are those below it.
const HOLDERS: u32 = 4;

// The ids that are deleted, one after the other.
const IDS: [u64; 2] = [5, 0x0102_0304_0506_0708];

// The journal of both.
const BYTES: [u8; 32] = [
    0, 0, 0, 0, 0, 0, 0, 5, 0, 0, 0, 0, 0, 0, 0, 5, 1, 2, 3, 4, 5, 6, 7, 8, 1, 2, 3, 4, 5, 6, 7, 8,
];

// The calls at one holder: an append and a sync for each half.
const CALLS_AT_HOLDER: u64 = 4;

// The calls of a deletion.
const CALLS: u64 = 16;

// The most bytes that a volume may use.
const MOST_USED: u64 = 1 << 35;

fn info() -> Info
    ensures dat_size { result.dat_size ≡ 56 }
    ensures range { GeometryInRange result.geometry }
    ensures ratio { result.geometry.ratio ≡ ThreeTwo }
{
    Info {
        dat_size: 56,
        geometry: Geometry {
            ratio: Ratio::ThreeTwo,
            large: 16,
            small: 8,
        },
    }
}

#[derive(Drop)]
struct Running {
    site: MemSite,
    table: ShardTable,
    volume: CodedVolume,
    ghost servers: { site.servers ≡ 5 },
    ghost same: { table.servers ≡ 5 },
}

impl Running {
    fn new(alloc: Global) -> Result<Running, Fail> {
        let site = MemSite::new(alloc, 5)?;
        let mut table = ShardTable::new(alloc, 5);
        table.add_volume(VOLUME)?;
        table.set(VOLUME, 0, Some(0));
        table.set(VOLUME, 1, Some(1));
        table.set(VOLUME, 2, Some(2));
        table.set(VOLUME, 3, Some(3));
        table.set(VOLUME, 4, Some(0));
        let volume = CodedVolume::fresh(alloc, VOLUME, info());
        Ok(Running {
            site,
            table,
            volume,
        })
    }

    fn delete(&mut self, rt: &impl Abort, alloc: Global, id: u64) -> Result<(), VolumeFault> {
        assert!(rt; self.volume.used() <= MOST_USED - 32);
        self.volume.delete(alloc, &mut self.site, &self.table, id)
    }

    // With both ids deleted.
    fn with_both(rt: &impl Abort, alloc: Global) -> Result<Running, Fail> {
        let mut running = Running::new(alloc)?;
        running.delete(rt, alloc, IDS[0])?;
        running.delete(rt, alloc, IDS[1])?;
        Ok(running)
    }

    // Whether the journal at a server has these bytes.
    fn has_bytes(&self, server: u32, bytes: Option<&[u8]>) -> bool {
        match (self.site.file(server, JOURNAL), bytes) {
            (Some(found), Some(bytes)) => found == bytes,
            (None, None) => true,
            _ => false,
        }
    }
}

#[test]
fn an_id_comes_to_every_holder(rt: HostRuntime) -> Result<(), Fail> {
    let running = Running::with_both(&rt, rt.alloc())?;
    for server in 0..HOLDERS {
        assert!(rt;
            running.has_bytes(server, Some(&BYTES)),
            "at server {server}"
        );
    }
    assert!(rt; running.has_bytes(HOLDERS, None));
    assert_eq!(rt; running.site.calls(), 2 * CALLS);
    assert_eq!(rt; running.volume.deleted(), IDS.as_slice());
    assert_eq!(rt; running.volume.used(), 56 + 2 * 32);
    assert_eq!(rt; *running.volume.info(), info());
    Ok(())
}

// How many ids the holder may have, at least and at most, where the call is under way.
fn stages(call: u64, holder: u32) -> (usize, usize)
    requires { 0 < call }
{
    let deletions = (call - 1) / CALLS;
    let at = (call - 1) % CALLS / CALLS_AT_HOLDER;
    let least = deletions as usize;
    let holder = u64::from(holder);
    if holder < at {
        (least + 1, least + 1)
    } else if holder == at {
        (least, least + 1)
    } else {
        (least, least)
    }
}

// Each holder's journal is at its stage in what a stop leaves.
fn see_stages(
    rt: &impl Abort,
    alloc: Global,
    run: &Running,
    call: u64,
    tear: Tear,
) -> Result<(), Fail>
    requires some { 0 < call }
    requires made { call ≤ (counts_at run.now.site).calls }
    requires servers { run.now.site.servers ≡ 5 }
{
    for server in 0..HOLDERS {
        let mut left = run.site.left(alloc, call, tear)?;
        let journal = read_pairs(alloc, &mut left, server, VOLUME)?;
        let (least, most) = stages(call, server);
        let count = journal.ids.len();
        assert!(rt;
            least <= count && count <= most,
            "call {call}, {tear:?}, server {server}"
        );
        assert!(rt; count <= IDS.len());
        assert_eq!(rt; journal.ids.as_slice(), &IDS[..count]);
        assert!(rt; journal.rest <= 16);
    }
    Ok(())
}

#[test]
fn a_stop_leaves_each_holder_with_the_id_or_without(rt: HostRuntime) -> Result<(), Fail> {
    let alloc = rt.alloc();
    let run = Running::with_both(&rt, alloc)?;
    for call in 1..=run.site.calls() {
        for tear in [Tear::None, Tear::All, Tear::Half, Tear::Fill(0xff)] {
            see_stages(&rt, alloc, &run, call, tear)?;
        }
    }
    Ok(())
}

#[test]
fn a_failing_holder_is_told_and_the_volume_stays(rt: HostRuntime) -> Result<(), Fail> {
    let alloc = rt.alloc();
    for call in 1..=CALLS {
        let mut running = Running::new(alloc)?;
        running.site.fail_call(call)?;
        let server = ((call - 1) / CALLS_AT_HOLDER) as u32;
        let deleted = running.delete(&rt, alloc, IDS[0]);
        assert_eq!(rt; deleted, Err(VolumeFault::Fault(DeviceFault { server })));
        assert_eq!(rt; running.volume.deleted().len(), 0);
        assert_eq!(rt; running.site.calls(), call);
    }
    Ok(())
}
