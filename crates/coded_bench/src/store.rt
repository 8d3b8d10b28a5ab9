//! A coded volume in the servers' folders.
ghost use Rattle.std.specs.Prelude.{◌≡◌, ◌<◌, ◌≤◌, ◌+◌, IsTrue, IfOk, length};
ghost use Rattle.site_model.specs.Counts.{widest_piece};
ghost use Rattle.shard_table.specs.Table.{row_of};
ghost use Rattle.degraded_read.specs.Reading.{HasEnoughShards};
ghost use Rattle.degraded_read.specs.Readers.{IsReader};

use crate::stop::stopped;
use crate::table::{has_some, table_of};
use coded_volume::CodedVolume;
use degraded_read::{Reader, count_standing};
use file_names::{Kind, MAX_SHARDS, final_name};
use needle_record::Record;
use shard_table::ShardTable;
use site_dir::DirSite;
use site_model::Site;
use std::io;
use volume_forms::ENTRY_LENGTH;

// The bytes of a range: four whole blocks of a volume with blocks of 1 MiB.
const RANGE: usize = 1 << 22;

// A linear congruential sequence modulo 2^64, of which the upper bits choose an id.
const FACTOR: u64 = 6_364_136_223_846_793_005;

const STEP: u64 = 1_442_695_040_888_963_407;

const SHIFT: u32 = 33;

/// How many needles were found, and the bytes of their data.
#[derive(Clone, Copy)]
pub struct Got {
    pub found: u64,
    pub bytes: u64,
}

impl Got {
    fn add(&mut self, found: &Option<Record>) {
        let Some(record) = found else {
            return;
        };
        self.found = self.found.saturating_add(1);
        if let Some(content) = &record.content {
            self.bytes = self
                .bytes
                .saturating_add(content.bytes.as_slice().len() as u64);
        }
    }
}

/// A volume that is open, with enough shards, and a reader of its ranges.
#[derive(Drop)]
pub struct Store<'a> {
    rt: &'a HostRuntime,
    site: DirSite<&'a HostRuntime>,
    table: ShardTable,
    number: u32,
    volume: CodedVolume,
    reader: Reader,
    ghost servers: { table.servers ≡ site.servers },
    ghost same: { volume.volume ≡ number },
    ghost enough: { HasEnoughShards volume.info (row_of table number) },
    ghost reads: { IsReader number widest_piece reader },
}

impl<'a> Store<'a> {
    /// Opens the volume in the folders of the current folder.
    pub fn open(rt: &'a HostRuntime, number: u32) -> io::Result<Store<'a>> {
        let alloc = rt.alloc();
        let Ok(mut site) = DirSite::open(rt, alloc) else {
            return Err(stopped("no site"));
        };
        let table = table_of(rt, &mut site, number)?;
        if !has_some(table.row(number)) {
            return Err(stopped("no shard of the volume"));
        }
        let Ok(volume) = CodedVolume::open(alloc, &mut site, &table, number) else {
            return Err(stopped("the volume doesn't open"));
        };
        let ratio = volume.info().geometry.ratio;
        let standing = count_standing(table.row(number), ratio.shard_count());
        if standing < usize::from(ratio.data_count()) {
            return Err(stopped("too few shards"));
        }
        let reader = Reader::new(alloc, number)?;
        Ok(Store {
            rt,
            site,
            table,
            number,
            volume,
            reader,
        })
    }

    /// Gets so many needles, of ids that are 1 to the number of entries.
    pub fn get_some(&mut self, count: u64) -> io::Result<Got> {
        let entries = self.entries()?;
        let mut got = Got { found: 0, bytes: 0 };
        let mut state = 0u64;
        for _ in 0..count {
            state = state.wrapping_mul(FACTOR).wrapping_add(STEP);
            let id = (state >> SHIFT).checked_rem(entries).unwrap_or(0);
            self.get(id + 1, &mut got)?;
        }
        Ok(got)
    }

    fn get(&mut self, id: u64, got: &mut Got) -> io::Result<()> {
        let alloc = self.rt.alloc();
        match self.volume.get(alloc, &mut self.site, &self.table, id) {
            Ok(found) => {
                got.add(&found);
                Ok(())
            }
            Err(_) => Err(stopped("a get failed")),
        }
    }

    // How many entries the index has, at the server of the lowest shard.
    fn entries(&mut self) -> io::Result<u64> {
        let name = final_name(self.rt.alloc(), self.number, Kind::Ecx)?;
        for shard in 0..MAX_SHARDS {
            if let Some(server) = self.table.place(self.number, shard) {
                return match self.site.size(server, name.as_str()) {
                    Ok(Some(size)) => Ok(size / ENTRY_LENGTH as u64),
                    _ => Err(stopped("no index")),
                };
            }
        }
        Err(stopped("no index"))
    }

    /// Reads the whole data file so many times, and answers how many bytes that were.
    pub fn read_all(&mut self, count: u64) -> io::Result<u64> {
        let mut room = vec![in self.rt.alloc(); 0; RANGE]?;
        let mut bytes = 0u64;
        for _ in 0..count {
            bytes = bytes.saturating_add(self.read_once(room.as_mut_slice())?);
        }
        Ok(bytes)
    }

    // Reads the data file once, in ranges that fill the room.
    fn read_once(&mut self, room: &mut [u8]) -> io::Result<u64> {
        let size = self.volume.info().dat_size;
        let mut bytes = 0u64;
        for at in (0..size).step_by(RANGE) {
            bytes = bytes.saturating_add(self.read_from(at, room)?);
        }
        Ok(bytes)
    }

    // Reads what fills the room, or else the rest of the data file, and answers how many bytes.
    fn read_from(&mut self, at: u64, room: &mut [u8]) -> io::Result<u64> {
        let info = *self.volume.info();
        if at >= info.dat_size {
            return Ok(0);
        }
        let count = (info.dat_size - at).min(room.len() as u64) as usize;
        let out = &mut room[..count];
        match self
            .reader
            .read_range(&mut self.site, &self.table, &info, at, out)
        {
            Ok(()) => Ok(count as u64),
            Err(_) => Err(stopped("a range isn't read")),
        }
    }
}
