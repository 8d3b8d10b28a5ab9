//! What the tests share: files as they are printed, a volume at the one server of a site in memory, and runs of the top call.
ghost use Rattle.std.specs.Prelude.{◌≡◌, ◌<◌, ◌≤◌, ◌^◌, IsTrue, IsSome, IfOk, IfSome, length};
ghost use Rattle.world_model.specs.Sizes.{FitsRecord};
ghost use Rattle.site_mem.specs.Site.{disk_at};
ghost use Rattle.dat_volume.specs.Places.{idx_place};

use dat_volume::{DatVolume, GetFault};
use file_names::{FileName, Kind, spell};
use needle_record::{Record, record_size, write_record};
use site_mem::{FixedClock, MemSite, MemSource};
use site_model::OpenFault;
use std::alloc::{AllocError, Global};
use std::process::Abort;
use std::test::Fail;
use volume_forms::{Entry, SuperBlock, write_entry, write_super};
use weed_shell::{Status, weed};
use wire_num::record_length;
use world_model::bytes::Bytes;
use world_model::types::Content;

pub const SERVER: u32 = 0;

pub const VOLUME: u32 = 7;

pub const DAT: &str = "7.dat";

pub const IDX: &str = "7.idx";

/// A volume with the data "123456789" under id 1 and cookie 2a.
pub const ONE_DAT: &str =
    "03000000000000000000002a00000000000000010000000e00000009313233343536373839\
     00e30692830000000000000000000000000000";

pub const ONE_IDX: &str = "0000000000000001000000010000000e";

/// The same, and the deletion of id 1.
pub const DELETED_IDX: &str = "0000000000000001000000010000000e000000000000000100000007ffffffff";

/// The lines that make that volume.
pub const FIRST: &str =
    "volume.create -volumeId=7 -server=0\nput 7 1 0000002a 313233343536373839\n";

// The super block of a new volume.
const NEW_BLOCK: SuperBlock = SuperBlock {
    version: 3,
    placement: 0,
    ttl: 0,
    revision: 0,
};

// The greatest length of a data file.
const MAX_DAT: u64 = 1 << 35;

#[derive(Drop)]
pub struct Running {
    pub site: MemSite,
    pub volume: DatVolume,
    ghost home: { volume.server ≡ 0 },
    ghost servers: { site.servers ≡ 1 },
}

impl Running {
    /// Makes the volume on a site without files.
    pub fn create(alloc: Global) -> Result<Running, Fail> {
        let mut site = MemSite::new(alloc, 1)?;
        let volume = DatVolume::create(alloc, &mut site, SERVER, VOLUME)?;
        Ok(Running { site, volume })
    }

    /// Opens the volume of a site at which its index stands.
    pub fn open(rt: &impl Abort, alloc: Global, site: MemSite) -> Result<Running, Fail>
        requires { site.servers ≡ 1 }
    {
        let mut site = site;
        let opened = open(rt, alloc, &mut site)?;
        let volume = opened?;
        Ok(Running { site, volume })
    }

    pub fn put(&mut self, rt: &impl Abort, alloc: Global, needle: &Record) -> Result<(), Fail>
        requires { IfSome needle.now.content FitsRecord }
    {
        let end = self
            .volume
            .used()
            .saturating_add(record_length(record_size(needle)));
        assert!(rt; end <= MAX_DAT);
        self.volume.put(alloc, &mut self.site, needle)?;
        Ok(())
    }

    /// The cookie and the data of the needle.
    pub fn needle(&mut self, alloc: Global, id: u64) -> Result<Option<(u32, Vec<u8>)>, Fail> {
        let Some(record) = self.volume.get(alloc, &mut self.site, id)? else {
            return Ok(None);
        };
        let content = record.content.ok_or("a content")?;
        let data = Vec::from_slice(alloc, content.bytes.as_slice())?;
        Ok(Some((record.cookie, data)))
    }

    pub fn get_fault(&mut self, alloc: Global, id: u64) -> Option<GetFault> {
        self.volume.get(alloc, &mut self.site, id).err()
    }

    pub fn cookie(&mut self, alloc: Global, id: u64) -> Result<Option<u32>, Fail> {
        let cookie = self.volume.cookie(alloc, &mut self.site, id)?;
        Ok(cookie)
    }
}

/// Opens the volume, whose index stands.
pub fn open(
    rt: &impl Abort,
    alloc: Global,
    site: &mut MemSite,
) -> Result<Result<DatVolume, OpenFault>, Fail>
    requires { site.old.servers ≡ 1 }
    ensures servers { site.new.servers ≡ 1 }
    ensures home { IfOk result (λ opened. IfOk opened (λ volume. volume.server ≡ 0)) }
{
    let stands = has_index(alloc, site)?;
    assert!(rt; stands);
    Ok(DatVolume::open(alloc, site, SERVER, VOLUME))
}

/// Whether the volume's index stands.
pub fn has_index(alloc: Global, site: &MemSite) -> Result<bool, AllocError>
    ensures { IfOk result (λ stands. IsTrue stands → IsSome ((disk_at site.now).files (idx_place 0 7))) }
{
    let name = spell(
        alloc,
        &FileName {
            volume: VOLUME,
            kind: Kind::Idx,
            temp: false,
        },
    )?;
    Ok(site.file(SERVER, &name).is_some())
}

/// A needle with these bytes and no other parts.
pub fn needle(alloc: Global, id: u64, cookie: u32, bytes: &[u8]) -> Result<Record, AllocError>
    requires some { 0 < length bytes.now }
    requires most { length bytes.now ≤ 2 ^ 21 }
    ensures { IfOk result (λ made. IfSome made.content FitsRecord) }
{
    let content = Content {
        bytes: Bytes::new(Vec::from_slice(alloc, bytes)?),
        flags: 0,
        name: None,
        mime: None,
        modified: None,
        ttl: None,
        pairs: None,
    };
    Ok(Record {
        cookie,
        id,
        content: Some(content),
        appended: 0,
    })
}

/// The deletion of a needle.
pub fn deletion(id: u64, cookie: u32) -> Record
    ensures { IfSome result.content FitsRecord }
{
    Record {
        cookie,
        id,
        content: None,
        appended: 0,
    }
}

/// A data file with the deletion of this id.
pub fn data_with(alloc: Global, id: u64) -> Result<Vec<u8>, AllocError> {
    let mut bytes = Vec::new(alloc);
    bytes.extend_from_slice(&write_super(&NEW_BLOCK))?;
    let deletion = Record {
        cookie: 0,
        id,
        content: None,
        appended: 0,
    };
    write_record(&deletion, &mut bytes)?;
    Ok(bytes)
}

/// Its index.
pub fn index_with(id: u64) -> [u8; 16] {
    write_entry(&Entry {
        id,
        offset: 1,
        size: -1,
    })
}

/// Whether the file stands, with these bytes.
pub fn holds(site: &MemSite, server: u32, name: &str, bytes: &[u8]) -> bool {
    match site.file(server, name) {
        Some(found) => found == bytes,
        None => false,
    }
}

/// The words of a text, between spaces.
pub fn words_in(alloc: Global, text: &str) -> Result<Vec<String>, AllocError> {
    let mut words = Vec::new(alloc);
    for word in text.split(' ') {
        if !word.is_empty() {
            words.push(String::from_str(alloc, word)?)?;
        }
    }
    Ok(words)
}

/// How the run of a source ends.
pub fn run_source(
    alloc: Global,
    words: &str,
    site: &mut MemSite,
    source: &mut MemSource,
) -> Result<Status, Fail> {
    let words = words_in(alloc, words)?;
    let mut clock = FixedClock { now: 0 };
    Ok(weed(alloc, &words, source, site, &mut clock))
}

/// How the run of a script ends, and what it says.
pub fn run(
    alloc: Global,
    words: &str,
    site: &mut MemSite,
    script: &str,
) -> Result<(Status, Vec<u8>), Fail> {
    let before = site.said().len();
    let mut source = MemSource::new(alloc, script.as_bytes())?;
    let status = run_source(alloc, words, site, &mut source)?;
    let said = site.said().get(before..).unwrap_or(&[]);
    Ok((status, Vec::from_slice(alloc, said)?))
}

/// The script is answered so, after `ready`.
pub fn see_answers(
    rt: &impl Abort,
    alloc: Global,
    words: &str,
    site: &mut MemSite,
    script: &str,
    answers: &str,
) -> Result<(), Fail> {
    let (status, said) = run(alloc, words, site, script)?;
    assert_eq!(rt; str::from_utf8(&said)?, answers);
    assert_eq!(rt; status, Status::Done);
    Ok(())
}

/// The file has these bytes, given in hexadecimal.
pub fn see_file(
    rt: &impl Abort,
    alloc: Global,
    site: &MemSite,
    name: &str,
    bytes: &str,
) -> Result<(), Fail> {
    let wanted = hex::decode(alloc, bytes)?;
    assert_eq!(rt; site.file(0, name), Some(wanted.as_slice()));
    Ok(())
}
