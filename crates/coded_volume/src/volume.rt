//! A coded volume in memory.
ghost use Rattle.std.specs.Prelude.{◌≡◌, ◌+◌, ◌*◌, ◌^◌, ◌<◌, ◌≤◌, ◌∷◌, ◌++◌, [], OnErr, OnOk, length};
ghost use Rattle.world_model.specs.Sizes.{deletion_length, max_dat};
ghost use Rattle.wire_num.specs.Laws.Pair.{AreIds};
ghost use Rattle.image_meaning.specs.Meaning.{max_volumes};
ghost use Rattle.stripe_layout.specs.Stripes.{GeometryInRange};

use crate::deleting::append_everywhere;
use dat_volume::VolumeFault;
use file_names::{Kind, final_name};
use shard_table::ShardTable;
use site_model::Site;
use std::alloc::{AllocError, Global};
use stripe_layout::Info;
use world_model::limits::DELETION_LENGTH;

/// A coded volume: what its text says, and the ids that are deleted, in the order of the journals.
#[derive(Debug, Drop)]
pub struct CodedVolume {
    pub(crate) volume: u32,
    pub(crate) info: Info,
    pub(crate) deleted: Vec<u64>,
    ghost room: { info.dat_size + deletion_length * length deleted.items ≤ max_dat },
    ghost range: { GeometryInRange info.geometry },
}

impl CodedVolume {
    ghost use Rattle.std.specs.Prelude.{◌≡◌, ◌+◌, ◌*◌, ◌^◌, ◌<◌, ◌≤◌, ◌∷◌, ◌++◌, [], ℕ, IsTrue, IsErrOf, MatchResult, OnOk, length};
    ghost use Rattle.shard_table.specs.Table.{row_of};
    ghost use Rattle.stripe_layout.specs.Stripes.{GeometryInRange};
    ghost use Rattle.coded_volume.specs.Deletes.{CanStart, Deletes, IsDeleted, KeepsVolume, WritesAnywhere};

    /// A volume of which no id is deleted. It takes no memory.
    pub fn fresh(alloc: Global, volume: u32, info: Info) -> CodedVolume
        requires dat_size { info.dat_size ≤ max_dat }
        requires range { GeometryInRange info.geometry }
        ensures volume { result.volume ≡ volume }
        ensures info { result.info ≡ info }
        ensures none { result.deleted.items ≡ [] }
    {
        CodedVolume {
            volume,
            info,
            deleted: Vec::new(alloc),
        }
    }

    /// The bytes that the volume uses: those of its data file, and 32 for each deletion.
    pub fn used(&self) -> u64
        ensures { result ≡ self.now.info.dat_size + deletion_length * length self.now.deleted.items }
    {
        self.info.dat_size + DELETION_LENGTH * self.deleted.len() as u64
    }

    /// What the volume's text says.
    pub fn info(&self) -> &Info
        ensures { result.now ≡ self.now.info }
    {
        &self.info
    }

    /// The deleted ids, in the order of the journals.
    pub fn deleted(&self) -> &[u64]
        ensures { result.now ≡ self.now.deleted.items }
    {
        &self.deleted
    }

    /// Deletes a needle: its id goes behind the journals of all holders, one after the other. Where the volume
    /// is sound and nothing of it pending, a stop leaves it sound, and without the needle or with it, whichever
    /// servers are lost then. After `Ok` the needle is gone, whichever servers are lost. On want of memory
    /// nothing was called. After a fault of a server, in a call that writes, the value is as it was.
    pub fn delete<T: Site>(
        &mut self,
        alloc: Global,
        site: &mut T,
        table: &ShardTable,
        id: u64,
    ) -> Result<(), VolumeFault>
        requires servers { table.now.servers ≡ T.servers site.old }
        requires room { self.old.info.dat_size + deletion_length * (length self.old.deleted.items + 1)
            ≤ max_dat }
        ensures effect { IsTrue T.tells
            → Deletes self.old.volume (T.servers site.old) (row_of table.now self.old.volume)
            self.old.deleted.items id (T.disk site.old) (T.disk site.new) }
        ensures done { OnOk result (IsTrue T.tells
            → CanStart self.old.volume (T.servers site.old) (row_of table.now self.old.volume)
            self.old.deleted.items id (T.disk site.old).files
            → IsDeleted self.old.volume (T.servers site.old) (row_of table.now self.old.volume)
            self.old.deleted.items id (T.disk site.old).files (T.disk site.new).files) }
        ensures state { MatchResult result
            (λ _. KeepsVolume self.old self.new (self.old.deleted.items ++ id ∷ []))
            (λ _. KeepsVolume self.old self.new self.old.deleted.items) }
        ensures memory { IsErrOf result VolumeFault.Memory → site.new ≡ site.old }
        ensures runs { WritesAnywhere T.counts T.servers result site.old site.new }
    {
        numbers_fit(self.volume, &self.deleted);
        let name = final_name(alloc, self.volume, Kind::Ecj)?;
        enter(&mut self.deleted, id)?;
        match append_everywhere(site, table, self.volume, &name, id) {
            Ok(()) => Ok(()),
            Err(device) => {
                self.deleted.pop();
                Err(VolumeFault::Fault(device))
            }
        }
    }
}

// One id more. On want of memory there are those that there were.
fn enter(deleted: &mut Vec<u64>, id: u64) -> Result<(), AllocError>
    ensures ok { OnOk result (deleted.new.items ≡ deleted.old.items ++ id ∷ []) }
    ensures err { OnErr result (deleted.new.items ≡ deleted.old.items) }
{
    deleted.push(id)?;
    Ok(())
}

// Numbers are within their types.
fn numbers_fit(volume: u32, ids: &[u64])
    ensures volume { volume < max_volumes }
    ensures ids { AreIds ids.now }
{}
