//! An opening of a coded volume.
ghost use Rattle.std.specs.Prelude.{◌+◌, IfOk, OnOk};
ghost use Rattle.shard_table.specs.Table.{IsRow};
ghost use Rattle.coded_volume.specs.Opening.{AreCopiesOf, HasCopiesBefore};

use crate::CodedVolume;
use crate::checking::{ShardCopy, check};
use file_names::MAX_SHARDS;
use shard_table::{Places, ShardTable};
use site_model::{OpenFault, Site};
use std::alloc::{AllocError, Global};

impl CodedVolume {
    ghost use Rattle.std.specs.Prelude.{◌≡◌, IsTrue, IfOk, IfErr, IsErrOf};
    ghost use Rattle.site_model.specs.Counts.{Calls};
    ghost use Rattle.shard_table.specs.Table.{row_of};
    ghost use Rattle.image_meaning.specs.Sound.{IsCoded};
    ghost use Rattle.coded_volume.specs.Checking.{TellsFirst, TellsRule, files_on};
    ghost use Rattle.coded_volume.specs.Opening.{HasSomeShard, IsOpened, IsTableOf};

    /// Opens a volume whose shards are those of the table, and tests its files. `Unsound` has the first of
    /// rules 4, 5, 6 and 8 that is false. No file is changed.
    pub fn open<T: Site>(
        alloc: Global,
        site: &mut T,
        table: &ShardTable,
        volume: u32,
    ) -> Result<CodedVolume, OpenFault>
        requires servers { table.now.servers ≡ T.servers site.old }
        requires some { HasSomeShard (row_of table.now volume) }
        requires stands { IsTrue T.tells → IsCoded (files_on (T.disk site.old).files volume)
            × IsTableOf (row_of table.now volume) (files_on (T.disk site.old).files volume) }
        ensures opened { IfOk result (λ opened. (opened.volume ≡ volume)
            × (IsTrue T.tells → IsOpened (files_on (T.disk site.old).files volume) opened)) }
        ensures unsound { IfErr result (λ fault. TellsRule volume fault
            × (IsTrue T.tells → TellsFirst (files_on (T.disk site.old).files volume) fault)) }
        ensures same { IsTrue T.tells → T.disk site.new ≡ T.disk site.old }
        ensures runs { Calls T.counts T.servers site.old site.new (λ s. IsErrOf result (OpenFault.Fault s)) }
    {
        let copies = copies_in(alloc, table.row(volume), table.servers())?;
        let checked = check(alloc, site, volume, &copies)?;
        Ok(CodedVolume {
            volume,
            info: checked.info,
            deleted: checked.deleted,
        })
    }
}

// The copies in a row, by rising server.
fn copies_in(alloc: Global, places: &Places, servers: u32) -> Result<Vec<ShardCopy>, AllocError>
    requires { IsRow servers places.now }
    ensures { IfOk result (λ copies. AreCopiesOf places.now copies.items) }
{
    let mut copies = Vec::new(alloc);
    for server in 0..servers {
        add_copies(&mut copies, places, server)?;
    }
    Ok(copies)
}

// Puts the copies at one server behind those at lower servers.
fn add_copies(copies: &mut Vec<ShardCopy>, places: &Places, server: u32) -> Result<(), AllocError>
    requires { HasCopiesBefore places.now server 0 copies.old.items }
    ensures { OnOk result (HasCopiesBefore places.now (server + 1) 0 copies.new.items) }
{
    for shard in 0..MAX_SHARDS {
        if places[usize::from(shard)] == Some(server) {
            copies.push(ShardCopy { server, shard })?;
        }
    }
    Ok(())
}
