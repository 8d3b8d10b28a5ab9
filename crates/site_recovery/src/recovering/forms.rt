//! The recovery of a site with volumes of any form. For the store with coded volumes, to come.
ghost use Rattle.std.specs.Prelude.{◌≡◌, ◌<◌, IsTrue, IfOk, IfErr, IsErrOf, OnOk};
ghost use Rattle.std.specs.List.{All};
ghost use Rattle.site_model.specs.Counts.{Calls};
ghost use Rattle.image_meaning.specs.Files.{contents};
ghost use Rattle.image_meaning.specs.Sound.{IsSound};
ghost use Rattle.site_recovery.specs.Recovering.{Recovers, IsTidied};
ghost use Rattle.site_recovery.specs.FormRecovering.{AreRecovered, FindsForms, TellsFirst};

use crate::Recovered;
use crate::answering::listed::answer_listed;
use crate::listing::{groups_of, list_files};
use crate::settling::forms::settle_forms;
use crate::settling::listed::settle_temps;
use crate::testing::groups::test_groups;
use site_model::{OpenFault, Site};
use std::alloc::Global;

/// Opens the volumes of all servers, before anything else is done with a site.
///
/// Each server is listed once. Then each volume is tested by the rules of its form that can be seen without reading it
/// whole: a plain one, which has an index, by rules 1, 2 and 3; a coded one, which has enough shards, by rules 4, 5, 6
/// and 8; a lost one by rule 4, that its texts tell one ratio. The lowest volume of which a test fails is answered as
/// `Unsound`, with the first such rule, and no file is changed.
///
/// Then temporary files are removed. A plain volume is kept at the lowest server that has its index, cut to what is kept,
/// and all other files of it are removed. A coded one gets the longest journal at every holder, and then loses data files,
/// all copies of a shard but the lowest, and what stands beside no shard. A lost one stays as it is, and any other volume
/// loses all its files.
pub(crate) fn recover_forms<T: Site>(alloc: Global, site: &mut T) -> Result<Recovered, OpenFault>
    ensures finds { IfOk result (λ found. IsTrue T.tells → FindsForms found (T.disk site.old).files) }
    ensures table { IfOk result (λ found. found.table.servers ≡ T.servers site.old) }
    ensures homes { IfOk result (λ found. All (λ row. row.1 < T.servers site.old) found.plain.items) }
    ensures recovered { OnOk result (IsTrue T.tells
        → AreRecovered (T.disk site.old).files (T.disk site.new).files) }
    ensures tidied { OnOk result (IsTrue T.tells → IsSound (contents (T.disk site.old).files)
        → IsTidied (T.disk site.old).files (T.disk site.new).files) }
    ensures effect { IsTrue T.tells → Recovers (T.disk site.old) (T.disk site.new) }
    ensures why { IfErr result (λ fault. IsTrue T.tells
        → TellsFirst fault (T.disk site.old) (T.disk site.new)) }
    ensures runs { Calls T.counts T.servers site.old site.new (λ s. IsErrOf result (OpenFault.Fault s)) }
{
    let servers = site.servers();
    let files = list_files(alloc, site)?;
    let groups = groups_of(alloc, &files)?;
    let tested = test_groups(alloc, site, &files, &groups)?;
    let found = answer_listed(alloc, servers, &tested)?;
    settle_temps(alloc, site, &files)?;
    settle_forms(alloc, site, &files, &tested)?;
    Ok(found)
}
