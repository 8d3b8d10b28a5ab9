//! The tests of a volume without index, of which shards stand. For the recovery of coded volumes, to come.
ghost use Rattle.std.specs.Prelude.{◌≡◌, None, IsTrue, IfOk, IfErr, IsErrOf, count_by, is_some};
ghost use Rattle.site_model.specs.Counts.{Calls};
ghost use Rattle.image_meaning.specs.Plain.{index_home};
ghost use Rattle.coded_volume.specs.Checking.{AreCopies, AreStanding, files_on};
ghost use Rattle.site_recovery.specs.CodedSettling.{HasShardForm, FailsShards};
ghost use Rattle.site_recovery.specs.Opening.{HasRoomFor};

use crate::placing::homes_of;
use crate::testing::ratios::{ratio_at, test_ratios};
use coded_volume::{Checked, ShardCopy, check, holders_of};
use shard_table::Places;
use site_model::{OpenFault, Site};
use std::alloc::Global;

/// Tests a volume without index, of which these are all copies of shards. It is coded where as many different shards
/// stand as the text at the lowest server with one asks for; then its text and deleted ids are answered. Else it is
/// lost, and `None` is answered.
pub(crate) fn test_shards<T: Site>(
    alloc: Global,
    site: &mut T,
    volume: u32,
    copies: &[ShardCopy],
) -> Result<Option<Checked>, OpenFault>
    requires copies { AreCopies (T.servers site.old) copies.now }
    requires stand { IsTrue T.tells → AreStanding (files_on (T.disk site.old).files volume) copies.now }
    requires no_index { IsTrue T.tells → index_home (files_on (T.disk site.old).files volume) ≡ None }
    ensures found { IfOk result (λ found. IsTrue T.tells
        → HasShardForm (files_on (T.disk site.old).files volume) found) }
    ensures room { IfOk result HasRoomFor }
    ensures broken { IfErr result (λ fault. IsTrue T.tells
        → FailsShards volume (files_on (T.disk site.old).files volume) fault) }
    ensures same { IsTrue T.tells → T.disk site.new ≡ T.disk site.old }
    ensures runs { Calls T.counts T.servers site.old site.new (λ s. IsErrOf result (OpenFault.Fault s)) }
{
    let holders = holders_of(alloc, copies)?;
    let ratio = ratio_at(alloc, site, volume, holders.first)?;
    let homes = homes_of(copies);
    if count_homes(&homes) < usize::from(ratio.data_count()) {
        test_ratios(alloc, site, volume, &holders, ratio)?;
        return Ok(None);
    }
    let checked = check(alloc, site, volume, copies)?;
    Ok(Some(checked))
}

// How many shards have a home.
fn count_homes(homes: &Places) -> usize
    ensures { result ≡ count_by is_some homes.now }
{
    homes.iter().filter(|home| home.is_some()).count()
}
