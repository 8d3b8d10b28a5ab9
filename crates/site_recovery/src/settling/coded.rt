//! What becomes of a coded volume's files. For the recovery of coded volumes, to come.
ghost use Rattle.std.specs.Prelude.{IsTrue, IfErr, IsErrOf, OnOk};
ghost use Rattle.site_model.specs.Counts.{Calls};
ghost use Rattle.wire_num.specs.Laws.Pair.{AreIds};
ghost use Rattle.coded_volume.specs.Checking.{AreCopies, AreStanding, files_on};
ghost use Rattle.coded_volume.specs.Checking.{IsSiteFault};
ghost use Rattle.site_recovery.specs.Changes.{Settles};
ghost use Rattle.site_recovery.specs.Listing.{AreInOrder};
ghost use Rattle.site_recovery.specs.Removing.{HasFilesOf};
ghost use Rattle.site_recovery.specs.CodedSettling.{IsVolumeFile, IsTestedCoded, IsSettledCoded};

use crate::forms::Listed;
use crate::placing::{holders_of, homes_of, keepers_of};
use crate::spreading::spread_journals;
use crate::thinning::{clear_copies, clear_strays};
use coded_volume::ShardCopy;
use site_model::{OpenFault, Site};
use std::alloc::Global;

/// Gives every holder the longest journal, of these ids. Only then it removes data files, all copies of a shard but
/// that at the lowest server, and what stands beside no shard. But the journals of holders no file is asked for that isn't
/// listed.
pub(crate) fn settle_coded<T: Site>(
    alloc: Global,
    site: &mut T,
    volume: u32,
    files: &[Listed],
    copies: &[ShardCopy],
    ids: &[u64],
) -> Result<(), OpenFault>
    requires order { AreInOrder (T.servers site.old) files.now }
    requires files { IsTrue T.tells → HasFilesOf (T.disk site.old).files volume files.now }
    requires copies { AreCopies (T.servers site.old) copies.now }
    requires stand { IsTrue T.tells → AreStanding (files_on (T.disk site.old).files volume) copies.now }
    requires tested { IsTrue T.tells → IsTestedCoded (files_on (T.disk site.old).files volume) ids.now }
    ensures effect { IsTrue T.tells → Settles (IsVolumeFile volume) (T.disk site.old) (T.disk site.new) }
    ensures done { OnOk result (IsTrue T.tells
        → IsSettledCoded volume ids.now (T.disk site.old).files (T.disk site.new).files) }
    ensures why { IfErr result IsSiteFault }
    ensures runs { Calls T.counts T.servers site.old site.new (λ s. IsErrOf result (OpenFault.Fault s)) }
{
    ids_fit(ids);
    let homes = homes_of(copies);
    let holders = holders_of(alloc, copies)?;
    let keeps = keepers_of(alloc, site.servers(), &homes)?;
    spread_journals(alloc, site, volume, &holders, ids)?;
    clear_copies(alloc, site, volume, files, &homes)?;
    clear_strays(alloc, site, volume, files, &holders, &keeps)
}

// Ids are within their type.
fn ids_fit(ids: &[u64])
    ensures { AreIds ids.now }
{}
