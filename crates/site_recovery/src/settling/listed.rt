//! What becomes of the files that are listed. For the recovery of coded volumes, to come.
ghost use Rattle.std.specs.Prelude.{◌≡◌, None, IsTrue, IfErr, IsErrOf, OnOk};
ghost use Rattle.std.specs.List.{All};
ghost use Rattle.site_model.specs.Counts.{Calls};
ghost use Rattle.image_meaning.specs.Meaning.{mode_of};
ghost use Rattle.coded_volume.specs.Checking.{IsSiteFault, files_on};
ghost use Rattle.site_recovery.specs.Recovering.{IsNamed};
ghost use Rattle.site_recovery.specs.Changes.{Settles};
ghost use Rattle.site_recovery.specs.Listing.{AreFilesIn, AreInOrder};
ghost use Rattle.site_recovery.specs.CodedSettling.{IsVolumeFile};
ghost use Rattle.site_recovery.specs.Removing.{HasFilesOf, AreTempsGone, IsVolumeGone};

use crate::forms::{Goes, Listed};
use crate::removing::remove_listed;
use site_model::{OpenFault, Site};
use std::alloc::Global;

/// Removes the temporary files of all volumes.
pub(crate) fn settle_temps<T: Site>(
    alloc: Global,
    site: &mut T,
    files: &[Listed],
) -> Result<(), OpenFault>
    requires order { AreInOrder (T.servers site.old) files.now }
    requires files { IsTrue T.tells → AreFilesIn (T.disk site.old).files files.now }
    ensures effect { IsTrue T.tells → Settles IsNamed (T.disk site.old) (T.disk site.new) }
    ensures done { OnOk result (IsTrue T.tells
        → AreTempsGone (T.disk site.old).files (T.disk site.new).files) }
    ensures why { IfErr result IsSiteFault }
    ensures runs { Calls T.counts T.servers site.old site.new (λ s. IsErrOf result (OpenFault.Fault s)) }
{
    remove_listed(alloc, site, files, Goes::Temporary)
}

/// Removes the files of an absent volume, but temporary ones.
pub(crate) fn settle_none<T: Site>(
    alloc: Global,
    site: &mut T,
    volume: u32,
    files: &[Listed],
) -> Result<(), OpenFault>
    requires order { AreInOrder (T.servers site.old) files.now }
    requires of { All (λ listed. listed.file.volume ≡ volume) files.now }
    requires files { IsTrue T.tells → HasFilesOf (T.disk site.old).files volume files.now }
    requires absent { IsTrue T.tells → mode_of (files_on (T.disk site.old).files volume) ≡ None }
    ensures effect { IsTrue T.tells → Settles (IsVolumeFile volume) (T.disk site.old) (T.disk site.new) }
    ensures done { OnOk result (IsTrue T.tells
        → IsVolumeGone volume (T.disk site.old).files (T.disk site.new).files) }
    ensures why { IfErr result IsSiteFault }
    ensures runs { Calls T.counts T.servers site.old site.new (λ s. IsErrOf result (OpenFault.Fault s)) }
{
    remove_listed(alloc, site, files, Goes::Final)
}
