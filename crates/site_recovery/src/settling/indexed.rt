//! What becomes of a plain volume's files that are listed. For the recovery of coded volumes, to come.
ghost use Rattle.std.specs.Prelude.{◌≡◌, ◌<◌, Some, IsTrue, IfErr, IsErrOf, OnOk, false};
ghost use Rattle.std.specs.List.{All};
ghost use Rattle.site_model.specs.Counts.{Calls};
ghost use Rattle.site_model.specs.Disk.{IsSettled};
ghost use Rattle.file_names.specs.declared.Kind.TheVariants.{Cpx};
ghost use Rattle.image_meaning.specs.Files.{stands};
ghost use Rattle.image_meaning.specs.Plain.{index_home};
ghost use Rattle.coded_volume.specs.Checking.{IsSiteFault, files_on};
ghost use Rattle.site_recovery.specs.Changes.{IsOf, Settles, IsLeftAtHome};
ghost use Rattle.site_recovery.specs.Listing.{AreInOrder};
ghost use Rattle.site_recovery.specs.Homes.{IsTestedPlain};
ghost use Rattle.site_recovery.specs.Removing.{HasFilesOf};
ghost use Rattle.site_recovery.specs.CodedSettling.{IsVolumeFile};
ghost use Rattle.site_recovery.specs.PlainSettling.{AreOthersListed, IsSettledPlain};

use super::{name_made, trim_at};
use crate::clearing::clear_listed;
use crate::forms::{Goes, Listed};
use crate::removing::remove_listed;
use file_names::Kind;
use site_model::{OpenFault, Site};
use std::alloc::Global;

/// Settles a plain volume, of which these are the files: names what a vacuum made at the home, cuts both files there, and removes
/// all others, the other indexes first, each `.idx` before the `.cpx` that counts in its place.
pub(crate) fn settle_indexed<T: Site>(
    alloc: Global,
    site: &mut T,
    volume: u32,
    files: &[Listed],
    home: u32,
    dat_length: u64,
    idx_length: u64,
) -> Result<(), OpenFault>
    requires home { home < T.servers site.old }
    requires order { AreInOrder (T.servers site.old) files.now }
    requires of { All (λ listed. listed.file.volume ≡ volume) files.now }
    requires files { IsTrue T.tells → HasFilesOf (T.disk site.old).files volume files.now }
    requires tested { IsTrue T.tells → IsTestedPlain (files_on (T.disk site.old).files volume) home
        (dat_length, idx_length) }
    ensures effect { IsTrue T.tells → Settles (IsVolumeFile volume) (T.disk site.old) (T.disk site.new) }
    ensures done { OnOk result (IsTrue T.tells
        → IsSettledPlain volume home (T.disk site.old).files (T.disk site.new).files) }
    ensures why { IfErr result IsSiteFault }
    ensures runs { Calls T.counts T.servers site.old site.new (λ s. IsErrOf result (OpenFault.Fault s)) }
{
    name_made(alloc, site, home, volume)?;
    trim_at(alloc, site, home, volume, dat_length, idx_length)?;
    clear_listed_others(alloc, site, files, home, volume)?;
    remove_listed(alloc, site, files, Goes::Coded)
}

// Removes all files of the plain form but the index and the data file at the home: at the other servers first the indexes,
// each `.idx` before the `.cpx` that counts in its place.
fn clear_listed_others<T: Site>(
    alloc: Global,
    site: &mut T,
    files: &[Listed],
    home: u32,
    volume: u32,
) -> Result<(), OpenFault>
    requires order { AreInOrder (T.servers site.old) files.now }
    requires listed { IsTrue T.tells → AreOthersListed volume home (T.disk site.old).files files.now }
    requires at { IsTrue T.tells → index_home (files_on (T.disk site.old).files volume) ≡ Some home }
    requires unmade { IsTrue T.tells → stands (files_on (T.disk site.old).files volume) home Cpx ≡ false }
    ensures effect { IsTrue T.tells → Settles (IsOf volume false) (T.disk site.old) (T.disk site.new) }
    ensures done { OnOk result (IsTrue T.tells
        → IsLeftAtHome volume home (T.disk site.old).files (T.disk site.new).files) }
    ensures settled { OnOk result (IsTrue T.tells → IsSettled (T.disk site.old).files
        → IsSettled (T.disk site.new).files) }
    ensures why { IfErr result IsSiteFault }
    ensures runs { Calls T.counts T.servers site.old site.new (λ s. IsErrOf result (OpenFault.Fault s)) }
{
    clear_listed(alloc, site, files, volume, Kind::Idx, Some(home))?;
    clear_listed(alloc, site, files, volume, Kind::Cpx, Some(home))?;
    clear_listed(alloc, site, files, volume, Kind::Dat, Some(home))?;
    clear_listed(alloc, site, files, volume, Kind::Cpd, None)
}
