//! The tests of a volume of any form, by its files that are listed. For the recovery of coded volumes, to come.
ghost use Rattle.std.specs.Prelude.{◌≡◌, ◌<◌, Some, IsTrue, IfOk, IfErr, IsErrOf, slice_get};
ghost use Rattle.std.specs.List.{All};
ghost use Rattle.site_model.specs.Counts.{Calls, max_servers};
ghost use Rattle.coded_volume.specs.Checking.{files_on};
ghost use Rattle.site_recovery.specs.Homes.{AreHomes};
ghost use Rattle.site_recovery.specs.Listing.{AreFilesOf, AreInOrder};
ghost use Rattle.site_recovery.specs.Opening.{FailsListed, IsTestedForm, IsWithin};

use crate::forms::{Home, Listed, ListedForm};
use crate::testing::homes::listed_homes;
use crate::testing::unindexed::test_unindexed;
use crate::testing::{test_homes, test_supers};
use site_model::{OpenFault, Site};
use std::alloc::Global;

/// Tests a volume, of which these are the files, and answers what it is. A plain volume, which has an index, is tested
/// by rules 1, 2 and 3; a coded one by rules 4, 5, 6 and 8; a lost one by rule 4. `Unsound` has the first of them that
/// fails. No other file is asked for, and none is changed.
pub(crate) fn test_listed<T: Site>(
    alloc: Global,
    site: &mut T,
    volume: u32,
    files: &[Listed],
) -> Result<ListedForm, OpenFault>
    requires order { AreInOrder (T.servers site.old) files.now }
    requires files { IsTrue T.tells → AreFilesOf (T.disk site.old).files volume files.now }
    ensures found { IfOk result (λ form. IsTrue T.tells
        → IsTestedForm (files_on (T.disk site.old).files volume) form) }
    ensures within { IfOk result (IsWithin (T.servers site.old)) }
    ensures unsound { IfErr result (λ fault. IsTrue T.tells
        → FailsListed volume (files_on (T.disk site.old).files volume) fault) }
    ensures same { IsTrue T.tells → T.disk site.new ≡ T.disk site.old }
    ensures runs { Calls T.counts T.servers site.old site.new (λ s. IsErrOf result (OpenFault.Fault s)) }
{
    let homes = listed_homes(alloc, site, volume, files)?;
    match homes.first() {
        Some(&lowest) => test_indexed(alloc, site, volume, &homes, lowest),
        None => test_unindexed(alloc, site, volume, files),
    }
}

// Rules 2 and 3 of a plain volume.
fn test_indexed<T: Site>(
    alloc: Global,
    site: &mut T,
    volume: u32,
    homes: &[Home],
    lowest: Home,
) -> Result<ListedForm, OpenFault>
    requires server { lowest.server < T.servers site.old }
    requires servers { All (λ home. home.server < T.servers site.old) homes.now }
    requires first { slice_get homes.now 0 ≡ Some lowest }
    requires homes { IsTrue T.tells
        → AreHomes (files_on (T.disk site.old).files volume) max_servers homes.now }
    ensures found { IfOk result (λ form. IsTrue T.tells
        → IsTestedForm (files_on (T.disk site.old).files volume) form) }
    ensures within { IfOk result (IsWithin (T.servers site.old)) }
    ensures unsound { IfErr result (λ fault. IsTrue T.tells
        → FailsListed volume (files_on (T.disk site.old).files volume) fault) }
    ensures same { IsTrue T.tells → T.disk site.new ≡ T.disk site.old }
    ensures runs { Calls T.counts T.servers site.old site.new (λ s. IsErrOf result (OpenFault.Fault s)) }
{
    test_homes(alloc, site, volume, homes, lowest)?;
    let (dat_length, idx_length) = test_supers(alloc, site, volume, homes, lowest)?;
    Ok(ListedForm::Plain {
        home: lowest.server,
        dat_length,
        idx_length,
    })
}
