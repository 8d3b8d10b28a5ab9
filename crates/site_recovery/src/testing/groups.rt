//! The tests of all volumes, by their files that are listed. For the recovery of coded volumes, to come.
ghost use Rattle.std.specs.Prelude.{◌≡◌, IsTrue, IfOk, IfErr, IsErrOf, map};
ghost use Rattle.std.specs.List.{All};
ghost use Rattle.site_model.specs.Counts.{Calls};
ghost use Rattle.site_recovery.specs.Listing.{AreFilesIn, AreGroups, AreInOrder};
ghost use Rattle.site_recovery.specs.Opening.{AreTestedGroups, IsWithin, TellsFirstFault};

use crate::forms::{Group, Listed, TestedGroup};
use crate::listing::files_in;
use crate::testing::listed::test_listed;
use site_model::{OpenFault, Site};
use std::alloc::Global;

/// Tests each of the volumes in turn, by rising volume. `Unsound` has the lowest of which a test fails, and the first
/// rule of it that does.
pub(crate) fn test_groups<T: Site>(
    alloc: Global,
    site: &mut T,
    files: &[Listed],
    groups: &[Group],
) -> Result<Vec<TestedGroup>, OpenFault>
    requires order { AreInOrder (T.servers site.old) files.now }
    requires groups { AreGroups files.now groups.now }
    requires files { IsTrue T.tells → AreFilesIn (T.disk site.old).files files.now }
    ensures tested { IfOk result (λ tested. IsTrue T.tells
        → AreTestedGroups (T.disk site.old).files groups.now tested.items) }
    ensures within { IfOk result (λ tested. All (λ t. IsWithin (T.servers site.old) t.form) tested.items) }
    ensures same_groups { IfOk result (λ tested. map (λ t. t.group) tested.items ≡ groups.now) }
    ensures unsound { IfErr result (λ fault. IsTrue T.tells → TellsFirstFault (T.disk site.old).files fault) }
    ensures same { IsTrue T.tells → T.disk site.new ≡ T.disk site.old }
    ensures runs { Calls T.counts T.servers site.old site.new (λ s. IsErrOf result (OpenFault.Fault s)) }
{
    let mut tested = Vec::new(alloc);
    for &group in groups {
        let its = files_in(files, group);
        let form = test_listed(alloc, site, group.volume, its)?;
        tested.push(TestedGroup { group, form })?;
    }
    Ok(tested)
}
