//! What becomes of the files of volumes of any form. For the recovery of coded volumes, to come.
ghost use Rattle.std.specs.Prelude.{◌≡◌, IsTrue, IfErr, IsErrOf, OnOk, map};
ghost use Rattle.std.specs.List.{All};
ghost use Rattle.site_model.specs.Counts.{Calls};
ghost use Rattle.coded_volume.specs.Checking.{IsSiteFault, files_on};
ghost use Rattle.site_recovery.specs.Recovering.{IsNamed};
ghost use Rattle.site_recovery.specs.Changes.{Settles};
ghost use Rattle.site_recovery.specs.CodedSettling.{IsVolumeFile};
ghost use Rattle.site_recovery.specs.Listing.{AreGroups, AreInOrder, IsGroup};
ghost use Rattle.site_recovery.specs.Removing.{HasFilesOf};
ghost use Rattle.site_recovery.specs.Opening.{IsTestedForm, IsWithin};
ghost use Rattle.site_recovery.specs.FormSettling.{AreDue, HasSettled, IsFormSettled, every, in_round, is_in};

use super::coded::settle_coded;
use super::indexed::settle_indexed;
use super::listed::settle_none;
use crate::forms::{Listed, ListedForm, Round, TestedGroup};
use crate::listing::files_in;
use site_model::{OpenFault, Site};
use std::alloc::Global;

/// Settles all volumes: plain ones first, then coded ones, and then those that are absent. Lost ones stay as they are.
pub(crate) fn settle_forms<T: Site>(
    alloc: Global,
    site: &mut T,
    files: &[Listed],
    tested: &[TestedGroup],
) -> Result<(), OpenFault>
    requires order { AreInOrder (T.servers site.old) files.now }
    requires groups { AreGroups files.now (map (λ t. t.group) tested.now) }
    requires within { All (λ t. IsWithin (T.servers site.old) t.form) tested.now }
    requires due { IsTrue T.tells → AreDue (T.disk site.old).files files.now every tested.now }
    ensures effect { IsTrue T.tells → Settles IsNamed (T.disk site.old) (T.disk site.new) }
    ensures done { OnOk result (IsTrue T.tells
        → HasSettled every tested.now (T.disk site.old).files (T.disk site.new).files) }
    ensures why { IfErr result IsSiteFault }
    ensures runs { Calls T.counts T.servers site.old site.new (λ s. IsErrOf result (OpenFault.Fault s)) }
{
    settle_round(alloc, site, files, tested, Round::Plain)?;
    settle_round(alloc, site, files, tested, Round::Coded)?;
    settle_round(alloc, site, files, tested, Round::Absent)
}

// Settles the volumes of the round's form, in turn.
fn settle_round<T: Site>(
    alloc: Global,
    site: &mut T,
    files: &[Listed],
    tested: &[TestedGroup],
    round: Round,
) -> Result<(), OpenFault>
    requires order { AreInOrder (T.servers site.old) files.now }
    requires groups { AreGroups files.now (map (λ t. t.group) tested.now) }
    requires within { All (λ t. IsWithin (T.servers site.old) t.form) tested.now }
    requires due { IsTrue T.tells → AreDue (T.disk site.old).files files.now (in_round round) tested.now }
    ensures effect { IsTrue T.tells → Settles IsNamed (T.disk site.old) (T.disk site.new) }
    ensures done { OnOk result (IsTrue T.tells
        → HasSettled (in_round round) tested.now (T.disk site.old).files (T.disk site.new).files) }
    ensures why { IfErr result IsSiteFault }
    ensures runs { Calls T.counts T.servers site.old site.new (λ s. IsErrOf result (OpenFault.Fault s)) }
{
    for found in tested {
        if !is_in(round, &found.form) {
            continue;
        }
        settle_form(alloc, site, files, found)?;
    }
    Ok(())
}

fn is_in(round: Round, form: &ListedForm) -> bool
    ensures { result ≡ is_in round form.now }
{
    match form {
        ListedForm::Plain { .. } => matches!(round, Round::Plain),
        ListedForm::Coded { .. } => matches!(round, Round::Coded),
        ListedForm::Lost => false,
        ListedForm::Absent => matches!(round, Round::Absent),
    }
}

// Settles the volume as its form has it.
fn settle_form<T: Site>(
    alloc: Global,
    site: &mut T,
    files: &[Listed],
    found: &TestedGroup,
) -> Result<(), OpenFault>
    requires order { AreInOrder (T.servers site.old) files.now }
    requires group { IsGroup files.now found.now.group }
    requires within { IsWithin (T.servers site.old) found.now.form }
    requires files { IsTrue T.tells
        → HasFilesOf (T.disk site.old).files found.now.group.volume files.now }
    requires tested { IsTrue T.tells
        → IsTestedForm (files_on (T.disk site.old).files found.now.group.volume) found.now.form }
    ensures effect { IsTrue T.tells
        → Settles (IsVolumeFile found.now.group.volume) (T.disk site.old) (T.disk site.new) }
    ensures done { OnOk result (IsTrue T.tells → IsFormSettled found.now.group.volume
        (T.disk site.old).files (T.disk site.new).files) }
    ensures why { IfErr result IsSiteFault }
    ensures runs { Calls T.counts T.servers site.old site.new (λ s. IsErrOf result (OpenFault.Fault s)) }
{
    let volume = found.group.volume;
    let its = files_in(files, found.group);
    match &found.form {
        ListedForm::Plain {
            home,
            dat_length,
            idx_length,
        } => settle_indexed(alloc, site, volume, its, *home, *dat_length, *idx_length),
        ListedForm::Coded { copies, checked } => {
            settle_coded(alloc, site, volume, its, copies, &checked.deleted)
        }
        ListedForm::Lost => Ok(()),
        ListedForm::Absent => settle_none(alloc, site, volume, its),
    }
}
