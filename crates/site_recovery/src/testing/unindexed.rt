//! The tests of a volume without index, by its files that are listed. For the recovery of coded volumes, to come.
ghost use Rattle.std.specs.Prelude.{◌≡◌, ◌<◌, ◌↔◌, None, IsTrue, IfOk, IfErr, IsErrOf};
ghost use Rattle.site_model.specs.Counts.{Calls};
ghost use Rattle.image_meaning.specs.Meaning.{has_long_dat};
ghost use Rattle.image_meaning.specs.Plain.{index_home};
ghost use Rattle.coded_volume.specs.Checking.{files_on};
ghost use Rattle.coded_volume.specs.Checking.{IsSiteFault};
ghost use Rattle.site_recovery.specs.Listing.{AreFilesOf, AreInOrder, IsLongDat};
ghost use Rattle.site_recovery.specs.Opening.{FailsListed, IsTestedForm, IsWithin, with_shards, without_shards};

use crate::asking::size_at;
use crate::forms::{Listed, ListedForm};
use crate::listing::copies_of;
use crate::testing::shards::test_shards;
use coded_volume::{Checked, ShardCopy};
use file_names::{Kind, final_name};
use site_model::{OpenFault, Site};
use std::alloc::Global;
use volume_forms::SUPER_LENGTH;

/// Tests a volume without index, of which these are the files. No other file is asked for.
pub(crate) fn test_unindexed<T: Site>(
    alloc: Global,
    site: &mut T,
    volume: u32,
    files: &[Listed],
) -> Result<ListedForm, OpenFault>
    requires order { AreInOrder (T.servers site.old) files.now }
    requires files { IsTrue T.tells → AreFilesOf (T.disk site.old).files volume files.now }
    requires no_index { IsTrue T.tells → index_home (files_on (T.disk site.old).files volume) ≡ None }
    ensures found { IfOk result (λ form. IsTrue T.tells
        → IsTestedForm (files_on (T.disk site.old).files volume) form) }
    ensures within { IfOk result (IsWithin (T.servers site.old)) }
    ensures broken { IfErr result (λ fault. IsTrue T.tells
        → FailsListed volume (files_on (T.disk site.old).files volume) fault) }
    ensures same { IsTrue T.tells → T.disk site.new ≡ T.disk site.old }
    ensures runs { Calls T.counts T.servers site.old site.new (λ s. IsErrOf result (OpenFault.Fault s)) }
{
    let copies = copies_of(alloc, files)?;
    if copies.is_empty() {
        let long = is_long_listed(alloc, site, volume, files)?;
        return Ok(without_shards(long));
    }
    let checked = test_shards(alloc, site, volume, &copies)?;
    Ok(with_shards(copies, checked))
}

// A volume with shards is coded where the tests answered what its files say, else lost.
fn with_shards(copies: Vec<ShardCopy>, checked: Option<Checked>) -> ListedForm
    ensures { result ≡ with_shards copies checked }
{
    match checked {
        Some(checked) => ListedForm::Coded { copies, checked },
        None => ListedForm::Lost,
    }
}

// A volume without index and shards is lost where a data file of it has more than a super block.
fn without_shards(long: bool) -> ListedForm
    ensures { result ≡ without_shards long }
{
    if long {
        ListedForm::Lost
    } else {
        ListedForm::Absent
    }
}

// Whether one of the volume's files is a data file with more than a super block.
fn is_long_listed<T: Site>(
    alloc: Global,
    site: &mut T,
    volume: u32,
    files: &[Listed],
) -> Result<bool, OpenFault>
    requires order { AreInOrder (T.servers site.old) files.now }
    requires files { IsTrue T.tells → AreFilesOf (T.disk site.old).files volume files.now }
    ensures long { IfOk result (λ long. IsTrue T.tells
        → long ≡ has_long_dat (files_on (T.disk site.old).files volume)) }
    ensures same { IsTrue T.tells → T.disk site.new ≡ T.disk site.old }
    ensures why { IfErr result IsSiteFault }
    ensures runs { Calls T.counts T.servers site.old site.new (λ s. IsErrOf result (OpenFault.Fault s)) }
{
    for listed in files {
        if is_long(alloc, site, volume, listed)? {
            return Ok(true);
        }
    }
    Ok(false)
}

// Whether the file of the volume is a data file with more than a super block.
fn is_long<T: Site>(
    alloc: Global,
    site: &mut T,
    volume: u32,
    listed: &Listed,
) -> Result<bool, OpenFault>
    requires { listed.now.server < T.servers site.old }
    ensures long { IfOk result (λ long. IsTrue T.tells
        → (IsTrue long ↔ IsLongDat (T.disk site.old).files volume listed.now)) }
    ensures same { IsTrue T.tells → T.disk site.new ≡ T.disk site.old }
    ensures why { IfErr result IsSiteFault }
    ensures runs { Calls T.counts T.servers site.old site.new (λ s. IsErrOf result (OpenFault.Fault s)) }
{
    if listed.file.temp || !is_dat(listed.file.kind) {
        return Ok(false);
    }
    let name = final_name(alloc, volume, Kind::Dat)?;
    let size = size_at(site, listed.server, &name)?.unwrap_or(0);
    Ok(size > SUPER_LENGTH as u64)
}

fn is_dat(kind: Kind) -> bool
    ensures { IsTrue result ↔ (kind ≡ Kind.Dat) }
{
    matches!(kind, Kind::Dat)
}
