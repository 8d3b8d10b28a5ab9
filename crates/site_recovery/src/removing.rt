//! The removal of files that are listed. For the recovery of coded volumes, to come.
ghost use Rattle.std.specs.Prelude.{◌≡◌, ◌<◌, ◌↔◌, false, IsTrue, IfErr, IsErrOf, OnOk};
ghost use Rattle.file_names.specs.Names.{IsName};
ghost use Rattle.site_model.specs.Counts.{Calls};
ghost use Rattle.coded_volume.specs.Checking.{IsSiteFault};
ghost use Rattle.site_recovery.specs.Changes.{TakesAway};
ghost use Rattle.site_recovery.specs.CodedGone.{IsBesideKind};
ghost use Rattle.site_recovery.specs.Listing.{AreInOrder};
ghost use Rattle.site_recovery.specs.Removing.{IsGoing, IsGoingAt, IsGoingAmong, AreGone, place_in};

use crate::asking::clear_at;
use crate::forms::{Goes, Listed};
use file_names::{Kind, spell};
use site_model::{OpenFault, Site};
use std::alloc::Global;

/// Removes those of the files that go, in their order. No other file is asked for.
pub(crate) fn remove_listed<T: Site>(
    alloc: Global,
    site: &mut T,
    files: &[Listed],
    goes: Goes,
) -> Result<(), OpenFault>
    requires { AreInOrder (T.servers site.old) files.now }
    ensures effect { IsTrue T.tells → TakesAway (IsGoingAmong goes files.now) (T.disk site.old)
        (T.disk site.new) }
    ensures done { OnOk result (IsTrue T.tells → AreGone goes files.now (T.disk site.new).files) }
    ensures why { IfErr result IsSiteFault }
    ensures runs { Calls T.counts T.servers site.old site.new (λ s. IsErrOf result (OpenFault.Fault s)) }
{
    for listed in files {
        remove_if(alloc, site, listed, goes)?;
    }
    Ok(())
}

/// Removes the file, if it goes.
pub(crate) fn remove_if<T: Site>(
    alloc: Global,
    site: &mut T,
    listed: &Listed,
    goes: Goes,
) -> Result<(), OpenFault>
    requires server { listed.now.server < T.servers site.old }
    requires named { IsName listed.now.file }
    ensures effect { IsTrue T.tells → TakesAway (IsGoingAt goes listed.now) (T.disk site.old)
        (T.disk site.new) }
    ensures done { OnOk result (IsTrue T.tells → IsGoing goes listed.now
        → (T.disk site.new).files (place_in listed.now) ≡ None) }
    ensures why { IfErr result IsSiteFault }
    ensures runs { Calls T.counts T.servers site.old site.new (λ s. IsErrOf result (OpenFault.Fault s)) }
{
    if !is_going(listed, goes) {
        return Ok(());
    }
    let name = spell(alloc, &listed.file)?;
    clear_at(site, listed.server, &name)
}

fn is_going(listed: &Listed, goes: Goes) -> bool
    ensures { IsTrue result ↔ IsGoing goes listed.now }
{
    match goes {
        Goes::Temporary => listed.file.temp,
        Goes::Coded => !listed.file.temp && listed.file.kind.is_coded(),
        Goes::Final => !listed.file.temp,
        Goes::OfKind {
            volume,
            kind,
            keeper,
        } => is_of_kind(listed, volume, kind) && keeper != Some(listed.server),
        Goes::Beside { volume } => is_beside(listed, volume),
    }
}

// Whether it is the volume's file of this kind, and not temporary.
fn is_of_kind(listed: &Listed, volume: u32, kind: Kind) -> bool
    ensures { IsTrue result ↔ (listed.now.file ≡ record { volume = volume; kind = kind; temp = false }) }
{
    !listed.file.temp && listed.file.volume == volume && listed.file.kind == kind
}

// Whether it is the volume's text, its index or its journal, and not temporary.
fn is_beside(listed: &Listed, volume: u32) -> bool
    ensures { IsTrue result ↔ IsGoing (Goes.Beside volume) listed.now }
{
    !listed.file.temp && listed.file.volume == volume && is_beside_kind(listed.file.kind)
}

fn is_beside_kind(kind: Kind) -> bool
    ensures { IsTrue result ↔ IsBesideKind kind }
{
    matches!(kind, Kind::Ecx | Kind::Ecj | Kind::Vif)
}
