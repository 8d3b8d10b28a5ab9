//! Rule 4: each holder's text is accepted, and says the same.
ghost use Rattle.std.specs.Prelude.{◌≡◌, ◌<◌, ◌↔◌, Some, IsTrue, IfSome, IfOk, IfErr, IsErrOf};
ghost use Rattle.site_model.specs.Counts.{Calls};
ghost use Rattle.stripe_layout.specs.Information.{info_of};
ghost use Rattle.stripe_layout.specs.Laws.Info.{IsInRange};
ghost use Rattle.image_meaning.specs.Coded.{info_at};
ghost use Rattle.image_meaning.specs.Sound.{HasInfo};
ghost use Rattle.coded_volume.specs.Checking.{AreBelow, AreHolders, Breaks, IsSiteFault, files_on, unless_memory};

use crate::checking::holders::Holders;
use file_names::Kind;
use site_model::{OpenFault, Site};
use std::alloc::Global;
use stripe_layout::Info;
use vif_info::{InfoFault, read_info};
use whole_file::read_whole;

// The rule that each holder's text is accepted and says the same.
const RULE_TEXTS: u8 = 4;

/// What the texts of all holders say.
pub(crate) fn check_texts<T: Site>(
    alloc: Global,
    site: &mut T,
    volume: u32,
    holders: &Holders,
) -> Result<Info, OpenFault>
    requires servers { AreBelow (T.servers site.old) holders.now }
    requires holders { IsTrue T.tells → AreHolders (files_on (T.disk site.old).files volume) holders.now }
    ensures texts { IfOk result (λ info. IsTrue T.tells
        → HasInfo (files_on (T.disk site.old).files volume) info) }
    ensures in_range { IfOk result IsInRange }
    ensures broken { IfErr result (Breaks volume 4 (IsTrue T.tells
        → (info : Info) → ¬ HasInfo (files_on (T.disk site.old).files volume) info)) }
    ensures same { IsTrue T.tells → T.disk site.new ≡ T.disk site.old }
    ensures runs { Calls T.counts T.servers site.old site.new (λ s. IsErrOf result (OpenFault.Fault s)) }
{
    let broken = OpenFault::Unsound {
        volume,
        rule: RULE_TEXTS,
    };
    let Some(info) = info_at(alloc, site, volume, holders.first)? else {
        return Err(broken);
    };
    for &server in &holders.others {
        let found = info_at(alloc, site, volume, server)?;
        if !says_same(found, info) {
            return Err(broken);
        }
    }
    Ok(info)
}

fn says_same(found: Option<Info>, info: Info) -> bool
    ensures { IsTrue result ↔ (found ≡ Some info) }
{
    found == Some(info)
}

/// What the text at a server says, if it stands and is accepted.
pub fn info_at<T: Site>(
    alloc: Global,
    site: &mut T,
    volume: u32,
    server: u32,
) -> Result<Option<Info>, OpenFault>
    requires { server < T.servers site.old }
    ensures info { IfOk result (λ info. IsTrue T.tells
        → info ≡ info_at (files_on (T.disk site.old).files volume) server) }
    ensures in_range { IfOk result (λ info. IfSome info IsInRange) }
    ensures same { IsTrue T.tells → T.disk site.new ≡ T.disk site.old }
    ensures why { IfErr result IsSiteFault }
    ensures runs { Calls T.counts T.servers site.old site.new (λ s. IsErrOf result (OpenFault.Fault s)) }
{
    match read_whole(alloc, site, server, volume, Kind::Vif) {
        Ok(Some(text)) => accepted_info(alloc, &text),
        Ok(None) => Ok(None),
        Err(fault) => Err(OpenFault::from(fault)),
    }
}

// What the text says, if it is accepted.
fn accepted_info(alloc: Global, text: &[u8]) -> Result<Option<Info>, OpenFault>
    ensures info { IfOk result (λ info. info ≡ info_of text.now) }
    ensures in_range { IfOk result (λ info. IfSome info IsInRange) }
    ensures why { IfErr result (λ fault. fault ≡ OpenFault.Memory) }
{
    match read_info(alloc, text) {
        Ok(info) => Ok(Some(info)),
        Err(fault) => unless_memory(fault),
    }
}

// A text that is refused says nothing.
fn unless_memory(fault: InfoFault) -> Result<Option<Info>, OpenFault>
    ensures { result ≡ unless_memory fault }
{
    match fault {
        InfoFault::NotJson | InfoFault::Field | InfoFault::Range => Ok(None),
        InfoFault::Memory => Err(OpenFault::Memory),
    }
}
