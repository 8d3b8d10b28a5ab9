//! Rule 4 of a lost volume: its texts tell one ratio. For the recovery of coded volumes, to come.
ghost use Rattle.std.specs.Prelude.{◌≡◌, ◌<◌, ◌↔◌, IsTrue, IfOk, IfErr, IsErrOf, OnOk};
ghost use Rattle.site_model.specs.Counts.{Calls};
ghost use Rattle.image_meaning.specs.Coded.{ratio_at, told_ratio};
ghost use Rattle.image_meaning.specs.Sound.{HasOneRatio};
ghost use Rattle.coded_volume.specs.Checking.{AreBelow, AreHolders, Breaks, files_on};
ghost use Rattle.coded_volume.specs.Checking.{IsSiteFault};

use coded_volume::{Holders, info_at};
use site_model::{OpenFault, Site};
use std::alloc::Global;
use stripe_layout::Info;
use world_model::types::Ratio;

// The rule that the holders' texts tell one ratio.
const RULE_TEXTS: u8 = 4;

/// Tests the texts of all servers with a shard: they are to tell the ratio that the one at the lowest tells. So no loss
/// can make a lost volume coded.
pub(crate) fn test_ratios<T: Site>(
    alloc: Global,
    site: &mut T,
    volume: u32,
    holders: &Holders,
    ratio: Ratio,
) -> Result<(), OpenFault>
    requires servers { AreBelow (T.servers site.old) holders.now }
    requires holders { IsTrue T.tells → AreHolders (files_on (T.disk site.old).files volume) holders.now }
    requires first { IsTrue T.tells
        → ratio_at (files_on (T.disk site.old).files volume) holders.now.first ≡ ratio }
    ensures one { OnOk result (IsTrue T.tells → HasOneRatio (files_on (T.disk site.old).files volume)) }
    ensures broken { IfErr result (Breaks volume 4 (IsTrue T.tells
        → ¬ HasOneRatio (files_on (T.disk site.old).files volume))) }
    ensures same { IsTrue T.tells → T.disk site.new ≡ T.disk site.old }
    ensures runs { Calls T.counts T.servers site.old site.new (λ s. IsErrOf result (OpenFault.Fault s)) }
{
    for &server in &holders.others {
        let found = ratio_at(alloc, site, volume, server)?;
        if !is_same(found, ratio) {
            return Err(OpenFault::Unsound {
                volume,
                rule: RULE_TEXTS,
            });
        }
    }
    Ok(())
}

/// The ratio that the text at a server tells; one that is absent or refused counts as 10 and 4.
pub(crate) fn ratio_at<T: Site>(
    alloc: Global,
    site: &mut T,
    volume: u32,
    server: u32,
) -> Result<Ratio, OpenFault>
    requires { server < T.servers site.old }
    ensures ratio { IfOk result (λ ratio. IsTrue T.tells
        → ratio ≡ ratio_at (files_on (T.disk site.old).files volume) server) }
    ensures same { IsTrue T.tells → T.disk site.new ≡ T.disk site.old }
    ensures why { IfErr result IsSiteFault }
    ensures runs { Calls T.counts T.servers site.old site.new (λ s. IsErrOf result (OpenFault.Fault s)) }
{
    let info = info_at(alloc, site, volume, server)?;
    Ok(told_ratio(info))
}

fn told_ratio(info: Option<Info>) -> Ratio
    ensures { result ≡ told_ratio info }
{
    match info {
        Some(info) => info.geometry.ratio,
        None => Ratio::TenFour,
    }
}

fn is_same(found: Ratio, ratio: Ratio) -> bool
    ensures { IsTrue result ↔ (found ≡ ratio) }
{
    found == ratio
}
