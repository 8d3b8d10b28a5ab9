//! Rule 6: each copy is of a shard of the text's ratio, and has the length that the text gives.
ghost use Rattle.std.specs.Prelude.{◌≡◌, ◌<◌, IsTrue, IfOk, IfErr, IsErrOf, OnOk, length, option_map};
ghost use Rattle.site_model.specs.Counts.{Calls};
ghost use Rattle.file_names.specs.Names.{max_shards};
ghost use Rattle.stripe_layout.specs.Laws.Info.{IsInRange};
ghost use Rattle.image_meaning.specs.Sound.{HasLengths};
ghost use Rattle.coded_volume.specs.Checking.{AreCopies, AreStanding, Breaks, IsSiteFault, files_on};

use crate::checking::ShardCopy;
use crate::checking::asking::size_at;
use file_names::{Kind, final_name};
use site_model::{OpenFault, Site};
use std::alloc::Global;
use stripe_layout::Info;

// The rule that each shard is one of the ratio, and has the length that the text gives.
const RULE_LENGTHS: u8 = 6;

/// Tests the number and the length of each copy.
pub(crate) fn check_lengths<T: Site>(
    alloc: Global,
    site: &mut T,
    volume: u32,
    copies: &[ShardCopy],
    info: &Info,
) -> Result<(), OpenFault>
    requires copies { AreCopies (T.servers site.old) copies.now }
    requires stand { IsTrue T.tells → AreStanding (files_on (T.disk site.old).files volume) copies.now }
    requires in_range { IsInRange info.now }
    ensures lengths { OnOk result (IsTrue T.tells
        → HasLengths (files_on (T.disk site.old).files volume) info.now) }
    ensures broken { IfErr result (Breaks volume 6 (IsTrue T.tells
        → ¬ HasLengths (files_on (T.disk site.old).files volume) info.now)) }
    ensures same { IsTrue T.tells → T.disk site.new ≡ T.disk site.old }
    ensures runs { Calls T.counts T.servers site.old site.new (λ s. IsErrOf result (OpenFault.Fault s)) }
{
    let count = info.geometry.ratio.shard_count();
    let length = info.geometry.shard_length(info.dat_size);
    for copy in copies {
        if copy.shard >= count || copy_size(alloc, site, volume, copy)? != Some(length) {
            return Err(OpenFault::Unsound {
                volume,
                rule: RULE_LENGTHS,
            });
        }
    }
    Ok(())
}

// The length of a copy in bytes.
fn copy_size<T: Site>(
    alloc: Global,
    site: &mut T,
    volume: u32,
    copy: &ShardCopy,
) -> Result<Option<u64>, OpenFault>
    requires server { copy.now.server < T.servers site.old }
    requires shard { copy.now.shard < max_shards }
    ensures size { IfOk result (λ size. IsTrue T.tells
        → size ≡ option_map length
        (files_on (T.disk site.old).files volume copy.now.server (Kind.Shard copy.now.shard))) }
    ensures same { IsTrue T.tells → T.disk site.new ≡ T.disk site.old }
    ensures why { IfErr result IsSiteFault }
    ensures runs { Calls T.counts T.servers site.old site.new (λ s. IsErrOf result (OpenFault.Fault s)) }
{
    let name = final_name(alloc, volume, Kind::Shard(copy.shard))?;
    size_at(site, copy.server, &name)
}
