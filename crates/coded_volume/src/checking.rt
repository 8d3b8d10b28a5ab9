//! The tests of a coded volume at all servers with a copy of a shard: rules 4, 5, 6 and 8, in this order.
ghost use Rattle.std.specs.Prelude.{◌≡◌, IsTrue, IfOk, IfErr, IsErrOf};
ghost use Rattle.site_model.specs.Counts.{Calls};
ghost use Rattle.image_meaning.specs.Sound.{IsCoded};
ghost use Rattle.coded_volume.specs.Checking.{AreCopies, AreStanding, HasRoom, IsChecked, TellsFirst, TellsRule, files_on};

mod asking;
mod comparing;
mod holders;
mod indexes;
mod journals;
mod lengths;
mod texts;

pub use crate::checking::asking::{piece_at, size_at};
pub use crate::checking::holders::{Holders, holders_of};
use crate::checking::indexes::check_indexes;
use crate::checking::journals::check_journals;
use crate::checking::lengths::check_lengths;
use crate::checking::texts::check_texts;
pub use crate::checking::texts::info_at;
use site_model::{OpenFault, Site};
use std::alloc::Global;
use stripe_layout::Info;

/// A copy of a shard at a server.
#[derive(Clone, Copy, Debug, PartialEq, Eq)]
pub struct ShardCopy {
    pub server: u32,
    pub shard: u8,
}

/// What a coded volume's files say that passes.
#[derive(Debug, Drop)]
pub struct Checked {
    /// What its text says.
    pub info: Info,
    /// The ids of the longest journal.
    pub deleted: Vec<u64>,
}

/// Tests a coded volume, of which these are all copies of shards that stand. Each holder is to have the same
/// text that is accepted; the same sorted index, of records within the data file; shards of the text's ratio
/// and length; and the longest journal, or it without its last pair, of ids of the index, each once, with
/// room for their deletions and at most 16 bytes behind. `Unsound` has the first of rules 4, 5, 6 and 8
/// that is false. Files are read in pieces of at most 65,536 bytes, and none is changed.
pub fn check<T: Site>(
    alloc: Global,
    site: &mut T,
    volume: u32,
    copies: &[ShardCopy],
) -> Result<Checked, OpenFault>
    requires copies { AreCopies (T.servers site.old) copies.now }
    requires stand { IsTrue T.tells → AreStanding (files_on (T.disk site.old).files volume) copies.now }
    requires coded { IsTrue T.tells → IsCoded (files_on (T.disk site.old).files volume) }
    ensures checked { IfOk result (λ checked. IsTrue T.tells
        → IsChecked (files_on (T.disk site.old).files volume) checked.info checked.deleted.items) }
    ensures room { IfOk result (λ checked. HasRoom checked.info checked.deleted.items) }
    ensures unsound { IfErr result (λ fault. TellsRule volume fault
        × (IsTrue T.tells → TellsFirst (files_on (T.disk site.old).files volume) fault)) }
    ensures same { IsTrue T.tells → T.disk site.new ≡ T.disk site.old }
    ensures runs { Calls T.counts T.servers site.old site.new (λ s. IsErrOf result (OpenFault.Fault s)) }
{
    let holders = holders_of(alloc, copies)?;
    let info = check_texts(alloc, site, volume, &holders)?;
    let index = check_indexes(alloc, site, volume, &holders, &info)?;
    check_lengths(alloc, site, volume, copies, &info)?;
    let deleted = check_journals(alloc, site, volume, &holders, &info, index)?;
    Ok(Checked { info, deleted })
}
