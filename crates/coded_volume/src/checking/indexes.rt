//! Rule 5: all holders have the same sorted index, of records within the data file.
ghost use Rattle.std.specs.Prelude.{◌≡◌, ◌↔◌, IsTrue, IfOk, IfErr, IsErrOf};
ghost use Rattle.std.specs.FinMap.{values};
ghost use Rattle.site_model.specs.Counts.{Calls};
ghost use Rattle.volume_forms.specs.Kept.{entry_end, fields_size};
ghost use Rattle.image_meaning.specs.Sound.{HasOneIndex};
ghost use Rattle.coded_volume.specs.Checking.{AreBelow, AreHolders, Breaks, EndsWithin, HasIndexOf, files_on};

use crate::checking::comparing::are_same_files;
use crate::checking::holders::Holders;
use ecx_index::load;
use file_names::{Kind, final_name};
use needle_map::NeedleMap;
use site_model::{OpenFault, Site};
use std::alloc::Global;
use stripe_layout::Info;
use volume_forms::{Entry, OFFSET_UNIT};
use wire_num::record_length;

// The rule that all holders have the same sorted index.
const RULE_INDEXES: u8 = 5;

/// The index that all holders have.
pub(crate) fn check_indexes<T: Site>(
    alloc: Global,
    site: &mut T,
    volume: u32,
    holders: &Holders,
    info: &Info,
) -> Result<NeedleMap, OpenFault>
    requires servers { AreBelow (T.servers site.old) holders.now }
    requires holders { IsTrue T.tells → AreHolders (files_on (T.disk site.old).files volume) holders.now }
    ensures index { IfOk result (λ index. IsTrue T.tells
        → HasIndexOf (files_on (T.disk site.old).files volume) holders.now info.now index) }
    ensures broken { IfErr result (Breaks volume 5 (IsTrue T.tells
        → ¬ HasOneIndex (files_on (T.disk site.old).files volume) info.now)) }
    ensures same { IsTrue T.tells → T.disk site.new ≡ T.disk site.old }
    ensures runs { Calls T.counts T.servers site.old site.new (λ s. IsErrOf result (OpenFault.Fault s)) }
{
    let broken = OpenFault::Unsound {
        volume,
        rule: RULE_INDEXES,
    };
    let index = load(alloc, site, holders.first, volume)?;
    if !ends_within(&index, info.dat_size) {
        return Err(broken);
    }
    let name = final_name(alloc, volume, Kind::Ecx)?;
    for &server in &holders.others {
        if !are_same_files(alloc, site, &name, holders.first, server)? {
            return Err(broken);
        }
    }
    Ok(index)
}

// Whether each record of the index ends within so many bytes.
fn ends_within(index: &NeedleMap, size: u64) -> bool
    ensures { IsTrue result ↔ EndsWithin size (values index.now) }
{
    for entry in index.iter() {
        if end_of(entry) > size {
            return false;
        }
    }
    true
}

// Where the entry's record ends.
fn end_of(entry: Entry) -> u64
    ensures { result ≡ entry_end entry }
{
    u64::from(entry.offset) * OFFSET_UNIT + record_length(fields_size(entry))
}

// The size of the fields of the entry's record.
fn fields_size(entry: Entry) -> u32
    ensures { result ≡ fields_size entry.size }
{
    u32::try_from(entry.size).unwrap_or(0)
}
