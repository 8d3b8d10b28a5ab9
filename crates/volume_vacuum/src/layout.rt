//! Where the records of live entries stand once no space is between them.
ghost use Rattle.std.specs.Prelude.{◌≡◌, ◌+◌, ◌*◌, ◌^◌, ◌<◌, ◌≤◌, ◌++◌, IfOk, IfErr, OnOk, None};
ghost use Rattle.std.specs.FinMap.{empty, insert, values};
ghost use Rattle.volume_forms.specs.Forms.{entry_bytes};
ghost use Rattle.dat_volume.specs.Reading.{Tells};
ghost use Rattle.dat_volume.specs.Needles.{HasDifference};
ghost use Rattle.volume_vacuum.specs.Copies.{IsByPlace, entry_moved, moved_entries, moved_end, with_all, index_bytes, overlap};

use crate::checking::past_end;
use dat_volume::{GetFault, place_of};
use needle_map::NeedleMap;
use std::alloc::{AllocError, Global};
use volume_forms::{Entry, OFFSET_UNIT, SUPER_LENGTH, write_entry};

/// The index of the new data file, in memory and as bytes, and where that file ends.
#[derive(Drop)]
pub(crate) struct Layout {
    pub index: NeedleMap,
    pub bytes: Vec<u8>,
    pub end: u64,
}

/// The entries of the index in the order of their records' places.
pub(crate) fn entries_by_place(alloc: Global, index: &NeedleMap) -> Result<Vec<Entry>, AllocError>
    ensures { IfOk result (λ entries. IsByPlace index.now entries.items) }
{
    let mut entries = entries_of(alloc, index)?;
    entries.sort_by_key(|entry| entry.offset)?;
    Ok(entries)
}

fn entries_of(alloc: Global, index: &NeedleMap) -> Result<Vec<Entry>, AllocError>
    ensures { IfOk result (λ entries. entries.items ≡ values index.now) }
{
    let mut entries = Vec::new(alloc);
    for entry in index.iter() {
        entries.push(entry)?;
    }
    Ok(entries)
}

/// Lays the records of the entries out, one after the other behind a super block. None may begin before the one before
/// it ends, so that none moves to a later place.
pub(crate) fn lay_out(alloc: Global, entries: &[Entry]) -> Result<Layout, GetFault>
    ensures index { IfOk result (λ layout. layout.index ≡ with_all empty (moved_entries 8 entries.now)) }
    ensures bytes { IfOk result (λ layout. layout.bytes.items ≡ index_bytes (moved_entries 8 entries.now)) }
    ensures end { IfOk result (λ layout. layout.end ≡ moved_end 8 entries.now) }
    ensures apart { IfOk result (λ _. overlap 8 entries.now ≡ None) }
    ensures told { IfErr result (λ fault. Tells (overlap 8 entries.now) fault × HasDifference fault) }
{
    let mut layout = Layout {
        index: NeedleMap::new(alloc),
        bytes: Vec::new(alloc),
        end: SUPER_LENGTH as u64,
    };
    let mut behind = SUPER_LENGTH as u64;
    let mut rest = entries;
    while let Some((entry, more)) = rest.split_first() {
        let place = place_of(*entry);
        if place.at < behind {
            return Err(past_end(behind, place.at));
        }
        append(&mut layout, *entry, place.length)?;
        behind = place.at + place.length;
        rest = more;
    }
    Ok(layout)
}

// Puts the record of the entry, of this length, behind the others.
fn append(layout: &mut Layout, entry: Entry, length: u64) -> Result<(), AllocError>
    requires earlier { layout.old.end ≤ 8 * entry.offset }
    requires fits { layout.old.end + length < 2 ^ 64 }
    ensures index { OnOk result (layout.new.index
        ≡ insert layout.old.index entry.id (entry_moved layout.old.end entry)) }
    ensures bytes { OnOk result (layout.new.bytes.items
        ≡ layout.old.bytes.items ++ entry_bytes (entry_moved layout.old.end entry)) }
    ensures end { OnOk result (layout.new.end ≡ layout.old.end + length) }
{
    let moved = Entry {
        id: entry.id,
        offset: (layout.end / OFFSET_UNIT) as u32,
        size: entry.size,
    };
    layout.index.put(moved)?;
    layout.bytes.extend_from_slice(&write_entry(&moved))?;
    layout.end += length;
    Ok(())
}
