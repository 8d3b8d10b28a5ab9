//! The index in memory around the write of a record.
ghost use Rattle.std.specs.Prelude.{◌≡◌, ◌<◌, ◌^◌, IfSome, IsSome, OnOk, OnErr};
ghost use Rattle.std.specs.FinMap.{get};
ghost use Rattle.world_model.specs.Sizes.{FitsRecord, max_dat};
ghost use Rattle.needle_record.specs.Spelling.{HasRoom};
ghost use Rattle.needle_record.specs.Records as records;
ghost use Rattle.dat_volume.specs.Entering.{index_before, index_behind, index_again};

use needle_map::NeedleMap;
use needle_record::{Record, record_size};
use std::alloc::AllocError;
use volume_forms::{DELETED_SIZE, Entry, OFFSET_UNIT};

/// The entry of a record at this place.
pub(crate) fn entry_of(needle: &Record, place: u64) -> Entry
    requires fits { IfSome needle.now.content FitsRecord }
    requires within { place < max_dat }
    ensures { result ≡ records.entry_of (place, needle.now) }
{
    let size = match needle.content {
        Some(_) => record_size(needle) as i32,
        None => DELETED_SIZE,
    };
    Entry {
        id: needle.id,
        offset: (place / OFFSET_UNIT) as u32,
        size,
    }
}

/// Each number of a record has room in its field, as its type says.
pub(crate) fn numbers_have_room(needle: &Record)
    ensures { HasRoom needle.now }
{
    let _cookie = needle.cookie;
    let _id = needle.id;
    let _appended = needle.appended;
}

/// Sets the entry of a needle, before it is written, since that may take memory.
pub(crate) fn enter(index: &mut NeedleMap, needle: &Record, entry: Entry) -> Result<(), AllocError>
    ensures ok { OnOk result (index.new ≡ index_before index.old entry needle.now.content) }
    ensures err { OnErr result (index.new ≡ index.old) }
{
    match needle.content {
        Some(_) => index.put(entry),
        None => Ok(()),
    }
}

/// Takes the entry of a deletion's id out, once the deletion is written.
pub(crate) fn settle(index: &mut NeedleMap, needle: &Record)
    ensures { index.new ≡ index_behind index.old needle.now.id needle.now.content }
{
    if needle.content.is_none() {
        index.remove(needle.id);
    }
}

/// Gives the id its earlier entry again, where the write failed.
pub(crate) fn take_back(index: &mut NeedleMap, id: u64, earlier: Option<Entry>)
    requires own_id { IfSome earlier (λ entry. entry.id ≡ id) }
    requires stands { IfSome earlier (λ _. IsSome (get index.old id)) }
    ensures { index.new ≡ index_again index.old id earlier }
{
    match earlier {
        Some(entry) => {
            // The id has an entry, so this takes no memory.
            let replaced = index.put(entry);
            prove!(replaced.is_ok());
        }
        None => index.remove(id),
    }
}
