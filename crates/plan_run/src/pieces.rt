//! Pieces of lists, which are filled into a room.
ghost use Rattle.std.specs.Prelude.{◌≡◌, ◌≤◌, ◌+◌, ◌*◌, ◌++◌, flat_map, length, take};
ghost use Rattle.wire_num.specs.Pairs.{journal_bytes, pair_bytes};
ghost use Rattle.volume_forms.specs.Forms.{entry_bytes};
ghost use Rattle.plan_steps.specs.Planned.{deletions};

use needle_record::put_deletion;
use volume_forms::{ENTRY_LENGTH, Entry, write_entry};
use wire_num::put_u64;
use world_model::limits::DELETION_LENGTH;

/// The most entries, pairs or deletions of one piece.
pub(crate) const LIST_PIECE: usize = 2048;

/// The length of a pair of a journal, which has an id twice.
pub(crate) const PAIR_LENGTH: usize = 16;

const HALF_LENGTH: usize = 8;

/// The length of a deletion.
pub(crate) const DELETION: usize = DELETION_LENGTH as usize;

// Puts an id twice.
fn put_pair(room: &mut [u8], at: usize, id: u64)
    requires { at + 16 ≤ length room.old }
    ensures pair { take (at + 16) room.new ≡ take at room.old ++ pair_bytes id }
    ensures size { length room.new ≡ length room.old }
{
    put_u64(room, at, id);
    put_u64(room, at + HALF_LENGTH, id);
}

/// Fills the front of the room with the pairs of these ids.
pub(crate) fn fill_pairs(ids: &[u64], room: &mut [u8])
    requires { 16 * length ids.now ≤ length room.old }
    ensures pairs { take (16 * length ids.now) room.new ≡ journal_bytes ids.now }
    ensures size { length room.new ≡ length room.old }
{
    for (number, id) in ids.iter().enumerate() {
        put_pair(room, PAIR_LENGTH * number, *id);
    }
}

/// Fills the front of the room with the deletions of these ids.
pub(crate) fn fill_deletions(ids: &[u64], room: &mut [u8])
    requires { 32 * length ids.now ≤ length room.old }
    ensures deletions { take (32 * length ids.now) room.new ≡ deletions ids.now }
    ensures size { length room.new ≡ length room.old }
{
    for (number, id) in ids.iter().enumerate() {
        put_deletion(room, DELETION * number, *id);
    }
}

// Puts an index entry.
fn put_entry(room: &mut [u8], at: usize, entry: &Entry)
    requires { at + 16 ≤ length room.old }
    ensures entry { take (at + 16) room.new ≡ take at room.old ++ entry_bytes entry.now }
    ensures size { length room.new ≡ length room.old }
{
    room[at..at + ENTRY_LENGTH].copy_from_slice(&write_entry(entry));
}

/// Fills the front of the room with these index entries.
pub(crate) fn fill_entries(entries: &[Entry], room: &mut [u8])
    requires { 16 * length entries.now ≤ length room.old }
    ensures entries { take (16 * length entries.now) room.new ≡ flat_map entry_bytes entries.now }
    ensures size { length room.new ≡ length room.old }
{
    for (number, entry) in entries.iter().enumerate() {
        put_entry(room, ENTRY_LENGTH * number, entry);
    }
}
