//! The index of a volume in memory: a map from the ids of needles to their index entries.
#![tactic(auto)]

ghost use Rattle.std.specs.Prelude.{◌≡◌, ◌==◌, IfSome, IsOk, IsSome, OnErr, OnOk};
ghost use Rattle.std.specs.FinMap as map;
ghost use Rattle.needle_map.specs.Entries as entries;

use std::alloc::{AllocError, Global};
use std::collections::{BTreeMap, btree_map};
use std::marker::Model;
use volume_forms::Entry;

// What an entry says beside its id.
#[derive(Clone, Copy, Debug)]
struct Place {
    offset: u32,
    size: i32,
}

/// A map from ids to entries, each under its own id.
///
/// Whatever the order in which ids come and go, a call costs the logarithm of their number. An entry takes 16 bytes,
/// and its share of a tree whose nodes are half full at least.
#[derive(Debug, Drop)]
pub struct NeedleMap {
    places: BTreeMap<u64, Place>,
}

impl Model for NeedleMap {
    ghost use Rattle.std.specs.Ordering.{nat_cmp};
    ghost use Rattle.std.specs.Coded.{coded_ℕ};
    ghost use Rattle.std.specs.FinMap as map;
    ghost use Rattle.volume_forms.specs.declared.Entry.{Entry};
    ghost use Rattle.needle_map.specs.Entries.{by_id, coded_entry};

    ghost Value = { map.FinMap nat_cmp Entry };

    ghost coded = { map.code coded_ℕ coded_entry };

    ghost view = { λ m. by_id m.places.entries };
}

impl NeedleMap {
    ghost use Rattle.needle_map.specs.Entries.{left_of};

    /// The empty map. It takes no memory.
    pub fn new(alloc: Global) -> NeedleMap
        ensures { result ≡ map.empty }
    {
        NeedleMap {
            places: BTreeMap::new(alloc),
        }
    }

    /// The entry of the id.
    pub fn get(&self, id: u64) -> Option<Entry>
        ensures value { result ≡ map.get self.now id }
        ensures own_id { IfSome result (λ entry. entry.id ≡ id) }
    {
        let place = self.places.get(&id)?;
        Some(entry_at(id, *place))
    }

    /// Sets the entry of its id. It takes memory for a new id alone.
    pub fn put(&mut self, entry: Entry) -> Result<(), AllocError>
        ensures ok { OnOk result (self.new ≡ map.insert self.old entry.id entry) }
        ensures err { OnErr result (self.new ≡ self.old) }
        ensures overwrite_succeeds { IsSome (map.get self.old entry.id) → IsOk result }
    {
        self.places.insert(entry.id, place_of(entry))?;
        Ok(())
    }

    /// Takes the entry of the id out, if it is there.
    pub fn remove(&mut self, id: u64)
        ensures { self.new ≡ map.remove self.old id }
    {
        let _place = self.places.remove(&id);
    }

    /// How many entries there are.
    pub fn len(&self) -> usize
        ensures { result ≡ map.len self.now }
    {
        self.places.len()
    }

    /// Whether there is no entry.
    pub fn is_empty(&self) -> bool
        ensures { result ≡ (map.len self.now == 0) }
    {
        self.places.len() == 0
    }

    /// The entries by rising id.
    pub fn iter(&self) -> ByRisingId<'_>
        ensures { left_of result ≡ map.values self.now }
    {
        ByRisingId {
            places: self.places.iter(),
        }
    }
}

/// Entries by rising id.
#[derive(Drop)]
pub struct ByRisingId<'a> {
    places: btree_map::Iter<'a, u64, Place>,
}

impl<'a> Iterator for ByRisingId<'a> {
    ghost use Rattle.std.specs.Iterator.{YieldsFirst, item_count};
    ghost use Rattle.needle_map.specs.Entries.{left_of};

    type Item = Entry;

    ghost next_gives = { YieldsFirst left_of };

    ghost remaining = { item_count left_of };

    fn next(&mut self) -> Option<Entry> {
        let (id, place) = self.places.next()?;
        Some(entry_at(*id, *place))
    }
}

// Where the entry's record is.
fn place_of(entry: Entry) -> Place
    ensures { entries.entry_at entry.id result ≡ entry }
{
    Place {
        offset: entry.offset,
        size: entry.size,
    }
}

// The entry of an id whose record is at this place.
fn entry_at(id: u64, place: Place) -> Entry
    ensures { result ≡ entries.entry_at id place }
{
    Entry {
        id,
        offset: place.offset,
        size: place.size,
    }
}

#[cfg(test)]
mod tests {
    use super::*;
    use std::test::Fail;

    const fn entry(id: u64, offset: u32, size: i32) -> Entry {
        Entry { id, offset, size }
    }

    #[test]
    fn entries_stand_by_rising_id(rt: HostRuntime) -> Result<(), Fail> {
        let mut map = NeedleMap::new(rt.alloc());
        for (id, offset) in [(7, 1), (300, 6), (4, 12), (9, 17)] {
            map.put(entry(id, offset, 14))?;
        }
        assert_eq!(rt; map.len(), 4);
        let mut entries = map.iter();
        assert_eq!(rt; entries.next(), Some(entry(4, 12, 14)));
        assert_eq!(rt; entries.last(), Some(entry(300, 6, 14)));
        Ok(())
    }

    #[test]
    fn the_last_entry_of_an_id_counts_until_it_is_removed(rt: HostRuntime) -> Result<(), Fail> {
        let mut map = NeedleMap::new(rt.alloc());
        map.put(entry(7, 1, 14))?;
        map.put(entry(8, 7, 20))?;
        map.put(entry(7, 14, 12))?;
        assert_eq!(rt; map.get(7), Some(entry(7, 14, 12)));
        map.remove(7);
        map.remove(6);
        assert_eq!(rt; map.get(7), None);
        assert_eq!(rt; map.get(8), Some(entry(8, 7, 20)));
        assert!(rt; !map.is_empty());
        Ok(())
    }
}
