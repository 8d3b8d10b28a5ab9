//! How far the entries of an index follow each other.
ghost use Rattle.std.specs.Prelude.{◌≡◌};
ghost use Rattle.dat_volume.specs.Opening.{is_size};
ghost use Rattle.dat_volume.specs.Scanning.{end_behind};

use crate::reading::place_of;
use volume_forms::{DELETED_SIZE, Entry, OFFSET_UNIT, SUPER_LENGTH};

/// Where a super block ends.
pub(crate) const SUPER_END: u64 = SUPER_LENGTH as u64;

/// What the entries so far of an index tell: how many there are, how many of them follow each other from the super
/// block on, and the last three.
#[derive(Clone, Copy)]
pub(crate) struct Chain {
    pub count: u64,
    pub chained: u64,
    pub last: Option<Entry>,
    pub before: Option<Entry>,
    pub earlier: Option<Entry>,
}

impl Chain {
    ghost use Rattle.std.specs.Prelude.{◌≡◌, ◌+◌, ◌<◌, ◌^◌};
    ghost use Rattle.dat_volume.specs.Scanning.{no_chain, with_entry};

    pub(crate) fn new() -> Chain
        ensures { result ≡ no_chain }
    {
        Chain {
            count: 0,
            chained: 0,
            last: None,
            before: None,
            earlier: None,
        }
    }

    /// One entry more.
    pub(crate) fn push(self, entry: Entry) -> Chain
        requires { self.count + 1 < 2 ^ 64 }
        ensures { result ≡ with_entry self entry }
    {
        let goes_on = self.chained == self.count
            && u64::from(entry.offset) * OFFSET_UNIT == end_behind(self.last)
            && has_size(entry);
        Chain {
            count: self.count + 1,
            chained: if goes_on {
                self.chained + 1
            } else {
                self.chained
            },
            last: Some(entry),
            before: self.last,
            earlier: self.before,
        }
    }
}

/// Where the entry's record ends, or the super block where there is none.
pub(crate) fn end_behind(entry: Option<Entry>) -> u64
    ensures { result ≡ end_behind entry }
{
    match entry {
        Some(entry) => {
            let place = place_of(entry);
            place.at + place.length
        }
        None => SUPER_END,
    }
}

/// Whether its size is that of a deletion or of a content.
pub(crate) fn has_size(entry: Entry) -> bool
    ensures { result ≡ is_size entry.size }
{
    entry.size > 0 || entry.size == DELETED_SIZE
}
