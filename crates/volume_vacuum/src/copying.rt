//! Records copied from a data file to the one that takes its place.
ghost use Rattle.std.specs.Prelude.{◌≡◌, ◌≢◌, ◌+◌, ◌^◌, ◌<◌, ◌≤◌, min, IsTrue, IfOk, IsErr, OnOk, length, take, drop, string_bytes};
ghost use Rattle.site_model.specs.Counts.{CallsAt, widest_piece};
ghost use Rattle.site_model.specs.Touches.{Touches, At};
ghost use Rattle.volume_vacuum.specs.Copies.{copied, range_bytes, EndWithin, Grows, Joins};
ghost use Rattle.volume_vacuum.specs.Home.{own_dat, cpd_temp_named};

use crate::home::Home;
use dat_volume::{Place, place_of};
use site_model::{Failed, Site};
use volume_forms::Entry;

/// Appends the records of the entries, in their order and byte for byte. Those that follow each other are copied as one
/// range.
pub(crate) fn copy_records<T: Site>(
    site: &mut T,
    home: &Home,
    entries: &[Entry],
    buffer: &mut [u8],
) -> Result<(), Failed>
    requires server { home.now.server < T.servers site.old }
    requires within { IsTrue T.tells
        → EndWithin (length (own_dat (T.disk site.old).files home.now)) entries.now }
    requires apart { string_bytes home.now.dat ≢ string_bytes home.now.cpd_temp }
    requires room { 0 < length buffer.old }
    requires narrow { length buffer.old ≤ widest_piece }
    ensures effect { IsTrue T.tells → Touches (At (cpd_temp_named home.now)) (T.disk site.old)
        (T.disk site.new) }
    ensures done { OnOk result (IsTrue T.tells → Grows (cpd_temp_named home.now)
        (copied (own_dat (T.disk site.old).files home.now) entries.now) (T.disk site.old).files
        (T.disk site.new).files) }
    ensures runs { CallsAt T.counts T.servers home.now.server site.old site.new (IsErr result) }
{
    let mut range = Place { at: 0, length: 0 };
    let mut rest = entries;
    while let Some((entry, more)) = rest.split_first() {
        range = join_or_copy(site, home, range, place_of(*entry), buffer)?;
        rest = more;
    }
    copy_range(site, home, range, buffer)
}

// The range with the next one behind it, where that follows. Else it is copied, and the next one is the answer.
fn join_or_copy<T: Site>(
    site: &mut T,
    home: &Home,
    range: Place,
    next: Place,
    buffer: &mut [u8],
) -> Result<Place, Failed>
    requires server { home.now.server < T.servers site.old }
    requires within { IsTrue T.tells
        → range.at + range.length ≤ length (own_dat (T.disk site.old).files home.now) }
    requires fits { (range.at + range.length < 2 ^ 63) × (next.at + next.length < 2 ^ 63) }
    requires apart { string_bytes home.now.dat ≢ string_bytes home.now.cpd_temp }
    requires room { (0 < length buffer.old) × (length buffer.old ≤ widest_piece) }
    ensures effect { IsTrue T.tells → Touches (At (cpd_temp_named home.now)) (T.disk site.old)
        (T.disk site.new) }
    ensures kept { IfOk result (λ kept. (kept.at + kept.length ≡ next.at + next.length)
        × (IsTrue T.tells → Joins (cpd_temp_named home.now) (own_dat (T.disk site.old).files home.now)
        range next kept (T.disk site.old).files (T.disk site.new).files)) }
    ensures long { length buffer.new ≡ length buffer.old }
    ensures runs { CallsAt T.counts T.servers home.now.server site.old site.new (IsErr result) }
{
    if range.at + range.length == next.at {
        return Ok(Place {
            at: range.at,
            length: range.length + next.length,
        });
    }
    copy_range(site, home, range, buffer)?;
    Ok(next)
}

// Appends what stands at the place.
fn copy_range<T: Site>(
    site: &mut T,
    home: &Home,
    place: Place,
    buffer: &mut [u8],
) -> Result<(), Failed>
    requires server { home.now.server < T.servers site.old }
    requires within { IsTrue T.tells
        → place.at + place.length ≤ length (own_dat (T.disk site.old).files home.now) }
    requires fits { place.at + place.length < 2 ^ 63 }
    requires apart { string_bytes home.now.dat ≢ string_bytes home.now.cpd_temp }
    requires room { 0 < length buffer.old }
    requires narrow { length buffer.old ≤ widest_piece }
    ensures effect { IsTrue T.tells → Touches (At (cpd_temp_named home.now)) (T.disk site.old)
        (T.disk site.new) }
    ensures done { OnOk result (IsTrue T.tells → Grows (cpd_temp_named home.now)
        (range_bytes (own_dat (T.disk site.old).files home.now) place) (T.disk site.old).files (T.disk site.new).files) }
    ensures long { length buffer.new ≡ length buffer.old }
    ensures runs { CallsAt T.counts T.servers home.now.server site.old site.new (IsErr result) }
{
    let mut done = 0;
    while done < place.length {
        let count = read_piece(site, home, place.at + done, place.length - done, buffer)?;
        site.append(home.server, &home.cpd_temp, &buffer[..count])?;
        done += count as u64;
    }
    Ok(())
}

// Fills the front of the buffer with what stands from `at` on, of at most so many bytes, and answers how many it has.
fn read_piece<T: Site>(
    site: &mut T,
    home: &Home,
    at: u64,
    most: u64,
    buffer: &mut [u8],
) -> Result<usize, Failed>
    requires server { home.now.server < T.servers site.old }
    requires within { IsTrue T.tells → at + most ≤ length (own_dat (T.disk site.old).files home.now) }
    requires narrow { length buffer.old ≤ widest_piece }
    ensures count { IfOk result (λ count. count ≡ min (length buffer.old) most) }
    ensures long { length buffer.new ≡ length buffer.old }
    ensures bytes { IfOk result (λ count. IsTrue T.tells
        → take count buffer.new ≡ take count (drop at (own_dat (T.disk site.old).files home.now))) }
    ensures same { IsTrue T.tells → T.disk site.new ≡ T.disk site.old }
    ensures runs { CallsAt T.counts T.servers home.now.server site.old site.new (IsErr result) }
{
    let count = buffer.len().min(most as usize);
    site.read(home.server, &home.dat, at, &mut buffer[..count])?;
    Ok(count)
}
