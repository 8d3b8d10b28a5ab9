//! The two new files, written under temporary names.
ghost use Rattle.std.specs.Prelude.{◌≡◌, ◌≢◌, ◌<◌, ◌≤◌, ◌++◌, IsTrue, IsErr, OnOk, Some, length, string_bytes};
ghost use Rattle.site_model.specs.Disk.{firm_file};
ghost use Rattle.site_model.specs.Counts.{CallsAt, widest_piece};
ghost use Rattle.site_model.specs.Touches.{Touches, At};
ghost use Rattle.volume_vacuum.specs.Live.{raised};
ghost use Rattle.volume_vacuum.specs.Copies.{copied, EndWithin};
ghost use Rattle.volume_vacuum.specs.Home.{own_dat, cpd_temp_named, cpx_temp_named};

use crate::copying::copy_records;
use crate::home::Home;
use site_model::{Failed, Site};
use volume_forms::{Entry, SUPER_LENGTH};
use whole_file::{append_firm, clear};
use wire_num::{get_u16, put_u16};

// Where a super block has its revision.
const REVISION_AT: usize = 4;

/// The super block with its revision raised by one. The last one is followed by the first.
pub(crate) fn raise(front: [u8; SUPER_LENGTH]) -> [u8; SUPER_LENGTH]
    ensures { result ≡ raised front }
{
    let mut front = front;
    let revision = get_u16(&front, REVISION_AT);
    put_u16(&mut front, REVISION_AT, revision.wrapping_add(1));
    front
}

/// Writes the new data file: the super block, and the records of the entries.
pub(crate) fn write_dat<T: Site>(
    site: &mut T,
    home: &Home,
    front: &[u8],
    entries: &[Entry],
    buffer: &mut [u8],
) -> Result<(), Failed>
    requires server { home.now.server < T.servers site.old }
    requires within { IsTrue T.tells
        → EndWithin (length (own_dat (T.disk site.old).files home.now)) entries.now }
    requires apart { string_bytes home.now.dat ≢ string_bytes home.now.cpd_temp }
    requires short { length front.now ≤ widest_piece }
    requires room { 0 < length buffer.old }
    requires narrow { length buffer.old ≤ widest_piece }
    ensures effect { IsTrue T.tells → Touches (At (cpd_temp_named home.now)) (T.disk site.old)
        (T.disk site.new) }
    ensures done { OnOk result (IsTrue T.tells → (T.disk site.new).files (cpd_temp_named home.now)
        ≡ Some (firm_file (front.now
        ++ copied (own_dat (T.disk site.old).files home.now) entries.now))) }
    ensures runs { CallsAt T.counts T.servers home.now.server site.old site.new (IsErr result) }
{
    clear(site, home.server, &home.cpd_temp)?;
    site.append(home.server, &home.cpd_temp, front)?;
    copy_records(site, home, entries, buffer)?;
    site.sync(home.server, &home.cpd_temp)?;
    Ok(())
}

/// Writes the new index.
pub(crate) fn write_idx<T: Site>(site: &mut T, home: &Home, bytes: &[u8]) -> Result<(), Failed>
    requires server { home.now.server < T.servers site.old }
    ensures effect { IsTrue T.tells → Touches (At (cpx_temp_named home.now)) (T.disk site.old)
        (T.disk site.new) }
    ensures done { OnOk result (IsTrue T.tells → (T.disk site.new).files (cpx_temp_named home.now)
        ≡ Some (firm_file bytes.now)) }
    ensures runs { CallsAt T.counts T.servers home.now.server site.old site.new (IsErr result) }
{
    clear(site, home.server, &home.cpx_temp)?;
    append_firm(site, home.server, &home.cpx_temp, bytes)?;
    Ok(())
}
