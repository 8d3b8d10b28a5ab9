//! The vacuum of a plain volume.
ghost use Rattle.std.specs.Prelude.{◌≡◌, ◌<◌, ◌≤◌, ◌++◌, IsTrue, IsErr, IsErrOf, IfErr, OnOk, length};
ghost use Rattle.site_model.specs.Counts.{CallsAt, widest_piece};
ghost use Rattle.dat_volume.specs.Places.{dat_in};
ghost use Rattle.volume_vacuum.specs.Live.{raised};
ghost use Rattle.volume_vacuum.specs.Copies.{copied, EndWithin};
ghost use Rattle.volume_vacuum.specs.Home.{IsNamed, own_dat, Replaces, AreReplaced};
ghost use Rattle.volume_vacuum.specs.Vacuum.{Vacuums, IsVacuumed, Refuses};

use crate::checking::fault_of;
use crate::home::Home;
use crate::layout::Layout;
use crate::naming::name_files;
use crate::preparing::{Plan, prepare};
use crate::writing::{raise, write_dat, write_idx};
use dat_volume::{DatVolume, GetFault};
use site_model::{Failed, Site};
use std::alloc::Global;
use volume_forms::{Entry, SUPER_LENGTH};

/// Gives back the space of replaced and deleted needles. The live records are copied into a new data file in the order
/// of their places, and take the place of the old files in one moment. All memory is taken, and all headers of
/// live records are read, before the first write: on `Memory` and `Damaged` nothing has changed.
pub fn vacuum<T: Site>(alloc: Global, site: &mut T, volume: &mut DatVolume) -> Result<(), GetFault>
    requires server { volume.old.server < T.servers site.old }
    requires dat { IsTrue T.tells
        → 8 ≤ length (dat_in (T.disk site.old).files volume.old.server volume.old.volume) }
    ensures effect { IsTrue T.tells → Vacuums volume.old (T.disk site.old) (T.disk site.new) }
    ensures done { OnOk result (IsTrue T.tells
        → IsVacuumed volume.old volume.new (T.disk site.old).files (T.disk site.new).files) }
    ensures own { (volume.new.server ≡ volume.old.server) × (volume.new.volume ≡ volume.old.volume) }
    ensures err { IfErr result (Refuses T.tells volume.old volume.new (T.disk site.old) (T.disk site.new)) }
    ensures runs { CallsAt T.counts T.servers volume.old.server site.old site.new
        (IsErrOf result (GetFault.Fault (record { server = volume.old.server }))) }
{
    // Asked for what it promises of files: they hold bytes, so what is read of them can be written again.
    let _servers = site.servers();
    let Plan {
        home,
        entries,
        front,
        layout,
        mut buffer,
    } = prepare(alloc, site, volume)?;
    let Layout { index, bytes, end } = layout;
    match replace_files(site, &home, front, &entries, &bytes, &mut buffer) {
        Ok(()) => {
            volume.replace(index, end);
            Ok(())
        }
        Err(_) => Err(fault_of(&home)),
    }
}

// Writes the new files, and gives them the names of the old ones.
fn replace_files<T: Site>(
    site: &mut T,
    home: &Home,
    front: [u8; SUPER_LENGTH],
    entries: &[Entry],
    bytes: &[u8],
    buffer: &mut [u8],
) -> Result<(), Failed>
    requires server { home.now.server < T.servers site.old }
    requires named { IsNamed home.now }
    requires within { IsTrue T.tells
        → EndWithin (length (own_dat (T.disk site.old).files home.now)) entries.now }
    requires room { 0 < length buffer.old }
    requires narrow { length buffer.old ≤ widest_piece }
    ensures effect { IsTrue T.tells → Replaces home.now.server home.now.volume
        (raised front ++ copied (own_dat (T.disk site.old).files home.now) entries.now) bytes.now
        (T.disk site.old) (T.disk site.new) }
    ensures done { OnOk result (IsTrue T.tells → AreReplaced home.now.server home.now.volume
        (raised front ++ copied (own_dat (T.disk site.old).files home.now) entries.now) bytes.now
        (T.disk site.new).files) }
    ensures runs { CallsAt T.counts T.servers home.now.server site.old site.new (IsErr result) }
{
    write_dat(site, home, &raise(front), entries, buffer)?;
    write_idx(site, home, bytes)?;
    name_files(site, home)?;
    Ok(())
}
