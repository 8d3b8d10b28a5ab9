//! All that a vacuum reads and takes before its first write.
ghost use Rattle.std.specs.Prelude.{◌≡◌, ◌<◌, ◌≤◌, IsTrue, IfOk, IfErr, IsErrOf, length};
ghost use Rattle.site_model.specs.Counts.{CallsAt, widest_piece};
ghost use Rattle.dat_volume.specs.Places.{dat_in};
ghost use Rattle.volume_vacuum.specs.Vacuum.{IsPrepared, IsRefusal};

use crate::checking::{check_entries, front_of};
use crate::home::{Home, home_of};
use crate::layout::{Layout, entries_by_place, lay_out};
use dat_volume::{DatVolume, GetFault};
use site_model::{PIECE, Site};
use std::alloc::{AllocError, Global};
use volume_forms::{Entry, SUPER_LENGTH};

/// What is to be written: the live entries in the order of their places, the super block of the data file, and the
/// new index. Beside it room for a piece of the data file.
#[derive(Drop)]
pub(crate) struct Plan {
    pub home: Home,
    pub entries: Vec<Entry>,
    pub front: [u8; SUPER_LENGTH],
    pub layout: Layout,
    pub buffer: Vec<u8>,
}

/// Takes all memory, and looks at all headers of live records.
pub(crate) fn prepare<T: Site>(
    alloc: Global,
    site: &mut T,
    volume: &DatVolume,
) -> Result<Plan, GetFault>
    requires server { volume.now.server < T.servers site.old }
    requires dat { IsTrue T.tells
        → 8 ≤ length (dat_in (T.disk site.old).files volume.now.server volume.now.volume) }
    ensures plan { IfOk result (IsPrepared T.tells volume.now (T.disk site.old).files) }
    ensures err { IfErr result (IsRefusal T.tells volume.now (T.disk site.old).files) }
    ensures same { IsTrue T.tells → T.disk site.new ≡ T.disk site.old }
    ensures runs { CallsAt T.counts T.servers volume.now.server site.old site.new
        (IsErrOf result (GetFault.Fault (record { server = volume.now.server }))) }
{
    let home = home_of(alloc, volume.server(), volume.volume())?;
    let entries = entries_by_place(alloc, volume.index())?;
    let layout = lay_out(alloc, &entries)?;
    let buffer = piece_buffer(alloc)?;
    let front = front_of(site, &home)?;
    check_entries(site, &home, &entries)?;
    Ok(Plan {
        home,
        entries,
        front,
        layout,
        buffer,
    })
}

fn piece_buffer(alloc: Global) -> Result<Vec<u8>, AllocError>
    ensures { IfOk result (λ buffer. length buffer.items ≡ widest_piece) }
{
    vec![in alloc; 0; PIECE]
}
