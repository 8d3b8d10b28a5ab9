//! What a vacuum reads before it writes: the super block, and the header of each record that it copies.
ghost use Rattle.std.specs.Prelude.{◌≡◌, ◌<◌, ◌≤◌, IsTrue, IfOk, IfErr, IsErrOf, OnOk, None, length, take};
ghost use Rattle.site_model.specs.Counts.{CallsAt};
ghost use Rattle.dat_volume.specs.Causes.{ReadBlamesServer};
ghost use Rattle.dat_volume.specs.Needles.{header_damage, HasDifference, IsNoDamage};
ghost use Rattle.volume_vacuum.specs.Copies.{headers_damage, TellsFirst};
ghost use Rattle.volume_vacuum.specs.Home.{own_dat};

use crate::home::Home;
use dat_volume::{GetFault, check_header, place_of};
use needle_record::HEADER_LENGTH;
use site_model::{DeviceFault, Site};
use volume_forms::{Entry, SUPER_LENGTH};
use world_model::types::What;

/// The first bytes of the data file, which are its super block.
pub(crate) fn front_of<T: Site>(site: &mut T, home: &Home) -> Result<[u8; SUPER_LENGTH], GetFault>
    requires server { home.now.server < T.servers site.old }
    requires within { IsTrue T.tells → 8 ≤ length (own_dat (T.disk site.old).files home.now) }
    ensures front { IfOk result (λ front. IsTrue T.tells
        → front ≡ take 8 (own_dat (T.disk site.old).files home.now)) }
    ensures same { IsTrue T.tells → T.disk site.new ≡ T.disk site.old }
    ensures fault { IfErr result (λ fault. ReadBlamesServer home.now.server fault × IsNoDamage fault) }
    ensures runs { CallsAt T.counts T.servers home.now.server site.old site.new
        (IsErrOf result (GetFault.Fault (record { server = home.now.server }))) }
{
    let mut front = [0; SUPER_LENGTH];
    match site.read(home.server, &home.dat, 0, &mut front) {
        Ok(()) => Ok(front),
        Err(_) => Err(fault_of(home)),
    }
}

/// Sees that the record of each entry ends within the data file, and begins with the entry's id and size.
pub(crate) fn check_entries<T: Site>(
    site: &mut T,
    home: &Home,
    entries: &[Entry],
) -> Result<(), GetFault>
    requires server { home.now.server < T.servers site.old }
    ensures ok { OnOk result (IsTrue T.tells
        → headers_damage (own_dat (T.disk site.old).files home.now) entries.now ≡ None) }
    ensures told { IfErr result (λ fault. IsTrue T.tells
        → TellsFirst (headers_damage (own_dat (T.disk site.old).files home.now) entries.now) fault) }
    ensures same { IsTrue T.tells → T.disk site.new ≡ T.disk site.old }
    ensures fault { IfErr result (λ fault. ReadBlamesServer home.now.server fault × HasDifference fault) }
    ensures runs { CallsAt T.counts T.servers home.now.server site.old site.new
        (IsErrOf result (GetFault.Fault (record { server = home.now.server }))) }
{
    let size = dat_length(site, home)?;
    let mut rest = entries;
    while let Some((entry, more)) = rest.split_first() {
        check_entry(site, home, *entry, size)?;
        rest = more;
    }
    Ok(())
}

fn dat_length<T: Site>(site: &mut T, home: &Home) -> Result<u64, GetFault>
    requires server { home.now.server < T.servers site.old }
    ensures length { IfOk result (λ n. IsTrue T.tells
        → n ≡ length (own_dat (T.disk site.old).files home.now)) }
    ensures same { IsTrue T.tells → T.disk site.new ≡ T.disk site.old }
    ensures fault { IfErr result (λ fault. ReadBlamesServer home.now.server fault × IsNoDamage fault) }
    ensures runs { CallsAt T.counts T.servers home.now.server site.old site.new
        (IsErrOf result (GetFault.Fault (record { server = home.now.server }))) }
{
    match site.size(home.server, &home.dat) {
        Ok(size) => Ok(size.unwrap_or(0)),
        Err(_) => Err(fault_of(home)),
    }
}

// The same of one record, in a data file of this size.
fn check_entry<T: Site>(site: &mut T, home: &Home, entry: Entry, size: u64) -> Result<(), GetFault>
    requires server { home.now.server < T.servers site.old }
    requires long { IsTrue T.tells → size ≡ length (own_dat (T.disk site.old).files home.now) }
    ensures ok { OnOk result (IsTrue T.tells
        → header_damage (own_dat (T.disk site.old).files home.now) entry ≡ None) }
    ensures told { IfErr result (λ fault. IsTrue T.tells
        → TellsFirst (header_damage (own_dat (T.disk site.old).files home.now) entry) fault) }
    ensures same { IsTrue T.tells → T.disk site.new ≡ T.disk site.old }
    ensures fault { IfErr result (λ fault. ReadBlamesServer home.now.server fault × HasDifference fault) }
    ensures runs { CallsAt T.counts T.servers home.now.server site.old site.new
        (IsErrOf result (GetFault.Fault (record { server = home.now.server }))) }
{
    let place = place_of(entry);
    let end = place.at + place.length;
    if end > size {
        return Err(past_end(end, size));
    }
    let mut header = [0; HEADER_LENGTH];
    match site.read(home.server, &home.dat, place.at, &mut header) {
        Ok(()) => check_header(&header, entry),
        Err(_) => Err(fault_of(home)),
    }
}

/// A fault of the volume's server.
pub(crate) fn fault_of(home: &Home) -> GetFault
    ensures { result ≡ GetFault.Fault (record { server = home.now.server }) }
{
    GetFault::Fault(DeviceFault {
        server: home.server,
    })
}

/// A record that ends behind what it is to end in or at.
pub(crate) fn past_end(end: u64, bound: u64) -> GetFault
    ensures { result ≡ GetFault.Damaged What.End end bound }
{
    GetFault::Damaged {
        what: What::End,
        a: end,
        b: bound,
    }
}
