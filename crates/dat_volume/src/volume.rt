//! A plain volume: a data file of records, and its index.
ghost use Rattle.site_model.specs.Counts.{widest_piece};
ghost use Rattle.world_model.specs.Sizes.{max_dat};

use crate::chain::SUPER_END;
use crate::cutting::cut_both;
use crate::entering::{enter, entry_of, numbers_have_room, settle, take_back};
use crate::holder::holder_at;
use crate::index_file::read_index;
use crate::opening::{count_entries, examine};
use crate::reading::{cookie_at, record_at};
use crate::writing::{NewNames, append_record, make_files};
use crate::{GetFault, VolumeFault};
use file_names::{Kind, final_name, temp_name};
use needle_map::NeedleMap;
use needle_record::{Record, record_size, write_record};
use site_model::{DeviceFault, OpenFault, Site};
use std::alloc::Global;
use volume_forms::{ENTRY_LENGTH, SuperBlock, write_entry, write_super};
use wire_num::record_length;

// The super block of a new volume.
const NEW_BLOCK: SuperBlock = SuperBlock {
    version: 3,
    placement: 0,
    ttl: 0,
    revision: 0,
};

/// A plain volume at a server: the index in memory, and the length of the data file.
#[derive(Drop)]
pub struct DatVolume {
    server: u32,
    volume: u32,
    index: NeedleMap,
    used: u64,
}

impl DatVolume {
    ghost use Rattle.std.specs.Prelude.{◌≡◌, ◌≢◌, ◌+◌, ◌<◌, ◌≤◌, ◌^◌, IsTrue, IsSome, IfSome, IfOk, IfErr, IsErrOf, OnOk, OnErr, MatchResult, List, Ok, length};
    ghost use Rattle.std.specs.FinMap.{empty, get};
    ghost use Rattle.site_model.specs.Counts.{CallsAt, TakesCalls};
    ghost use Rattle.world_model.specs.Sizes.{FitsRecord};
    ghost use Rattle.needle_record.specs.Spelling.{length_of_record};
    ghost use Rattle.needle_record.specs.Records.{Placed, fold_records};
    ghost use Rattle.image_meaning.specs.Files.{contents, files_of, has_index};
    ghost use Rattle.dat_volume.specs.Holding.{held_dat, held_index};
    ghost use Rattle.dat_volume.specs.Causes.{BlamesServer, ReadBlamesServer};
    ghost use Rattle.dat_volume.specs.Places.{dat_in, idx_in, idx_place};
    ghost use Rattle.dat_volume.specs.Writes.{NoneStands, Creates, IsCreated, Puts, IsPut, index_with};
    ghost use Rattle.dat_volume.specs.Needles.{header_damage, record_damage, IsRecordAt, IsCookieAt, TellsDamage, HasDifference, BeginsWith, IsNeedle, IsCookie, IsNoDamage};
    ghost use Rattle.dat_volume.specs.Opening.{counted, KeepsLengths, TellsCount, TellsRule, Blames, Opens, IsOpened, IsLoaded, Trims, AreTrimmed};

    /// Makes a volume without needles. No file of the volume stands at the server.
    pub fn create<T: Site>(
        alloc: Global,
        site: &mut T,
        server: u32,
        volume: u32,
    ) -> Result<DatVolume, VolumeFault>
        requires server { server < T.servers site.old }
        ensures made { IfOk result (λ made. made
            ≡ record { server = server; volume = volume; index = empty; used = 8 }) }
        ensures effect { IsTrue T.tells → Creates server volume (T.disk site.old) (T.disk site.new) }
        ensures done { OnOk result (IsTrue T.tells → NoneStands server volume (T.disk site.old).files
            → IsCreated server volume (T.disk site.new).files) }
        ensures memory { IsErrOf result VolumeFault.Memory → site.new ≡ site.old }
        ensures runs { CallsAt T.counts T.servers server site.old site.new
            (IsErrOf result (VolumeFault.Fault (record { server = server }))) }
        ensures blame { IfErr result (BlamesServer server) }
    {
        let names = NewNames {
            dat: final_name(alloc, volume, Kind::Dat)?,
            idx: final_name(alloc, volume, Kind::Idx)?,
            dat_temp: temp_name(alloc, volume, Kind::Dat)?,
            idx_temp: temp_name(alloc, volume, Kind::Idx)?,
        };
        match make_files(site, server, &names, &write_super(&NEW_BLOCK)) {
            Ok(()) => Ok(DatVolume {
                server,
                volume,
                index: NeedleMap::new(alloc),
                used: SUPER_END,
            }),
            Err(_) => Err(VolumeFault::Fault(DeviceFault { server })),
        }
    }

    /// Opens the volume whose index stands at the server. The tests are those of `check`, and both files are cut to
    /// the lengths that it answers. All memory is taken before the first cut. On `Memory` and `Unsound` nothing has
    /// changed.
    pub fn open<T: Site>(
        alloc: Global,
        site: &mut T,
        server: u32,
        volume: u32,
    ) -> Result<DatVolume, OpenFault>
        requires server { server < T.servers site.old }
        requires stands { IsTrue T.tells → IsSome ((T.disk site.old).files (idx_place server volume)) }
        ensures value { IfOk result (λ opened. (opened.server ≡ server) × (opened.volume ≡ volume)) }
        ensures effect { IsTrue T.tells → Opens server volume (T.disk site.old) (T.disk site.new) }
        ensures done { IfOk result (λ opened. IsTrue T.tells
            → IsOpened server volume opened (T.disk site.old).files (T.disk site.new).files) }
        ensures unsound { IfErr result (λ fault. Blames server volume fault
            × (IsTrue T.tells → TellsRule volume (dat_in (T.disk site.old).files server volume)
            (idx_in (T.disk site.old).files server volume) fault)) }
        ensures unchanged { IsTrue T.tells → IfErr result (λ fault. fault ≢ OpenFault.Fault server
            → T.disk site.new ≡ T.disk site.old) }
        ensures runs { CallsAt T.counts T.servers server site.old site.new
            (IsErrOf result (OpenFault.Fault server)) }
    {
        let dat = final_name(alloc, volume, Kind::Dat)?;
        let idx = final_name(alloc, volume, Kind::Idx)?;
        let kept = examine(alloc, site, server, volume, &dat, &idx)?;
        let index_end = kept.count * ENTRY_LENGTH as u64;
        let index = read_index(alloc, site, server, &idx, index_end)?;
        match cut_both(site, server, &dat, kept.end, &idx, index_end) {
            Ok(()) => Ok(DatVolume {
                server,
                volume,
                index,
                used: kept.end,
            }),
            Err(_) => Err(OpenFault::Fault { server }),
        }
    }

    /// The volume whose index stands at the server, by the tests of `check`: with the entries that are kept, and the
    /// length of the data file to keep. No file is changed.
    pub fn load<T: Site>(
        alloc: Global,
        site: &mut T,
        server: u32,
        volume: u32,
    ) -> Result<DatVolume, OpenFault>
        requires server { server < T.servers site.old }
        requires stands { IsTrue T.tells → IsSome ((T.disk site.old).files (idx_place server volume)) }
        ensures value { IfOk result (λ loaded. (loaded.server ≡ server) × (loaded.volume ≡ volume)) }
        ensures done { IfOk result (λ loaded. IsTrue T.tells
            → IsLoaded loaded (dat_in (T.disk site.old).files server volume)
            (idx_in (T.disk site.old).files server volume)) }
        ensures unsound { IfErr result (λ fault. Blames server volume fault
            × (IsTrue T.tells → TellsRule volume (dat_in (T.disk site.old).files server volume)
            (idx_in (T.disk site.old).files server volume) fault)) }
        ensures same { IsTrue T.tells → T.disk site.new ≡ T.disk site.old }
        ensures runs { CallsAt T.counts T.servers server site.old site.new
            (IsErrOf result (OpenFault.Fault server)) }
    {
        let dat = final_name(alloc, volume, Kind::Dat)?;
        let idx = final_name(alloc, volume, Kind::Idx)?;
        let kept = examine(alloc, site, server, volume, &dat, &idx)?;
        let index = read_index(alloc, site, server, &idx, kept.count * ENTRY_LENGTH as u64)?;
        Ok(DatVolume {
            server,
            volume,
            index,
            used: kept.end,
        })
    }

    /// The lengths to keep of the index of a server that is an index holder, and of its data file. The offsets of the
    /// index's entries are to follow each other, and their sizes to be those of records, but perhaps of the last
    /// entry, which is kept only where it follows and has its record. Of the last two entries that are kept the
    /// records are looked at: both are to have their own. `Unsound` has rule 1 where this is false, and else rule 3
    /// where the super block isn't accepted.
    pub fn check<T: Site>(
        alloc: Global,
        site: &mut T,
        server: u32,
        volume: u32,
    ) -> Result<(u64, u64), OpenFault>
        requires server { server < T.servers site.old }
        requires holder { IsTrue T.tells → IsTrue
            (has_index (files_of (contents (T.disk site.old).files) volume) server) }
        ensures lengths { IfOk result (λ lengths. IsTrue T.tells
            → KeepsLengths (held_dat (T.disk site.old).files server volume)
            (held_index (T.disk site.old).files server volume) lengths) }
        ensures unsound { IfErr result (λ fault. Blames server volume fault
            × (IsTrue T.tells → TellsRule volume (held_dat (T.disk site.old).files server volume)
            (held_index (T.disk site.old).files server volume) fault)) }
        ensures same { IsTrue T.tells → T.disk site.new ≡ T.disk site.old }
        ensures runs { CallsAt T.counts T.servers server site.old site.new
            (IsErrOf result (OpenFault.Fault server)) }
    {
        let holder = holder_at(alloc, site, server, volume)?;
        let kept = examine(alloc, site, server, volume, &holder.dat, &holder.idx)?;
        Ok((kept.end, kept.count * ENTRY_LENGTH as u64))
    }

    /// How many entries of the index are kept, by the tests of `check`, whatever the super block is. `Unsound` has
    /// rule 1.
    pub fn count<T: Site>(
        alloc: Global,
        site: &mut T,
        server: u32,
        volume: u32,
    ) -> Result<u64, OpenFault>
        requires server { server < T.servers site.old }
        requires holder { IsTrue T.tells → IsTrue
            (has_index (files_of (contents (T.disk site.old).files) volume) server) }
        ensures count { IfOk result (λ count. IsTrue T.tells
            → counted (held_dat (T.disk site.old).files server volume)
            (held_index (T.disk site.old).files server volume) ≡ Ok count) }
        ensures unsound { IfErr result (λ fault. Blames server volume fault
            × (IsTrue T.tells → TellsCount volume (held_dat (T.disk site.old).files server volume)
            (held_index (T.disk site.old).files server volume) fault)) }
        ensures same { IsTrue T.tells → T.disk site.new ≡ T.disk site.old }
        ensures runs { CallsAt T.counts T.servers server site.old site.new
            (IsErrOf result (OpenFault.Fault server)) }
    {
        let holder = holder_at(alloc, site, server, volume)?;
        let kept = count_entries(alloc, site, server, volume, &holder.dat, &holder.idx)?;
        Ok(kept.count)
    }

    /// Cuts the data file and then the index to these lengths, which `check` gave. A file that ends there stays as it
    /// is. All memory is taken before the first cut.
    pub fn trim<T: Site>(
        alloc: Global,
        site: &mut T,
        server: u32,
        volume: u32,
        dat_length: u64,
        idx_length: u64,
    ) -> Result<(), VolumeFault>
        requires server { server < T.servers site.old }
        requires dat_within { IsTrue T.tells → dat_length ≤ length
            (dat_in (T.disk site.old).files server volume) }
        requires idx_within { IsTrue T.tells → idx_length ≤ length
            (idx_in (T.disk site.old).files server volume) }
        ensures effect { IsTrue T.tells → Trims server volume dat_length idx_length (T.disk site.old)
            (T.disk site.new) }
        ensures done { OnOk result (IsTrue T.tells
            → AreTrimmed server volume dat_length idx_length (T.disk site.old).files
            (T.disk site.new).files) }
        ensures memory { IsErrOf result VolumeFault.Memory → site.new ≡ site.old }
        ensures runs { CallsAt T.counts T.servers server site.old site.new
            (IsErrOf result (VolumeFault.Fault (record { server = server }))) }
        ensures blame { IfErr result (BlamesServer server) }
    {
        let dat = final_name(alloc, volume, Kind::Dat)?;
        let idx = final_name(alloc, volume, Kind::Idx)?;
        match cut_both(site, server, &dat, dat_length, &idx, idx_length) {
            Ok(()) => Ok(()),
            Err(_) => Err(VolumeFault::Fault(DeviceFault { server })),
        }
    }

    /// Appends the record, of a needle or of a deletion, and then its entry. All memory is taken before the first
    /// write. On `Memory` nothing has changed.
    pub fn put<T: Site>(
        &mut self,
        alloc: Global,
        site: &mut T,
        needle: &Record,
    ) -> Result<(), VolumeFault>
        requires server { self.old.server < T.servers site.old }
        requires fits { IfSome needle.now.content FitsRecord }
        requires room { self.old.used + length_of_record needle.now ≤ max_dat }
        ensures ok { OnOk result (self.new
            ≡ record {
              server = self.old.server;
              volume = self.old.volume;
              index = index_with self.old.index
                  self.old.used needle.now;
              used = self.old.used + length_of_record needle.now;
            }) }
        ensures err { OnErr result (self.new ≡ self.old) }
        ensures effect { IsTrue T.tells → Puts self.old.server self.old.volume self.old.used needle.now
            (T.disk site.old) (T.disk site.new) }
        ensures done { OnOk result (IsTrue T.tells
            → IsPut self.old.server self.old.volume self.old.used needle.now (T.disk site.old).files
            (T.disk site.new).files) }
        ensures memory { IsErrOf result VolumeFault.Memory → site.new ≡ site.old }
        ensures calls { length_of_record needle.now ≤ widest_piece
            → TakesCalls 4 widest_piece (T.counts site.old) (T.counts site.new) }
        ensures runs { CallsAt T.counts T.servers self.old.server site.old site.new
            (IsErrOf result (VolumeFault.Fault (record { server = self.old.server }))) }
        ensures blame { IfErr result (BlamesServer self.old.server) }
    {
        let dat = final_name(alloc, self.volume, Kind::Dat)?;
        let idx = final_name(alloc, self.volume, Kind::Idx)?;
        let mut record = Vec::new(alloc);
        write_record(needle, &mut record)?;
        numbers_have_room(needle);
        let entry = entry_of(needle, self.used);
        let earlier = self.index.get(needle.id);
        enter(&mut self.index, needle, entry)?;
        let written = append_record(site, self.server, &dat, &idx, &record, &write_entry(&entry));
        if written.is_err() {
            take_back(&mut self.index, needle.id, earlier);
            return Err(VolumeFault::Fault(DeviceFault {
                server: self.server,
            }));
        }
        settle(&mut self.index, needle);
        self.used += record_length(record_size(needle));
        Ok(())
    }

    /// The needle of the id, if there is one.
    pub fn get<T: Site>(
        &self,
        alloc: Global,
        site: &mut T,
        id: u64,
    ) -> Result<Option<Record>, GetFault>
        requires server { self.now.server < T.servers site.old }
        ensures answer { MatchResult result (λ found. IsTrue T.tells
            → IsRecordAt (dat_in (T.disk site.old).files self.now.server self.now.volume)
            (get self.now.index id) found) (λ fault. HasDifference fault
            × (IsTrue T.tells → TellsDamage
            (record_damage (dat_in (T.disk site.old).files self.now.server self.now.volume))
            (get self.now.index id) fault)) }
        ensures needle { IsTrue T.tells → (ps : List Placed)
            → BeginsWith (dat_in (T.disk site.old).files self.now.server self.now.volume) self.now.index
            self.now.used ps → MatchResult result
            (λ found. IsNeedle id found (get (fold_records ps).needles id)) IsNoDamage }
        ensures same { IsTrue T.tells → T.disk site.new ≡ T.disk site.old }
        ensures runs { CallsAt T.counts T.servers self.now.server site.old site.new
            (IsErrOf result (GetFault.Fault (record { server = self.now.server }))) }
        ensures blame { IfErr result (ReadBlamesServer self.now.server) }
    {
        let Some(entry) = self.index.get(id) else {
            return Ok(None);
        };
        let name = final_name(alloc, self.volume, Kind::Dat)?;
        let record = record_at(alloc, site, self.server, &name, entry)?;
        Ok(Some(record))
    }

    /// The cookie of the id's needle, if there is one. It is read in the record's header alone.
    pub fn cookie<T: Site>(
        &self,
        alloc: Global,
        site: &mut T,
        id: u64,
    ) -> Result<Option<u32>, GetFault>
        requires server { self.now.server < T.servers site.old }
        ensures answer { MatchResult result (λ found. IsTrue T.tells
            → IsCookieAt (dat_in (T.disk site.old).files self.now.server self.now.volume)
            (get self.now.index id) found) (λ fault. HasDifference fault
            × (IsTrue T.tells → TellsDamage
            (header_damage (dat_in (T.disk site.old).files self.now.server self.now.volume))
            (get self.now.index id) fault)) }
        ensures needle { IsTrue T.tells → (ps : List Placed)
            → BeginsWith (dat_in (T.disk site.old).files self.now.server self.now.volume) self.now.index
            self.now.used ps → MatchResult result (λ found. IsCookie found (get (fold_records ps).needles id))
            IsNoDamage }
        ensures same { IsTrue T.tells → T.disk site.new ≡ T.disk site.old }
        ensures runs { CallsAt T.counts T.servers self.now.server site.old site.new
            (IsErrOf result (GetFault.Fault (record { server = self.now.server }))) }
        ensures blame { IfErr result (ReadBlamesServer self.now.server) }
    {
        let Some(entry) = self.index.get(id) else {
            return Ok(None);
        };
        let name = final_name(alloc, self.volume, Kind::Dat)?;
        let cookie = cookie_at(alloc, site, self.server, &name, entry)?;
        Ok(Some(cookie))
    }

    /// The server at which it stands.
    pub fn server(&self) -> u32
        ensures { result ≡ self.now.server }
    {
        self.server
    }

    /// The number of the volume.
    pub fn volume(&self) -> u32
        ensures { result ≡ self.now.volume }
    {
        self.volume
    }

    /// The length of the data file.
    pub fn used(&self) -> u64
        ensures { result ≡ self.now.used }
    {
        self.used
    }

    /// The entries of the needles that stand.
    pub fn index(&self) -> &NeedleMap
        ensures { result.now ≡ self.now.index }
    {
        &self.index
    }

    /// Sets the index and the length, of the files that its two files were replaced by.
    pub fn replace(&mut self, index: NeedleMap, used: u64)
        ensures { self.new
            ≡ record { server = self.old.server; volume = self.old.volume; index = index; used = used } }
    {
        self.index = index;
        self.used = used;
    }

    /// The volume with this index and this length. It is the one that an opening gives where the files have them.
    pub fn adopt(server: u32, volume: u32, index: NeedleMap, used: u64) -> DatVolume
        ensures { result ≡ record { server = server; volume = volume; index = index; used = used } }
    {
        DatVolume {
            server,
            volume,
            index,
            used,
        }
    }
}
