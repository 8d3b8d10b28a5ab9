//! The needles of a coded volume, read from its shards.
ghost use Rattle.std.specs.Prelude.{◌≡◌, ◌+◌, ◌*◌, ◌<◌, ◌≤◌, ◌^◌, IsTrue, IfOk, IfErr, IsErrOf, OnOk, MatchResult, Ok, length};
ghost use Rattle.wire_num.specs.Numbers.{number_of};
ghost use Rattle.site_model.specs.Counts.{Calls};
ghost use Rattle.needle_record.specs.Reading.{needle_at};
ghost use Rattle.needle_record.specs.Spelling.{length_of_record};
ghost use Rattle.shard_table.specs.Table.{row_of};
ghost use Rattle.dat_volume.specs.Needles.{bytes_from, HasDifference, IsCookie, IsNeedle, IsNoDamage};
ghost use Rattle.degraded_read.specs.Reading.{HasEnoughShards, HasPlaces};
ghost use Rattle.coded_volume.specs.Agrees.{IfAgrees, own_dat, own_needle};
ghost use Rattle.coded_volume.specs.Reading.{IsFront, IsLookedUp, IsReadFault, IsSearchFault, TakesFewCalls, TakesFront, TakesLookUp, TellsFew, length_by};

use crate::CodedVolume;
use crate::searching::find_anywhere;
use dat_volume::{GetFault, Place, check_header, damage, place_of};
use degraded_read::Reader;
use file_names::{Kind, final_name};
use needle_record::{HEADER_LENGTH, Record, read_header, take_record};
use shard_table::ShardTable;
use site_model::Site;
use std::alloc::Global;
use volume_forms::Entry;
use whole_file::zeros;
use world_model::types::What;

impl CodedVolume {
    /// The needle of the id, if there is one. A deleted id takes no call.
    pub fn get<T: Site>(
        &self,
        alloc: Global,
        site: &mut T,
        table: &ShardTable,
        id: u64,
    ) -> Result<Option<Record>, GetFault>
        requires servers { table.now.servers ≡ T.servers site.old }
        requires enough { HasEnoughShards self.now.info (row_of table.now self.now.volume) }
        requires placed { IsTrue T.tells → HasPlaces (T.disk site.old).files self.now.volume
            self.now.info (row_of table.now self.now.volume) }
        ensures answer { MatchResult result
            (λ found. IfAgrees (IsTrue T.tells) self.now (T.disk site.old).files
            (IsNeedle id found (own_needle self.now (T.disk site.old).files id)))
            (λ fault. HasDifference fault
            × IfAgrees (IsTrue T.tells) self.now (T.disk site.old).files (IsNoDamage fault)) }
        ensures few { IfErr result (TellsFew self.now (row_of table.now self.now.volume)
            (T.counts site.old) (T.counts site.new)) }
        ensures same { IsTrue T.tells → T.disk site.new ≡ T.disk site.old }
        ensures calls { IsTrue T.tells → TakesFewCalls self.now (row_of table.now self.now.volume)
            (T.disk site.old).files id length_by (T.counts site.old) (T.counts site.new) }
        ensures runs { Calls T.counts T.servers site.old site.new
            (λ s. IsErrOf result (GetFault.Fault (record { server = s }))) }
    {
        let Some(found) = self.look_up(alloc, site, table, id)? else {
            return Ok(None);
        };
        let record = self.record_at(alloc, site, table, found)?;
        Ok(Some(record))
    }

    /// The cookie of the id's needle, if there is one. It is read in the record's header alone.
    pub fn cookie<T: Site>(
        &self,
        alloc: Global,
        site: &mut T,
        table: &ShardTable,
        id: u64,
    ) -> Result<Option<u32>, GetFault>
        requires servers { table.now.servers ≡ T.servers site.old }
        requires enough { HasEnoughShards self.now.info (row_of table.now self.now.volume) }
        requires placed { IsTrue T.tells → HasPlaces (T.disk site.old).files self.now.volume
            self.now.info (row_of table.now self.now.volume) }
        ensures answer { MatchResult result
            (λ found. IfAgrees (IsTrue T.tells) self.now (T.disk site.old).files
            (IsCookie found (own_needle self.now (T.disk site.old).files id)))
            (λ fault. HasDifference fault
            × IfAgrees (IsTrue T.tells) self.now (T.disk site.old).files (IsNoDamage fault)) }
        ensures few { IfErr result (TellsFew self.now (row_of table.now self.now.volume)
            (T.counts site.old) (T.counts site.new)) }
        ensures same { IsTrue T.tells → T.disk site.new ≡ T.disk site.old }
        ensures calls { IsTrue T.tells → TakesFewCalls self.now (row_of table.now self.now.volume)
            (T.disk site.old).files id (λ _. 16) (T.counts site.old) (T.counts site.new) }
        ensures runs { Calls T.counts T.servers site.old site.new
            (λ s. IsErrOf result (GetFault.Fault (record { server = s }))) }
    {
        let Some(found) = self.look_up(alloc, site, table, id)? else {
            return Ok(None);
        };
        let cookie = self.cookie_at(alloc, site, table, found)?;
        Ok(Some(cookie))
    }

    // The entry of the id, unless it is deleted.
    fn look_up<T: Site>(
        &self,
        alloc: Global,
        site: &mut T,
        table: &ShardTable,
        id: u64,
    ) -> Result<Option<Entry>, GetFault>
        requires servers { table.now.servers ≡ T.servers site.old }
        requires enough { HasEnoughShards self.now.info (row_of table.now self.now.volume) }
        ensures found { IfOk result (IsLookedUp (IsTrue T.tells) self.now
            (row_of table.now self.now.volume) (T.disk site.old).files id) }
        ensures fault { IfErr result (IsSearchFault self.now (row_of table.now self.now.volume)
            (T.counts site.old) (T.counts site.new)) }
        ensures same { IsTrue T.tells → T.disk site.new ≡ T.disk site.old }
        ensures calls { IsTrue T.tells → TakesLookUp self.now (row_of table.now self.now.volume)
            (T.disk site.old).files id (T.counts site.old) (T.counts site.new) }
        ensures runs { Calls T.counts T.servers site.old site.new
            (λ s. IsErrOf result (GetFault.Fault (record { server = s }))) }
    {
        if self.deleted.contains(&id) {
            return Ok(None);
        }
        let index = final_name(alloc, self.volume, Kind::Ecx)?;
        let shards = self.info.geometry.ratio.shard_count();
        match find_anywhere(site, table, self.volume, shards, &index, id) {
            Ok(found) => Ok(found),
            Err(device) => Err(GetFault::Fault(device)),
        }
    }

    // Reads the record of the entry, whole.
    fn record_at<T: Site>(
        &self,
        alloc: Global,
        site: &mut T,
        table: &ShardTable,
        entry: Entry,
    ) -> Result<Record, GetFault>
        requires servers { table.now.servers ≡ T.servers site.old }
        requires enough { HasEnoughShards self.now.info (row_of table.now self.now.volume) }
        requires placed { IsTrue T.tells → HasPlaces (T.disk site.old).files self.now.volume
            self.now.info (row_of table.now self.now.volume) }
        ensures read { IfOk result (λ r. IfAgrees (IsTrue T.tells) self.now (T.disk site.old).files
            (needle_at (bytes_from (own_dat self.now (T.disk site.old).files) entry)
            ≡ Ok (r, length_of_record r))) }
        ensures fault { IfErr result (IsReadFault (IsTrue T.tells) self.now
            (row_of table.now self.now.volume) (T.disk site.old).files entry
            (T.counts site.old) (T.counts site.new)) }
        ensures same { IsTrue T.tells → T.disk site.new ≡ T.disk site.old }
        ensures calls { TakesFront self.now (row_of table.now self.now.volume) entry
            (length_by entry) (T.counts site.old) (T.counts site.new) }
        ensures runs { Calls T.counts T.servers site.old site.new
            (λ s. IsErrOf result (GetFault.Fault (record { server = s }))) }
    {
        let length = place_of(entry).length as usize;
        let bytes = self.front_at(alloc, site, table, entry, length)?;
        match take_record(alloc, bytes) {
            Ok((record, _)) => Ok(record),
            Err(fault) => Err(damage(fault)),
        }
    }

    // Reads the cookie of the entry's record, by the header alone.
    fn cookie_at<T: Site>(
        &self,
        alloc: Global,
        site: &mut T,
        table: &ShardTable,
        entry: Entry,
    ) -> Result<u32, GetFault>
        requires servers { table.now.servers ≡ T.servers site.old }
        requires enough { HasEnoughShards self.now.info (row_of table.now self.now.volume) }
        requires placed { IsTrue T.tells → HasPlaces (T.disk site.old).files self.now.volume
            self.now.info (row_of table.now self.now.volume) }
        ensures cookie { IfOk result (λ cookie. IfAgrees (IsTrue T.tells) self.now
            (T.disk site.old).files (cookie
            ≡ number_of 4 (bytes_from (own_dat self.now (T.disk site.old).files) entry))) }
        ensures fault { IfErr result (IsReadFault (IsTrue T.tells) self.now
            (row_of table.now self.now.volume) (T.disk site.old).files entry
            (T.counts site.old) (T.counts site.new)) }
        ensures same { IsTrue T.tells → T.disk site.new ≡ T.disk site.old }
        ensures calls { TakesFront self.now (row_of table.now self.now.volume) entry 16
            (T.counts site.old) (T.counts site.new) }
        ensures runs { Calls T.counts T.servers site.old site.new
            (λ s. IsErrOf result (GetFault.Fault (record { server = s }))) }
    {
        let bytes = self.front_at(alloc, site, table, entry, HEADER_LENGTH)?;
        Ok(read_header(&bytes).cookie)
    }

    // The first bytes of the entry's record. The record ends within the data file, and its header is the entry's.
    fn front_at<T: Site>(
        &self,
        alloc: Global,
        site: &mut T,
        table: &ShardTable,
        entry: Entry,
        count: usize,
    ) -> Result<Vec<u8>, GetFault>
        requires servers { table.now.servers ≡ T.servers site.old }
        requires enough { HasEnoughShards self.now.info (row_of table.now self.now.volume) }
        requires placed { IsTrue T.tells → HasPlaces (T.disk site.old).files self.now.volume
            self.now.info (row_of table.now self.now.volume) }
        requires header { 16 ≤ count }
        requires within { count ≤ length_by entry }
        ensures front { IfOk result (λ bytes. IsFront (IsTrue T.tells) self.now
            (T.disk site.old).files entry count bytes.items) }
        ensures fault { IfErr result (IsReadFault (IsTrue T.tells) self.now
            (row_of table.now self.now.volume) (T.disk site.old).files entry
            (T.counts site.old) (T.counts site.new)) }
        ensures same { IsTrue T.tells → T.disk site.new ≡ T.disk site.old }
        ensures calls { TakesFront self.now (row_of table.now self.now.volume) entry count
            (T.counts site.old) (T.counts site.new) }
        ensures runs { Calls T.counts T.servers site.old site.new
            (λ s. IsErrOf result (GetFault.Fault (record { server = s }))) }
    {
        let place = place_of(entry);
        check_end(place, self.info.dat_size)?;
        let mut bytes = zeros(alloc, count)?;
        let mut reader = Reader::for_ranges(alloc, self.volume, count)?;
        let read = reader.read_range(site, table, &self.info, place.at, &mut bytes);
        if let Err(device) = read {
            return Err(GetFault::Fault(device));
        }
        check_header(&bytes, entry)?;
        Ok(bytes)
    }
}

// The record ends within the data file.
fn check_end(place: Place, dat_size: u64) -> Result<(), GetFault>
    requires fits { place.at + place.length < 2 ^ 64 }
    ensures within { OnOk result (place.at + place.length ≤ dat_size) }
    ensures told { IfErr result (λ fault.
        (fault ≡ GetFault.Damaged What.End (place.at + place.length) dat_size)
        × (dat_size < place.at + place.length)) }
{
    let end = place.at + place.length;
    if end > dat_size {
        return Err(GetFault::Damaged {
            what: What::End,
            a: end,
            b: dat_size,
        });
    }
    Ok(())
}
