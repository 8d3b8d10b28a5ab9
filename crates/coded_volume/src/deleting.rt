//! A deleted id in the journals of all holders.
ghost use Rattle.std.specs.Prelude.{◌≡◌, ◌<◌, ◌∷◌, ◌++◌, ℕ, List, [], IsTrue, IfErr, IsErrOf, OnOk, Some};
ghost use Rattle.site_model.specs.Disk.{bytes_of, firm_file};
ghost use Rattle.site_model.specs.Counts.{Calls};
ghost use Rattle.wire_num.specs.Pairs.{pair_bytes};
ghost use Rattle.shard_table.specs.Table.{row_of};
ghost use Rattle.coded_volume.specs.Deleting.{AppendsAt, AppendsEverywhere, AreJournals, AreFirmJournals, HasShard, WritesRose};

use ecj_journal::append_pair;
use shard_table::ShardTable;
use site_model::{DeviceFault, Site};

/// Puts the id behind the journal of each server with a shard of the volume, one after the other.
pub(crate) fn append_everywhere<T: Site>(
    site: &mut T,
    table: &ShardTable,
    volume: u32,
    name: &str,
    id: u64,
) -> Result<(), DeviceFault>
    requires { table.now.servers ≡ T.servers site.old }
    ensures effect { IsTrue T.tells → AppendsEverywhere (T.servers site.old) (row_of table.now volume)
        name.now id (T.disk site.old) (T.disk site.new) }
    ensures done { OnOk result (IsTrue T.tells → (ids : List ℕ)
        → AreJournals (T.servers site.old) (row_of table.now volume) name.now ids (T.disk site.old).files
        → AreFirmJournals (T.servers site.old) (row_of table.now volume)
        name.now (ids ++ id ∷ []) (T.disk site.new).files) }
    ensures runs { Calls T.counts T.servers site.old site.new
        (λ s. IsErrOf result (record { server = s })) }
    ensures write_cause { IfErr result (λ fault. WritesRose fault.server (T.counts site.old)
        (T.counts site.new)) }
{
    for server in 0..table.servers() {
        append_at(site, table, volume, server, name, id)?;
    }
    Ok(())
}

// The same at one server, if it has a shard of the volume.
fn append_at<T: Site>(
    site: &mut T,
    table: &ShardTable,
    volume: u32,
    server: u32,
    name: &str,
    id: u64,
) -> Result<(), DeviceFault>
    requires servers { table.now.servers ≡ T.servers site.old }
    requires server { server < T.servers site.old }
    ensures effect { IsTrue T.tells
        → AppendsAt (row_of table.now volume) server name.now id (T.disk site.old) (T.disk site.new) }
    ensures done { OnOk result (HasShard (row_of table.now volume) server → IsTrue T.tells
        → (T.disk site.new).files (server, name.now)
        ≡ Some (firm_file (bytes_of ((T.disk site.old).files (server, name.now)) ++ pair_bytes id))) }
    ensures runs { Calls T.counts T.servers site.old site.new
        (λ s. IsErrOf result (record { server = s })) }
    ensures write_cause { IfErr result (λ fault. WritesRose fault.server (T.counts site.old)
        (T.counts site.new)) }
{
    if table.count(volume, server) == 0 {
        return Ok(());
    }
    append_pair(site, server, name, id)
}
