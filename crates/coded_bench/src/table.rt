//! The shards of a volume that stand in the servers' folders.
ghost use Rattle.std.specs.Prelude.{◌≡◌, ◌<◌, ◌≤◌, IfOk, IfSome, IsTrue, OnOk};
ghost use Rattle.file_names.specs.Names.{max_shards};
ghost use Rattle.shard_table.specs.Table.{IsAdded};
ghost use Rattle.coded_volume.specs.Opening.{HasSomeShard};

use crate::stop::stopped;
use file_names::{FileName, Kind, MAX_SHARDS};
use shard_table::{Places, ShardTable};
use site_dir::DirSite;
use site_model::Site;
use std::io;

/// The table of the volume's shards, each at the lowest server that has it.
pub fn table_of(
    rt: &HostRuntime,
    site: &mut DirSite<&HostRuntime>,
    volume: u32,
) -> io::Result<ShardTable>
    ensures table { IfOk result (λ table. table.servers ≡ site.new.servers) }
{
    let servers = site.servers();
    let mut table = ShardTable::new(rt.alloc(), servers);
    table.add_volume(volume)?;
    for server in 0..servers {
        add_shards(rt, site, &mut table, volume, server)?;
    }
    Ok(table)
}

// Enters the volume's shards at a server, but for those that a lower one has.
fn add_shards(
    rt: &HostRuntime,
    site: &mut DirSite<&HostRuntime>,
    table: &mut ShardTable,
    volume: u32,
    server: u32,
) -> io::Result<()>
    requires server { server < site.old.servers }
    requires same { table.old.servers ≡ site.old.servers }
    requires added { IsAdded table.old volume }
    ensures servers { site.new.servers ≡ site.old.servers }
    ensures same { table.new.servers ≡ table.old.servers }
    ensures added { IsAdded table.new volume }
{
    let Ok(names) = site.list(rt.alloc(), server) else {
        return Err(stopped("a folder isn't listed"));
    };
    for name in &names {
        if let Some(shard) = shard_of(name.as_str(), volume) {
            enter(table, volume, shard, server);
        }
    }
    Ok(())
}

// Which of the volume's shards has the name, if one has.
fn shard_of(name: &str, volume: u32) -> Option<u8>
    ensures { IfSome result (λ shard. shard < max_shards) }
{
    match file_names::read(name)? {
        FileName {
            volume: of,
            kind: Kind::Shard(shard),
            temp: false,
        } if of == volume && shard < MAX_SHARDS => Some(shard),
        _ => None,
    }
}

fn enter(table: &mut ShardTable, volume: u32, shard: u8, server: u32)
    requires server { server < table.old.servers }
    requires shard { shard < max_shards }
    requires added { IsAdded table.old volume }
    ensures same { table.new.servers ≡ table.old.servers }
    ensures added { IsAdded table.new volume }
{
    if table.place(volume, shard).is_none() {
        table.set(volume, shard, Some(server));
    }
}

/// Whether a shard of the row stands.
pub fn has_some(places: &Places) -> bool
    ensures { IsTrue result → HasSomeShard places.now }
{
    for shard in 0..MAX_SHARDS {
        if places[usize::from(shard)].is_some() {
            return true;
        }
    }
    false
}
