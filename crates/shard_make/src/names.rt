//! The names of the file that shards are made of and of those that are made.
ghost use Rattle.std.specs.Prelude.{◌≡◌, ◌+◌, ◌%◌, ◌<◌, ◌≤◌, IfOk, map};
ghost use Rattle.std.specs.String.{string_bytes};
ghost use Rattle.site_model.specs.Counts.{max_servers};
ghost use Rattle.world_model.specs.Ratios.{data_count, parity_count};
ghost use Rattle.shard_make.specs.Names.{AreTempNames, dat_name};

use file_names::{Kind, final_name, temp_name};
use std::alloc::{AllocError, Global};
use world_model::types::Ratio;

/// The names of a volume's data file and of the temporary files of its shards. The data file stands at the
/// server `home`, and the shards go to the servers in turn.
#[derive(Drop)]
pub struct ShardNames {
    pub(crate) volume: u32,
    pub(crate) ratio: Ratio,
    pub(crate) home: u32,
    pub(crate) servers: u32,
    pub(crate) dat: String,
    pub(crate) shards: Vec<String>,
    ghost few: { servers ≤ max_servers },
    ghost home_there: { home < servers },
    ghost dat_is: { string_bytes dat ≡ dat_name volume },
    ghost shards_are: { AreTempNames volume (data_count ratio + parity_count ratio)
        (map string_bytes shards.items) },
}

impl ShardNames {
    ghost use Rattle.shard_make.specs.Made.{IsFor};

    /// The names for an encode of a volume at `home`, where there are so many servers.
    pub fn new(
        alloc: Global,
        volume: u32,
        ratio: Ratio,
        home: u32,
        servers: u32,
    ) -> Result<ShardNames, AllocError>
        requires few { servers ≤ max_servers }
        requires home { home < servers }
        ensures { IfOk result (IsFor volume ratio home servers) }
    {
        let dat = final_name(alloc, volume, Kind::Dat)?;
        let shards = temp_names(alloc, volume, ratio)?;
        Ok(ShardNames {
            volume,
            ratio,
            home,
            servers,
            dat,
            shards,
        })
    }

    /// The server that a shard goes to.
    pub(crate) fn target(&self, shard: u8) -> u32
        ensures value { result ≡ shard % self.now.servers }
        ensures there { result < self.now.servers }
    {
        u32::from(shard) % self.servers
    }
}

// The temporary names of all shards.
fn temp_names(alloc: Global, volume: u32, ratio: Ratio) -> Result<Vec<String>, AllocError>
    ensures { IfOk result (λ names. AreTempNames volume (data_count ratio + parity_count ratio)
        (map string_bytes names.items)) }
{
    let mut names = Vec::new(alloc);
    for shard in 0..ratio.shard_count() {
        names.push(temp_name(alloc, volume, Kind::Shard(shard))?)?;
    }
    Ok(names)
}
