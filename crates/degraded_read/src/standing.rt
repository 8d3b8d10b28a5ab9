//! How many shards a row of the table has.
ghost use Rattle.std.specs.Prelude.{◌≡◌, ◌≤◌, length};
ghost use Rattle.file_names.specs.Names.{max_shards};
ghost use Rattle.degraded_read.specs.Gathering.{standing_in};

use shard_table::Places;

/// How many of the first shards stand, by a row of the table.
pub fn count_standing(places: &Places, shards: u8) -> usize
    requires { shards ≤ max_shards }
    ensures { result ≡ length (standing_in places.now shards) }
{
    let mut count = 0;
    for shard in 0..shards {
        count += usize::from(places[usize::from(shard)].is_some());
    }
    count
}
