//! Makes the shards of a coded volume from its data file, one piece of each at a time.
#![tactic(auto)]

mod making;
mod names;
mod reading;
#[cfg(test)]
mod tests;
mod writing;

pub use making::{make_piece, row_place};
pub use names::ShardNames;
