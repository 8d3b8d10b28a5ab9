//! A coded volume: its needles are read from its shards, and their deletions stand in journals.
#![tactic(auto)]

mod checking;
mod deleting;
mod opening;
mod reading;
mod searching;
mod volume;

pub use checking::{Checked, Holders, ShardCopy, check, holders_of, info_at, piece_at, size_at};
pub use volume::CodedVolume;

#[cfg(test)]
mod tests;
