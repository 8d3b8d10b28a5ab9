//! Ranges of a coded volume's data file, also with shards missing or on devices that fail.
//!
//! A piece of a shard is read from the shard itself, if it stands and its device answers, and else made from
//! as many other shards as the volume has data shards, the lowest first.
#![tactic(auto)]

mod fault;
mod gathering;
mod ranges;
mod reader;
mod reading;
mod restoring;
mod standing;

pub use fault::ReadFault;
pub use ranges::read_range;
pub use reader::Reader;
pub use standing::count_standing;

#[cfg(test)]
mod tests;
