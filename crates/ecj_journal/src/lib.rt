//! Journals of deleted ids. Each id stands twice, so a stop leaves it whole or not at all.
#![tactic(auto)]

mod appending;
mod reading;
mod writing;

pub use appending::append_pair;
pub use reading::{Journal, read_pairs};
pub use writing::write_pairs;

#[cfg(test)]
mod tests;
