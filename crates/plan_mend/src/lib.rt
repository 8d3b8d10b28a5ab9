//! The plans of a rebuild and of a balance, made of what a coded volume is and of where its shards stand.
#![tactic(auto)]

mod balance;
mod fill;
mod rebuild;
#[cfg(test)]
mod tests;

pub use balance::balance_plan;
pub use rebuild::rebuild_plan;
