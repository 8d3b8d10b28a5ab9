//! The steps by which a volume changes its form, and which of them keep what its files mean.
//!
//! A plan is a small value: it names a volume, where its files stand and what they are to become. Each of its steps
//! changes temporary files of the volume, or one file with its final name. Which step is next the plan's progress
//! alone tells.
#![tactic(auto)]

mod found;
mod legal;
#[cfg(test)]
mod list_tests;
mod listing;
mod may;
mod next;
#[cfg(test)]
mod next_tests;
mod pieces;
mod plan;
mod step;
#[cfg(test)]
mod tests;
mod walk;

pub use plan::{FileState, Plan, Progress, Stage};
pub use step::Step;
