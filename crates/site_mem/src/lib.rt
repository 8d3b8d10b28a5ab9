//! The outside in memory, for tests: a site that keeps its files and a record of all calls, a source and a clock.
#![tactic(auto)]

mod asked;
mod clock;
mod contents;
mod counting;
mod entry;
mod history;
mod listed;
mod losses;
mod mem;
mod source;
mod stored;
mod tear;

pub use clock::FixedClock;
pub use mem::MemSite;
pub use source::MemSource;
pub use tear::Tear;

#[cfg(test)]
mod tests;
