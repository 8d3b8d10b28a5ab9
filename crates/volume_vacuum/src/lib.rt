//! The vacuum of a plain volume: its live records alone are written again, and take the place of its files.
#![tactic(auto)]

mod checking;
mod copying;
mod home;
mod layout;
mod naming;
mod preparing;
mod volume;
mod writing;

pub use volume::vacuum;

#[cfg(test)]
mod tests;
