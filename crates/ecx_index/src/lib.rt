//! The index of a coded volume: its entries by rising id, searched in the file or loaded whole.
#![tactic(auto)]

mod finding;
mod loading;

pub use finding::find;
pub use loading::load;

#[cfg(test)]
mod tests;
