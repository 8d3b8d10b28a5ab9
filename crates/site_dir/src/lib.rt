//! The outside as the machine has it: the folders `s00`, `s01`, .. of the current folder with standard output, a
//! source of standard input, and the machine's clock. They tell nothing of their contents: what a clause says of
//! them is what they count.
#![tactic(auto)]

mod clock;
mod counted;
mod disk_file;
mod files;
mod folders;
mod kept;
mod opening;
mod site;
mod source;
mod trouble;

pub use clock::SystemClock;
pub use site::DirSite;
pub use source::StdSource;
pub use trouble::Trouble;

#[cfg(test)]
mod tests;
