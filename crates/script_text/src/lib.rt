//! The lines of a script and the texts of replies.
#![tactic(auto)]

mod lines;
mod options;
mod parts;
mod texts;
mod values;
mod words;

pub use lines::parse_line;
pub use texts::print_reply;
pub use values::{number, u32_word, u64_word};
pub use words::{is_blank, length_before, without_return};

/// Why a line isn't read.
#[derive(Clone, Copy, Debug, PartialEq, Eq)]
pub enum LineFault {
    /// The grammar has no such line.
    Syntax,
    /// Memory is wanting.
    Memory,
}

#[cfg(test)]
mod tests;
