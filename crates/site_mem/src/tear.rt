//! What a stop makes of bytes that aren't firm.

/// What stays of the bytes that aren't firm.
#[derive(Clone, Copy, Debug, PartialEq, Eq)]
pub enum Tear {
    /// None of them, and no file that was never synced.
    None,
    /// All of them.
    All,
    /// The first half of them in each file, rounded down.
    Half,
    /// As many, each of them this one.
    Fill(u8),
}
