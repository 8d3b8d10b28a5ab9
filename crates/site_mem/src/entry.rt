//! One line of the record.
use crate::asked::Recorded;
use crate::losses::Losses;

/// What a site was asked, and what had been lost before.
#[derive(Drop)]
pub struct Entry {
    /// The number of the call, and 0 for what stood at first.
    pub number: u64,
    /// Whether it was carried out, and not only begun.
    pub is_done: bool,
    /// What was lost since the entry before it.
    pub lost: Losses,
    pub asked: Recorded,
}
