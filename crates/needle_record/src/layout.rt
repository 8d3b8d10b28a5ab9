//! Where the fixed fields of a record stand, and how long they are, in bytes.

/// Cookie, id and size.
pub const HEADER_LENGTH: usize = 16;

/// Where a record has its id.
pub const ID_AT: usize = 4;

/// Where a record has the size of its body.
pub const SIZE_AT: usize = 12;

/// Where the data of a record stands, behind header and length.
pub const DATA_AT: usize = 20;

/// Where the append time of a record without body stands, behind header and checksum.
pub const APPENDED_AT: usize = 20;

/// The bytes of a body beside its data and its optional parts: the data's length and the flags.
pub const PLAIN_BODY_LENGTH: u32 = 5;

pub const TEXT_PREFIX: u32 = 1;

pub const PAIRS_PREFIX: u32 = 2;

pub const MODIFIED_LENGTH: u32 = 5;

pub const TTL_LENGTH: u32 = 2;
