//! What a volume and a needle can have at most.

/// The greatest length of a data file in bytes: offsets are 32 bits wide, and count units of eight.
pub const MAX_DAT: u64 = 1 << 35;

/// The length of a deletion's record.
pub const DELETION_LENGTH: u64 = 32;

/// The most bytes of a needle's data.
pub const MAX_DATA: usize = 1 << 21;

/// The most bytes of a needle's name, and of its media type.
pub const MAX_TEXT: usize = 255;

/// The most bytes of a needle's pairs.
pub const MAX_PAIRS: usize = 65535;

/// The latest time of a needle, in seconds since 1970.
pub const MAX_MODIFIED: u64 = (1 << 40) - 1;

/// The most bytes of a block of a coded volume's row.
pub const MAX_BLOCK: u32 = 1 << 30;
