// The limits of what stands in the folder beside the tables.

/// The greatest number that a lock may have; the least is 1.
pub const GREATEST_LOCK: u64 = 999_999_999_999_999_999;

/// The most bytes of a lock that are read.
pub const LOCK_LIMIT: u64 = 256;

/// The most bytes of an intent that are read: six tables of 16 MiB, and 1,024 bytes around them.
pub const INTENT_LIMIT: u64 = 100_664_320;
