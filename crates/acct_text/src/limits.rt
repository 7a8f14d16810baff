// The limits that the whole suite keeps.

/// The most bytes that a table, login.defs(5) or the input of a command may have: 16 MiB.
pub const TABLE_LIMIT: u64 = 16_777_216;

/// The last day that is written as a date, 9999-12-31, in days since 1970-01-01.
pub const LAST_DAY: u64 = 2_932_896;
