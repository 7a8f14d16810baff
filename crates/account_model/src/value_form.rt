// The forms that values of options have, as refusals tell them.

/// The form of a name, in short.
pub const NAME_FORM: &[u8] = b"1 to 32 letters, digits, _ . or -, not - first, not digits alone";

/// The form of a setting of login.defs.
pub const KEY_FORM: &[u8] = b"KEY=VALUE, with a key that accounts-useradd(8) lists";

/// The form of a home, a base folder and a shell.
pub(crate) const PATH_FORM: &[u8] = b"a path that begins with /, no : and no newline";

/// The form of a comment and a hash.
pub(crate) const FIELD_FORM: &[u8] = b"no : and no newline";

/// The form of a part of a comment.
pub(crate) const PART_FORM: &[u8] = b"no : , = and no newline";

/// The form of a UID and a GID.
pub(crate) const ID_FORM: &[u8] = b"a number from 0 to 4294967294";

/// The form of a range of subordinate IDs.
pub(crate) const RANGE_FORM: &[u8] = b"FIRST-LAST, two IDs";

/// The form of a number of days.
pub(crate) const DAYS_FORM: &[u8] = b"-1 or a number from 0 to 2147483647";

/// The form of a date.
pub(crate) const DATE_FORM: &[u8] = b"a date as 2026-01-31, days since 1970-01-01, or -1";
