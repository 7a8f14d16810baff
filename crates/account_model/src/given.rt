//! An option as the words of a command give it.
use acct_text::Bytes;

/// An option as it was given (getopt_long(3)).
#[derive(Debug, Drop)]
pub struct Given {
    /// The byte behind its `-`, also where it was given by its long name.
    pub letter: u8,
    /// Its value, and none for an option that takes none.
    pub value: Option<Bytes>,
}
