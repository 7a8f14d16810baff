//! An option of a tool and a rule between options, as the tool's row lists them (getopt_long(3)).
ghost use Rattle.std.specs.Prelude.{◌≡◌};
ghost use Rattle.account_model.specs.SeenRows.{form_of};
ghost use Rattle.account_model.specs.Spelling.{has_long_name};

use OptionForm::{Flag, ShortFlag, Value};

/// An option that a tool takes.
#[derive(Clone, Copy)]
pub enum OptionForm {
    /// `-x` or `--name`.
    Flag(u8, &'static str),
    /// `-x V` or `--name V`, and the form of V as a refusal tells it.
    Value(u8, &'static str, &'static [u8]),
    /// `-x`, which has no long name.
    ShortFlag(u8),
}

/// A test of options, which names them by their letters.
#[derive(Clone, Copy)]
pub enum Test {
    /// Not both.
    NotBoth(u8, u8),
    /// The first only with the second.
    OnlyWith(u8, u8),
    /// At least one option, whichever it is.
    SomeOption,
    /// At least one of these.
    SomeOf(&'static [u8]),
    /// At most one of these. An option that is given twice counts once.
    OneOf(&'static [u8]),
    /// One of these, and no second one. An option that is given twice counts once.
    ExactlyOne(&'static [u8]),
    /// Each of these with no other option.
    Alone(&'static [u8]),
}

/// A rule between options.
#[derive(Clone, Copy)]
pub struct Rule {
    /// What is said where it is broken.
    pub text: &'static str,
    /// What options pass that keep it.
    pub test: Test,
}

impl OptionForm {
    /// The letter of the option.
    pub fn letter(self) -> u8
        ensures { result ≡ (form_of self).letter }
    {
        match self {
            Flag(letter, _) | Value(letter, ..) | ShortFlag(letter) => letter,
        }
    }

    /// Whether a value goes with the option.
    pub fn takes_value(self) -> bool
        ensures { result ≡ (form_of self).takes_value }
    {
        matches!(self, Value(..))
    }

    /// The form of the option's value, which is empty where it takes none.
    pub fn wanted(self) -> &'static [u8]
        ensures { result.now ≡ (form_of self).wanted }
    {
        match self {
            Value(_, _, form) => form,
            _ => b"",
        }
    }

    /// Whether the option has the long name.
    pub fn has_long_name(self, name: &[u8]) -> bool
        ensures { result ≡ has_long_name name.now (form_of self) }
    {
        match self {
            Flag(_, long_name) | Value(_, long_name, _) => long_name.as_bytes() == name,
            ShortFlag(_) => false,
        }
    }
}
