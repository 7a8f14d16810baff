// What a command asks for: the words of its options and its operand (the manual page of each tool).
ghost use Rattle.std.specs.Prelude.{◌≡◌, ◌∷◌, [], IfOk};
ghost use Rattle.std.specs.Option.{option_copied};
ghost use Rattle.account_model.specs.Request.{Request, has_option, value_of, values_of, operand};
ghost use Rattle.account_model.specs.Values.{given_id, text_value};
ghost use Rattle.account_model.specs.NewAccount.{kind_of};
ghost use Rattle.option_words.specs.Parsed.{request_in};
ghost use Rattle.command_values.specs.Options.{value_at};

use crate::read_id;
use account_model::{Given, Kind, Tool};
use acct_text::Names;
use option_words::Parsed;
use std::alloc::{AllocError, Global};
use std::marker::Model;

/// What a command asks for, looked up in its words as they were read: a tool, its options and its
/// operands.
///
/// An option is named by the byte of its letter. Contracts see the request of `account_model`.
#[derive(Drop)]
pub struct Asked<'a> {
    parsed: &'a Parsed,
}

impl<'a> Model for Asked<'a> {
    ghost use Rattle.account_model.specs.Request.{Request};
    ghost use Rattle.option_words.specs.Parsed.{request_in};

    ghost Value = { Request };

    ghost view = { λ a. request_in a.parsed.now };
}

impl<'a> Asked<'a> {
    /// What the words of a command ask for.
    pub fn of(parsed: &'a Parsed) -> Self
        ensures { result ≡ request_in parsed.now }
    {
        Asked { parsed }
    }
}

impl Asked<'_> {
    /// The tool.
    pub fn tool(&self) -> Tool
        ensures { result ≡ self.now.tool }
    {
        self.parsed.tool
    }

    /// Whether the option is given.
    pub fn has(&self, letter: u8) -> bool
        ensures { result ≡ has_option (letter ∷ []) self.now }
    {
        self.parsed.options.has(letter)
    }

    /// The value of the option, of a repeated one the last; none where it isn't given.
    pub fn value(&self, letter: u8) -> Option<&[u8]>
        ensures { option_copied result ≡ value_of (letter ∷ []) self.now }
    {
        let mut last = None;
        for option in self.options() {
            if let Some(value) = value_at(option, letter) {
                last = Some(value);
            }
        }
        last
    }

    /// The values of the option in the order in which they were given, for an option of which each
    /// counts (useradd(8), `-K`; usermod(8), `-v`).
    pub fn values(&self, alloc: Global, letter: u8) -> Result<Names, AllocError>
        ensures { IfOk result (λ values. values ≡ values_of (letter ∷ []) self.now) }
    {
        let mut values = Names::new(alloc);
        for option in self.options() {
            if let Some(value) = value_at(option, letter) {
                values.push(value)?;
            }
        }
        Ok(values)
    }

    /// The user or the group that the command is about; empty for a tool that takes none.
    pub fn operand(&self) -> &[u8]
        ensures { result.now ≡ operand self.now }
    {
        match self.parsed.operands.at(0) {
            Some(name) => name,
            None => &[],
        }
    }

    /// The value of the option, and what stood there before where it isn't given.
    pub fn value_or<'a>(&'a self, letter: u8, before: &'a [u8]) -> &'a [u8]
        ensures { result.now ≡ text_value (letter ∷ []) self.now before.now }
    {
        self.value(letter).unwrap_or(before)
    }

    /// The UID or the GID that the option gives; none where it isn't given or is no ID.
    pub fn id(&self, letter: u8) -> Option<u32>
        ensures { result ≡ given_id (letter ∷ []) self.now }
    {
        match self.value(letter) {
            Some(text) => read_id(text),
            None => None,
        }
    }

    /// Whether a regular or, with `-r`, a system account is to be made (useradd(8), groupadd(8)).
    pub fn kind(&self) -> Kind
        ensures { result ≡ kind_of self.now }
    {
        if self.has(b'r') {
            Kind::System
        } else {
            Kind::Regular
        }
    }

    /// The options, to go over them in the order in which they were given.
    pub(crate) fn options(&self) -> &[Given]
        ensures { result.now ≡ self.now.options }
    {
        self.parsed.options.as_slice()
    }
}

/// The value of an option, where it has the letter and one was given.
pub(crate) fn value_at(option: &Given, letter: u8) -> Option<&[u8]>
    ensures { option_copied result ≡ value_at letter option.now }
{
    match &option.value {
        Some(value) if option.letter == letter => Some(value.as_slice()),
        _ => None,
    }
}
