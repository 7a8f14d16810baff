// What the words of a command ask for, and the options that it gives.
ghost use Rattle.std.specs.Prelude.{◌≡◌, ◌==◌, ◌↔◌, [], ◌∷◌, ◌++◌, List, length, find, is_some, IsTrue, OnOk, OnErr, slice_get};
ghost use Rattle.std.specs.Option.{option_copied};
ghost use Rattle.std.specs.List.{list_any};
ghost use Rattle.account_model.specs.declared.given.Given.{Given};

use account_model::{Given, PlanForm, Tool};
use acct_text::{Bytes, Names};
use std::alloc::{AllocError, Global};
use std::marker::Model;

/// The options of a command but `-P`, in the order in which they were given.
#[derive(Drop)]
pub struct Options {
    options: Vec<Given>,
}

impl Model for Options {
    ghost Value = { List Given };

    ghost view = { λ o. o.options.items };
}

impl Options {
    // No options, which allocate nothing before the first `push`.
    pub(crate) fn new(alloc: Global) -> Self
        ensures { result ≡ [] }
    {
        Options {
            options: Vec::new(alloc),
        }
    }

    // Adds an option behind the others. At `AllocError` the options are as before.
    pub(crate) fn push(&mut self, option: Given) -> Result<(), AllocError>
        ensures ok { OnOk result (self.new ≡ self.old ++ option ∷ []) }
        ensures err { OnErr result (self.new ≡ self.old) }
    {
        self.options.push(option)?;
        Ok(())
    }

    /// The number of options.
    pub fn len(&self) -> usize
        ensures { result ≡ length self.now }
    {
        self.options.len()
    }

    /// Whether there are no options.
    pub fn is_empty(&self) -> bool
        ensures { IsTrue result ↔ (self.now ≡ []) }
    {
        self.options.is_empty()
    }

    /// The option at a place, counted from 0, and none past the end.
    pub fn at(&self, place: usize) -> Option<&Given>
        ensures { option_copied result ≡ slice_get self.now place }
    {
        self.options.get(place)
    }

    /// Whether an option of this letter is given.
    pub fn has(&self, letter: u8) -> bool
        ensures { result ≡ is_some (find (λ option. option.letter == letter) self.now) }
    {
        has_letter(self.options.as_slice(), letter)
    }

    /// The options as a slice, to go over them in order.
    pub fn as_slice(&self) -> &[Given]
        ensures { result.now ≡ self.now }
    {
        self.options.as_slice()
    }
}

/// What a command asks for. Its options and operands are those of the tool's manual page.
#[derive(Drop)]
pub struct Parsed {
    /// The tool that word 0 names.
    pub tool: Tool,
    /// The last value of `-P`, which isn't empty: the folder whose `etc` is worked on. Empty for a
    /// line of a batch.
    pub prefix: Bytes,
    /// The options but `-P`. A flag has no value, and every other option has one.
    pub options: Options,
    /// The user or the group, or nothing for a tool that takes neither.
    pub operands: Names,
    /// How the command is planned, and none where it is carried out.
    pub planned: Option<PlanForm>,
}

// Whether an option has the letter.
fn has_letter(options: &[Given], letter: u8) -> bool
    ensures { result ≡ list_any (λ option. option.letter == letter) options.now }
{
    options.iter().any(|option| option.letter == letter)
}
