// What stands in the place of a line of a file: no text, one, or several (passwd(5), and likewise the
// other five tables).
ghost use Rattle.std.specs.Prelude.{◌≡◌, [], ◌∷◌, length, MatchOption};

use acct_text::Bytes;
use std::marker::Model;

/// The texts that stand in a place and are still to be looked at, in their order, each without its
/// newline. Contracts see the list of them.
#[derive(Drop)]
pub struct Texts<'a> {
    // the text of a line that stands in the file's bytes
    one: Option<&'a [u8]>,
    // those that were put into the place
    put: &'a [Bytes],
}

impl<'a> Model for Texts<'a> {
    ghost use Rattle.std.specs.Prelude.{ℕ, List};
    ghost use Rattle.std.specs.Option.{option_copied};
    ghost use Rattle.std.specs.List.{cons_option};

    ghost Value = { List (List ℕ) };

    ghost view = { λ t. cons_option (option_copied t.one) t.put.now };
}

impl<'a> Texts<'a> {
    /// No texts.
    pub fn none() -> Self
        ensures { result ≡ [] }
    {
        Texts {
            one: None,
            put: &[],
        }
    }

    /// The one text.
    pub(crate) fn one(text: &'a [u8]) -> Self
        ensures { result ≡ text.now ∷ [] }
    {
        Texts {
            one: Some(text),
            put: &[],
        }
    }

    /// Texts that were put into a place.
    pub(crate) fn put(texts: &'a [Bytes]) -> Self
        ensures { result ≡ texts.now }
    {
        Texts {
            one: None,
            put: texts,
        }
    }

    /// The number of texts.
    pub fn len(&self) -> usize
        ensures { result ≡ length self.now }
    {
        match self.one {
            Some(_) => self.put.len() + 1,
            None => self.put.len(),
        }
    }

    /// Takes the next text; none where all are taken.
    pub fn take(&mut self) -> Option<&'a [u8]>
        ensures taken { MatchOption result (self.old ≡ [])
            (λ text. self.old ≡ text.now ∷ self.new) }
        ensures over { self.old ≡ [] → self.new ≡ [] }
    {
        if let Some(text) = self.one {
            self.one = None;
            return Some(text);
        }
        match self.put.split_first() {
            Some((first, rest)) => {
                self.put = rest;
                Some(first.as_slice())
            }
            None => None,
        }
    }
}

/// What stands in the place of a line.
#[derive(Drop)]
pub struct Cell<'a> {
    /// The offset of the first byte of the line in the file, counted from 0; that of an added line is
    /// the file's length or more.
    pub place: usize,
    /// The texts that stand there, each a line.
    pub texts: Texts<'a>,
    /// Whether a newline stands behind each text; only in the place of the last line it may lack.
    pub ended: bool,
}
