// A list of names, of which each is found without a pass over all.
ghost use Rattle.std.specs.Prelude.{◌≡◌, ◌↔◌, ℕ, List, [], map, IfOk, IsTrue};
ghost use Rattle.std.specs.Vec.{vec_items};
ghost use Rattle.account_model.specs.Text.{is_listed};
ghost use Rattle.line_edits.specs.NameSets.{has_text};

use acct_text::{Bytes, Names};
use indexmap::IndexSet;
use std::alloc::{AllocError, Global};
use std::marker::Model;

// From so many names on, one is found sooner by its hash than by comparing it with each.
const MANY_NAMES: usize = 8;

/// A list of names, of which each is found without a pass over all. Contracts see the list.
pub struct NameSet {
    names: Names,
    texts: IndexSet<Vec<u8>>,
}

// One call for a list and a map.
impl Drop for NameSet {
    fn drop(self) {
        let NameSet { names: _, texts: _ } = self;
    }
}

impl Model for NameSet {
    ghost use Rattle.std.specs.Prelude.{◌≡◌, ℕ, List};
    ghost use Rattle.std.specs.Vec.{vec_items};
    ghost use Rattle.account_model.specs.Text.{is_listed};
    ghost use Rattle.line_edits.specs.NameSets.{has_text};

    ghost Value = { List (List ℕ) };

    ghost view = { λ s. s.names };

    ghost invariant = { λ s.
        (name : List ℕ) → has_text s.texts vec_items name ≡ is_listed name s.names };
}

impl NameSet {
    /// The names of the list.
    pub fn of(alloc: Global, names: Names) -> Result<Self, AllocError>
        ensures { IfOk result (λ set. set ≡ names) }
    {
        let texts = texts_of(alloc, names.as_slice())?;
        Ok(NameSet { names, texts })
    }

    /// Whether the list has no names.
    pub fn is_empty(&self) -> bool
        ensures { IsTrue result ↔ (self.now ≡ []) }
    {
        self.names.is_empty()
    }

    /// Whether it is one of the names.
    pub fn has(&self, name: &[u8]) -> bool
        ensures { result ≡ is_listed name.now self.now }
    {
        if self.names.len() < MANY_NAMES {
            return self.names.contains(name);
        }
        self.texts.contains(name)
    }

    /// The names, each once.
    pub(crate) fn each(&self) -> &[Vec<u8>]
        ensures { (name : List ℕ) →
            is_listed name (map vec_items result.now) ≡ is_listed name self.now }
    {
        self.texts.as_slice()
    }
}

// The bytes of each name.
fn texts_of(alloc: Global, names: &[Bytes]) -> Result<IndexSet<Vec<u8>>, AllocError>
    ensures { IfOk result (λ texts.
        (name : List ℕ) → has_text texts vec_items name ≡ is_listed name names.now) }
{
    let mut texts = IndexSet::new(alloc);
    'names: for name in names {
        texts.insert(Vec::from_slice(alloc, name.as_slice())?)?;
    }
    Ok(texts)
}
