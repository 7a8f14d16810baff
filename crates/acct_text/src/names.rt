// A list of names: the members of a group, the fields of a line.
ghost use Rattle.std.specs.Prelude.{◌≡◌, ℕ, ◌++◌, [], ◌∷◌, List, length, IfOk, OnOk, OnErr, slice_get, IsTrue, ◌↔◌, bytes_eq};
ghost use Rattle.std.specs.List.{list_any};
ghost use Rattle.std.specs.Option.{option_copied};

use crate::Bytes;
use std::alloc::{AllocError, Global};
use std::marker::Model;

/// A list of names, each of any bytes, as the members of a group (group(5)).
#[derive(Debug, Drop)]
pub struct Names {
    names: Vec<Bytes>,
}

impl Model for Names {
    ghost Value = { List (List ℕ) };

    ghost view = { λ n. n.names.items };
}

impl Names {
    /// A list without names, which allocates nothing before the first `push`.
    pub fn new(alloc: Global) -> Self
        ensures { result ≡ [] }
    {
        Names {
            names: Vec::new(alloc),
        }
    }

    /// Adds a copy of the name at the end. At `AllocError` the list is as before.
    pub fn push(&mut self, name: &[u8]) -> Result<(), AllocError>
        ensures ok { OnOk result (self.new ≡ self.old ++ name.now ∷ []) }
        ensures err { OnErr result (self.new ≡ self.old) }
    {
        let name = Bytes::of(*self.names.allocator(), name)?;
        self.names.push(name)?;
        Ok(())
    }

    /// A second list of the same names, from the same allocator.
    pub fn copy(&self) -> Result<Self, AllocError>
        ensures { IfOk result (λ names. names ≡ self.now) }
    {
        let mut names = Vec::new(*self.names.allocator());
        for name in &self.names {
            names.push(name.copy()?)?;
        }
        Ok(Names { names })
    }

    /// The number of names.
    pub fn len(&self) -> usize
        ensures { result ≡ length self.now }
    {
        self.names.len()
    }

    /// Whether the list has no names.
    pub fn is_empty(&self) -> bool
        ensures { IsTrue result ↔ (self.now ≡ []) }
    {
        self.names.is_empty()
    }

    /// The name at a place, counted from 0, and none past the end.
    pub fn at(&self, place: usize) -> Option<&[u8]>
        ensures { option_copied result ≡ slice_get self.now place }
    {
        match self.names.get(place) {
            Some(name) => Some(name.as_slice()),
            None => None,
        }
    }

    /// Whether the name is one of the list.
    pub fn contains(&self, name: &[u8]) -> bool
        ensures { result ≡ list_any (bytes_eq name.now) self.now }
    {
        self.as_slice().iter().any(|other| name == other.as_slice())
    }

    /// The names as a slice, to go over them in order.
    pub fn as_slice(&self) -> &[Bytes]
        ensures { result.now ≡ self.now }
    {
        self.names.as_slice()
    }
}
