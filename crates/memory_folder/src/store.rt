// What stands in a folder in memory: its files, and the numbers of the locks among them.
ghost use Rattle.std.specs.Prelude.{◌≡◌, ◌↔◌, ◌<◌, ◌≤◌, ℕ, Some, None, List, All, IfOk, IsTrue, OnOk, OnErr, if◌then◌else◌, vec_len, vec_capacity};
ghost use Rattle.std.specs.List.Sorted.{IsNonDecreasing};
ghost use Rattle.std.specs.Option.{option_copied, is_some};
ghost use Rattle.acct_outside.specs.declared.Name.{Name};
ghost use Rattle.acct_outside.specs.declared.Name.TheVariants.{Lock};
ghost use Rattle.acct_outside.specs.Names.{same_name};
ghost use Rattle.acct_outside.specs.Folder.{IsFolder, with_number, without_number, locks_with, with_file, appended, moved};
ghost use Rattle.acct_outside.specs.Calls.{found_within};
ghost use Rattle.acct_outside.specs.Gives.{GivesCreated};
ghost use Rattle.acct_outside.specs.Contract.{IsName, IsLockNumber, IsWithinLimit, found_of};
ghost use Rattle.memory_folder.specs.Store.{file_in, folder_of, empty_folder, folder_with};
ghost use Rattle.std.proofs.Props.{props};
ghost use Rattle.memory_folder.specs.NewTokens.{IsNamed};

use crate::tokens::held_text;
use acct_outside::{Created, Found, Name, Token};
use acct_text::Bytes;
use std::alloc::{AllocError, Global};

/// What stands in a folder in memory.
#[derive(Drop)]
pub(crate) struct Store {
    files: Vec<(Name, Bytes)>,
    locks: Vec<u64>,
    ghost is_folder: { IsFolder (folder_of files.items locks.items) } by { Prim.hlevel props },
}

impl Store {
    ghost use Rattle.memory_folder.specs.Stored.{folder_in};

    /// Nothing stands yet.
    pub(crate) fn new(alloc: Global) -> Self
        ensures { folder_in result ≡ empty_folder }
    {
        Store {
            files: Vec::new(alloc),
            locks: Vec::new(alloc),
        }
    }

    /// These files. A later one of a name replaces an earlier one.
    pub(crate) fn of(alloc: Global, contents: &[(Name, Bytes)]) -> Result<Self, AllocError>
        requires { All (λ file. IsName file.0) contents.now }
        ensures { IfOk result (λ store. folder_in store ≡ folder_with contents.now) }
    {
        let mut store = Store::new(alloc);
        for file in contents {
            store.put(file.0, file.1.copy()?)?;
        }
        Ok(store)
    }

    /// What stands at the name.
    pub(crate) fn get(&self, name: Name) -> Option<&Bytes>
        ensures { option_copied result ≡ (folder_in self.now).file name }
    {
        file_at(&self.files, name)
    }

    /// Whether anything stands at the name.
    pub(crate) fn stands(&self, name: Name) -> bool
        ensures { result ≡ is_some ((folder_in self.now).file name) }
    {
        self.get(name).is_some()
    }

    /// What a create of the lock answers: that it stands, or that it is made.
    pub(crate) fn created(&self, number: u64) -> Created
        ensures { GivesCreated (folder_in self.now) number result }
    {
        if self.stands(Name::Lock(number)) {
            Created::Exists
        } else {
            Created::Done
        }
    }

    /// The numbers of the locks that stand, ascending.
    pub(crate) fn locks(&self, alloc: Global) -> Result<Vec<u64>, AllocError>
        ensures value { IfOk result (λ numbers. numbers.items ≡ (folder_in self.now).locks) }
        ensures numbers { IfOk result (λ numbers. All IsLockNumber numbers.items) }
        ensures ascending { IfOk result (λ numbers. IsNonDecreasing numbers.items) }
    {
        Vec::from_slice(alloc, &self.locks)
    }

    /// What a read with this limit finds.
    pub(crate) fn find(&self, name: Name, limit: u64) -> Result<Found, AllocError>
        ensures value { IfOk result
            (λ found. found_of found ≡ found_within limit ((folder_in self.now).file name)) }
        ensures limit { IfOk result (IsWithinLimit limit) }
    {
        match self.get(name) {
            None => Ok(Found::Absent),
            Some(bytes) => {
                if bytes.as_slice().len() as u64 > limit {
                    return Ok(Found::TooLarge);
                }
                Ok(Found::Held(bytes.copy()?))
            }
        }
    }

    /// Whether a lock has the text of the token.
    pub(crate) fn names(&self, alloc: Global, token: &Token) -> Result<bool, AllocError>
        ensures { IfOk result (λ names. IsTrue names ↔ IsNamed token.now (folder_in self.now)) }
    {
        let text = held_text(alloc, token)?;
        for number in &self.locks {
            if self.has_lock(*number, &text) {
                return Ok(true);
            }
        }
        Ok(false)
    }

    // Whether the lock with the number stands with this text.
    fn has_lock(&self, number: u64, text: &Bytes) -> bool
        ensures { IsTrue result ↔ ((folder_in self.now).file (Lock number) ≡ Some text.now) }
    {
        match self.get(Name::Lock(number)) {
            Some(bytes) => bytes.as_slice() == text.as_slice(),
            None => false,
        }
    }

    /// Puts a file at the name, in the place of what stands there.
    pub(crate) fn put(&mut self, name: Name, bytes: Bytes) -> Result<(), AllocError>
        requires { IsName name }
        ensures ok { OnOk result
            (folder_in self.new ≡ with_file name (Some bytes) (folder_in self.old)) }
        ensures err { OnErr result (folder_in self.new ≡ folder_in self.old) }
    {
        self.files.reserve(1)?;
        self.locks.reserve(1)?;
        put_file(&mut self.files, name, bytes);
        add_lock(&mut self.locks, name);
        Ok(())
    }

    /// Puts the piece behind what stands at the name. Where nothing does, all stays.
    pub(crate) fn append(&mut self, name: Name, piece: &Bytes) -> Result<(), AllocError>
        requires { IsName name }
        ensures ok { OnOk result
            (folder_in self.new ≡ appended name piece.now (folder_in self.old)) }
        ensures err { OnErr result (folder_in self.new ≡ folder_in self.old) }
    {
        let Some(bytes) = self.get(name) else {
            return Ok(());
        };
        let mut longer = bytes.copy()?;
        longer.push(piece.as_slice())?;
        self.put(name, longer)
    }

    /// Takes away what stands at the name.
    pub(crate) fn remove(&mut self, name: Name)
        ensures { folder_in self.new ≡ with_file name None (folder_in self.old) }
    {
        drop_file(&mut self.files, name);
        drop_lock(&mut self.locks, name);
    }

    /// Moves what stands at a name over another.
    pub(crate) fn rename(&mut self, from: Name, to: Name) -> Result<(), AllocError>
        requires { IsName to }
        ensures ok { OnOk result (folder_in self.new ≡ moved from to (folder_in self.old)) }
        ensures err { OnErr result (folder_in self.new ≡ folder_in self.old) }
    {
        let Some(bytes) = self.get(from) else {
            return Ok(());
        };
        let bytes = bytes.copy()?;
        self.files.reserve(1)?;
        self.locks.reserve(1)?;
        drop_file(&mut self.files, from);
        drop_lock(&mut self.locks, from);
        put_file(&mut self.files, to, bytes);
        add_lock(&mut self.locks, to);
        Ok(())
    }
}

// Whether the two names are the same.
fn is_same(name: Name, other: Name) -> bool
    ensures { result ≡ same_name name other }
{
    name == other
}

// What stands at the name.
fn file_at(files: &Vec<(Name, Bytes)>, name: Name) -> Option<&Bytes>
    ensures { option_copied result ≡ file_in files.now.items name }
{
    for file in files {
        if is_same(file.0, name) {
            return Some(&file.1);
        }
    }
    None
}

// Takes away what stands at the name.
fn drop_file(files: &mut Vec<(Name, Bytes)>, name: Name)
    ensures files { (other : Name) → file_in files.new.items other
        ≡ (if same_name other name then None else file_in files.old.items other) }
    ensures len { vec_len files.new ≤ vec_len files.old }
    ensures capacity { vec_capacity files.new ≡ vec_capacity files.old }
{
    files.retain(|file| !is_same(file.0, name));
}

// Puts a file at the name, in the place of what stands there.
fn put_file(files: &mut Vec<(Name, Bytes)>, name: Name, bytes: Bytes)
    requires { vec_len files.old < vec_capacity files.old }
    ensures { (other : Name) → file_in files.new.items other
        ≡ (if same_name other name then Some bytes else file_in files.old.items other) }
{
    drop_file(files, name);
    files.push_reserved((name, bytes));
}

// Adds a number in its place.
fn add_number(numbers: &mut Vec<u64>, number: u64)
    requires { vec_len numbers.old < vec_capacity numbers.old }
    ensures { numbers.new.items ≡ with_number number numbers.old.items }
{
    let mut place = 0;
    'places: while place < numbers.len() && numbers[place] < number {
        place += 1;
    }
    if place == numbers.len() || number < numbers[place] {
        let _ = numbers.insert(place, number);
    }
}

// Takes a number away.
fn drop_number(numbers: &mut Vec<u64>, number: u64)
    ensures numbers { numbers.new.items ≡ without_number number numbers.old.items }
    ensures len { vec_len numbers.new ≤ vec_len numbers.old }
    ensures capacity { vec_capacity numbers.new ≡ vec_capacity numbers.old }
{
    numbers.retain(|other| *other != number);
}

// Adds the number of a lock that was put.
fn add_lock(locks: &mut Vec<u64>, name: Name)
    requires { vec_len locks.old < vec_capacity locks.old }
    ensures { (bytes : List ℕ) → locks.new.items ≡ locks_with name (Some bytes) locks.old.items }
{
    if let Name::Lock(number) = name {
        add_number(locks, number);
    }
}

// Takes the number of a lock away.
fn drop_lock(locks: &mut Vec<u64>, name: Name)
    ensures locks { locks.new.items ≡ locks_with name None locks.old.items }
    ensures len { vec_len locks.new ≤ vec_len locks.old }
    ensures capacity { vec_capacity locks.new ≡ vec_capacity locks.old }
{
    if let Name::Lock(number) = name {
        drop_number(locks, number);
    }
}
