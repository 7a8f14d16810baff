// What a session without a lock keeps of what it reads: of the intent, of the tables and of login.defs
// (docs/ARCHITECTURE.md, "Reports").
ghost use Rattle.std.specs.Prelude.{◌≡◌, ◌≤◌, OnOk, OnErr, IfOk, IfSome, All, length};
ghost use Rattle.acct_text.specs.Limits.{table_limit};
ghost use Rattle.acct_text.specs.Files.{no_files};
ghost use Rattle.acct_outside.specs.Contract.{IsWithinLimit, found_of};
ghost use Rattle.suite_rules.specs.Knowledge.{is_input};
ghost use Rattle.lock_steps.specs.Gathered.{AreSmall, awaits, first_gathered, inputs, is_large, is_readable, lacks, names_behind, with_content, with_found, with_listed};

use acct_outside::{Found, Name};
use acct_text::{Bytes, Files, Tab};
use intent_file::NewTable;
use std::alloc::{AllocError, Global};
use std::collections::VecDeque;
use std::marker::Model;

/// What stands at the intent.
#[derive(Clone, Copy)]
pub enum IntentFound {
    /// Nothing.
    Absent,
    /// An intent that reads.
    Listed,
    /// More than 100,664,320 bytes.
    TooLarge,
    /// Bytes that don't read: the first part that doesn't stand, counted from 0 as in
    /// `IntentFault::Part`.
    Damaged(u32),
}

/// What was found at the intent, at each table that it doesn't list, and at login.defs.
#[derive(Drop)]
pub(crate) struct Gathered {
    pub(crate) intent: IntentFound,
    pub(crate) files: Files,
    pub(crate) defs: Option<Bytes>,
    large: Vec<Name>,
}

impl Model for Gathered {
    ghost use Rattle.lock_steps.specs.Gathered.{Gathered as Kept, AreSmall};

    ghost Value = { Kept };

    ghost view = { λ gathered. record {
      intent = gathered.intent;
      files = gathered.files;
      defs = gathered.defs;
      large = gathered.large.items;
    } };

    ghost invariant = { λ gathered. AreSmall gathered.files gathered.defs };
}

impl Gathered {
    /// Before any other read, where this stands at the intent, it lists these tables, and those are
    /// wanted.
    pub(crate) fn new(
        alloc: Global,
        wanted: &[Tab],
        intent: IntentFound,
        tables: Vec<NewTable>,
    ) -> Self
        requires { All (λ new. length new.bytes ≤ table_limit) tables.items }
        ensures { result ≡ first_gathered wanted.now intent tables.items }
    {
        let mut files = files_of(tables);
        files.see_only(alloc, wanted);
        Gathered {
            intent,
            files,
            defs: None,
            large: Vec::new(alloc),
        }
    }

    /// What is to be read behind the intent, in order. The error says that memory ran out.
    pub(crate) fn names_behind(&self, alloc: Global) -> Result<VecDeque<Name>, AllocError>
        ensures { IfOk result (λ names. names.items ≡ names_behind self.now) }
    {
        let mut names = VecDeque::new(alloc);
        'inputs: for name in inputs() {
            if self.awaits(name) {
                names.push_back(name)?;
            }
        }
        Ok(names)
    }

    // Whether it is to be read behind the intent.
    fn awaits(&self, name: Name) -> bool
        ensures { result ≡ awaits self.now name }
    {
        self.is_readable() && self.lacks(name)
    }

    // Whether the intent is absent or reads, so that the tables behind it are known.
    fn is_readable(&self) -> bool
        ensures { result ≡ is_readable self.now.intent }
    {
        match self.intent {
            IntentFound::Absent | IntentFound::Listed => true,
            IntentFound::TooLarge | IntentFound::Damaged(_) => false,
        }
    }

    // Whether it isn't a table that is there already.
    fn lacks(&self, name: Name) -> bool
        ensures { result ≡ lacks self.now.files name }
    {
        match name {
            Name::Table(table) => self.files.table(table).is_none(),
            _ => true,
        }
    }

    /// Keeps what was found at a table or at login.defs. The error says that memory ran out for the
    /// name of a file that is too large.
    pub(crate) fn put(&mut self, name: Name, found: Found) -> Result<(), AllocError>
        requires { IsWithinLimit table_limit found }
        ensures kept { OnOk result (self.new ≡ with_found name (found_of found) self.old) }
        ensures noted { OnErr result (found ≡ Found.TooLarge) }
    {
        match found {
            Found::Absent => self.put_content(name, None),
            Found::Held(bytes) => self.put_content(name, Some(bytes)),
            Found::TooLarge => {
                self.large.push(name)?;
                self.put_content(name, None);
            }
        }
        Ok(())
    }

    // Keeps these bytes of a table or of login.defs, None where it has none.
    fn put_content(&mut self, name: Name, content: Option<Bytes>)
        requires { IfSome content (λ bytes. length bytes ≤ table_limit) }
        ensures { self.new ≡ with_content name content self.old }
    {
        match name {
            Name::Table(table) => self.files.put(table, content),
            Name::Defs => self.defs = content,
            _ => {}
        }
    }

    /// A law: no table, and not login.defs, has more than 16,777,216 bytes.
    pub(crate) fn is_small(&self)
        ensures { AreSmall self.now.files self.now.defs }
    {
        // The invariant is known where a field is used.
        let _ = &self.files;
    }

    /// Whether too many bytes were found at the name.
    pub(crate) fn is_large(&self, name: Name) -> bool
        ensures { result ≡ is_large self.now name }
    {
        for large in &self.large {
            if *large == name {
                return true;
            }
        }
        false
    }
}

// The files of these tables; the others are absent.
fn files_of(mut tables: Vec<NewTable>) -> Files
    ensures { result ≡ with_listed tables.items no_files }
{
    let mut files = Files::none();
    // From the last on, so that of one that is listed twice the first would stay.
    'tables: while let Some(new) = tables.pop() {
        files.put(new.table, Some(new.bytes));
    }
    files
}

// The six tables in the fixed order, and login.defs.
fn inputs() -> [Name; 7]
    ensures { result ≡ inputs }
{
    [
        Name::Table(Tab::Passwd),
        Name::Table(Tab::Shadow),
        Name::Table(Tab::Group),
        Name::Table(Tab::Gshadow),
        Name::Table(Tab::Subuid),
        Name::Table(Tab::Subgid),
        Name::Defs,
    ]
}
