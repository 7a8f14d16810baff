// The files of the six tables.
ghost use Rattle.std.specs.Prelude.{◌≡◌, IfOk};
ghost use Rattle.std.specs.Option.{option_copied};
ghost use Rattle.acct_text.specs.Files.{no_files, table_of, with_table};
ghost use Rattle.acct_text.specs.SeenTables.{is_among, seen_of, seen_through};

use crate::{Bytes, Tab};
use std::alloc::{AllocError, Global};

/// The bytes of the files of the six tables. None stands for a file that is absent.
pub struct Files {
    /// The users (passwd(5)).
    pub passwd: Option<Bytes>,
    /// Hashes and aging of the users (shadow(5)).
    pub shadow: Option<Bytes>,
    /// The groups and their members (group(5)).
    pub group: Option<Bytes>,
    /// Hashes, administrators and members of the groups (gshadow(5)).
    pub gshadow: Option<Bytes>,
    /// Subordinate UIDs of the users (subuid(5)).
    pub subuid: Option<Bytes>,
    /// Subordinate GIDs of the users (subgid(5)).
    pub subgid: Option<Bytes>,
}

// One call for six files that may be there, so that who holds them has few ways through them.
impl Drop for Files {
    fn drop(self) {
        let Files {
            passwd: _,
            shadow: _,
            group: _,
            gshadow: _,
            subuid: _,
            subgid: _,
        } = self;
    }
}

impl Files {
    /// Files of which each is absent.
    pub fn none() -> Self
        ensures { result ≡ no_files }
    {
        Files {
            passwd: None,
            shadow: None,
            group: None,
            gshadow: None,
            subuid: None,
            subgid: None,
        }
    }

    /// Puts these bytes in the place of the table's, None where it is absent.
    pub fn put(&mut self, table: Tab, content: Option<Bytes>)
        ensures { self.new ≡ with_table table content self.old }
    {
        match table {
            Tab::Passwd => self.passwd = content,
            Tab::Shadow => self.shadow = content,
            Tab::Group => self.group = content,
            Tab::Gshadow => self.gshadow = content,
            Tab::Subuid => self.subuid = content,
            Tab::Subgid => self.subgid = content,
        }
    }

    /// Leaves these tables alone to be seen: each other one is empty.
    pub fn see_only(&mut self, alloc: Global, tables: &[Tab])
        ensures { self.new ≡ seen_through tables.now self.old }
    {
        hide(alloc, tables, Tab::Passwd, &mut self.passwd);
        hide(alloc, tables, Tab::Shadow, &mut self.shadow);
        hide(alloc, tables, Tab::Group, &mut self.group);
        hide(alloc, tables, Tab::Gshadow, &mut self.gshadow);
        hide(alloc, tables, Tab::Subuid, &mut self.subuid);
        hide(alloc, tables, Tab::Subgid, &mut self.subgid);
    }

    /// Second files with the same bytes, of which the same are absent.
    pub fn copy(&self, alloc: Global) -> Result<Self, AllocError>
        ensures { IfOk result (λ files. files ≡ self.now) }
    {
        Ok(Files {
            passwd: copy_of(alloc, &self.passwd)?,
            shadow: copy_of(alloc, &self.shadow)?,
            group: copy_of(alloc, &self.group)?,
            gshadow: copy_of(alloc, &self.gshadow)?,
            subuid: copy_of(alloc, &self.subuid)?,
            subgid: copy_of(alloc, &self.subgid)?,
        })
    }

    /// The bytes of a table's file, and none where it is absent.
    pub fn table(&self, of: Tab) -> Option<&Bytes>
        ensures { option_copied result ≡ table_of self.now of }
    {
        match of {
            Tab::Passwd => self.passwd.as_ref(),
            Tab::Shadow => self.shadow.as_ref(),
            Tab::Group => self.group.as_ref(),
            Tab::Gshadow => self.gshadow.as_ref(),
            Tab::Subuid => self.subuid.as_ref(),
            Tab::Subgid => self.subgid.as_ref(),
        }
    }
}

// Makes the table empty where it isn't one of these.
fn hide(alloc: Global, tables: &[Tab], table: Tab, content: &mut Option<Bytes>)
    ensures { content.new ≡ seen_of tables.now table content.old }
{
    if !is_among(tables, table) {
        *content = Some(Bytes::new(alloc));
    }
}

// Whether the table is one of these.
fn is_among(tables: &[Tab], table: Tab) -> bool
    ensures { result ≡ is_among tables.now table }
{
    tables.iter().any(|other| *other == table)
}

// The file again, absent where it was.
fn copy_of(alloc: Global, file: &Option<Bytes>) -> Result<Option<Bytes>, AllocError>
    ensures { IfOk result (λ copy. copy ≡ file.now) }
{
    match file {
        Some(bytes) => Ok(Some(Bytes::of(alloc, bytes.as_slice())?)),
        None => Ok(None),
    }
}
