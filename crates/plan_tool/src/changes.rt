// The tables that a plan tells of, with their bytes before and after.
ghost use Rattle.std.specs.Prelude.{◌≡◌, ◌++◌, map, option_map, IfOk, OnOk};
ghost use Rattle.std.specs.Option.{option_to_list};
ghost use Rattle.plan_tool.specs.SeenChanges.{change_told, changes_told, new_bytes, seen_change};

use acct_text::{Files, NewTable, Tab};
use std::alloc::{AllocError, Global};

/// The files of a plan.
#[derive(Clone, Copy)]
pub(crate) struct PlannedFiles<'a> {
    /// The files as they stand.
    pub files: &'a Files,
    /// The tables that would get other bytes.
    pub news: &'a [NewTable],
}

/// A table that would change.
#[derive(Clone, Copy)]
pub(crate) struct TableChange<'a> {
    /// Which of the six tables it is.
    pub table: Tab,
    /// Its bytes as they stand.
    pub old: &'a [u8],
    /// The bytes that it would get.
    pub new: &'a [u8],
}

impl<'a> PlannedFiles<'a> {
    /// The change of the table; none where it stays.
    pub fn change(&self, table: Tab) -> Option<TableChange<'a>>
        ensures { option_map seen_change result ≡ change_told self.now table }
    {
        let old = self.files.table(table)?.as_slice();
        let new = self.new_bytes(table)?;
        if old == new {
            None
        } else {
            Some(TableChange { table, old, new })
        }
    }

    // The bytes that the table would get; none where it gets no others.
    fn new_bytes(&self, table: Tab) -> Option<&'a [u8]>
        ensures { option_map (λ bytes. bytes.now) result ≡ new_bytes self.now.news.now table }
    {
        match self.news.iter().find(|new| new.is_for(table)) {
            Some(new) => Some(new.bytes.as_slice()),
            None => None,
        }
    }
}

/// The changes of all tables, in the fixed order.
pub(crate) fn changes<'a>(
    alloc: Global,
    files: PlannedFiles<'a>,
) -> Result<Vec<TableChange<'a>>, AllocError>
    ensures { IfOk result (λ found. map seen_change found.items ≡ changes_told files.entry) }
{
    let mut found = Vec::new(alloc);
    'tables: for table in Tab::all() {
        push_change(&mut found, files.change(table))?;
    }
    Ok(found)
}

// Adds a change where there is one.
fn push_change<'a>(
    found: &mut Vec<TableChange<'a>>,
    change: Option<TableChange<'a>>,
) -> Result<(), AllocError>
    ensures { OnOk result (map seen_change found.new.items
        ≡ map seen_change found.old.items ++ option_to_list (option_map seen_change change.entry)) }
{
    if let Some(change) = change {
        found.push(change)?;
    }
    Ok(())
}
