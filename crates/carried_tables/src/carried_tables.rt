// The tables that commands carry from one to the next (passwd(5), shadow(5), group(5), gshadow(5),
// subuid(5), subgid(5)).
ghost use Rattle.std.specs.Prelude.{◌≡◌, ◌++◌, [], false, None, Some, is_some, option_map, IfErr, IfOk, OnOk};
ghost use Rattle.acct_text.specs.ChangedTables.{changed_bytes, changed_tables, with_new_table};
ghost use Rattle.acct_text.specs.Files.{table_of};
ghost use Rattle.account_model.specs.WrittenScript.{IsWrittenScript};
ghost use Rattle.carried_tables.specs.Changes.{UneditedStay, StandWhere, is_touched};
ghost use Rattle.carried_tables.specs.Scripts.{CarriesOut, IsChecked, seen_script};

use crate::{IdTable, RangeTable, Script, TouchedTables};
use account_model::Refusal;
use acct_lines::{GroupRecord, GshadowRecord, PasswdRecord, ShadowRecord};
use acct_text::{Files, NewTables, Tab};
use std::alloc::{AllocError, Global};
use std::marker::Model;
use std::mem::replace;
use table::{Checked, KeyedRecord, Table};
use tool_answers::ToolFault;

// The places of the lines that a script changes, as far as they are told.
#[derive(Drop)]
struct EditPlaces {
    passwd: Vec<usize>,
    shadow: Vec<usize>,
    group: Vec<usize>,
    gshadow: Vec<usize>,
}

/// The six tables. Where an index is asked for, a command takes no pass over all records of a table for
/// what it looks up by name, for the IDs that are used, and for edits of records that it names. Contracts
/// see them as the files.
pub struct CarriedTables<'a> {
    passwd: IdTable<'a, PasswdRecord>,
    shadow: Table<'a, ShadowRecord>,
    group: IdTable<'a, GroupRecord>,
    gshadow: Table<'a, GshadowRecord>,
    subuid: RangeTable<'a>,
    subgid: RangeTable<'a>,
}

// One call, so that who holds the tables has no walk through all that they own on each way out.
impl<'a> Drop for CarriedTables<'a> {
    fn drop(self) {
        let CarriedTables {
            passwd: _,
            shadow: _,
            group: _,
            gshadow: _,
            subuid: _,
            subgid: _,
        } = self;
    }
}

impl<'a> Model for CarriedTables<'a> {
    ghost use Rattle.acct_text.specs.declared.files.Files.{Files};

    ghost Value = { Files };

    ghost view = { λ t. record {
      passwd = t.passwd;
      shadow = t.shadow;
      group = t.group;
      gshadow = t.gshadow;
      subuid = t.subuid;
      subgid = t.subgid;
    } };
}

impl<'a> CarriedTables<'a> {
    /// The tables of the files, whose bytes are lent and not looked at.
    pub fn of(alloc: Global, files: &'a Files) -> Self
        ensures { result ≡ files.now }
    {
        CarriedTables {
            passwd: IdTable::lent(alloc, &files.passwd),
            shadow: Table::lent(alloc, &files.shadow),
            group: IdTable::lent(alloc, &files.group),
            gshadow: Table::lent(alloc, &files.gshadow),
            subuid: RangeTable::lent(alloc, &files.subuid),
            subgid: RangeTable::lent(alloc, &files.subgid),
        }
    }

    /// Makes an index of each table, that of subuid(5) and of subgid(5) at its first edit, and gathers the
    /// IDs of users and groups. It serves commands that follow one another.
    pub fn index(&mut self, alloc: Global) -> Result<(), AllocError>
        ensures { self.new ≡ self.old }
    {
        self.subuid.index();
        self.subgid.index();
        self.index_users(alloc)?;
        self.index_groups(alloc)
    }

    /// Makes an index of passwd(5), with its UIDs, and of shadow(5).
    pub fn index_users(&mut self, alloc: Global) -> Result<(), AllocError>
        ensures { self.new ≡ self.old }
    {
        self.passwd.index(alloc)?;
        self.shadow.index(alloc)
    }

    /// Makes an index of group(5), with its GIDs, and of gshadow(5).
    pub fn index_groups(&mut self, alloc: Global) -> Result<(), AllocError>
        ensures { self.new ≡ self.old }
    {
        self.group.index(alloc)?;
        self.gshadow.index(alloc)
    }

    /// The table passwd(5), with its UIDs.
    pub fn passwd(&self) -> &IdTable<'a, PasswdRecord>
        ensures { result.now ≡ self.now.passwd }
    {
        &self.passwd
    }

    /// The table shadow(5).
    pub fn shadow(&self) -> &Table<'a, ShadowRecord>
        ensures { result.now ≡ self.now.shadow }
    {
        &self.shadow
    }

    /// The table group(5), with its GIDs.
    pub fn group(&self) -> &IdTable<'a, GroupRecord>
        ensures { result.now ≡ self.now.group }
    {
        &self.group
    }

    /// The table gshadow(5).
    pub fn gshadow(&self) -> &Table<'a, GshadowRecord>
        ensures { result.now ≡ self.now.gshadow }
    {
        &self.gshadow
    }

    /// The table subuid(5).
    pub fn subuid(&self) -> &RangeTable<'a>
        ensures { result.now ≡ self.now.subuid }
    {
        &self.subuid
    }

    /// The table subgid(5).
    pub fn subgid(&self) -> &RangeTable<'a>
        ensures { result.now ≡ self.now.subgid }
    {
        &self.subgid
    }

    /// Carries out the script of a tool, the edits of each table in their order, and tells the tables that
    /// may differ then.
    ///
    /// At `Refused` the script would touch a record whose name has several records in its table, the first
    /// in the order passwd, shadow, group, gshadow, and the tables are as before. At `Memory` some of the
    /// edits may be made, and a table may be gone.
    pub fn carry_out(&mut self, alloc: Global, script: &Script) -> Result<TouchedTables, ToolFault>
        requires { IsWrittenScript (seen_script script.now) }
        ensures { CarriesOut (seen_script script.now) self.old self.new result }
    {
        let places = self.check(alloc, script)?;
        Ok(TouchedTables {
            passwd: self.passwd.edit(alloc, &script.passwd, &places.passwd)?,
            shadow: self.shadow.edit_at(alloc, &script.shadow, &places.shadow)?,
            group: self.group.edit(alloc, &script.group, &places.group)?,
            gshadow: self
                .gshadow
                .edit_at(alloc, &script.gshadow, &places.gshadow)?,
            subuid: self.subuid.edit(alloc, &script.subuid)?,
            subgid: self.subgid.edit(alloc, &script.subgid)?,
        })
    }

    // The places that the edits change, as far as they are told.
    //
    // At `Refused` the script touches a record whose name has several, the first such.
    fn check(&mut self, alloc: Global, script: &Script) -> Result<EditPlaces, ToolFault>
        requires { IsWrittenScript (seen_script script.now) }
        ensures checked { IsChecked (seen_script script.now) self.old result }
        ensures same { self.new ≡ self.old }
    {
        Ok(EditPlaces {
            passwd: places_in(Tab::Passwd, self.passwd.check(alloc, &script.passwd)?)?,
            shadow: places_in(Tab::Shadow, self.shadow.check(alloc, &script.shadow)?)?,
            group: places_in(Tab::Group, self.group.check(alloc, &script.group)?)?,
            gshadow: places_in(Tab::Gshadow, self.gshadow.check(alloc, &script.gshadow)?)?,
        })
    }

    /// Takes the tables out that differ from the first ones, in the fixed order, among those that may. What
    /// a table holds is let go before the bytes of the next are made.
    pub fn take_changes(
        &mut self,
        alloc: Global,
        first: &Files,
        touched: TouchedTables,
    ) -> Result<NewTables, AllocError>
        requires stand { StandWhere first.now self.old }
        requires left { UneditedStay touched first.now self.old }
        ensures { IfOk result (λ tables.
            tables ≡ changed_tables (table_of first.now) (table_of self.old)) }
    {
        let mut tables = NewTables::none(alloc);
        let passwd = self.passwd.take(alloc);
        push_change(&mut tables, Tab::Passwd, first, touched, passwd)?;
        let shadow = replace(&mut self.shadow, Table::owning(alloc, None));
        push_change(&mut tables, Tab::Shadow, first, touched, shadow)?;
        let group = self.group.take(alloc);
        push_change(&mut tables, Tab::Group, first, touched, group)?;
        let gshadow = replace(&mut self.gshadow, Table::owning(alloc, None));
        push_change(&mut tables, Tab::Gshadow, first, touched, gshadow)?;
        let subuid = self.subuid.take(alloc);
        push_change(&mut tables, Tab::Subuid, first, touched, subuid)?;
        let subgid = self.subgid.take(alloc);
        push_change(&mut tables, Tab::Subgid, first, touched, subgid)?;
        Ok(tables)
    }
}

// The places of the edits of a table that meet no name with several records.
fn places_in(tab: Tab, checked: Checked) -> Result<Vec<usize>, ToolFault>
    ensures found { IfOk result (λ places.
        (checked.multiple ≡ None) × (places ≡ checked.places)) }
    ensures refused { IfErr result (λ fault. Some fault ≡
        option_map (λ name. ToolFault.Refused (Refusal.Multiple tab name)) checked.multiple) }
{
    let Checked { multiple, places } = checked;
    match multiple {
        Some(name) => Err(ToolFault::Refused(Refusal::Multiple(tab, name))),
        None => Ok(places),
    }
}

// Adds the table where it differs from the first one, for which it is looked at where it may.
fn push_change<R: KeyedRecord + Drop>(
    tables: &mut NewTables,
    tab: Tab,
    first: &Files,
    touched: TouchedTables,
    mut table: Table<'_, R>,
) -> Result<(), AllocError>
    requires stands { is_some table ≡ is_some (table_of first.now tab) }
    requires left { is_touched touched tab ≡ false → table ≡ table_of first.now tab }
    ensures { OnOk result (tables.new ≡ tables.old
        ++ with_new_table tab (changed_bytes (table_of first.now tab) table.entry) []) }
{
    if !touched.has(tab) {
        return Ok(());
    }
    match (first.table(tab), table.take()?) {
        (Some(first), Some(new)) => tables.push(tab, first, new),
        _ => Ok(()),
    }
}
