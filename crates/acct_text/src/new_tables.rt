// The tables that a command changes.
ghost use Rattle.std.specs.Prelude.{◌≡◌, ◌++◌, [], Some, IfOk, OnOk, OnErr};
ghost use Rattle.acct_text.specs.ChangedTables.{changed_bytes, with_new_table};
ghost use Rattle.acct_text.specs.Tables.{same_table};

use crate::{Bytes, Tab};
use std::alloc::{AllocError, Global};
use std::marker::Model;

/// A table with its new bytes.
#[derive(Drop)]
pub struct NewTable {
    /// Which of the six tables it is.
    pub table: Tab,
    /// All of its bytes.
    pub bytes: Bytes,
}

impl NewTable {
    /// Whether these are the bytes of that table.
    pub fn is_for(&self, table: Tab) -> bool
        ensures { result ≡ same_table self.now.table table }
    {
        self.table == table
    }
}

/// The tables that differ from old ones, each once, with all of their new bytes. Those that stay
/// aren't kept.
#[derive(Drop)]
pub struct NewTables {
    tables: Vec<NewTable>,
}

impl Model for NewTables {
    ghost use Rattle.std.specs.Prelude.{List};
    ghost use Rattle.acct_text.specs.declared.new_tables.NewTable.{NewTable};

    ghost Value = { List NewTable };

    ghost view = { λ n. n.tables.items };
}

impl NewTables {
    /// No table differs. It allocates nothing before the first one that does.
    pub fn none(alloc: Global) -> Self
        ensures { result ≡ [] }
    {
        NewTables {
            tables: Vec::new(alloc),
        }
    }

    /// Adds the table behind the others where its new bytes differ from the old, and else lets them
    /// go. At `AllocError` the tables are as before.
    pub fn push(&mut self, table: Tab, old: &Bytes, new: Bytes) -> Result<(), AllocError>
        ensures ok { OnOk result (self.new
            ≡ self.old ++ with_new_table table (changed_bytes (Some old.now) (Some new)) []) }
        ensures err { OnErr result (self.new ≡ self.old) }
    {
        if old.as_slice() != new.as_slice() {
            self.tables.push(NewTable { table, bytes: new })?;
        }
        Ok(())
    }

    /// The tables as a slice, to go over them in order.
    pub fn as_slice(&self) -> &[NewTable]
        ensures { result.now ≡ self.now }
    {
        self.tables.as_slice()
    }

    /// The tables, to be kept elsewhere without a copy of their bytes.
    pub fn into_vec(self) -> Vec<NewTable>
        ensures { result.items ≡ self }
    {
        self.tables
    }
}
