// The six tables of a command.
ghost use Rattle.std.specs.Prelude.{◌≡◌, is_some};

use carried_tables::{CarriedTables, RangeTable};
use std::marker::Model;

/// The tables of a command, as the commands before it left them. Contracts see them as the files.
#[derive(Drop)]
pub struct Tables<'a> {
    /// Where they stand.
    pub(crate) carried: &'a CarriedTables<'a>,
}

impl<'a> Model for Tables<'a> {
    ghost use Rattle.acct_text.specs.declared.files.Files.{Files};

    ghost Value = { Files };

    ghost view = { λ t. t.carried.now };
}

impl<'a> Tables<'a> {
    /// The tables that are carried from command to command.
    pub fn of(tables: &'a CarriedTables<'a>) -> Self
        ensures { result ≡ tables.now }
    {
        Tables { carried: tables }
    }

    /// Whether there is a shadow(5) file.
    pub fn has_shadow_file(&self) -> bool
        ensures { result ≡ is_some self.now.shadow }
    {
        self.carried.shadow().is_there()
    }

    /// Whether there is a gshadow(5) file.
    pub fn has_gshadow_file(&self) -> bool
        ensures { result ≡ is_some self.now.gshadow }
    {
        self.carried.gshadow().is_there()
    }

    /// The table subuid(5).
    pub fn subuid_ranges(&self) -> &'a RangeTable<'a>
        ensures { result.now ≡ self.now.subuid }
    {
        self.carried.subuid()
    }

    /// The table subgid(5).
    pub fn subgid_ranges(&self) -> &'a RangeTable<'a>
        ensures { result.now ≡ self.now.subgid }
    {
        self.carried.subgid()
    }
}
