// Which of the six tables edits may have changed (passwd(5), shadow(5), group(5), gshadow(5), subuid(5),
// subgid(5)).
ghost use Rattle.std.specs.Prelude.{◌≡◌, ◌||◌};
ghost use Rattle.acct_text.specs.declared.Tab.{Tab};
ghost use Rattle.carried_tables.specs.Changes.{is_touched};

use acct_text::Tab;

/// The tables that may differ from the first ones, each by its name; the others are as they were.
#[derive(Clone, Copy)]
pub struct TouchedTables {
    /// The table passwd(5).
    pub passwd: bool,
    /// The table shadow(5).
    pub shadow: bool,
    /// The table group(5).
    pub group: bool,
    /// The table gshadow(5).
    pub gshadow: bool,
    /// The table subuid(5).
    pub subuid: bool,
    /// The table subgid(5).
    pub subgid: bool,
}

impl TouchedTables {
    /// None of them.
    pub const NONE: Self = TouchedTables {
        passwd: false,
        shadow: false,
        group: false,
        gshadow: false,
        subuid: false,
        subgid: false,
    };

    /// These, and the others.
    pub fn joined(self, others: Self) -> Self
        ensures { (table : Tab) → is_touched result table
            ≡ (is_touched self table || is_touched others table) }
    {
        TouchedTables {
            passwd: self.passwd | others.passwd,
            shadow: self.shadow | others.shadow,
            group: self.group | others.group,
            gshadow: self.gshadow | others.gshadow,
            subuid: self.subuid | others.subuid,
            subgid: self.subgid | others.subgid,
        }
    }

    /// Whether the table may differ.
    pub(crate) fn has(self, table: Tab) -> bool
        ensures { result ≡ is_touched self table }
    {
        match table {
            Tab::Passwd => self.passwd,
            Tab::Shadow => self.shadow,
            Tab::Group => self.group,
            Tab::Gshadow => self.gshadow,
            Tab::Subuid => self.subuid,
            Tab::Subgid => self.subgid,
        }
    }
}
