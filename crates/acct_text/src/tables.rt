// The order of the six tables, and the names of their files (passwd(5), shadow(5), group(5),
// gshadow(5), subuid(5), subgid(5)).
ghost use Rattle.std.specs.Prelude.{◌≡◌};
ghost use Rattle.acct_text.specs.Tables.{all_tables, table_name};

use crate::Tab;

impl Tab {
    /// The tables in the order in which the suite reads and writes them.
    pub fn all() -> [Tab; 6]
        ensures { result ≡ all_tables }
    {
        [
            Tab::Passwd,
            Tab::Shadow,
            Tab::Group,
            Tab::Gshadow,
            Tab::Subuid,
            Tab::Subgid,
        ]
    }

    /// The name of the table's file in the folder `etc`.
    pub fn name(self) -> &'static str
        ensures { result.now ≡ table_name self }
    {
        match self {
            Tab::Passwd => "passwd",
            Tab::Shadow => "shadow",
            Tab::Group => "group",
            Tab::Gshadow => "gshadow",
            Tab::Subuid => "subuid",
            Tab::Subgid => "subgid",
        }
    }
}
