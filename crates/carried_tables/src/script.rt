// The edits of a command, table by table.
ghost use Rattle.std.specs.Prelude.{◌≡◌};
ghost use Rattle.account_model.specs.Tables.{no_edits};

use acct_lines::{GroupRecord, GshadowRecord, PasswdRecord, ShadowRecord, SubidRecord};
use line_edits::{Edit, GroupChange, GshadowChange, PasswdChange, ShadowChange, SubidChange};
use std::alloc::Global;

/// The edits of a command. Those of an absent table do nothing.
pub struct Script {
    /// Those of passwd(5).
    pub passwd: Vec<Edit<PasswdRecord, PasswdChange>>,
    /// Those of shadow(5).
    pub shadow: Vec<Edit<ShadowRecord, ShadowChange>>,
    /// Those of group(5).
    pub group: Vec<Edit<GroupRecord, GroupChange>>,
    /// Those of gshadow(5).
    pub gshadow: Vec<Edit<GshadowRecord, GshadowChange>>,
    /// Those of subuid(5).
    pub subuid: Vec<Edit<SubidRecord, SubidChange>>,
    /// Those of subgid(5).
    pub subgid: Vec<Edit<SubidRecord, SubidChange>>,
}

// One call for the six lists, as each tool holds a script over all its ways out.
impl Drop for Script {
    fn drop(self) {
        let Script {
            passwd: _,
            shadow: _,
            group: _,
            gshadow: _,
            subuid: _,
            subgid: _,
        } = self;
    }
}

impl Script {
    ghost use Rattle.carried_tables.specs.Scripts.{seen_script};

    /// A script without edits, which allocates nothing.
    pub fn new(alloc: Global) -> Self
        ensures { seen_script result ≡ no_edits }
    {
        Script {
            passwd: Vec::new(alloc),
            shadow: Vec::new(alloc),
            group: Vec::new(alloc),
            gshadow: Vec::new(alloc),
            subuid: Vec::new(alloc),
            subgid: Vec::new(alloc),
        }
    }
}
