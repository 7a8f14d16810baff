// Which commands only show what stands, and so need no lock, and which tables they read
// (docs/ARCHITECTURE.md, "Reports").
ghost use Rattle.std.specs.Prelude.{◌≡◌};
ghost use Rattle.account_model.specs.Request.{is_report, reports};
ghost use Rattle.account_model.specs.Rows.{row_of};
ghost use Rattle.account_model.specs.SeenFiles.{read_tables};
ghost use Rattle.option_words.specs.Parsed.{request_in};

use crate::parsed::Parsed;
use account_model::Reporting;
use acct_text::Tab;

// All six tables.
const ALL: &[Tab] = &[
    Tab::Passwd,
    Tab::Shadow,
    Tab::Group,
    Tab::Gshadow,
    Tab::Subuid,
    Tab::Subgid,
];

impl Parsed {
    /// Whether the command only shows what stands: `pwck -r`, `grpck -r`, `getsubids`, `chage -l`,
    /// `passwd -S`, `groupmems -l`, and each plan.
    pub fn is_report(&self) -> bool
        ensures { result ≡ is_report (request_in self.now) }
    {
        self.planned.is_some() || self.reports()
    }

    // Whether it only shows what stands where it is carried out.
    fn reports(&self) -> bool
        ensures { result ≡ reports (row_of self.now.tool).reporting (request_in self.now) }
    {
        match self.tool.row().reporting {
            Reporting::Never => false,
            Reporting::WhereGiven(letter, _) => self.options.has(letter),
            Reporting::Always(..) => true,
        }
    }

    /// The tables on which its answer rests, in no order. A report reads no others; any other command
    /// reads all six, also where it is planned.
    pub fn read_tables(&self) -> &'static [Tab]
        ensures { result.now ≡ read_tables (request_in self.now) }
    {
        match self.tool.row().reporting {
            Reporting::WhereGiven(letter, tables) if self.options.has(letter) => tables,
            Reporting::Always(letter, tables, others) => {
                if self.options.has(letter) {
                    tables
                } else {
                    others
                }
            }
            _ => ALL,
        }
    }
}
