//! What is said of a tool in lists and numbers.
ghost use Rattle.std.specs.Prelude.{◌≡◌};
ghost use Rattle.account_model.specs.Rows.{has_commands, is_read};

use crate::{OptionForm, Rule, ToolStatuses};
use acct_text::Tab;

/// When a command of a tool only shows what stands, and the tables that it then reads.
#[derive(Clone, Copy)]
pub enum Reporting {
    /// It never does.
    Never,
    /// Where the option of this letter is given.
    WhereGiven(u8, &'static [Tab]),
    /// Always: of these tables where the option of this letter is given, and else of those.
    Always(u8, &'static [Tab], &'static [Tab]),
}

/// What a tool reads from the input.
#[derive(Clone, Copy)]
pub enum InputKind {
    /// Nothing.
    Nothing,
    /// Names with their hashes, a pair a line.
    Hashes,
    /// Commands, one a line.
    Commands,
}

impl InputKind {
    /// Whether there is anything to read.
    pub fn is_read(self) -> bool
        ensures { result ≡ is_read self }
    {
        !matches!(self, InputKind::Nothing)
    }

    /// Whether its lines are commands.
    pub fn has_commands(self) -> bool
        ensures { result ≡ has_commands self }
    {
        matches!(self, InputKind::Commands)
    }
}

/// Which refusal of a tool says that a line of a batch is done already.
#[derive(Clone, Copy)]
pub enum Done {
    /// None.
    Never,
    /// `UserExists`: the user that it is to make stands.
    UserStands,
    /// `GroupExists`: the group that it is to make stands.
    GroupStands,
    /// `NoUser`: the user that it is to remove is gone.
    UserGone,
    /// `NoGroup`: the group that it is to remove is gone.
    GroupGone,
    /// `NotMember`: the member of the group that it is to remove is gone.
    MemberGone,
}

/// The row of a tool.
#[derive(Clone, Copy)]
pub struct ToolRow {
    /// The word that names it.
    pub name: &'static str,
    /// The letter of `--root`, which is `--prefix` here.
    pub root: u8,
    /// Its options but those of the folder, in the order of its manual page.
    pub options: &'static [OptionForm],
    /// How many operands it needs.
    pub least: usize,
    /// How many operands it takes at most.
    pub most: usize,
    /// The rules between its options, in the order in which they are tested.
    pub rules: &'static [Rule],
    /// What it reads from the input.
    pub input: InputKind,
    /// Whether a line of a batch may name it.
    pub is_for_lines: bool,
    /// Which refusal says that such a line is done already.
    pub done: Done,
    /// When it reports.
    pub reporting: Reporting,
    /// Its statuses.
    pub statuses: ToolStatuses,
    /// The letters of the options that the wrapper by the old names takes beside these.
    pub wrapper_letters: &'static [u8],
    /// Their long names.
    pub wrapper_names: &'static [&'static str],
}
