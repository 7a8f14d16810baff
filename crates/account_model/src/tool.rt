//! The tools of the suite.
ghost use Rattle.std.specs.Prelude.{◌≡◌, ◌==◌, find, option_map};
ghost use Rattle.account_model.specs.Rows.{row_of};
ghost use Rattle.account_model.specs.SeenRows.{form_of, seen_row};
ghost use Rattle.account_model.specs.Spelling.{form_of_letter};
ghost use Rattle.account_model.specs.ToolOptions.{own_options};
ghost use Rattle.account_model.specs.Words.{tool_name, tools, tool_named};

use crate::{OptionForm, ToolRow, rows};

/// A tool, which word 0 of a command names.
#[derive(Clone, Copy, Debug, PartialEq, Eq, Drop)]
pub enum Tool {
    /// Adds a user (useradd(8)).
    Useradd,
    /// Changes a user (usermod(8)).
    Usermod,
    /// Removes a user (userdel(8)).
    Userdel,
    /// Changes the parts of a user's comment (chfn(1)).
    Chfn,
    /// Changes a user's shell (chsh(1)).
    Chsh,
    /// Adds a group (groupadd(8)).
    Groupadd,
    /// Changes a group (groupmod(8)).
    Groupmod,
    /// Removes a group (groupdel(8)).
    Groupdel,
    /// Changes the hash, the administrators and the members of a group (gpasswd(1)).
    Gpasswd,
    /// Changes or lists the members of a group (groupmems(8)).
    Groupmems,
    /// Changes or lists the aging of a user's hash (chage(1)).
    Chage,
    /// Sets the hashes of many users (chpasswd(8)).
    Chpasswd,
    /// Sets the hashes of many groups (chgpasswd(8)).
    Chgpasswd,
    /// Locks, unlocks, empties or ages a user's password, or shows its state (passwd(1)).
    Passwd,
    /// Moves the hashes of users to shadow (pwconv(8)).
    Pwconv,
    /// Moves the hashes of users back to passwd (pwunconv(8)).
    Pwunconv,
    /// Moves the hashes of groups to gshadow (grpconv(8)).
    Grpconv,
    /// Moves the hashes of groups back to group (grpunconv(8)).
    Grpunconv,
    /// Checks or sorts passwd and shadow (pwck(8)).
    Pwck,
    /// Checks or sorts group and gshadow (grpck(8)).
    Grpck,
    /// Lists the subordinate ranges of a user (getsubids(1)).
    Getsubids,
    /// Carries out the commands that its input lists, as one.
    Batch,
}

impl Tool {
    /// The tools in the order of the enum.
    pub fn all() -> [Tool; 22]
        ensures { result ≡ tools }
    {
        [
            Tool::Useradd,
            Tool::Usermod,
            Tool::Userdel,
            Tool::Chfn,
            Tool::Chsh,
            Tool::Groupadd,
            Tool::Groupmod,
            Tool::Groupdel,
            Tool::Gpasswd,
            Tool::Groupmems,
            Tool::Chage,
            Tool::Chpasswd,
            Tool::Chgpasswd,
            Tool::Passwd,
            Tool::Pwconv,
            Tool::Pwunconv,
            Tool::Grpconv,
            Tool::Grpunconv,
            Tool::Pwck,
            Tool::Grpck,
            Tool::Getsubids,
            Tool::Batch,
        ]
    }

    /// The row of the tool.
    pub fn row(self) -> &'static ToolRow
        ensures { seen_row result.now ≡ row_of self }
    {
        match self {
            Tool::Useradd => &rows::USERADD,
            Tool::Usermod => &rows::USERMOD,
            Tool::Userdel => &rows::USERDEL,
            Tool::Chfn => &rows::CHFN,
            Tool::Chsh => &rows::CHSH,
            Tool::Groupadd => &rows::GROUPADD,
            Tool::Groupmod => &rows::GROUPMOD,
            Tool::Groupdel => &rows::GROUPDEL,
            Tool::Gpasswd => &rows::GPASSWD,
            Tool::Groupmems => &rows::GROUPMEMS,
            Tool::Chage => &rows::CHAGE,
            Tool::Chpasswd => &rows::CHPASSWD,
            Tool::Chgpasswd => &rows::CHGPASSWD,
            Tool::Passwd => &rows::PASSWD,
            Tool::Pwconv => &rows::PWCONV,
            Tool::Pwunconv => &rows::PWUNCONV,
            Tool::Grpconv => &rows::GRPCONV,
            Tool::Grpunconv => &rows::GRPUNCONV,
            Tool::Pwck => &rows::PWCK,
            Tool::Grpck => &rows::GRPCK,
            Tool::Getsubids => &rows::GETSUBIDS,
            Tool::Batch => &rows::BATCH,
        }
    }

    /// The word that names the tool.
    pub fn name(self) -> &'static str
        ensures { result.now ≡ tool_name self }
    {
        self.row().name
    }

    /// The first option of the tool with the letter, those of the folder not among them.
    pub fn option(self, letter: u8) -> Option<OptionForm>
        ensures { option_map form_of result ≡ form_of_letter (own_options self) letter }
    {
        find_letter(self.row().options, letter)
    }

    /// The tool that a word names, and none where it names no tool.
    pub fn named(word: &[u8]) -> Option<Tool>
        ensures { result ≡ tool_named word.now }
    {
        Tool::all()
            .iter()
            .copied()
            .find(|tool| tool.name().as_bytes() == word)
    }
}

fn find_letter(forms: &[OptionForm], letter: u8) -> Option<OptionForm>
    ensures { result ≡ find (λ form. (form_of form).letter == letter) forms.now }
{
    forms.iter().copied().find(|form| form.letter() == letter)
}
