// What main prints by itself: the version, the list of the tools, and the text of each tool, which
// has its use, its options in the order of the manual page, its rules as they are told where they
// are broken, and its statuses.

ghost use Rattle.std.specs.Prelude.{◌≡◌, true, map};
ghost use lib.Pointwise.{pointwise};
ghost use Rattle.account_model.specs.Words.{tools};
ghost use Rattle.suite_main.specs.HelpTexts.{helps_with, names_tools};

mod batch;
mod chage;
mod checks;
mod chfn;
mod chsh;
mod conversions;
mod getsubids;
mod gpasswd;
mod groupadd;
mod groupdel;
mod groupmems;
mod groupmod;
mod passwd;
pub(crate) mod plan;
mod set_passwords;
mod useradd;
mod userdel;
mod usermod;

use account_model::Tool;

/// The program with its version.
pub(crate) const VERSION: &str = "accounts 0.2.0\n";

/// The tools, and what holds for all of them, in lines of at most 80 columns.
pub(crate) fn text_of_suite() -> &'static str
    ensures { names_tools result.now ≡ true }
{
    "\
Usage: accounts TOOL -P DIR [options] [operand]
       accounts TOOL --help
       accounts plan [--diff | --json] TOOL -P DIR [options] [operand]
       accounts plan --help
       accounts rehearse SEED COUNT
       accounts --help
       accounts --version

Read, check and change the account files of the system image in DIR: passwd,
shadow, group, gshadow, subuid and subgid in DIR/etc. A command makes its whole
change or none of it, also where it is killed.

A plan tells what a command would answer now and what it would change, and
changes nothing.

A rehearsal carries out COUNT commands, 1 to 20000, on tables in memory, and
sums up what they leave; the numbers in their names begin at SEED, 0 to
999999999.

Tools:
  useradd    create a user
  usermod    change a user
  userdel    delete a user
  chfn       change the parts of a user's comment
  chsh       change the login shell of a user
  groupadd   create a group
  groupmod   change a group
  groupdel   delete a group
  gpasswd    change the members or the password of a group
  groupmems  change or list the members of a group
  chage      change or list the aging of a password
  chpasswd   set the passwords of users
  chgpasswd  set the passwords of groups
  passwd     lock, unlock, age or show the password of a user
  pwconv     move the passwords of users to shadow
  pwunconv   move the passwords of users to passwd
  grpconv    move the passwords of groups to gshadow
  grpunconv  move the passwords of groups to group
  pwck       check or sort passwd and shadow
  grpck      check or sort group and gshadow
  getsubids  list the subordinate IDs of a user
  batch      carry out a list of commands as one

Exit status, where no tool has answered:
  0    a text or a rehearsal was asked for
  2    no tool or an unknown one, more than 512 words, a word of more than 4096
       bytes, one that is not UTF-8, or rehearse without SEED and COUNT
  100  want of memory
  102  the output or the message can't be written
"
}

/// The text of a tool: its use, and the options and rules by which the tool's words are read, in
/// lines of at most 80 columns.
pub(crate) fn text_of(tool: Tool) -> &'static str
    ensures { helps_with tool result.now ≡ true }
{
    texts()[tool as usize]
}

// The texts of the tools, in the order of the enum.
fn texts() -> [&'static str; 22]
    ensures { pointwise helps_with tools (map (λ text. text.now) result) ≡ true }
{
    [
        useradd::TEXT,
        usermod::TEXT,
        userdel::TEXT,
        chfn::TEXT,
        chsh::TEXT,
        groupadd::TEXT,
        groupmod::TEXT,
        groupdel::TEXT,
        gpasswd::TEXT,
        groupmems::TEXT,
        chage::TEXT,
        set_passwords::CHPASSWD,
        set_passwords::CHGPASSWD,
        passwd::TEXT,
        conversions::PWCONV,
        conversions::PWUNCONV,
        conversions::GRPCONV,
        conversions::GRPUNCONV,
        checks::PWCK,
        checks::GRPCK,
        getsubids::TEXT,
        batch::TEXT,
    ]
}
