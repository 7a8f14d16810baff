// The texts of the tools that move passwords between a table and that of its hashes (pwconv(8)).

// The text of a tool that does so as `$moves` tells, and needs the table `$hashes`.
macro_rules! conversion {
    ($tool:literal, $hashes:literal, $moves:literal) => {
        concat!(
            "Usage: accounts ",
            $tool,
            " -P DIR\n       accounts ",
            $tool,
            " --help\n\n",
            $moves,
            "
Options:
  -P, --prefix DIR              directory of the system image; always needed
  -R, --root DIR                the same as -P

Exit status:
  0    the passwords are moved, or are so already
  1    no lock, a file that can't be used or updated, several entries of a name,
       or ",
            $hashes,
            " does not exist
  2    words that can't be read
  100  want of memory
  102  the output or the message can't be written
  103  the clock gives no day
"
        )
    };
}

/// What `accounts pwconv --help` prints.
pub(crate) const PWCONV: &str = conversion!(
    "pwconv",
    "shadow",
    "Move the passwords of users from passwd to shadow in the system image in DIR.
Each user gets a line in shadow, and a line of no user goes.
"
);

/// What `accounts pwunconv --help` prints.
pub(crate) const PWUNCONV: &str = conversion!(
    "pwunconv",
    "shadow",
    "Move the passwords of users from shadow to passwd in the system image in DIR,
and empty shadow. The aging of passwords is lost.
"
);

/// What `accounts grpconv --help` prints.
pub(crate) const GRPCONV: &str = conversion!(
    "grpconv",
    "gshadow",
    "Move the passwords of groups from group to gshadow in the system image in DIR.
Each group gets a line in gshadow, and a line of no group goes.
"
);

/// What `accounts grpunconv --help` prints.
pub(crate) const GRPUNCONV: &str = conversion!(
    "grpunconv",
    "gshadow",
    "Move the passwords of groups from gshadow to group in the system image in DIR,
and empty gshadow. The administrators of groups are lost.
"
);
