// The texts of the tools that set the passwords of an input's lines (chpasswd(8), chgpasswd(8)).

// The text of a tool that does so as `$sets` tells.
macro_rules! set_passwords {
    ($tool:literal, $sets:literal) => {
        concat!(
            "Usage: accounts ",
            $tool,
            " -P DIR -e\n       accounts ",
            $tool,
            " --help\n\n",
            $sets,
            "
Options:
  -P, --prefix DIR              directory of the system image; always needed
  -R, --root DIR                the same as -P
  -e, --encrypted               the lines hold hashes; always needed

Rules:
    -e is needed

Exit status:
  0    the passwords are set
  1    no lock, a file or an input that can't be used, a file that can't be
       updated, a bad line, or several entries of a name
  2    words that can't be read, or a rule is broken
  100  want of memory
  101  the input can't be read
  102  the output or the message can't be written
  103  the clock gives no day
"
        )
    };
}

/// What `accounts chpasswd --help` prints.
pub(crate) const CHPASSWD: &str = set_passwords!(
    "chpasswd",
    "Set the passwords of users of the system image in DIR by the lines LOGIN:HASH of
the standard input, all of them or none.
"
);

/// What `accounts chgpasswd --help` prints.
pub(crate) const CHGPASSWD: &str = set_passwords!(
    "chgpasswd",
    "Set the passwords of groups of the system image in DIR by the lines GROUP:HASH
of the standard input, all of them or none.
"
);
