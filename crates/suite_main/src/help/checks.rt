// The texts of the tools that check or sort two tables (pwck(8), grpck(8)).

// The text of a tool that does so as `$checks` tells, with the option `$quiet` or none more, and
// sorts by the ID `$key`.
macro_rules! check {
    ($tool:literal, $checks:literal, $quiet:literal, $key:literal) => {
        concat!(
            "Usage: accounts ",
            $tool,
            " -P DIR option\n       accounts ",
            $tool,
            " --help\n\n",
            $checks,
            "

Options:
  -P, --prefix DIR              directory of the system image; always needed
  -R, --root DIR                the same as -P
",
            $quiet,
            "  -r, --read-only               report, and change nothing
  -s, --sort                    sort by ",
            $key,
            "

Rules:
    -r or -s is needed
    -r and -s exclude each other

Exit status:
  0    no problem is found, or the files are sorted
  1    words that can't be read, or a rule is broken
  2    a problem is found, or words that accounts itself refuses
  3    a file can't be used
  4    no lock
  5    a file can't be updated
  100  want of memory
  102  the output or the message can't be written
  103  the clock gives no day
"
        )
    };
}

/// What `accounts pwck --help` prints.
pub(crate) const PWCK: &str = check!(
    "pwck",
    "Check or sort passwd and shadow of the system image in DIR.",
    "  -q, --quiet                   report errors without warnings\n",
    "UID"
);

/// What `accounts grpck --help` prints.
pub(crate) const GRPCK: &str = check!(
    "grpck",
    "Check or sort group and gshadow of the system image in DIR.",
    "",
    "GID"
);
