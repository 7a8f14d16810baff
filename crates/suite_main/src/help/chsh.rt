/// What `accounts chsh --help` prints (chsh(1)).
pub(crate) const TEXT: &str = "\
Usage: accounts chsh -P DIR -s SHELL LOGIN
       accounts chsh --help

Change the login shell of the user LOGIN of the system image in DIR.

Options:
  -P, --prefix DIR              directory of the system image; always needed
  -R, --root DIR                the same as -P
  -s, --shell SHELL             login shell; always needed

Rules:
    -s is needed

Exit status:
  0    the shell is changed, or is so already
  1    no lock, a file that can't be used or updated, an invalid value, unknown
       user, or several entries of a name
  2    words that can't be read, or a rule is broken
  100  want of memory
  102  the output or the message can't be written
  103  the clock gives no day
";
