/// What `accounts groupmod --help` prints (groupmod(8)).
pub(crate) const TEXT: &str = "\
Usage: accounts groupmod -P DIR [options] GROUP
       accounts groupmod --help

Change the group GROUP of the system image in DIR.

Options:
  -P, --prefix DIR              directory of the system image; always needed
  -R, --root DIR                the same as -P
  -g, --gid GID                 GID, which also its users get
  -n, --new-name NEW_GROUP      new name
  -o, --non-unique              allow a GID that is in use
  -p, --password PASSWORD       hash of the password

Rules:
    -o needs -g
    -g, -n or -p is needed

Exit status:
  0    the group is changed, or is so already
  2    words that can't be read, or a rule is broken
  3    invalid value
  4    the GID is in use
  6    unknown group
  9    the new name is in use
  10   no lock, a file that can't be used or updated, or several entries of a
       name
  100  want of memory
  102  the output or the message can't be written
  103  the clock gives no day
";
