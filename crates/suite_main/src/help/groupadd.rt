/// What `accounts groupadd --help` prints (groupadd(8)).
pub(crate) const TEXT: &str = "\
Usage: accounts groupadd -P DIR [options] GROUP
       accounts groupadd --help

Create the group GROUP in the system image in DIR.

Options:
  -P, --prefix DIR              directory of the system image; always needed
  -R, --root DIR                the same as -P
  -f, --force                   succeed where the group exists, and take another
                                GID where that of -g is in use
  -g, --gid GID                 GID
  -K, --key KEY=VALUE           value in place of that of login.defs
  -o, --non-unique              allow a GID that is in use
  -p, --password PASSWORD       hash of the password
  -r, --system                  a system group

Rules:
    -o needs -g

Exit status:
  0    the group is created, or exists and -f is given
  2    words that can't be read, or a rule is broken
  3    invalid name, setting or value
  4    the GID is in use, or no GID is free
  9    the group exists
  10   no lock, a file that can't be used or updated, or several entries of a
       name
  100  want of memory
  102  the output or the message can't be written
  103  the clock gives no day
";
