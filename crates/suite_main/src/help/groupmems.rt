/// What `accounts groupmems --help` prints (groupmems(8)).
pub(crate) const TEXT: &str = "\
Usage: accounts groupmems -P DIR -g GROUP option
       accounts groupmems --help

Change the members of the group GROUP of the system image in DIR, or list them.

Options:
  -P, --prefix DIR              directory of the system image; always needed
  -R, --root DIR                the same as -P
  -a, --add USER                add a member
  -d, --delete USER             remove a member
  -g, --group GROUP             the group, by its name; always needed
  -l, --list                    list the members, a line each
  -p, --purge                   remove all members

Rules:
    -g is needed
    exactly one of -a, -d, -l and -p is needed

Exit status:
  0    the members are changed, are so already, or are listed
  1    no lock, a file that can't be used or updated, or several entries of a
       name
  2    words that can't be read, or a rule is broken
  3    unknown group or user, a user that is no member, or a user whose name
       has a comma
  100  want of memory
  102  the output or the message can't be written
  103  the clock gives no day
";
