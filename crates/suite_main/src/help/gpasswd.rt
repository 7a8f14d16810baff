/// What `accounts gpasswd --help` prints (gpasswd(1)).
pub(crate) const TEXT: &str = "\
Usage: accounts gpasswd -P DIR option GROUP
       accounts gpasswd --help

Change the members or the password of the group GROUP of the system image in
DIR.

Options:
  -P, --prefix DIR              directory of the system image; always needed
  -Q, --root DIR                the same as -P
  -a, --add USER                add a member
  -d, --delete USER             remove a member
  -A, --administrators USERS    all administrators, separated by commas
  -M, --members USERS           all members, separated by commas
  -r, --remove-password         remove the password
  -R, --restrict                restrict the group to its members

Rules:
    at least one option besides -P is needed
    only -A and -M go together

Exit status:
  0    the group is changed, or is so already
  1    no lock, a file that can't be used or updated, or several entries of a
       name
  2    words that can't be read, or a rule is broken
  3    unknown group or user, a user that is no member, or a user whose name
       has a comma
  100  want of memory
  102  the output or the message can't be written
  103  the clock gives no day
";
