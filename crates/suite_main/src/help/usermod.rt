/// What `accounts usermod --help` prints (usermod(8)).
pub(crate) const TEXT: &str = "\
Usage: accounts usermod -P DIR [options] LOGIN
       accounts usermod --help

Change the user LOGIN of the system image in DIR.

Options:
  -P, --prefix DIR              directory of the system image; always needed
  -R, --root DIR                the same as -P
  -a, --append                  add to the groups of -G, and leave no other
  -c, --comment COMMENT         comment, mostly the full name
  -d, --home HOME_DIR           home directory, which is not moved
  -e, --expiredate EXPIRE_DATE  date on which the account expires
  -f, --inactive INACTIVE       days from the password's expiry to the account's
  -g, --gid GROUP               primary group, by name or GID
  -G, --groups GROUPS           all further groups, separated by commas
  -l, --login NEW_LOGIN         new login name
  -L, --lock                    lock the password
  -o, --non-unique              allow a UID that is in use
  -p, --password PASSWORD       hash of the password
  -s, --shell SHELL             login shell
  -u, --uid UID                 UID
  -U, --unlock                  unlock the password
  -v, --add-subuids FIRST-LAST  add a range of subordinate UIDs
  -V, --del-subuids FIRST-LAST  remove a range of subordinate UIDs
  -w, --add-subgids FIRST-LAST  add a range of subordinate GIDs
  -W, --del-subgids FIRST-LAST  remove a range of subordinate GIDs

A date is YYYY-MM-DD or a number of days since 1970-01-01. The date or number of
days -1 empties the field.

Rules:
    -a needs -G
    -o needs -u
    -L, -U and -p exclude each other
    at least one option besides -P is needed

Exit status:
  0    the user is changed, or is so already
  1    no lock, a file that can't be used or updated, or several entries of a
       name in passwd or shadow
  2    words that can't be read, a rule is broken, or -e or -f without shadow
  3    invalid value, a range that meets another, an unlock that would leave no
       password, or a login name with a comma for a list of members
  4    the UID is in use
  6    unknown user or group
  9    the new login name is in use
  10   several entries of a name in group or gshadow
  100  want of memory
  102  the output or the message can't be written
  103  the clock gives no day
";
