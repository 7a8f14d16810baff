/// What `accounts useradd --help` prints (useradd(8)).
pub(crate) const TEXT: &str = "\
Usage: accounts useradd -P DIR [options] LOGIN
       accounts useradd --help

Create the user LOGIN in the system image in DIR.

Options:
  -P, --prefix DIR              directory of the system image; always needed
  -R, --root DIR                the same as -P
  -b, --base-dir BASE_DIR       home directory BASE_DIR/LOGIN, not /home/LOGIN
  -c, --comment COMMENT         comment, mostly the full name
  -d, --home-dir HOME_DIR       home directory, which is not made
  -e, --expiredate EXPIRE_DATE  date on which the account expires
  -f, --inactive INACTIVE       days from the password's expiry to the account's
  -F, --add-subids-for-system   subordinate IDs also for a system user
  -g, --gid GROUP               primary group, by name or GID
  -G, --groups GROUPS           further groups, separated by commas
  -K, --key KEY=VALUE           value in place of that of login.defs
  -l, --no-log-init             no effect
  -M, --no-create-home          no effect
  -N, --no-user-group           no group of the user's name
  -o, --non-unique              allow a UID that is in use
  -p, --password PASSWORD       hash of the password
  -r, --system                  a system user
  -s, --shell SHELL             login shell
  -u, --uid UID                 UID
  -U, --user-group              a group of the user's name

A date is YYYY-MM-DD or a number of days since 1970-01-01. The date or number of
days -1 leaves the field empty.

Rules:
    -g and -U exclude each other
    -N and -U exclude each other
    -o needs -u

Exit status:
  0    the user is created
  1    no lock, a file that can't be used or updated, no free range of
       subordinate IDs, or several entries of a name in passwd or shadow
  2    words that can't be read, or a rule is broken
  3    invalid name, setting or value
  4    the UID is in use, or no UID or GID is free
  6    unknown group
  9    the user exists, or the group of its name
  10   several entries of a name in group or gshadow
  100  want of memory
  102  the output or the message can't be written
  103  the clock gives no day
";
