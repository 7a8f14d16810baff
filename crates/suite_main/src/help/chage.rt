/// What `accounts chage --help` prints (chage(1)).
pub(crate) const TEXT: &str = "\
Usage: accounts chage -P DIR options LOGIN
       accounts chage --help

Change or list the aging of the password of the user LOGIN of the system image
in DIR.

Options:
  -P, --prefix DIR              directory of the system image; always needed
  -R, --root DIR                the same as -P
  -d, --lastday LAST_DAY        date of the last change
  -E, --expiredate EXPIRE_DATE  date on which the account expires
  -I, --inactive INACTIVE       days from the password's expiry to the account's
  -l, --list                    list the aging
  -m, --mindays MIN_DAYS        days before the next change is allowed
  -M, --maxdays MAX_DAYS        days before the next change is required
  -W, --warndays WARN_DAYS      days of warning before that

A date is YYYY-MM-DD or a number of days since 1970-01-01. The date or number of
days -1 empties the field.

Rules:
    at least one option besides -P is needed
    -l goes with no other option

Exit status:
  0    the aging is changed, is so already, or is listed
  1    no lock, a file that can't be used or updated, unknown user, or several
       entries of a name
  2    words that can't be read, a rule is broken, or an invalid value
  15   shadow does not exist
  100  want of memory
  102  the output or the message can't be written
  103  the clock gives no day
";
