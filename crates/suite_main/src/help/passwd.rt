/// What `accounts passwd --help` prints (passwd(1)).
pub(crate) const TEXT: &str = "\
Usage: accounts passwd -P DIR options LOGIN
       accounts passwd --help

Lock, unlock, delete or age the password of the user LOGIN of the system image
in DIR, or show its state. No password is asked for.

Options:
  -P, --prefix DIR              directory of the system image; always needed
  -R, --root DIR                the same as -P
  -d, --delete                  empty the password
  -e, --expire                  expire the password
  -i, --inactive INACTIVE       days from the password's expiry to the account's
  -l, --lock                    lock the password
  -n, --mindays MIN_DAYS        days before the next change is allowed
  -S, --status                  show the state of the password
  -u, --unlock                  unlock the password
  -w, --warndays WARN_DAYS      days of warning before the next change
  -x, --maxdays MAX_DAYS        days before the next change is required

The number of days -1 empties the field.

Rules:
    at least one option besides -P is needed
    -S goes with no other option
    -d, -l and -u exclude each other

Exit status:
  0    the password is changed, is so already, or is shown
  1    a file that can't be used or updated, unknown user, several entries of a
       name, or shadow does not exist
  2    words that can't be read, or a rule is broken
  3    unlocking would leave no password
  5    no lock
  6    invalid value of an option
  100  want of memory
  102  the output or the message can't be written
  103  the clock gives no day
";
