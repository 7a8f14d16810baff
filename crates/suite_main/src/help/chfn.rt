/// What `accounts chfn --help` prints (chfn(1)).
pub(crate) const TEXT: &str = "\
Usage: accounts chfn -P DIR options LOGIN
       accounts chfn --help

Change the parts of the comment of the user LOGIN of the system image in DIR,
which stand between its commas. Those that no option gives stay.

Options:
  -P, --prefix DIR              directory of the system image; always needed
  -R, --root DIR                the same as -P
  -f, --full-name FULL_NAME     full name
  -r, --room ROOM               room number
  -w, --work-phone WORK_PHONE   work phone number
  -h, --home-phone HOME_PHONE   home phone number
  -o, --other OTHER             other information, which may have commas

Rules:
    at least one option besides -P is needed

Exit status:
  0    the comment is changed, or is so already
  1    no lock, a file that can't be used or updated, an invalid value, unknown
       user, or several entries of a name
  2    words that can't be read, or a rule is broken
  100  want of memory
  102  the output or the message can't be written
  103  the clock gives no day
";
