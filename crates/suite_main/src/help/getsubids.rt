/// What `accounts getsubids --help` prints (getsubids(1)).
pub(crate) const TEXT: &str = "\
Usage: accounts getsubids -P DIR [options] NAME
       accounts getsubids --help

List the subordinate UIDs of the user NAME of the system image in DIR.

Options:
  -P, --prefix DIR              directory of the system image; always needed
  -R, --root DIR                the same as -P
  -g                            list the subordinate GIDs

Exit status:
  0    the ranges are listed
  1    words that can't be read, no lock, a file that can't be used or updated,
       or no range
  2    words that accounts itself refuses
  100  want of memory
  102  the output or the message can't be written
  103  the clock gives no day
";
