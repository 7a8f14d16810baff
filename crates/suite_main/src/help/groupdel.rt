/// What `accounts groupdel --help` prints (groupdel(8)).
pub(crate) const TEXT: &str = "\
Usage: accounts groupdel -P DIR [options] GROUP
       accounts groupdel --help

Delete the group GROUP from the system image in DIR.

Options:
  -P, --prefix DIR              directory of the system image; always needed
  -R, --root DIR                the same as -P
  -f, --force                   also where it is the primary group of a user

Exit status:
  0    the group is deleted
  2    words that can't be read
  6    unknown group
  8    the group is the primary group of a user
  10   no lock, a file that can't be used or updated, or several entries of a
       name
  100  want of memory
  102  the output or the message can't be written
  103  the clock gives no day
";
