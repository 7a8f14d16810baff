/// What `accounts userdel --help` prints (userdel(8)).
pub(crate) const TEXT: &str = "\
Usage: accounts userdel -P DIR [options] LOGIN
       accounts userdel --help

Delete the user LOGIN from the system image in DIR.

Options:
  -P, --prefix DIR              directory of the system image; always needed
  -R, --root DIR                the same as -P
  -f, --force                   delete the group of the user's name even if it
                                is the primary group of another user

Exit status:
  0    the user is deleted
  1    no lock, a file that can't be used or updated, or several entries of a
       name in passwd or shadow
  2    words that can't be read
  6    unknown user
  10   several entries of a name in group or gshadow
  100  want of memory
  102  the output or the message can't be written
  103  the clock gives no day
";
