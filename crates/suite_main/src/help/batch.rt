/// What `accounts batch --help` prints. No manual page of shadow-utils has the tool.
pub(crate) const TEXT: &str = "\
Usage: accounts batch -P DIR [--ensure] [FILE]
       accounts batch --help

Carry out the commands that the lines of FILE list, or of the standard input
where FILE is - or isn't given, as one: all of them or none. Each is made on
what those before it leave.

A line is a command without `accounts` and without -P: useradd, usermod,
userdel, groupadd, groupmod, groupdel, gpasswd or chage. Its words are read as
sh reads them, with ', \" and \\, but nothing is expanded. A # where a word
would begin is a comment's, and a line without words is skipped.

Options:
  -P, --prefix DIR              directory of the system image; always needed
  -R, --root DIR                the same as -P
  -e, --ensure                  pass by a line whose user or group is there, or
                                whose user, group or member is gone, already

Exit status:
  0    the commands are carried out
  1    no lock, a file or an input that can't be used, or a file that can't be
       updated
  2    words that can't be read, or a line that asks for nothing
  100  want of memory
  101  the file or the input can't be read
  102  the output or the message can't be written
  103  the clock gives no day

Where a command of a line is refused, the status is that of its tool, and the
message names the line.
";
