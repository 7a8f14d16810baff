/// What `accounts plan --help` prints. No manual page of shadow-utils has plans.
pub(crate) const TEXT: &str = "\
Usage: accounts plan [--diff | --json] TOOL -P DIR [options] [operand]
       accounts plan --help

Tell what a command would answer now and what it would change, and change
nothing. The words from TOOL on are those of the command, which may be batch as
well; a fault of theirs is told by its place among them.

A plan has the status, the message and the output of its command. It takes no
lock and writes nothing, so it runs on an image that is mounted read-only, and
needs no more than to read all six tables; that of a command which only shows
what stands reads no more than that. What it tells is one committed state;
where another command changes it meanwhile the plan is refused.

Behind what the command prints stands a line for each table that would change,
would change TABLE OLD NEW, with its sizes in bytes before and after.

Options, right behind plan:
  --diff                        print a unified diff of the tables in place of
                                their sizes, which patch -p1 makes in DIR
  --json                        print one JSON object alone: status, message,
                                output, new users, groups and ranges of
                                subordinate IDs, and the sizes of the tables

Exit status: that of the command.
";
