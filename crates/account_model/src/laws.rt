//! Laws of commands. Each is a function that does nothing, and whose contract is the law.
ghost use Rattle.account_model.specs.Laws.{ToolsAreWritten, DeedsAreChanges, DoneLinesStay, ReportsAreWhole};

/// A tool that doesn't refuse prints only records that read back.
pub fn tools_are_written()
    ensures { ToolsAreWritten }
{}

/// A report of pwck(8) or grpck(8) has the problems of each line, line after line, and no other.
pub fn reports_are_whole()
    ensures { ReportsAreWhole }
{}

/// A deed changes a table, makes none stand or go, and keeps the limit of each.
pub fn deeds_are_changes()
    ensures { DeedsAreChanges }
{}

/// A batch with `--ensure` leaves the files as they are where each of its lines is done on them already.
pub fn done_lines_stay()
    ensures { DoneLinesStay }
{}
