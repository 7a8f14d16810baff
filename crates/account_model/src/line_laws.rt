//! Laws of lines, records and edits. Each is a function that does nothing, and whose contract is the law.
ghost use Rattle.account_model.specs.LineLaws.{RecordsAreFound, FaultsAreFound, RecordsReadBack, TablesAreEdited, NoEditsNoChange, OtherTextStays, TouchedLinesAreMet, UntouchedLinesStay};

/// A text is at most one record of a table: the reader of the format finds exactly what the relation says
/// (passwd(5), shadow(5), group(5), gshadow(5), subuid(5), subgid(5)).
pub fn records_are_found()
    ensures { RecordsAreFound }
{}

/// A text is a record exactly where there is no fault to name.
pub fn faults_are_found()
    ensures { FaultsAreFound }
{}

/// A record whose fields a line can hold prints as one line, and that line reads as the same record.
pub fn records_read_back()
    ensures { RecordsReadBack }
{}

/// The records of a table after edits of its lines are its records, edited one after another.
pub fn tables_are_edited()
    ensures { TablesAreEdited }
{}

/// Without edits all files stay, byte for byte.
pub fn no_edits_no_change()
    ensures { NoEditsNoChange }
{}

/// Other text of a table stays as it is, in its order.
pub fn other_text_stays()
    ensures { OtherTextStays }
{}

/// Lines that no edit touches stay byte for byte, in their order.
pub fn untouched_lines_stay()
    ensures { UntouchedLinesStay }
{}

/// The first touched line of a name with several lines is the one that a `put` meets.
pub fn touched_lines_are_met()
    ensures { TouchedLinesAreMet }
{}
