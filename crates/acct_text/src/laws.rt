// The laws of lines, pieces and numbers, for the proofs of other crates. They do nothing when called.
ghost use Rattle.acct_text.specs.Lines.{OneCutIntoLines};
ghost use Rattle.acct_text.specs.Numbers.{OneNumber};
ghost use Rattle.acct_text.specs.Pieces.{OneCutIntoPieces};

/// Each file has one list of lines.
pub fn one_cut_into_lines()
    ensures { OneCutIntoLines }
{}

/// Each text has one list of pieces between separators.
pub fn one_cut_into_pieces()
    ensures { OneCutIntoPieces }
{}

/// Each text is one number within a bound, or none.
pub fn one_number()
    ensures { OneNumber }
{}
