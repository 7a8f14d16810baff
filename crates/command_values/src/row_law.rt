// That a command's request is one of its tool (the manual page of each tool).
ghost use Rattle.std.specs.Prelude.{ℕ, List};
ghost use Rattle.account_model.specs.Request.{Request};
ghost use Rattle.account_model.specs.Words.{Asks};
ghost use Rattle.command_values.specs.Options.{KeepsRow};

/// What words ask for keeps the row of its tool: it has only options that the tool takes, each with
/// a value exactly where it takes one, as many operands as it needs and no more than it takes, and no
/// rule is broken.
pub fn requests_keep_their_row()
    ensures { (words : List (List ℕ)) (request : Request)
        → Asks words request → KeepsRow request }
{}
