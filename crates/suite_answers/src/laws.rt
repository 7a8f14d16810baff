// Laws over definitions alone, of what the tools answer.
ghost use Rattle.suite_answers.specs.Changes.{ChangesSucceed};

/// The answer of a tool that is a change has status 0.
pub fn changes_succeed()
    ensures { ChangesSucceed }
{}
