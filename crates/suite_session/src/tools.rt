// What a session asks of the tools: the decision of a command on the files that were loaded.
ghost use Rattle.std.specs.Prelude.{◌≡◌, ◌≤◌, Some, IfOk, IfSome, IsSome, length};
ghost use Rattle.std.specs.Option.{option_copied};
ghost use Rattle.acct_text.specs.declared.Tab.{Tab as Table};
ghost use Rattle.acct_text.specs.Bytes.{Bytes as Text};
ghost use Rattle.acct_text.specs.Files.{table_of};
ghost use Rattle.acct_text.specs.Limits.{table_limit};
ghost use Rattle.suite_session.specs.Loading.{DecidesOn};

use crate::runner::Question;
use acct_text::{Bytes, Files, NewTables};
use std::alloc::{AllocError, Global};
use suite_answers::Answer;

/// What a command does on given files.
#[derive(Drop)]
pub enum Decided {
    /// These tables get other bytes, with this answer. The others stay as they are.
    Change(NewTables, Answer),
    /// All tables stay as they are, with this answer.
    Stay(Answer),
}

/// The tools of a suite, as one: sessions of them differ in what `decide` answers alone.
pub trait Tools {
    /// What the command answers on these files and this login.defs. The error says that memory ran
    /// out.
    fn decide(
        alloc: Global,
        asked: &Question,
        files: &Files,
        defs: Option<&Bytes>,
    ) -> Result<Decided, AllocError>
        requires passwd { IsSome files.now.passwd }
        requires group { IsSome files.now.group }
        requires small { (table : Table) (bytes : Text) → table_of files.now table ≡ Some bytes
            → length bytes ≤ table_limit }
        requires small_defs { IfSome (option_copied defs) (λ bytes. length bytes ≤ table_limit) }
        ensures { IfOk result (DecidesOn asked.now files.now (option_copied defs.entry)) };
}
