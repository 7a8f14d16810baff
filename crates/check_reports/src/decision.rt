// What a tool of checks decides: a report, or the tables in another order.
ghost use Rattle.std.specs.Prelude.{◌≡◌, ◌++◌, List, [], Option, None, IfOk, OnOk, is_some};
ghost use Rattle.std.specs.Option.{option_copied};
ghost use Rattle.acct_text.specs.declared.files.Files.{Files};
ghost use Rattle.acct_text.specs.ChangedTables.{changed_bytes, changed_tables, with_new_table};
ghost use Rattle.acct_text.specs.Files.{table_of};
ghost use Rattle.account_model.specs.declared.refusal.Refusal.{Refusal};
ghost use Rattle.account_model.specs.declared.tool.Tool.{Tool};
ghost use Rattle.account_model.specs.Action.{changes, multiple_entries, reports};
ghost use Rattle.account_model.specs.Tables.{Script, files_after};
ghost use Rattle.account_model.specs.Text.{first_some};
ghost use Rattle.check_reports.specs.Decided.{DecidesBy};
ghost use Rattle.check_reports.specs.Sorted.{Sorts};

use crate::sorting::{SortKey, sorted_file, sorted_like};
use acct_lines::TableRecord;
use acct_text::{Bytes, Files, NewTables, Tab};
use std::alloc::{AllocError, Global};
use tool_answers::{Decision, Output, decision_by};

/// The decision of a tool that changes nothing: its status, and what it prints.
#[tactic(auto, using(crate::proofs::DecisionLemmas::told_decides))]
pub(crate) fn told(alloc: Global, status: u8, out: Bytes) -> Decision
    ensures { (tool : Tool) (refusals : List (Option Refusal)) (files : Files)
        → first_some refusals ≡ None
        → DecidesBy tool (reports refusals status out) files result }
{
    Decision::Same(output(alloc, status, out))
}

/// The decision of a tool that prints nothing, by the tables that differ.
pub(crate) fn changed(alloc: Global, tables: NewTables) -> Decision
    ensures { (tool : Tool) (script : Script) (files : Files)
        → multiple_entries script files ≡ None
        → tables ≡ changed_tables (table_of files) (table_of (files_after script files))
        → DecidesBy tool (changes [] script) files result }
{
    decision_by(tables, output(alloc, 0, Bytes::new(alloc)))
}

/// Sorts the main table by the key, and that of its hashes by the place of the name there; names
/// that the main table lacks come last. The sorted main table is read again, as its records are
/// those that count.
pub(crate) fn sort_tables<M: TableRecord + Drop, H: TableRecord, K: SortKey<M>>(
    alloc: Global,
    files: &Files,
    main: Tab,
    hashes: Tab,
    key: &K,
) -> Result<Decision, AllocError>
    ensures { IfOk result (λ decision. (tool : Tool) (script : Script)
        → Sorts M.format H.format (K.key_of key.now) main hashes script files.now
        → DecidesBy tool (changes [] script) files.now decision) }
{
    let (main_file, hashes_file) = (files.table(main), files.table(hashes));
    let sorted = sorted_file::<M, K>(alloc, main_file, key)?;
    let alike = sorted_like::<M, H>(alloc, &sorted, hashes_file)?;
    let mut tables = NewTables::none(alloc);
    push_sorted(&mut tables, main, main_file, sorted)?;
    push_sorted(&mut tables, hashes, hashes_file, alike)?;
    Ok(changed(alloc, tables))
}

/// Adds the table in order where that differs from how it was. An absent one stays so.
pub(crate) fn push_sorted(
    changed: &mut NewTables,
    table: Tab,
    old: Option<&Bytes>,
    new: Option<Bytes>,
) -> Result<(), AllocError>
    requires { is_some new ≡ is_some (option_copied old) }
    ensures { OnOk result (changed.new
        ≡ changed.old ++ with_new_table table (changed_bytes (option_copied old.entry) new) []) }
{
    match (old, new) {
        (Some(old), Some(new)) => changed.push(table, old, new),
        _ => Ok(()),
    }
}

// What is printed with a status, and nothing on the error stream.
fn output(alloc: Global, status: u8, out: Bytes) -> Output
    ensures { result ≡ record { status = status; out = out; err = [] } }
{
    Output {
        status,
        out,
        err: Bytes::new(alloc),
    }
}
