// What the tools of the suite answer on the files that were loaded. Which tool that is, or which
// tools, `suite_tools` tells.
ghost use Rattle.std.specs.Prelude.{◌≡◌, ◌≤◌, IfOk, IfSome, length};
ghost use Rattle.std.specs.Result.{result_err};
ghost use Rattle.std.specs.Option.{option_copied};
ghost use Rattle.acct_text.specs.Limits.{table_limit};
ghost use Rattle.account_model.specs.Answer.{passes_limit};
ghost use Rattle.account_model.specs.Settings.{settings_of};
ghost use Rattle.login_defs.specs.Faults.{file_fault};
ghost use Rattle.login_defs.specs.Held.{HasSettings, IsHeld};
ghost use Rattle.suite_session.specs.Answers.{given_for};
ghost use Rattle.suite_core.specs.Deciding.{asked_decision, bad_line, decided_by, large_in, large_table, settings_text, small_decided, with_output};

use acct_outside::Name;
use acct_text::{Bytes, Files, NewTables, TABLE_LIMIT, Tab};
use login_defs::{Defs, DefsFault};
use plan_tool::{PlanForm, as_plan};
use std::alloc::{AllocError, Global};
use suite_answers::{Answer, Cause, Outcome, Which};
use suite_session::{Decided, Question, Tools};
use suite_tools::{Decision, Output, decide};

/// The tools of the suite, as one.
#[derive(Drop)]
pub struct Suite;

impl Tools for Suite {
    fn decide(
        alloc: Global,
        asked: &Question,
        files: &Files,
        defs: Option<&Bytes>,
    ) -> Result<Decided, AllocError> {
        match settings_in(defs) {
            Ok(settings) => {
                let parsed = asked.parsed();
                let input = asked.input();
                let day = asked.day();
                let decision = decide(alloc, parsed, input, files, &settings, day)?;
                answer_to(alloc, asked, files, decision)
            }
            Err(fault) => bad_setting(alloc, asked, fault),
        }
    }
}

// The answer to a settings file with this fault.
fn bad_setting(alloc: Global, asked: &Question, fault: DefsFault) -> Result<Decided, AllocError>
    ensures { IfOk result (λ decided. decided ≡ Decided.Stay
        (given_for asked.now.request.tool (Cause.BadSetting (bad_line fault)))) }
{
    let DefsFault::BadNumber(line) = fault;
    Ok(Decided::Stay(asked.try_to_tell(alloc, Cause::BadSetting(line))?))
}

// The settings of login.defs, where it may be absent; `BadNumber` names its first bad line.
fn settings_in(defs: Option<&Bytes>) -> Result<Defs, DefsFault>
    requires { IfSome (option_copied defs) (λ bytes. length bytes ≤ table_limit) }
    ensures settings { IfOk result (λ held.
        HasSettings held (settings_of (settings_text (option_copied defs.entry)))) }
    ensures fault { result_err result ≡ file_fault (settings_text (option_copied defs.entry)) }
{
    match defs {
        Some(text) => Defs::read(text.as_slice()),
        None => Ok(Defs::absent()),
    }
}

// The answer to what the command decides on the files, of which each new table must keep its limit.
fn answer_to(
    alloc: Global,
    asked: &Question,
    files: &Files,
    decision: Decision,
) -> Result<Decided, AllocError>
    ensures { IfOk result (λ decided.
        decided ≡ decided_by asked.now.request.tool asked.now.request.plan files.now decision) }
{
    if let Some(table) = large_in(&decision) {
        drop(decision);
        let cause = Cause::TooLarge(Which::File(Name::Table(table)));
        return Ok(Decided::Stay(asked.try_to_tell(alloc, cause)?));
    }
    let plan = asked.parsed().planned;
    Ok(small_decided(as_asked(alloc, plan, files, decision)?))
}

// The decision on the files as it is asked for: carried out, or planned.
fn as_asked(
    alloc: Global,
    plan: Option<PlanForm>,
    files: &Files,
    decision: Decision,
) -> Result<Decision, AllocError>
    ensures { IfOk result (λ told. told ≡ asked_decision plan files.now decision) }
{
    match plan {
        None => Ok(decision),
        Some(form) => as_plan(alloc, form, decision, files),
    }
}

// The answer to a decision whose tables keep their limit.
fn small_decided(decision: Decision) -> Decided
    ensures { result ≡ small_decided decision }
{
    match decision {
        Decision::Change(new, output) => Decided::Change(new, with_output(Cause::Changed, output)),
        Decision::Same(output) => Decided::Stay(with_output(Cause::Same, output)),
        Decision::Refuse(refusal, output) => {
            Decided::Stay(with_output(Cause::Refused(refusal), output))
        }
        Decision::RefuseLine(line, refusal, output) => {
            Decided::Stay(with_output(Cause::RefusedLine(line, refusal), output))
        }
    }
}

// The first table of a decision that gets more bytes than it may have.
fn large_in(decision: &Decision) -> Option<Tab>
    ensures { result ≡ large_in decision.now }
{
    match decision {
        Decision::Change(new, _) => large_table(new),
        _ => None,
    }
}

// The first table that gets more bytes than it may have.
fn large_table(tables: &NewTables) -> Option<Tab>
    ensures { result ≡ large_table tables.now }
{
    for new in tables.as_slice() {
        if passes_limit(new.bytes.as_slice()) {
            return Some(new.table);
        }
    }
    None
}

// Whether these are more bytes than a table may have.
fn passes_limit(bytes: &[u8]) -> bool
    ensures { result ≡ passes_limit bytes.now }
{
    bytes.len() as u64 > TABLE_LIMIT
}

// The answer with this cause and what the command prints.
fn with_output(cause: Cause, output: Output) -> Answer
    ensures { result ≡ with_output cause output }
{
    Answer {
        outcome: Outcome {
            status: output.status,
            cause,
        },
        out: output.out,
        err: output.err,
    }
}
