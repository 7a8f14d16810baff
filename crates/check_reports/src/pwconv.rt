// pwconv and grpconv (pwconv(8)): the hashes of users move from passwd to shadow, and those of
// groups from group to gshadow.
ghost use Rattle.std.specs.Prelude.{◌≡◌, ◌≤◌, [], List, IfOk};
ghost use Rattle.std.specs.List.{AllByRecursion};
ghost use Rattle.acct_text.specs.Limits.{last_day};
ghost use Rattle.acct_text.specs.declared.files.Files.{Files};
ghost use Rattle.account_model.specs.Action.{changes};
ghost use Rattle.account_model.specs.Conversion.{grpconv, hidden, pwconv};
ghost use Rattle.account_model.specs.RecordEdits.{IsWrittenEdit};
ghost use Rattle.account_model.specs.Settings.{Setting};
ghost use Rattle.account_model.specs.Tables.{Script, table_after, table_records};
ghost use Rattle.login_defs.specs.Held.{HasSettings, IsHeld};
ghost use Rattle.check_reports.specs.Converted.{Converts, accounts_of};
ghost use Rattle.check_reports.specs.Decided.{DecidesBy};
ghost use Rattle.check_reports.specs.Gathered.{gathered_edits, taken_edits};

use crate::conversion::{Pair, decided, file_with, multiple};
use crate::gathering::{FieldTaking, Gathering, Hiding, Taking, UserTaking};
use crate::line_changes::walk;
use crate::making::{MadeLine, with_missing};
use crate::printing::PrintedLine;
use crate::secrets::AccountLine;
use account_model::{GroupRecord, GshadowRecord, Key, PasswdRecord, Refusal, ShadowRecord, Tool};
use acct_lines::{GroupLine, GshadowLine, PasswdLine, ShadowLine, TableRecord};
use acct_text::{Files, Tab};
use login_defs::Defs;
use std::alloc::{AllocError, Global};
use tool_answers::{Decision, refuse};

/// Moves the hashes of passwd to shadow, by the settings and the day, in days since 1970-01-01.
pub fn pwconv(
    alloc: Global,
    tool: Tool,
    files: &Files,
    defs: &Defs,
    day: u32,
) -> Result<Decision, AllocError>
    requires in_time { day ≤ last_day }
    requires held { IsHeld defs.now }
    ensures { IfOk result (λ decision. (settings : List Setting) → HasSettings defs.now settings
        → DecidesBy tool (pwconv files.now settings day) files.now decision) }
{
    if files.shadow.is_none() {
        return refuse(alloc, tool, Refusal::NoShadow);
    }
    let pair = Pair {
        main: &files.passwd,
        hashes: &files.shadow,
        main_tab: Tab::Passwd,
        hashes_tab: Tab::Shadow,
    };
    let taking = UserTaking {
        day,
        minimum: defs.value(Key::PassMinDays),
        maximum: defs.value(Key::PassMaxDays),
        warning: defs.value(Key::PassWarnAge),
    };
    gathered::<PasswdRecord, PasswdLine, ShadowRecord, ShadowLine, UserTaking>(
        alloc, tool, &pair, &taking,
    )
}

/// Moves the hashes of group to gshadow.
pub fn grpconv(alloc: Global, tool: Tool, files: &Files) -> Result<Decision, AllocError>
    ensures { IfOk result (DecidesBy tool (grpconv files.now) files.now) }
{
    if files.gshadow.is_none() {
        return refuse(alloc, tool, Refusal::NoGshadow);
    }
    let pair = Pair {
        main: &files.group,
        hashes: &files.gshadow,
        main_tab: Tab::Group,
        hashes_tab: Tab::Gshadow,
    };
    gathered::<GroupRecord, GroupLine, GshadowRecord, GshadowLine, FieldTaking>(
        alloc,
        tool,
        &pair,
        &FieldTaking,
    )
}

// Each field of the main table becomes `x`, and the records of hashes take them over.
fn gathered<
    'f,
    M: TableRecord,
    P: PrintedLine<'f, M>,
    H: TableRecord,
    L: AccountLine<'f, H>,
    T: Taking<'f, H, L> + MadeLine<'f, M, P, H>,
>(alloc: Global, tool: Tool, pair: &Pair<'f>, taking: &T) -> Result<Decision, AllocError>
    requires { AllByRecursion (IsWrittenEdit H.format)
        (taken_edits (accounts_of M.format H.format P.secret P.with_secret L.secret)
        (T.take taking.now) (T.make taking.now) (table_records M.format pair.now.main.now)) }
    ensures { IfOk result (λ decision. (files : Files) (script : Script)
        → Converts M.format H.format
        (hidden (accounts_of M.format H.format P.secret P.with_secret L.secret))
        (taken_edits (accounts_of M.format H.format P.secret P.with_secret L.secret)
        (T.take taking.now) (T.make taking.now) (table_records M.format pair.now.main.now))
        pair.now script files
        → DecidesBy tool (changes [] script) files decision) }
{
    let main = walk::<M, P, Hiding>(alloc, pair.main, &Hiding)?;
    let fields = &main.secrets;
    let gathering = Gathering { fields, taking };
    let hashes = walk::<H, L, Gathering<T>>(alloc, pair.hashes, &gathering)?;
    let met = multiple::<M, P, H, L, Hiding, Gathering<T>>(
        alloc,
        pair,
        &fields.order,
        &Hiding,
        &hashes.secrets.order,
        &gathering,
    )?;
    if let Some(refusal) = met {
        return refuse(alloc, tool, refusal);
    }
    let kept = hashes.text.as_slice();
    let grown = with_missing::<M, P, H, T>(alloc, pair.main, &fields.order, kept, taking)?;
    let new_main = file_with(pair.main, main.into_text());
    let new_hashes = file_with(pair.hashes, grown);
    decided(alloc, pair, new_main, new_hashes)
}
