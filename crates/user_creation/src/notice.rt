// What is told of a new user (useradd(8)): a hash that all can read, and ranges that are inherited.
ghost use Rattle.std.specs.Prelude.{◌≡◌, ◌++◌, ℕ, List, IfOk, OnOk};
ghost use Rattle.account_model.specs.Records.{subid_format};
ghost use Rattle.account_model.specs.Settings.{Setting};
ghost use Rattle.account_model.specs.Tables.{table_records};
ghost use Rattle.account_model.specs.Useradd.{hash_notices, inherited_text, open_hash_text, opens_nothing, range_notices, useradd, useradd_notices};
ghost use Rattle.table_edits.specs.Acting.{IsOutputOf, IsScriptOf};
ghost use Rattle.carried_tables.specs.Scripts.{seen_script};
ghost use Rattle.user_creation.specs.Added.{added_uid};

use crate::ranges::may_have_ranges;
use acct_text::{Bytes, Names, Tab};
use carried_tables::RangeTable;
use command_values::Asked;
use line_edits::Edit;
use std::alloc::{AllocError, Global};
use table_edits::{Script, Tables};
use tool_answers::Output;

/// What useradd prints by the script with which it makes the user: notices of a hash that stands in
/// passwd and could open the account, and of ranges that stood there before and are the new user's.
pub fn useradd_output(
    alloc: Global,
    asked: &Asked,
    tables: &Tables,
    script: &Script,
) -> Result<Output, AllocError>
    ensures { IfOk result (λ output. (settings : List Setting) (day : ℕ)
        → IsScriptOf (useradd asked.now tables.now settings day) script.now
        → IsOutputOf asked.now.tool (useradd asked.now tables.now settings day) output) }
{
    let notices = useradd_notices(alloc, asked, tables, added_uid(script))?;
    Output::noticed(alloc, asked.tool(), &notices)
}

// The UID of the user that the script adds.
fn added_uid(script: &Script) -> Option<u32>
    ensures { result ≡ added_uid (seen_script script.now) }
{
    match script.passwd.first() {
        Some(Edit::Add(user)) => Some(user.uid),
        _ => None,
    }
}

// The notices of a new user of the UID.
fn useradd_notices(
    alloc: Global,
    asked: &Asked,
    tables: &Tables,
    uid: Option<u32>,
) -> Result<Names, AllocError>
    ensures { IfOk result (λ notices. notices ≡ useradd_notices asked.now tables.now uid) }
{
    let mut notices = hash_notices(alloc, asked, tables)?;
    tell_ranges(
        alloc,
        &mut notices,
        asked,
        uid,
        Tab::Subuid,
        tables.subuid_ranges(),
    )?;
    tell_ranges(
        alloc,
        &mut notices,
        asked,
        uid,
        Tab::Subgid,
        tables.subgid_ranges(),
    )?;
    Ok(notices)
}

// Adds a notice where a user that may have ranges owns a line of the file.
fn tell_ranges(
    alloc: Global,
    notices: &mut Names,
    asked: &Asked,
    uid: Option<u32>,
    tab: Tab,
    file: &RangeTable,
) -> Result<(), AllocError>
    ensures { OnOk result (notices.new ≡ notices.old
        ++ range_notices asked.now uid tab (table_records subid_format file.now)) }
{
    let login = asked.operand();
    if !may_have_ranges(asked) || !file.has_owner(login, uid) {
        return Ok(());
    }
    let text = inherited_text(alloc, login, tab)?;
    notices.push(text.as_slice())?;
    Ok(())
}

// The notice of a hash that stands in passwd and could open the account; none of another.
fn hash_notices(alloc: Global, asked: &Asked, tables: &Tables) -> Result<Names, AllocError>
    ensures { IfOk result (λ notices. notices ≡ hash_notices asked.now tables.now) }
{
    let mut notices = Names::new(alloc);
    if tables.has_shadow_file() || opens_nothing(asked.value_or(b'p', b"!")) {
        return Ok(notices);
    }
    let text = open_hash_text(alloc, asked.operand())?;
    notices.push(text.as_slice())?;
    Ok(notices)
}

// Whether no password opens an account with such a hash: it begins with `!` or `*`.
fn opens_nothing(hash: &[u8]) -> bool
    ensures { result ≡ opens_nothing hash.now }
{
    match hash.first() {
        Some(first) => *first == b'!' || *first == b'*',
        None => false,
    }
}

// The notice of a hash that all can read.
fn open_hash_text(alloc: Global, user: &[u8]) -> Result<Bytes, AllocError>
    ensures { IfOk result (λ text. text ≡ open_hash_text user.now) }
{
    let mut text = Bytes::of(alloc, b"password of ")?;
    text.push(user)?;
    text.push(b" stands in passwd, as shadow does not exist")?;
    Ok(text)
}

// The notice of ranges that the user inherits.
fn inherited_text(alloc: Global, user: &[u8], tab: Tab) -> Result<Bytes, AllocError>
    ensures { IfOk result (λ text. text ≡ inherited_text user.now tab) }
{
    let mut text = Bytes::of(alloc, b"user ")?;
    text.push(user)?;
    text.push(b" inherits ranges of ")?;
    text.push(tab.name().as_bytes())?;
    Ok(text)
}
