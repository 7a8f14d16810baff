// The names of a folder as texts.
ghost use Rattle.std.specs.Prelude.{IfSome};
ghost use Rattle.acct_outside.specs.Contract.{IsName};

use acct_outside::{GREATEST_LOCK, Name};
use acct_text::{Tab, read_decimal};

/// How the name of a lock begins.
const LOCK: &[u8] = b"accounts.lock.";

/// The name of this text, where it is one.
pub(crate) fn name_of(text: &[u8]) -> Option<Name>
    ensures { IfSome result IsName }
{
    match text.strip_prefix(LOCK) {
        Some(digits) => lock_of(digits),
        None => table_name(text).or(other_name(text)),
    }
}

// The lock of this number, where it may be one.
fn lock_of(digits: &[u8]) -> Option<Name>
    ensures { IfSome result IsName }
{
    match read_decimal(digits, GREATEST_LOCK) {
        Ok(number) if number > 0 => Some(Name::Lock(number)),
        _ => None,
    }
}

// The name of a table, its backup or what is staged for it.
fn table_name(text: &[u8]) -> Option<Name>
    ensures { IfSome result IsName }
{
    for table in &Tab::all() {
        match text.strip_prefix(table.name().as_bytes()) {
            Some(b"") => return Some(Name::Table(*table)),
            Some(b"-") => return Some(Name::Backup(*table)),
            Some(b"+") => return Some(Name::Staged(*table)),
            _ => {}
        }
    }
    None
}

// A name that is neither a table's nor a lock's.
fn other_name(text: &[u8]) -> Option<Name>
    ensures { IfSome result IsName }
{
    if text == b"login.defs".as_slice() {
        return Some(Name::Defs);
    }
    match text.strip_prefix(b"accounts.") {
        Some(rest) => own_name(rest),
        None => None,
    }
}

// A name that the suite gives, by what stands behind `accounts.` in it.
fn own_name(text: &[u8]) -> Option<Name>
    ensures { IfSome result IsName }
{
    if text == b"intent".as_slice() {
        return Some(Name::Intent);
    }
    if text == b"intent+".as_slice() {
        return Some(Name::IntentStage);
    }
    if text == b"backup+".as_slice() {
        return Some(Name::BackupStage);
    }
    if text == b"free+".as_slice() {
        return Some(Name::FreeStage);
    }
    None
}
