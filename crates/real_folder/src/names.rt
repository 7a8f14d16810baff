// Which file of DIR/etc stands for which name.
ghost use Rattle.std.specs.Prelude.{◌≡◌, ◌++◌, nat_eq, IfOk, IfSome, string_bytes, codes, decimal};
ghost use Rattle.std.specs.List.{starts_with};
ghost use Rattle.acct_outside.specs.Contract.{IsLockNumber};
ghost use Rattle.acct_outside.specs.Names.{file_name};
ghost use Rattle.real_folder.specs.Paths.{etc_by, path_at, path_in, own_front, own_name, shadow_lock, FindsLock};

use acct_outside::{GREATEST_LOCK, Name};
use acct_text::{Bytes, Tab, one_number, read_decimal};
use std::alloc::{AllocError, Global};
use std::str;

/// The path of DIR/etc, empty where the prefix is no text.
pub(crate) fn etc_of(alloc: Global, prefix: &Bytes) -> Result<String, AllocError>
    ensures { IfOk result (λ path. string_bytes path ≡ etc_by prefix.now) }
{
    match str::from_utf8(prefix.as_slice()) {
        Ok(prefix) => format!(in alloc; "{prefix}/etc"),
        Err(_) => Ok(String::new(alloc)),
    }
}

/// The path of a name in the folder.
pub(crate) fn path_of(alloc: Global, etc: &str, name: Name) -> Result<String, AllocError>
    ensures { IfOk result (λ path. string_bytes path ≡ path_at etc.now name) }
{
    let file = file_of(alloc, name)?;
    path_to(alloc, etc, file.as_str())
}

/// The path of the file that the session with a token fills before it is its lock.
pub(crate) fn own_path(alloc: Global, etc: &str, token: &str) -> Result<String, AllocError>
    ensures { IfOk result (λ path. string_bytes path ≡ path_in etc.now (own_name token.now)) }
{
    let file = format!(in alloc; "accounts.held+{token}")?;
    path_to(alloc, etc, file.as_str())
}

/// The path of the lock file that shadow-utils has for a table.
pub(crate) fn shadow_lock_path(alloc: Global, etc: &str, table: Tab) -> Result<String, AllocError>
    ensures { IfOk result (λ path. string_bytes path ≡ path_in etc.now (shadow_lock table)) }
{
    let file = format!(in alloc; "{}.lock", table.name())?;
    path_to(alloc, etc, file.as_str())
}

// The path of a file in the folder.
fn path_to(alloc: Global, etc: &str, file: &str) -> Result<String, AllocError>
    ensures { IfOk result (λ path. string_bytes path ≡ path_in etc.now file.now) }
{
    if etc.is_empty() {
        return Ok(String::new(alloc));
    }
    path_below(alloc, etc, file)
}

// The path of a file in a folder that was named.
fn path_below(alloc: Global, etc: &str, file: &str) -> Result<String, AllocError>
    ensures { IfOk result (λ path. string_bytes path ≡ etc.now ++ codes "/" ++ file.now) }
{
    format!(in alloc; "{etc}/{file}")
}

// The name of the file in the folder.
fn file_of(alloc: Global, name: Name) -> Result<String, AllocError>
    ensures { IfOk result (λ file. string_bytes file ≡ file_name name) }
{
    match name {
        Name::Table(table) => String::from_str(alloc, table.name()),
        Name::Backup(table) => format!(in alloc; "{}-", table.name()),
        Name::Staged(table) => format!(in alloc; "{}+", table.name()),
        Name::Intent => String::from_str(alloc, "accounts.intent"),
        Name::IntentStage => String::from_str(alloc, "accounts.intent+"),
        Name::BackupStage => String::from_str(alloc, "accounts.backup+"),
        Name::FreeStage => String::from_str(alloc, "accounts.free+"),
        Name::Lock(number) => format!(in alloc; "accounts.lock.{number}"),
        Name::Defs => String::from_str(alloc, "login.defs"),
    }
}

/// Whether a file has the name of one that a session fills before it is its lock.
pub(crate) fn is_own_name(file: &str) -> bool
    ensures { result ≡ starts_with nat_eq file.now own_front }
{
    file.as_bytes().starts_with(b"accounts.held+")
}

/// The number of the lock whose file this is. A number with a leading zero is no lock's.
pub(crate) fn lock_number(file: &str) -> Option<u64>
    ensures file { FindsLock (λ number. file_name (Name.Lock number)) file.now result }
    ensures bounds { IfSome result IsLockNumber }
{
    number_in(file.strip_prefix("accounts.lock.")?.as_bytes())
}

// The number of a lock whose digits these are.
fn number_in(digits: &[u8]) -> Option<u64>
    ensures printed { FindsLock decimal digits.now result }
    ensures bounds { IfSome result IsLockNumber }
{
    one_number();
    if *digits.first()? == b'0' {
        return None;
    }
    read_decimal(digits, GREATEST_LOCK).ok()
}
