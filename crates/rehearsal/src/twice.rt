// Two commands in a row in one folder in memory: the second finds what the first has made.
ghost use Rattle.std.specs.Prelude.{◌≡◌, IfOk};
ghost use Rattle.account_model.specs.Request.{Request};
ghost use Rattle.account_model.specs.Words.{Asks};
ghost use Rattle.memory_folder.specs.Memory.{past_of};
ghost use Rattle.suite_session.specs.Stands.{IsDecided};
ghost use Rattle.rehearsal.specs.Alone.{IsLawful, IsSomeStep};
ghost use Rattle.rehearsal.specs.Twice.{HasNoAccounts, empty_tables, gid_in_use, group_words};

use crate::alone::run_alone;
use acct_outside::Name;
use acct_text::{Bytes, Tab, Word};
use memory_folder::{MemoryClock, MemoryFolder, MemorySink, MemorySource};
use std::alloc::{AllocError, Global};
use suite_core::{Cause, Outcome, tools_have_deeds};

// The day of both commands, which is 2024-10-04.
const DAY: u32 = 20000;

/// What two commands in a row answered.
#[derive(Drop)]
pub struct Twice {
    /// The outcome of the first.
    pub first: Outcome,
    /// The outcome of the second.
    pub second: Outcome,
}

/// Runs `groupadd -P R -g 1500 staff`, and then `groupadd -P R -g 1500 other`, in a folder in memory
/// that has no accounts.
///
/// Where the first has changed the files, and the tool of the second decided, the second is refused:
/// the GID 1500 is in use. The error says that there was no memory for the words or the files.
pub fn add_one_gid_twice(alloc: Global) -> Result<Twice, AllocError>
    ensures { IfOk result (λ twice. twice.first.cause ≡ Cause.Changed →
        IsDecided twice.second.cause → twice.second ≡ gid_in_use) }
{
    let mut folder = no_accounts(alloc)?;
    let first = add_group(alloc, b"staff", &mut folder)?;
    let second = add_group(alloc, b"other", &mut folder)?;
    Ok(Twice { first, second })
}

// A folder in memory in which passwd and group are empty, and nothing else stands.
fn no_accounts(alloc: Global) -> Result<MemoryFolder, AllocError>
    ensures { IfOk result (λ folder. HasNoAccounts (past_of folder)) }
{
    tools_have_deeds();
    let files = empty_tables(alloc)?;
    let folder = MemoryFolder::new(alloc, files, Vec::new(alloc), Vec::new(alloc))?;
    Ok(folder)
}

// The tables passwd and group, both empty.
fn empty_tables(alloc: Global) -> Result<Vec<(Name, Bytes)>, AllocError>
    ensures { IfOk result (λ files. files.items ≡ empty_tables) }
{
    let mut files = Vec::new(alloc);
    files.push((Name::Table(Tab::Passwd), Bytes::new(alloc)))?;
    files.push((Name::Table(Tab::Group), Bytes::new(alloc)))?;
    Ok(files)
}

// Runs `groupadd -P R -g 1500 NAME`, on streams that it doesn't show. The error says that there was no
// memory for the words, and then nothing is called.
fn add_group(alloc: Global, name: &[u8], folder: &mut MemoryFolder) -> Result<Outcome, AllocError>
    requires { IsLawful (past_of folder.old) }
    ensures lawful { IsLawful (past_of folder.new) }
    ensures step { IfOk result (λ outcome. (request : Request) →
        Asks (group_words name.now) request → IsDecided outcome.cause →
        IsSomeStep request (past_of folder.old) (past_of folder.new) outcome) }
{
    let words = group_words(alloc, name)?;
    Ok(run_alone(
        alloc,
        words.as_slice(),
        folder,
        &mut MemorySource::new(alloc, Bytes::new(alloc), Vec::new(alloc)),
        &mut MemorySink::new(alloc, Vec::new(alloc)),
        &mut MemorySink::new(alloc, Vec::new(alloc)),
        &mut MemoryClock::new(DAY, Vec::new(alloc)),
    ))
}

// The words `groupadd -P R -g 1500 NAME`.
fn group_words(alloc: Global, name: &[u8]) -> Result<Vec<Word>, AllocError>
    ensures { IfOk result (λ words. words.items ≡ group_words name.now) }
{
    let mut words = Vec::new(alloc);
    words.push(Word::of(alloc, b"groupadd")?)?;
    words.push(Word::of(alloc, b"-P")?)?;
    words.push(Word::of(alloc, b"R")?)?;
    words.push(Word::of(alloc, b"-g")?)?;
    words.push(Word::of(alloc, b"1500")?)?;
    words.push(Word::of(alloc, name)?)?;
    Ok(words)
}
