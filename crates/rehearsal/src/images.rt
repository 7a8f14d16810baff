// The tables between two commands: laid into a folder of their own, and read back from it.
ghost use Rattle.std.specs.Prelude.{◌≡◌, None, IfOk};
ghost use Rattle.memory_folder.specs.Memory.{past_of};
ghost use Rattle.memory_folder.specs.Logged.{folder_after};
ghost use Rattle.rehearsal.specs.Alone.{HasFiles, files_at};
ghost use Rattle.rehearsal.specs.Course.{empty_files};
ghost use Rattle.rehearsal.specs.Images.{AllStand, contents_of, text_of};

use acct_outside::Name;
use acct_text::{Bytes, Files, Tab};
use memory_folder::MemoryFolder;
use std::alloc::{AllocError, Global};
use suite_core::tools_have_deeds;

/// Six empty tables.
pub(crate) fn empty_files(alloc: Global) -> Files
    ensures { result ≡ empty_files }
{
    Files {
        passwd: Some(Bytes::new(alloc)),
        shadow: Some(Bytes::new(alloc)),
        group: Some(Bytes::new(alloc)),
        gshadow: Some(Bytes::new(alloc)),
        subuid: Some(Bytes::new(alloc)),
        subgid: Some(Bytes::new(alloc)),
    }
}

/// A folder in memory in which these tables stand, and nothing else. The error says that memory ran
/// out.
pub(crate) fn folder_of(alloc: Global, files: &Files) -> Result<MemoryFolder, AllocError>
    requires { AllStand files.now }
    ensures { IfOk result (λ folder. HasFiles files.now (past_of folder)) }
{
    tools_have_deeds();
    let contents = contents_of(alloc, files)?;
    let folder = MemoryFolder::new(alloc, contents, Vec::new(alloc), Vec::new(alloc))?;
    Ok(folder)
}

// The tables by their names in the folder.
fn contents_of(alloc: Global, files: &Files) -> Result<Vec<(Name, Bytes)>, AllocError>
    ensures { IfOk result (λ contents. contents.items ≡ contents_of files.now) }
{
    let mut contents = Vec::new(alloc);
    'tables: for table in Tab::all() {
        let bytes = Bytes::of(alloc, text_of(files, table))?;
        contents.push((Name::Table(table), bytes))?;
    }
    Ok(contents)
}

/// The text of a table; an absent one counts as empty.
pub(crate) fn text_of(files: &Files, table: Tab) -> &[u8]
    ensures { result.now ≡ text_of files.now table }
{
    match files.table(table) {
        Some(bytes) => bytes.as_slice(),
        None => b"",
    }
}

/// The tables of a folder in which no intent stands. The error says that memory ran out.
pub(crate) fn files_in(folder: &MemoryFolder) -> Result<Files, AllocError>
    requires { (folder_after (past_of folder.now)).file Name.Intent ≡ None }
    ensures { IfOk result (λ files. files ≡ files_at (past_of folder.now)) }
{
    Ok(Files {
        passwd: table_in(folder, Tab::Passwd)?,
        shadow: table_in(folder, Tab::Shadow)?,
        group: table_in(folder, Tab::Group)?,
        gshadow: table_in(folder, Tab::Gshadow)?,
        subuid: table_in(folder, Tab::Subuid)?,
        subgid: table_in(folder, Tab::Subgid)?,
    })
}

// A table of a folder, and none where it is absent.
fn table_in(folder: &MemoryFolder, table: Tab) -> Result<Option<Bytes>, AllocError>
    ensures { IfOk result (λ bytes.
        bytes ≡ (folder_after (past_of folder.now)).file (Name.Table table)) }
{
    match folder.file(Name::Table(table)) {
        Some(bytes) => Ok(Some(bytes.copy()?)),
        None => Ok(None),
    }
}
