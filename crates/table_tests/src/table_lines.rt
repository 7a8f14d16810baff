// A table that is carried from command to command: what is found in it, and edits where its records
// stand (passwd(5)).
ghost use Rattle.acct_text.specs.Bytes.{newline};
ghost use Rattle.acct_text.specs.Pieces.{Lacks};
ghost use Rattle.account_model.specs.RecordEdits.{IsWrittenEdit};
ghost use Rattle.account_model.specs.Records.{passwd_format};
ghost use Rattle.line_edits.specs.PasswdChanges.{passwd_becomes};
ghost use Rattle.line_edits.specs.SeenEdits.{seen_edit};

use acct_lines::PasswdRecord;
use acct_tables::read_record;
use acct_text::Bytes;
use line_edits::{Edit, PasswdChange};
use std::alloc::{AllocError, Global};
use std::test::Fail;
use table::{OfGid, Table};

const USERS: &[u8] =
    b"ann:x:1000:100::/:\n# two of one name\nbob:x:1001:100::/:\nann:x:1002:101::/:";

// The table of these users.
fn users(alloc: Global) -> Result<Table<'static, PasswdRecord>, AllocError> {
    Ok(Table::owning(alloc, Some(Bytes::of(alloc, USERS)?)))
}

// The UID of a user, where there is one.
fn uid_of(found: Option<PasswdRecord>) -> Option<u32> {
    Some(found?.uid)
}

#[test]
fn records_are_found_by_name_and_by_test(rt: HostRuntime) -> Result<(), Fail> {
    let alloc = rt.alloc();
    let mut table = users(alloc)?;
    table.index(alloc)?;
    assert_eq!(rt; uid_of(table.find(alloc, b"ann")?), Some(1000));
    assert_eq!(rt; uid_of(table.find(alloc, b"eve")?), None);
    assert_eq!(rt; table.has(b"bob"), true);
    assert_eq!(rt; table.has_several(alloc, b"ann")?, true);
    assert_eq!(rt; table.has_several(alloc, b"bob")?, false);
    assert_eq!(rt; table.all_named(alloc, b"ann")?.len(), 2);
    assert_eq!(rt;
        uid_of(table.first_passing(alloc, &OfGid { gid: 101 })?),
        Some(1002)
    );
    Ok(())
}

// One edit of the table.
fn edit(
    alloc: Global,
    table: &mut Table<'_, PasswdRecord>,
    one: Edit<PasswdRecord, PasswdChange>,
) -> Result<(), AllocError>
    requires { IsWrittenEdit passwd_format (seen_edit passwd_becomes one) }
{
    let edits = vec![in alloc; one]?;
    table.edit(alloc, edits.as_slice())?;
    Ok(())
}

// Adds the user that the line is.
fn add(alloc: Global, table: &mut Table<'_, PasswdRecord>, line: &[u8]) -> Result<(), AllocError>
    requires { Lacks newline line.now }
{
    if let Some(user) = read_record::<PasswdRecord>(alloc, line)? {
        edit(alloc, table, Edit::Add(user))?;
    }
    Ok(())
}

// Takes the users of the name out.
fn remove(
    alloc: Global,
    table: &mut Table<'_, PasswdRecord>,
    name: &[u8],
) -> Result<(), AllocError> {
    let name = Bytes::of(alloc, name)?;
    edit(alloc, table, Edit::Become(PasswdChange::Remove(name)))
}

#[test]
fn a_name_comes_and_goes_many_times(rt: HostRuntime) -> Result<(), Fail> {
    let alloc = rt.alloc();
    let mut table = users(alloc)?;
    table.index(alloc)?;
    for _ in 0..500 {
        add(alloc, &mut table, b"eve:x:1003:100::/:")?;
        remove(alloc, &mut table, b"eve")?;
    }
    remove(alloc, &mut table, b"ann")?;
    add(alloc, &mut table, b"eve:x:1003:100::/:")?;
    let file = table.take()?.unwrap_or(Bytes::new(alloc));
    assert_eq!(rt;
        file.as_slice(),
        b"# two of one name\nbob:x:1001:100::/:\neve:x:1003:100::/:\n".as_slice()
    );
    assert_eq!(rt; table.is_there(), false);
    Ok(())
}
