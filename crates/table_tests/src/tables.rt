// Look-ups of names in a large group(5) by an index, which take no pass over its lines.
use acct_lines::GroupRecord;
use acct_text::Bytes;
use std::alloc::{AllocError, Global};
use std::test::Fail;
use table::Table;

// The GID of a group, where there is one.
fn gid_of(found: Option<GroupRecord>) -> Option<u32> {
    Some(found?.gid)
}

// The table of so many groups, with the numbers from 1 on in their names and as GIDs.
fn many_groups(alloc: Global, count: u32) -> Result<Table<'static, GroupRecord>, AllocError> {
    let mut text = String::new(alloc);
    for number in 1..=count {
        write!(text, "g{number}:x:{number}:\n")?;
    }
    let file = Some(Bytes::of(alloc, text.as_bytes())?);
    let mut groups = Table::owning(alloc, file);
    groups.index(alloc)?;
    Ok(groups)
}

#[test]
fn each_of_many_groups_is_found_at_once(rt: HostRuntime) -> Result<(), Fail> {
    let alloc = rt.alloc();
    let groups = many_groups(alloc, 200000)?;
    for number in 1..200001 {
        let name = format!(in alloc; "g{number}")?;
        let other = format!(in alloc; "h{number}")?;
        assert_eq!(rt; gid_of(groups.find(alloc, name.as_bytes())?), Some(number));
        assert_eq!(rt; groups.has(other.as_bytes()), false);
        assert_eq!(rt; groups.has_several(alloc, name.as_bytes())?, false);
    }
    Ok(())
}
