// A line as long as a table may be. What is no record, and how one is printed, is told by the rows of
// proofs/LineRows.
use acct_lines::{LineFault, ReadFault, ShadowRecord, TableRecord};
use std::test::Fail;

#[test]
fn a_line_of_16_mebibytes_is_read(rt: HostRuntime) -> Result<(), Fail> {
    let alloc = rt.alloc();
    let colons = vec![in alloc; b':'; 16777216]?;
    let fault = ShadowRecord::read(alloc, colons.as_slice()).err();
    let wanted = ReadFault::Line(LineFault::FieldCount(16777217));
    assert_eq!(rt; fault, Some(wanted));
    Ok(())
}
