// A line cut into its fields, which no command asks for: a record is read where it stands in its line.
// Which places have lines and fields, and which number has which text, is told by the rows of
// proofs/TextRows.
use acct_text::fields;
use std::test::Fail;

#[test]
fn a_line_is_cut_at_colons(rt: HostRuntime) -> Result<(), Fail> {
    let places = fields(rt.alloc(), b"a::10")?;
    assert_eq!(rt; places.as_slice(), [(0, 1), (2, 2), (3, 5)].as_slice());
    Ok(())
}
