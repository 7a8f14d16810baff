// Texts that are put into the places of a file's lines, and lines that are added (group(5)).
use acct_tables::{FileText, LineFile};
use acct_text::Bytes;
use std::test::Fail;

// How many texts stand in the place; none where no line begins there.
fn count_at(file: &LineFile<'_>, place: usize) -> Option<usize> {
    Some(file.cell(place)?.texts.len())
}

#[test]
fn what_is_put_stands_in_the_place_of_a_line(rt: HostRuntime) -> Result<(), Fail> {
    let alloc = rt.alloc();
    let mut file = LineFile::of(alloc, FileText::lent(b"a:x:1:\nb:x:2:\nc:x:3:"));
    assert_eq!(rt;
        file.seen()?.as_slice(),
        b"a:x:1:\nb:x:2:\nc:x:3:".as_slice()
    );
    file.put(7, Vec::new(alloc))?;
    file.put(14, vec![in alloc; Bytes::of(alloc, b"c:x:4:")?]?)?;
    assert_eq!(rt; file.seen()?.as_slice(), b"a:x:1:\nc:x:4:".as_slice());
    assert_eq!(rt; file.add(Bytes::of(alloc, b"d:x:5:")?)?, 20);
    assert_eq!(rt;
        file.seen()?.as_slice(),
        b"a:x:1:\nc:x:4:\nd:x:5:\n".as_slice()
    );
    file.put(
        20,
        vec![in alloc; Bytes::of(alloc, b"e")?, Bytes::of(alloc, b"f")?]?,
    )?;
    assert_eq!(rt;
        file.seen()?.as_slice(),
        b"a:x:1:\nc:x:4:\ne\nf\n".as_slice()
    );
    assert_eq!(rt; count_at(&file, 0), Some(1));
    assert_eq!(rt; count_at(&file, 3), None);
    assert_eq!(rt; count_at(&file, 7), Some(0));
    assert_eq!(rt; count_at(&file, 20), Some(2));
    assert_eq!(rt; count_at(&file, 21), None);
    Ok(())
}
