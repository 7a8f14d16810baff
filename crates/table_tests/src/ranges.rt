// Gaps behind very many ranges and among them. Which gap is found is told by the rows of
// proofs/RangeRows, and what the commands make of a file by transcripts.
use std::alloc::{AllocError, Global};
use std::test::Fail;
use subid_ranges::Ranges;

// So many lines of 10 IDs each, from 100000 on, the places by a step that leaves none out.
fn lines_of_ten(alloc: Global, count: u32, step: u32, apart: u32) -> Result<String, AllocError> {
    let mut text = String::new(alloc);
    let mut place = 0u32;
    for _ in 0..count {
        let first = 100000u32.wrapping_add(place.wrapping_mul(apart));
        write!(text, "a:{first}:10\n")?;
        place = place.wrapping_add(step) % count;
    }
    Ok(text)
}

// The ranges of such lines.
fn ranges_of_ten(alloc: Global, step: u32, apart: u32) -> Result<Ranges, AllocError> {
    let text = lines_of_ten(alloc, 200000, step, apart)?;
    Ranges::load(alloc, text.as_bytes())
}

#[test]
fn a_gap_of_very_many_ranges_is_found_at_once(rt: HostRuntime) -> Result<(), Fail> {
    let behind = ranges_of_ten(rt.alloc(), 1, 10)?;
    for count in 1..400001 {
        assert_eq!(rt; behind.free_gap(100000, 4294967294, count), Some(2100000));
    }
    let among = ranges_of_ten(rt.alloc(), 7919, 15)?;
    for (min, max, count, wanted) in [
        (100000, 4294967294, 5, Some(100010)),
        (2000000, 4294967294, 5, Some(2000000)),
        (2000001, 4294967294, 5, Some(2000015)),
        (100000, 4294967294, 6, Some(3099995)),
        (100000, 3100000, 7, None),
    ] {
        assert_eq!(rt; among.free_gap(min, max, count), wanted);
    }
    Ok(())
}
