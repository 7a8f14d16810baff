// The texts of the faults that are error types. No command prints them, and no clause names them.
use acct_dates::DateFault;
use acct_lines::{LineFault, ReadFault};
use acct_text::NumberFault;
use intent_file::IntentFault;
use std::alloc::{AllocError, Global};
use std::fmt::Display;
use std::test::Fail;
use subid_ranges::RangeFault;

const NUMBER_FAULTS: [(NumberFault, &str); 3] = [
    (NumberFault::Empty, "no digit"),
    (NumberFault::NotDigit(7), "byte 7 is no digit"),
    (NumberFault::TooLarge, "the number is too large"),
];

const LINE_FAULTS: [(LineFault, &str); 4] = [
    (LineFault::FieldCount(3), "a line of 3 fields"),
    (
        LineFault::BadNumber(4),
        "field 4 is no number in its bounds",
    ),
    (LineFault::EmptyName, "the name is empty"),
    (
        LineFault::BadRange,
        "the range is empty or passes the greatest ID",
    ),
];

const READ_FAULTS: [(ReadFault, &str); 2] = [
    (ReadFault::Line(LineFault::EmptyName), "the name is empty"),
    (ReadFault::Memory, "out of memory"),
];

const DATE_FAULTS: [(DateFault, &str); 3] = [
    (DateFault::Shape, "neither a number of days nor a date"),
    (DateFault::NoSuchDay, "no day of the calendar"),
    (DateFault::OutOfRange, "the day is out of range"),
];

const RANGE_FAULTS: [(RangeFault, &str); 4] = [
    (RangeFault::NoGap, "no free range"),
    (RangeFault::Overlap(5), "the range meets line 5"),
    (RangeFault::BadRange, "the range is none"),
    (RangeFault::Memory, "out of memory"),
];

const INTENT_FAULTS: [(IntentFault, &str); 2] = [
    (IntentFault::Part(2), "intent is damaged in part 2"),
    (IntentFault::Memory, "out of memory"),
];

// Whether each fault has the text beside it.
fn have_texts<T: Display>(alloc: Global, rows: &[(T, &str)]) -> Result<bool, AllocError> {
    for (fault, text) in rows {
        if fault.to_string(alloc)?.as_str() != *text {
            return Ok(false);
        }
    }
    Ok(true)
}

#[test]
fn each_fault_has_its_text(rt: HostRuntime) -> Result<(), Fail> {
    let alloc = rt.alloc();
    assert!(rt; have_texts(alloc, &NUMBER_FAULTS)?);
    assert!(rt; have_texts(alloc, &LINE_FAULTS)?);
    assert!(rt; have_texts(alloc, &READ_FAULTS)?);
    assert!(rt; have_texts(alloc, &DATE_FAULTS)?);
    assert!(rt; have_texts(alloc, &RANGE_FAULTS)?);
    assert!(rt; have_texts(alloc, &INTENT_FAULTS)?);
    Ok(())
}
