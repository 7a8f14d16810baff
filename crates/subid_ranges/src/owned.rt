// The ranges of one owner (getsubids(1), usermod(8)).
ghost use Rattle.std.specs.Prelude.{◌≡◌};
ghost use Rattle.acct_text.specs.Lines.{lines_of};
ghost use Rattle.account_model.specs.Records.{subid_format};
ghost use Rattle.subid_ranges.specs.Owned.{owned_one, owned_ranges};

use crate::range_line::range_in;
use acct_lines::first_field;
use acct_tables::{Lines, is_owner};
use std::marker::Model;

/// The ranges of an owner that are left, in the order of lines: the first ID and the count of each.
#[derive(Drop)]
pub struct OwnedRanges<'a> {
    left: Lines<'a>,
    owner: &'a [u8],
    uid: Option<u32>,
}

impl<'a> Model for OwnedRanges<'a> {
    ghost use Rattle.std.specs.Prelude.{List, ℕ};
    ghost use Rattle.subid_ranges.specs.Owned.{owned_ranges};

    ghost Value = { List (ℕ × ℕ) };

    ghost view = { λ s. owned_ranges s.owner.now s.uid s.left };
}

impl<'a> OwnedRanges<'a> {
    /// The ranges in a file with these bytes that are the owner's.
    pub fn new(text: &'a [u8], owner: &'a [u8], uid: Option<u32>) -> Self
        ensures { result ≡ owned_ranges owner.now uid (lines_of text.now) }
    {
        OwnedRanges {
            left: Lines::of(text),
            owner,
            uid,
        }
    }
}

impl<'a> Iterator for OwnedRanges<'a> {
    ghost use Rattle.std.specs.Iterator.{YieldsFirst, item_count};

    type Item = (u32, u32);

    ghost next_gives = { YieldsFirst (λ s. s) };

    ghost remaining = { item_count (λ s. s) };

    fn next(&mut self) -> Option<(u32, u32)> {
        'lines: while let Some(line) = self.left.take() {
            if let Some(range) = owned_in(line.text, self.owner, self.uid) {
                return Some(range);
            }
        }
        None
    }
}

// The range that a line is, where it is the owner's. A line of another owner isn't read further.
fn owned_in(line: &[u8], owner: &[u8], uid: Option<u32>) -> Option<(u32, u32)>
    ensures { result ≡ owned_one owner.now uid (subid_format.read line.now) }
{
    if !is_owner(first_field(line), owner, uid) {
        return None;
    }
    let range = range_in(line)?;
    Some((range.first, range.count))
}
