// A range where its line stands in the file's bytes (subuid(5), subgid(5)).
ghost use Rattle.std.specs.Prelude.{◌≡◌, ◌<◌, ◌≤◌, option_map};
ghost use Rattle.account_model.specs.Records.{greatest_id, last_id, subid_format};
ghost use Rattle.acct_lines.specs.Shown.{subid_shown};

use acct_lines::SubidLine;

/// The range that a line is; none where it is other text. It takes no memory.
pub(crate) fn range_in(line: &[u8]) -> Option<SubidLine<'_>>
    ensures { option_map subid_shown result ≡ subid_format.read line.now }
{
    match SubidLine::read(line) {
        Ok(range) => Some(range),
        Err(_) => None,
    }
}

/// The last ID of a range.
pub(crate) fn end_of(range: &SubidLine<'_>) -> u32
    requires some { 0 < range.now.count }
    requires last { last_id (subid_shown range.now) ≤ greatest_id }
    ensures { result ≡ last_id (subid_shown range.now) }
{
    range.first + (range.count - 1)
}
