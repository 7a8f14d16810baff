// The ranges of an owner that go, all in one pass (userdel(8); subuid(5), subgid(5)).
ghost use Rattle.std.specs.Prelude.{◌≡◌, ◌++◌, true, false, IfOk, IsSome, OnOk, Some};
ghost use Rattle.acct_text.specs.Bytes.{newline};
ghost use Rattle.acct_text.specs.Lines.{file_bytes, lines_of};
ghost use Rattle.acct_text.specs.Pieces.{Lacks};
ghost use Rattle.account_model.specs.Edits.{becomes, edited};
ghost use Rattle.account_model.specs.Edits.Edit.{Become};
ghost use Rattle.account_model.specs.Records.{subid_format};
ghost use Rattle.account_model.specs.declared.records.SubidRecord.{SubidRecord};
ghost use Rattle.account_model.specs.SubidOwner.{is_owned};
ghost use Rattle.acct_tables.specs.SeenLines.{seen_line};
ghost use Rattle.line_edits.specs.SubidChanges.{subid_becomes};

use acct_lines::{SubidLine, first_field};
use acct_tables::{FileLine, Lines, is_owner};
use acct_text::Bytes;
use line_edits::SubidChange;
use std::alloc::{AllocError, Global};

/// The bytes of a file of subordinate IDs without the ranges of an owner, by name or by UID. A line
/// takes no memory but in them.
pub(crate) fn text_without_owner(
    alloc: Global,
    text: &[u8],
    owner: &Bytes,
    uid: Option<u32>,
) -> Result<Bytes, AllocError>
    ensures { IfOk result (λ bytes. bytes ≡ file_bytes (edited subid_format (lines_of text.now)
        (Become (subid_becomes (SubidChange.Remove owner.now uid))))) }
{
    let mut made = Bytes::new(alloc);
    let mut left = Lines::of(text);
    'lines: while let Some(line) = left.take() {
        push_others(&mut made, &line, owner, uid)?;
    }
    Ok(made)
}

// Adds the line, where it isn't a range of the owner.
fn push_others(
    made: &mut Bytes,
    line: &FileLine<'_>,
    owner: &Bytes,
    uid: Option<u32>,
) -> Result<(), AllocError>
    requires { Lacks newline line.now.text.now }
    ensures { OnOk result (made.new ≡ made.old ++ file_bytes (becomes subid_format
        (subid_becomes (SubidChange.Remove owner.now uid)) (seen_line line.now))) }
{
    if is_range_of(line.text, owner.as_slice(), uid) {
        return Ok(());
    }
    line.push_to(made)
}

// Whether the line is a range of the owner. The numbers of others aren't read.
fn is_range_of(line: &[u8], owner: &[u8], uid: Option<u32>) -> bool
    ensures others { result ≡ false → (r : SubidRecord) → subid_format.read line.now ≡ Some r
        → is_owned owner.now uid r ≡ false }
    ensures range { result ≡ true → IsSome (subid_format.read line.now) }
    ensures owned { result ≡ true → (r : SubidRecord) → subid_format.read line.now ≡ Some r
        → is_owned owner.now uid r ≡ true }
{
    is_owner(first_field(line), owner, uid) && is_range(line)
}

// Whether the line is a range.
fn is_range(line: &[u8]) -> bool
    ensures other { result ≡ false → (r : SubidRecord) → subid_format.read line.now ≡ Some r → ⊥ }
    ensures range { result ≡ true → IsSome (subid_format.read line.now) }
{
    match SubidLine::read(line) {
        Ok(_) => true,
        Err(_) => false,
    }
}
