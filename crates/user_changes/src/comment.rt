// The comment of a user, and its parts between commas (chfn(1)).
ghost use Rattle.std.specs.Prelude.{◌≡◌, drop, IfOk};
ghost use Rattle.std.specs.Option.{option_copied};
ghost use Rattle.account_model.specs.Chfn.{comment_with, given_parts, parts_of};
ghost use Rattle.account_model.specs.Faults.{field_at};
ghost use Rattle.user_changes.specs.Comments.{comment_pieces, seen_parts};

use acct_text::{Bytes, Names, cut_once, join};
use command_values::Asked;
use std::alloc::{AllocError, Global};

// The parts of a comment. One that is missing is empty.
#[derive(Clone, Copy)]
struct Parts<'a> {
    full_name: &'a [u8],
    room: &'a [u8],
    work_phone: &'a [u8],
    home_phone: &'a [u8],
    // All that stands behind the fourth comma, with its commas.
    other: &'a [u8],
}

// A piece of a comment, and what stands behind its comma, where it ends at one.
#[derive(Clone, Copy)]
struct Piece<'a> {
    text: &'a [u8],
    behind: Option<&'a [u8]>,
}

/// The comment with the parts that the options give in place of its own.
pub(crate) fn new_comment(alloc: Global, asked: &Asked, old: &[u8]) -> Result<Bytes, AllocError>
    ensures { IfOk result (λ comment.
        comment ≡ comment_with (given_parts asked.now (parts_of old.now))) }
{
    let parts = parts_of(old);
    let mut pieces = Names::new(alloc);
    pieces.push(asked.value_or(b'f', parts.full_name))?;
    pieces.push(asked.value_or(b'r', parts.room))?;
    pieces.push(asked.value_or(b'w', parts.work_phone))?;
    pieces.push(asked.value_or(b'h', parts.home_phone))?;
    let other = asked.value_or(b'o', parts.other);
    if !other.is_empty() {
        pieces.push(other)?;
    }
    join(alloc, b',', &pieces)
}

// The parts of the comment.
fn parts_of(comment: &[u8]) -> Parts<'_>
    ensures { seen_parts result ≡ parts_of comment.now }
{
    let full_name = first_piece(Some(comment));
    let room = first_piece(full_name.behind);
    let work_phone = first_piece(room.behind);
    let home_phone = first_piece(work_phone.behind);
    Parts {
        full_name: full_name.text,
        room: room.text,
        work_phone: work_phone.text,
        home_phone: home_phone.text,
        other: home_phone.behind.unwrap_or(&[]),
    }
}

// The first piece of what is left of a comment; where nothing is left it is empty.
fn first_piece(left: Option<&[u8]>) -> Piece<'_>
    ensures first { result.text.now ≡ field_at 1 (comment_pieces (option_copied left.entry)) }
    ensures others { comment_pieces (option_copied result.behind)
        ≡ drop 1 (comment_pieces (option_copied left.entry)) }
{
    let Some(comment) = left else {
        return Piece {
            text: &[],
            behind: None,
        };
    };
    match cut_once(b',', comment) {
        Some(sides) => Piece {
            text: sides.before,
            behind: Some(sides.behind),
        },
        None => Piece {
            text: comment,
            behind: None,
        },
    }
}
