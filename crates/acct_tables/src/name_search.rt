// The first line of a text that may be a record of a name. It is searched for by the name with its
// colon at the start of a line, so lines that begin with a longer name, or have the name elsewhere,
// are passed over at once (passwd(5), and likewise the other five tables).
ghost use Rattle.std.specs.Prelude.{◌≡◌, ◌+◌, ◌≤◌, ◌++◌, [], ◌∷◌, false, length, take};
ghost use Rattle.acct_text.specs.Bytes.{colon, newline};
ghost use Rattle.acct_tables.specs.Marks.{BeginsOtherwise, IsBehindAll};
ghost use Rattle.acct_tables.specs.TableLines.{text_is_named};

use crate::line::is_record;
use crate::marks::{first_place, from_mark};
use acct_lines::TableRecord;

// A name is searched for with its colon where both have room here, with the newline in front.
const ROOM: usize = 64;

/// The text of a file from the first line on that may be a record of the name; empty where none may
/// be one. It takes no memory.
pub(crate) fn from_name<'a, R: TableRecord>(text: &'a [u8], name: &[u8]) -> &'a [u8]
    ensures { IsBehindAll (λ line. text_is_named R.format name.now line ≡ false)
        text.now result.now }
{
    // A record's line that has no colon is its name alone, and in our formats none is.
    if is_record::<R>(name) {
        return from_mark(text, name);
    }
    from_first_field(text, name)
}

// The text of a file from the first line on that may begin with the name and a colon; empty where
// none may.
fn from_first_field<'a>(text: &'a [u8], name: &[u8]) -> &'a [u8]
    ensures { IsBehindAll (BeginsOtherwise (name.now ++ colon ∷ [])) text.now result.now }
{
    if name.len() + 2 > ROOM {
        return from_mark(text, name);
    }
    let mut room = [0u8; ROOM];
    let size = put_mark(&mut room, name);
    let mark = &room[..size];
    // The first line has no newline in front of it.
    if text.starts_with(&mark[1..]) {
        return text;
    }
    match first_place(text, mark) {
        Some(place) => &text[place + 1..],
        None => &[],
    }
}

// Puts a newline, the name and a colon at the front of a room, and gives their length.
fn put_mark(room: &mut [u8], name: &[u8]) -> usize
    requires { length name.now + 2 ≤ length room.old }
    ensures size { result ≡ length name.now + 2 }
    ensures mark { take result room.new ≡ newline ∷ name.now ++ colon ∷ [] }
{
    let end = name.len() + 1;
    room[0] = b'\n';
    room[1..end].copy_from_slice(name);
    room[end] = b':';
    end + 1
}
