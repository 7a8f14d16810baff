// What the value of an option may be (useradd(8), usermod(8), chfn(1), groupadd(8), groupmod(8),
// chage(1)).
ghost use Rattle.std.specs.Prelude.{◌≡◌, not, ◌&&◌, ◌||◌, is_some};
ghost use Rattle.acct_text.specs.Numbers.{number_within};
ghost use Rattle.acct_text.specs.Bytes.{newline, colon, is_empty};
ghost use Rattle.account_model.specs.Records.{read_id as id_of_text};
ghost use Rattle.account_model.specs.Text.{has_byte, slash, begins_with};
ghost use Rattle.account_model.specs.Values.{is_field as stands_in_field, is_folder as is_folder_text, is_shell as is_shell_text};
ghost use Rattle.command_values.specs.Forms.{test_of};

use crate::{read_date, read_days, read_expiration, read_range};
use account_model::GREATEST_ID;
use acct_lines::is_valid_name;
use acct_text::read_decimal;

/// What the value of an option has to be.
#[derive(Clone, Copy)]
pub enum Form {
    /// A comment or a hash: it holds no `:` and no newline.
    Field,
    /// A part of a comment: a field that holds no `,` and no `=`.
    Part,
    /// A home or a base folder: a field that begins with `/`.
    Folder,
    /// A shell: a field that is empty or begins with `/`.
    Shell,
    /// A UID or a GID: decimal digits, at most 4294967294.
    Id,
    /// A name that a command may make.
    Name,
    /// A number of days, at most 2147483647, or `-1`.
    Days,
    /// A day: its number, at most 2147483647, a date YYYY-MM-DD from 1970-01-01 on, or `-1`.
    Date,
    /// A day as in `Date`, or nothing.
    Expiration,
    /// `FIRST-LAST`, two IDs of which the first doesn't pass the last.
    Range,
}

impl Form {
    /// Whether a value is of the form.
    pub fn allows(self, value: &[u8]) -> bool
        ensures { result ≡ test_of self value.now }
    {
        match self {
            Form::Field => is_field(value),
            Form::Part => is_field(value) && !has_byte(value, b',') && !has_byte(value, b'='),
            Form::Folder => is_field(value) && begins_with_slash(value),
            Form::Shell => is_field(value) && (value.is_empty() || begins_with_slash(value)),
            Form::Id => read_id(value).is_some(),
            Form::Name => is_valid_name(value),
            Form::Days => read_days(value).is_some(),
            Form::Date => read_date(value).is_some(),
            Form::Expiration => read_expiration(value).is_some(),
            Form::Range => read_range(value).is_some(),
        }
    }
}

/// The UID or the GID that a text writes: decimal digits, at most 4294967294.
pub fn read_id(text: &[u8]) -> Option<u32>
    ensures { result ≡ id_of_text text.now }
{
    number_within(text, GREATEST_ID)
}

/// The number, of at most `greatest`, that a text writes in decimal digits.
pub(crate) fn number_within(text: &[u8], greatest: u32) -> Option<u32>
    ensures { result ≡ number_within greatest text.now }
{
    match read_decimal(text, u64::from(greatest)) {
        Ok(number) => Some(number as u32),
        Err(_) => None,
    }
}

// Whether the text can stand in a field of a line.
fn is_field(text: &[u8]) -> bool
    ensures { result ≡ stands_in_field text.now }
{
    !has_byte(text, b':') && !has_byte(text, b'\n')
}

/// Whether the text has the byte.
pub fn has_byte(text: &[u8], byte: u8) -> bool
    ensures { result ≡ has_byte byte text.now }
{
    text.iter().any(|other| *other == byte)
}

fn begins_with_slash(text: &[u8]) -> bool
    ensures { result ≡ begins_with slash text.now }
{
    match text.first() {
        Some(byte) => *byte == b'/',
        None => false,
    }
}
