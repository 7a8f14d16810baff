// Which names a command may make (useradd(8) and groupadd(8), "CAVEATS").
ghost use Rattle.std.specs.Prelude.{◌≡◌, not, ◌&&◌, nat_le, length};
ghost use Rattle.std.specs.Char.{is_digit as is_decimal};
ghost use Rattle.std.specs.List.{list_all};
ghost use Rattle.acct_text.specs.Bytes.{is_empty};
ghost use Rattle.acct_text.specs.Numbers.{is_digits as writes_digits};
ghost use Rattle.account_model.specs.Names.{is_valid_name as names_validly, is_name_byte as can_stand, is_reserved_name};
ghost use Rattle.account_model.specs.Text.{dollar, hyphen, begins_with, without_last};

// The most bytes of a name.
const LONGEST: usize = 32;

/// Whether a command may make the name: 1 to 32 bytes of ASCII letters, digits, `_`, `.` and `-`,
/// of which the last may also be `$`.
///
/// It doesn't begin with `-`, isn't all digits, and isn't `$`, `.` or `..`. Names that stand in a
/// file are taken as they are.
pub fn is_valid_name(name: &[u8]) -> bool
    ensures { result ≡ names_validly name.now }
{
    has_length(name)
        && has_name_bytes(name)
        && !begins_with_hyphen(name)
        && !is_digits(name)
        && !is_reserved(name)
}

// Whether the name has a length that a name may have.
fn has_length(name: &[u8]) -> bool
    ensures { result ≡ not (is_empty name.now) && nat_le (length name.now) 32 }
{
    !name.is_empty() && name.len() <= LONGEST
}

// Whether all bytes may stand in a name, and the last may be `$`.
fn has_name_bytes(name: &[u8]) -> bool
    ensures { result ≡ list_all can_stand (without_last dollar name.now) }
{
    without_dollar(name).iter().all(|byte| is_name_byte(*byte))
}

// The name without one `$` at its end.
fn without_dollar(name: &[u8]) -> &[u8]
    ensures { result.now ≡ without_last dollar name.now }
{
    match name.split_last() {
        Some((last, stem)) => if *last == b'$' { stem } else { name },
        None => name,
    }
}

// Whether the byte may stand anywhere in a name.
fn is_name_byte(byte: u8) -> bool
    ensures { result ≡ can_stand byte }
{
    byte.is_ascii_alphanumeric() || byte == b'_' || byte == b'.' || byte == b'-'
}

// Whether the name would be taken for an option.
fn begins_with_hyphen(name: &[u8]) -> bool
    ensures { result ≡ begins_with hyphen name.now }
{
    match name.first() {
        Some(byte) => *byte == b'-',
        None => false,
    }
}

/// Whether a text is one or more decimal digits, as a UID or a GID is written.
pub fn is_digits(text: &[u8]) -> bool
    ensures { result ≡ writes_digits text.now }
{
    !text.is_empty() && has_only_digits(text)
}

fn has_only_digits(text: &[u8]) -> bool
    ensures { result ≡ list_all (λ byte. is_decimal byte 10) text.now }
{
    text.iter().all(|byte| is_digit(*byte))
}

fn is_digit(byte: u8) -> bool
    ensures { result ≡ is_decimal byte 10 }
{
    byte.is_ascii_digit()
}

// Whether the name stands for something else.
fn is_reserved(name: &[u8]) -> bool
    ensures { result ≡ is_reserved_name name.now }
{
    name == b"$".as_slice() || name == b".".as_slice() || name == b"..".as_slice()
}
