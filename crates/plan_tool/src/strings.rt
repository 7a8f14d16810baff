// Texts as strings of JSON (RFC 8259, section 7).
ghost use Rattle.std.specs.Prelude.{◌≡◌, ◌++◌, ◌<◌, OnOk};
ghost use Rattle.account_model.specs.PlanJson.{escaped, hex_digit, json_string};

use acct_text::Bytes;
use std::alloc::{AllocError, Global};

// The digits of numbers of base 16.
const HEX_DIGITS: [u8; 16] = *b"0123456789abcdef";

/// Adds the text as a string, with U+FFFD for each sequence of bytes that isn't UTF-8. At `AllocError` a
/// front of it may have been added.
pub(crate) fn push_string(alloc: Global, out: &mut Bytes, text: &[u8]) -> Result<(), AllocError>
    ensures { OnOk result (out.new ≡ out.old ++ json_string text.now) }
{
    let text = String::from_utf8_lossy(alloc, text)?;
    out.push(b"\"")?;
    for byte in text.as_bytes() {
        push_escaped(out, *byte)?;
    }
    out.push(b"\"")
}

// Adds a byte of a string as it is, or escaped where a string can't hold it.
fn push_escaped(out: &mut Bytes, byte: u8) -> Result<(), AllocError>
    ensures { OnOk result (out.new ≡ out.old ++ escaped byte) }
{
    if byte < b' ' {
        out.push(b"\\u00")?;
        out.push(&[hex_digit(byte / 16), hex_digit(byte % 16)])
    } else if byte == b'"' || byte == b'\\' {
        out.push(&[b'\\', byte])
    } else {
        out.push(&[byte])
    }
}

// A digit of a number of base 16.
fn hex_digit(digit: u8) -> u8
    requires { digit < 16 }
    ensures { result ≡ hex_digit digit }
{
    HEX_DIGITS[usize::from(digit)]
}
