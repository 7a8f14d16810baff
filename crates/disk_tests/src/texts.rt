// The words of a line, texts in it, and what is shown.
use acct_text::{Bytes, push_decimal};
use std::alloc::{AllocError, Global};

/// A word, and what stands behind the blank behind it.
pub(crate) fn cut(text: &str) -> (&str, &str) {
    text.split_once(' ').unwrap_or((text, ""))
}

/// The text with the ends of its lines, with bytes that are no UTF-8, and with bytes 0.
pub(crate) fn bytes_of(alloc: Global, text: &str) -> Result<Bytes, AllocError> {
    let mut bytes = Bytes::new(alloc);
    for byte in text.as_bytes() {
        match *byte {
            b'|' => bytes.push(b"\n")?,
            b'^' => bytes.push(b"\xE9")?,
            b'%' => bytes.push(b"\0")?,
            byte => bytes.push(&[byte])?,
        }
    }
    Ok(bytes)
}

/// Pushes a line.
pub(crate) fn push_line(shown: &mut Bytes, line: &str) -> Result<(), AllocError> {
    shown.push(line.as_bytes())?;
    shown.push(b"\n")
}

/// Pushes what was answered, behind a blank.
pub(crate) fn push_answer(shown: &mut Bytes, answer: &str) -> Result<(), AllocError> {
    shown.push(b" ")?;
    push_line(shown, answer)
}

/// Pushes a text behind a word, on one line.
pub(crate) fn push_text(shown: &mut Bytes, word: &[u8], text: &[u8]) -> Result<(), AllocError> {
    shown.push(word)?;
    for byte in text {
        match *byte {
            b'\n' => shown.push(b"|")?,
            byte => shown.push(&[byte])?,
        }
    }
    shown.push(b"\n")
}

/// Pushes a number that was answered, behind a blank.
pub(crate) fn push_number(shown: &mut Bytes, number: u64) -> Result<(), AllocError> {
    shown.push(b" ")?;
    push_decimal(shown, number)?;
    shown.push(b"\n")
}

/// The line with the parts of a token in the place of `~b`, `~p`, `~i` and `~n`.
pub(crate) fn expanded(alloc: Global, token: &str, line: &str) -> Result<String, AllocError> {
    let mut text = String::new(alloc);
    let mut is_behind = false;
    for part in line.split('~') {
        if is_behind {
            push_part(&mut text, token, part)?;
        } else {
            text.push_str(part)?;
        }
        is_behind = true;
    }
    Ok(text)
}

// Pushes the part of a token that a letter asks for, and what stands behind the letter.
fn push_part(text: &mut String, token: &str, part: &str) -> Result<(), AllocError> {
    let (boot, process, namespace) = parts_of(token);
    match part.split_at_checked(1) {
        Some(("b", rest)) => push_both(text, boot, rest),
        Some(("p", rest)) => push_both(text, process, rest),
        Some(("i", rest)) => push_both(text, number_of(process), rest),
        Some(("n", rest)) => push_both(text, namespace, rest),
        _ => Ok(()),
    }
}

fn push_both(text: &mut String, part: &str, rest: &str) -> Result<(), AllocError> {
    text.push_str(part)?;
    text.push_str(rest)?;
    Ok(())
}

// The number of a process with its start.
fn number_of(process: &str) -> &str {
    process.split_once('.').map_or(process, |parts| parts.0)
}

// The boot of a token, its process with the start, and its namespace.
fn parts_of(token: &str) -> (&str, &str, &str) {
    let identity = token.strip_suffix(".flock").unwrap_or(token);
    let (boot, rest) = identity.split_once('.').unwrap_or((identity, ""));
    let (process, namespace) = rest.rsplit_once('.').unwrap_or((rest, ""));
    (boot, process, namespace)
}
