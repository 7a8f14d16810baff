// The words of a line, and the key and the value that it sets (login.defs(5)).
ghost use Rattle.std.specs.Prelude.{◌≡◌, ◌||◌, ◌==◌, false, [], ◌∷◌, ◌≤◌, length, position, MatchOption};
ghost use Rattle.std.specs.List.{position_or_len};
ghost use Rattle.acct_text.specs.Bytes.{blank};
ghost use Rattle.account_model.specs.Text.{tab, quote, hash_mark, begins_with, without_first, without_last};
ghost use Rattle.account_model.specs.Settings.{words_of};
ghost use Rattle.login_defs.specs.LineSetting.{text_setting};

use std::marker::Model;

/// A key and its value, as a line writes them.
#[derive(Clone, Copy)]
pub(crate) struct Setting<'a> {
    pub(crate) key: &'a [u8],
    pub(crate) value: &'a [u8],
}

/// The setting of a line; blank lines, comments and keys alone have none.
pub(crate) fn setting_of(line: &[u8]) -> Option<Setting<'_>>
    ensures { MatchOption result (text_setting line.now ≡ None)
        (λ set. text_setting line.now
        ≡ Some (record { key = set.key.now; value = set.value.now })) }
{
    let mut words = Words::of(line);
    let key = words.next()?;
    let value = words.next()?;
    if is_comment(key) {
        return None;
    }
    Some(Setting {
        key,
        value: unquoted(value),
    })
}

fn is_comment(word: &[u8]) -> bool
    ensures { result ≡ begins_with hash_mark word.now }
{
    match word.first() {
        Some(byte) => *byte == b'#',
        None => false,
    }
}

// The value without one `"` at each end.
fn unquoted(value: &[u8]) -> &[u8]
    ensures { result.now ≡ without_last quote (without_first quote value.now) }
{
    without_last_quote(without_first_quote(value))
}

fn without_first_quote(value: &[u8]) -> &[u8]
    ensures { result.now ≡ without_first quote value.now }
{
    match value.split_first() {
        Some((first, rest)) => if *first == b'"' { rest } else { value },
        None => value,
    }
}

fn without_last_quote(value: &[u8]) -> &[u8]
    ensures { result.now ≡ without_last quote value.now }
{
    match value.split_last() {
        Some((last, rest)) => if *last == b'"' { rest } else { value },
        None => value,
    }
}

/// The words of a line that are still to be read, between blanks and tabs.
#[derive(Drop)]
struct Words<'a> {
    rest: &'a [u8],
}

impl<'a> Model for Words<'a> {
    ghost use Rattle.std.specs.Prelude.{ℕ, List};
    ghost use Rattle.account_model.specs.Settings.{words_of};

    ghost Value = { List (List ℕ) };

    ghost view = { λ words. words_of words.rest.now };
}

impl<'a> Words<'a> {
    fn of(line: &'a [u8]) -> Self
        ensures { result ≡ words_of line.now }
    {
        Words { rest: line }
    }

    // The next word, and none at the end of the line.
    fn next(&mut self) -> Option<&'a [u8]>
        ensures { MatchOption result (self.old ≡ []) (λ word. self.old ≡ word.now ∷ self.new) }
    {
        let text = without_blanks(self.rest);
        if text.is_empty() {
            return None;
        }
        let (word, rest) = text.split_at(word_end(text));
        self.rest = rest;
        Some(word)
    }
}

// The text without the blanks and tabs at its front.
fn without_blanks(text: &[u8]) -> &[u8]
    ensures words { words_of result.now ≡ words_of text.now }
    ensures stops { (begins_with blank result.now || begins_with tab result.now) ≡ false }
{
    let mut rest = text;
    'blanks: while let Some((first, tail)) = rest.split_first() {
        if !is_blank(*first) {
            return rest;
        }
        rest = tail;
    }
    rest
}

// Where the first word of a text ends that begins with one.
fn word_end(text: &[u8]) -> usize
    ensures end { result ≡ position_or_len (λ byte. byte == blank || byte == tab) text.now }
    ensures within { result ≤ length text.now }
{
    first_blank(text).unwrap_or(text.len())
}

fn first_blank(text: &[u8]) -> Option<usize>
    ensures { result ≡ position (λ byte. byte == blank || byte == tab) text.now }
{
    text.iter().position(|byte| is_blank(*byte))
}

// Whether the byte parts words.
fn is_blank(byte: u8) -> bool
    ensures { result ≡ (byte == blank || byte == tab) }
{
    byte == b' ' || byte == b'\t'
}
