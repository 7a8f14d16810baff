// What is said of an option that only the wrapper by the old names takes.
ghost use Rattle.std.specs.Prelude.{◌≡◌, ◌==◌, ◌&&◌, bytes_eq, not};
ghost use Rattle.std.specs.List.{list_any};
ghost use Rattle.account_model.specs.Rows.{row_of};
ghost use Rattle.account_model.specs.SeenRows.{form_of};
ghost use Rattle.account_model.specs.Text.{is_listed};
ghost use Rattle.account_model.specs.Spelling.{name_part};
ghost use Rattle.account_model.specs.WordMessages.{is_flag, is_for_wrapper, unknown_letter, wrapper_hint};

use account_model::{OptionForm, Tool};
use acct_text::cut_once;

/// What is said behind a word with an option that the tool doesn't take; empty where the wrapper
/// doesn't take it either.
pub(crate) fn wrapper_hint(tool: Option<Tool>, word: &[u8]) -> &'static [u8]
    ensures { result.now ≡ wrapper_hint tool word.now }
{
    match tool {
        Some(tool) if is_for_wrapper(tool, word) => b" (the wrapper by the old names has it)",
        _ => b"",
    }
}

// Whether the wrapper takes the unknown option of a word, which begins with `-`.
fn is_for_wrapper(tool: Tool, word: &[u8]) -> bool
    ensures { result ≡ is_for_wrapper tool word.now }
{
    let Some((_, behind)) = word.split_first() else {
        return false;
    };
    match behind.split_first() {
        None => false,
        Some((b'-', text)) => is_wrapper_name(tool, name_part(text)),
        Some(_) => match unknown_letter(tool, behind) {
            None => false,
            Some(letter) => tool.row().wrapper_letters.contains(&letter),
        },
    }
}

// What stands before the first `=`.
fn name_part(text: &[u8]) -> &[u8]
    ensures { result.now ≡ name_part text.now }
{
    match cut_once(b'=', text) {
        Some(cut) => cut.before,
        None => text,
    }
}

// Whether the wrapper alone has the option of this long name.
fn is_wrapper_name(tool: Tool, name: &[u8]) -> bool
    ensures { result ≡ is_listed name.now (row_of tool).wrapper_names }
{
    is_one_of(name, tool.row().wrapper_names)
}

// Whether the name is one of these.
fn is_one_of(name: &[u8], names: &[&str]) -> bool
    ensures { result ≡ list_any (λ other. bytes_eq name.now other.now) names.now }
{
    names.iter().any(|other| name == other.as_bytes())
}

// The unknown option among the letters behind a `-`.
fn unknown_letter(tool: Tool, letters: &[u8]) -> Option<u8>
    ensures { result ≡ unknown_letter tool letters.now }
{
    letters
        .iter()
        .copied()
        .find(|letter| !is_flag(tool, *letter))
}

// Whether the tool has a flag of the letter.
fn is_flag(tool: Tool, letter: u8) -> bool
    ensures { result ≡ is_flag tool letter }
{
    has_flag(tool.row().options, letter)
}

fn has_flag(forms: &[OptionForm], letter: u8) -> bool
    ensures { result ≡ list_any (λ form. not (form_of form).takes_value && (form_of form).letter == letter) forms.now }
{
    forms
        .iter()
        .any(|form| !form.takes_value() && form.letter() == letter)
}
