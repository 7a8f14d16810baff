// What one word of a command is.
ghost use Rattle.std.specs.Prelude.{◌≡◌, List, Some, None, if◌then◌else◌};
ghost use Rattle.std.specs.Option.{option_copied};
ghost use Rattle.account_model.specs.Options.{OptionForm};
ghost use Rattle.account_model.specs.Text.{equals_sign, has_byte};
ghost use Rattle.account_model.specs.Spelling.{name_part, value_part, word_meaning};
ghost use Rattle.option_words.specs.Meanings.{meaning_in};

use acct_text::cut_once;

/// What a word is where no option waits for its value.
#[derive(Clone, Copy)]
pub(crate) enum Meaning<'a> {
    /// An operand: `-` alone, or a word that doesn't begin with `-`.
    Operand,
    /// `--`.
    EndOfOptions,
    /// What stands behind `--`: a long name, and maybe `=` and a value.
    LongName(&'a [u8]),
    /// The letters behind `-`.
    Letters(&'a [u8]),
}

/// What the word is.
pub(crate) fn meaning_of(word: &[u8]) -> Meaning<'_>
    ensures { (table : List OptionForm) → word_meaning table word.now ≡ meaning_in table result }
{
    let Some((b'-', behind)) = word.split_first() else {
        return Meaning::Operand;
    };
    match behind.split_first() {
        None => Meaning::Operand,
        Some((b'-', [])) => Meaning::EndOfOptions,
        Some((b'-', text)) => Meaning::LongName(text),
        Some(_) => Meaning::Letters(behind),
    }
}

/// A long name, and the value behind its `=` where it has one.
#[derive(Clone, Copy)]
pub(crate) struct LongOption<'a> {
    pub(crate) name: &'a [u8],
    pub(crate) value: Option<&'a [u8]>,
}

/// What stands behind `--`, cut at its first `=`.
pub(crate) fn cut_at_equals(text: &[u8]) -> LongOption<'_>
    ensures name { result.name.now ≡ name_part text.now }
    ensures value { option_copied result.value
        ≡ (if has_byte equals_sign text.now then Some (value_part text.now) else None) }
{
    match cut_once(b'=', text) {
        Some(cut) => LongOption {
            name: cut.before,
            value: Some(cut.behind),
        },
        None => LongOption {
            name: text,
            value: None,
        },
    }
}
