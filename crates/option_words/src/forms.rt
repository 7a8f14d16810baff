// The options that the words of a tool may give, by letter and by long name.
ghost use Rattle.std.specs.Prelude.{◌≡◌, find, option_map};
ghost use Rattle.account_model.specs.SeenRows.{form_of};
ghost use Rattle.account_model.specs.Spelling.{form_of_letter as by_letter, form_of_name as by_name, has_long_name as is_named};
ghost use Rattle.account_model.specs.ToolOptions.{is_prefix, options_for};

use OptionForm::Value;
use account_model::{OptionForm, Tool, WordsOf};

// The folder whose `etc` is worked on, which each tool of a command takes.
const PREFIX: OptionForm = Value(PREFIX_LETTER, "prefix", b"");

const PREFIX_LETTER: u8 = b'P';

/// The option of a tool with a letter. Those of the folder are a command's.
pub(crate) fn form_of_letter(whose: WordsOf, tool: Tool, letter: u8) -> Option<OptionForm>
    ensures { option_map form_of result ≡ by_letter (options_for whose tool) letter }
{
    let row = tool.row();
    match whose {
        WordsOf::Command if letter == PREFIX_LETTER => Some(PREFIX),
        WordsOf::Command if letter == row.root => Some(Value(row.root, "root", b"")),
        _ => tool.option(letter),
    }
}

/// The option of a tool with a long name, which is written out. Those of the folder are a command's.
pub(crate) fn form_of_name(whose: WordsOf, tool: Tool, name: &[u8]) -> Option<OptionForm>
    ensures { option_map form_of result ≡ by_name (options_for whose tool) name.now }
{
    let row = tool.row();
    let root = Value(row.root, "root", b"");
    match whose {
        WordsOf::Command if PREFIX.has_long_name(name) => Some(PREFIX),
        WordsOf::Command if root.has_long_name(name) => Some(root),
        _ => find_long_name(row.options, name),
    }
}

fn find_long_name(forms: &[OptionForm], name: &[u8]) -> Option<OptionForm>
    ensures { result ≡ find (λ form. is_named name.now (form_of form)) forms.now }
{
    forms.iter().copied().find(|form| form.has_long_name(name))
}

/// Whether the option of a letter gives the folder.
pub(crate) fn is_prefix(tool: Tool, letter: u8) -> bool
    ensures { result ≡ is_prefix tool letter }
{
    letter == PREFIX_LETTER || letter == tool.row().root
}
