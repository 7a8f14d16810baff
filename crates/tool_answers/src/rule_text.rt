// What is said of a rule between options that is broken. The texts stand in the rows of the
// tools, and the help of each lists them.
ghost use Rattle.std.specs.Prelude.{◌≡◌, map};
ghost use Rattle.account_model.specs.SeenRows.{rule_of};
ghost use Rattle.account_model.specs.WordMessages.{rule_text, text_at};

use account_model::{Rule, Tool};

/// What is said of the rule of this number, counted from 1; empty where the tool has none such.
pub(crate) fn rule_text(tool: Option<Tool>, number: u32) -> &'static [u8]
    ensures { result.now ≡ rule_text tool number }
{
    let (Some(tool), Some(place)) = (tool, number.checked_sub(1)) else {
        return b"";
    };
    text_at(tool.row().rules, place as usize)
}

// What is said of the rule at a place, counted from 0; empty where there is none.
fn text_at(rules: &[Rule], place: usize) -> &'static [u8]
    ensures { result.now ≡ text_at (map rule_of rules.now) place }
{
    match rules.get(place) {
        Some(rule) => rule.text.as_bytes(),
        None => b"",
    }
}
