// What a tool refuses by the words of its command alone.
ghost use Rattle.std.specs.Prelude.{◌≡◌, ◌∷◌, [], option_and_then};
ghost use Rattle.std.specs.Option.{option_copied};
ghost use Rattle.account_model.specs.Refusals.{bad_value, bad_values, bad_name, bad_list_name};
ghost use Rattle.command_values.specs.Forms.{form_refusal, test_of};
ghost use Rattle.tool_answers.specs.Refusing.{RefusesBy};

use crate::asked::value_at;
use crate::form::has_byte;
use crate::{Asked, Form, ToolFault};
use account_model::Refusal;
use acct_lines::is_valid_name;
use acct_text::Bytes;
use std::alloc::Global;

impl Asked<'_> {
    /// Refuses the value of the option, where it is given and isn't of the form: `BadValue`.
    /// `Memory` comes only where there is no room for that refusal.
    pub fn check_value(&self, alloc: Global, letter: u8, form: Form) -> Result<(), ToolFault>
        ensures { RefusesBy (bad_value (letter ∷ []) (test_of form) self.now) result }
    {
        check_form(alloc, letter, form, self.value(letter))
    }

    /// Refuses the first value of the option that isn't of the form, where each of its values
    /// counts: `BadValue`. `Memory` comes only where there is no room for that refusal.
    pub fn check_values(&self, alloc: Global, letter: u8, form: Form) -> Result<(), ToolFault>
        ensures { RefusesBy (bad_values (letter ∷ []) (test_of form) self.now) result }
    {
        for option in self.options() {
            check_form(alloc, letter, form, value_at(option, letter))?;
        }
        Ok(())
    }
}

// Refuses a value of the option, where there is one and it isn't of the form: `BadValue`.
fn check_form(alloc: Global, letter: u8, form: Form, value: Option<&[u8]>) -> Result<(), ToolFault>
    ensures { RefusesBy
        (option_and_then (form_refusal letter form) (option_copied value.entry)) result }
{
    match value {
        Some(value) if !form.allows(value) => {
            let value = Bytes::of(alloc, value)?;
            Err(ToolFault::Refused(Refusal::BadValue(letter, value)))
        }
        _ => Ok(()),
    }
}

/// Refuses a name that a command would make and that isn't valid: `BadName`. `Memory` comes only
/// where there is no room for that refusal.
pub fn check_name(alloc: Global, name: &[u8]) -> Result<(), ToolFault>
    ensures { RefusesBy (bad_name name.now) result }
{
    if is_valid_name(name) {
        return Ok(());
    }
    Err(ToolFault::Refused(Refusal::BadName(Bytes::of(alloc, name)?)))
}

/// Refuses a name that a command would put into a list and that has a comma: `BadName`. `Memory`
/// comes only where there is no room for that refusal.
pub fn check_list_name(alloc: Global, name: &[u8]) -> Result<(), ToolFault>
    ensures { RefusesBy (bad_list_name name.now) result }
{
    if !has_byte(name, b',') {
        return Ok(());
    }
    Err(ToolFault::Refused(Refusal::BadName(Bytes::of(alloc, name)?)))
}
