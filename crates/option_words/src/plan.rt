// The words of a plan: `plan`, how it tells, and the words of the command that it plans.
ghost use Rattle.std.specs.Prelude.{◌≡◌};
ghost use Rattle.account_model.specs.PlanWords.{behind_form, command_words, form_in, form_named, plan_of};

use account_model::PlanForm;
use acct_text::Word;

/// How the words ask for a plan, and none where they ask for a command that is carried out.
pub fn plan_of(words: &[Word]) -> Option<PlanForm>
    ensures { result ≡ plan_of words.now }
{
    match words.split_first() {
        Some((word, behind)) if word.as_slice() == b"plan".as_slice() => Some(form_in(behind)),
        _ => None,
    }
}

/// The words of the command that is carried out or planned: those behind `plan` and its form, or all.
/// Places in them count from 0.
pub fn command_words(words: &[Word]) -> &[Word]
    ensures { result.now ≡ command_words words.now }
{
    match words.split_first() {
        Some((word, behind)) if word.as_slice() == b"plan".as_slice() => behind_form(behind),
        _ => words,
    }
}

// How a plan tells by the words behind `plan`.
fn form_in(words: &[Word]) -> PlanForm
    ensures { result ≡ form_in words.now }
{
    match words.split_first() {
        Some((word, _)) => form_named(word.as_slice()).unwrap_or(PlanForm::Sizes),
        None => PlanForm::Sizes,
    }
}

// The words behind the form.
fn behind_form(words: &[Word]) -> &[Word]
    ensures { result.now ≡ behind_form words.now }
{
    match words.split_first() {
        Some((word, behind)) if form_named(word.as_slice()).is_some() => behind,
        _ => words,
    }
}

// The form that the word behind `plan` asks for, if it does.
fn form_named(word: &[u8]) -> Option<PlanForm>
    ensures { result ≡ form_named word.now }
{
    if word == b"--diff".as_slice() {
        Some(PlanForm::Diff)
    } else if word == b"--json".as_slice() {
        Some(PlanForm::Json)
    } else {
        None
    }
}
