// The rules between the options of a tool, tested in their order.
ghost use Rattle.std.specs.Prelude.{◌≡◌, ◌<◌, map, length, filter, position, not, IfSome};
ghost use Rattle.account_model.specs.Options.{is_given as has_letter, is_alone as has_no_other, some_of, alone};
ghost use Rattle.account_model.specs.Words.{broken_rule as first_broken};
ghost use Rattle.account_model.specs.SeenRows.{row_test};

use Test::{Alone, ExactlyOne, NotBoth, OneOf, OnlyWith, SomeOf, SomeOption};
use account_model::{Given, Rule, Test, Tool};

/// The first rule of the tool that the options break, counted from 1.
pub(crate) fn broken_rule(tool: Tool, options: &[Given]) -> Option<u32>
    ensures { result ≡ first_broken tool options.now }
{
    let place = place_of_broken(tool.row().rules, options)?;
    Some(place as u32 + 1)
}

// The place of the first rule that the options break, counted from 0.
fn place_of_broken(rules: &[Rule], options: &[Given]) -> Option<usize>
    ensures place { result ≡ position (λ rule. not (row_test rule.test options.now)) rules.now }
    ensures within { IfSome result (λ place. place < length rules.now) }
{
    rules.iter().position(|rule| !passes(rule.test, options))
}

// Whether the options pass the test.
fn passes(test: Test, options: &[Given]) -> bool
    ensures { result ≡ row_test test options.now }
{
    match test {
        NotBoth(first, second) => !(is_given(first, options) && is_given(second, options)),
        OnlyWith(first, second) => !is_given(first, options) || is_given(second, options),
        SomeOption => !options.is_empty(),
        SomeOf(letters) => has_some(letters, options),
        OneOf(letters) => count_given(letters, options) <= 1,
        ExactlyOne(letters) => count_given(letters, options) == 1,
        Alone(letters) => are_alone(letters, options),
    }
}

// Whether an option was given.
fn is_given(letter: u8, options: &[Given]) -> bool
    ensures { result ≡ has_letter letter options.now }
{
    options.iter().any(|option| option.letter == letter)
}

// Whether no option has another letter.
fn is_alone(letter: u8, options: &[Given]) -> bool
    ensures { result ≡ has_no_other letter options.now }
{
    options.iter().all(|option| option.letter == letter)
}

// Whether one of these letters was given.
fn has_some(letters: &[u8], options: &[Given]) -> bool
    ensures { result ≡ some_of letters.now options.now }
{
    letters.iter().any(|letter| is_given(*letter, options))
}

// Whether each of these letters that was given has no other option beside it.
fn are_alone(letters: &[u8], options: &[Given]) -> bool
    ensures { result ≡ alone letters.now options.now }
{
    letters.iter().all(|letter| !is_given(*letter, options) || is_alone(*letter, options))
}

// How many of these letters were given.
fn count_given(letters: &[u8], options: &[Given]) -> usize
    ensures { result ≡ length (filter (λ letter. has_letter letter options.now) letters.now) }
{
    letters
        .iter()
        .filter(|letter| is_given(**letter, options))
        .count()
}
