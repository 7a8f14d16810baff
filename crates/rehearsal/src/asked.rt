// Which words ask for a rehearsal, and for which.
ghost use Rattle.std.specs.Prelude.{◌≡◌, ◌↔◌, IsTrue, MatchOption, codes};
ghost use Rattle.acct_text.specs.Numbers.{number_within};
ghost use Rattle.rehearsal.specs.declared.asked.Rehearsal.{Rehearsal as Wanted};
ghost use Rattle.rehearsal.specs.Asked.{AsksFor, BeginsRehearsal};

use acct_text::{Word, read_decimal};

/// The greatest seed.
const GREATEST_SEED: u64 = 999_999_999;

/// The most commands of a rehearsal.
const MOST_COMMANDS: u64 = 20_000;

/// What is to be rehearsed.
#[derive(Clone, Copy)]
pub struct Rehearsal {
    /// The number in the names of the first round, at most 999,999,999.
    pub seed: u64,
    /// How many commands run, from 1 to 20,000.
    pub count: u64,
}

/// Whether the words are those of a rehearsal, and not of a tool: word 0 is `rehearse`.
pub fn asks_for_rehearsal(words: &[Word]) -> bool
    ensures { IsTrue result ↔ BeginsRehearsal words.now }
{
    match words.split_first() {
        Some((word, _)) => names_rehearsal(word),
        None => false,
    }
}

/// What the words `rehearse SEED COUNT` ask for; none where the words aren't of this form.
pub(crate) fn asked_by(words: &[Word]) -> Option<Rehearsal>
    ensures { MatchOption result ((asked : Wanted) → ¬ (AsksFor words.now asked))
        (λ asked. AsksFor words.now asked) }
{
    let [name, seed, count] = words else {
        return None;
    };
    if !names_rehearsal(name) {
        return None;
    }
    let seed = number_in(seed, GREATEST_SEED)?;
    let count = number_in(count, MOST_COMMANDS)?;
    if count == 0 {
        return None;
    }
    Some(Rehearsal { seed, count })
}

// Whether the word is `rehearse`.
fn names_rehearsal(word: &Word) -> bool
    ensures { IsTrue result ↔ (word.now ≡ codes "rehearse") }
{
    word.as_slice() == b"rehearse".as_slice()
}

// The decimal number of a word, where it is one within the bound.
fn number_in(word: &Word, bound: u64) -> Option<u64>
    ensures { result ≡ number_within bound word.now }
{
    read_decimal(word.as_slice(), bound).ok()
}
