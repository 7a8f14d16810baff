// The words behind the tool's name, of a command or of a line of a batch, read from left to right
// (getopt_long(3)).
ghost use Rattle.std.specs.Prelude.{◌≡◌, ◌⊎◌, ℕ, suc, [], ◌∷◌, ◌++◌, OnOk, IfErr};
ghost use Rattle.account_model.specs.Spelling.{letters_reading, long_reading, name_reading, name_reading_with, value_behind};
ghost use Rattle.account_model.specs.Words.{prefix_for as prefix_by, request_of_tool, request_with};
ghost use Rattle.account_model.specs.SeenRows.{form_of};
ghost use Rattle.option_words.specs.Reading.{Answers, AnswersReading, KeepsOutcome, ReadsOn, after_option, has_room, options_of_word, outcome_of, forms_of};

use crate::forms::{form_of_letter, form_of_name, is_prefix};
use crate::meaning::{Meaning, cut_at_equals, meaning_of};
use crate::rules::broken_rule;
use crate::{Options, Parsed};
use account_model::{Given, OptionForm, Tool, WordFault, WordsOf};
use acct_text::{Bytes, Names, Word};
use std::alloc::{AllocError, Global};

/// What the next word can be.
#[derive(Clone, Copy)]
enum Expects {
    /// An option or an operand.
    AnyWord,
    /// The value of the option with this letter.
    ValueOf(u8),
    /// An operand, whatever it begins with, as `--` ended the options.
    OperandsAlone,
}

/// What is read of the words so far.
#[derive(Drop)]
pub(crate) struct Reading {
    alloc: Global,
    whose: WordsOf,
    tool: Tool,
    prefix: Option<Bytes>,
    options: Options,
    operands: Names,
    expects: Expects,
}

/// Reads the words behind the tool's name, from left to right.
///
/// At a fault of the words it is the first of them, with the place of the word in the command.
pub(crate) fn read_arguments(
    alloc: Global,
    whose: WordsOf,
    tool: Tool,
    words: &[Word],
) -> Result<Reading, WordFault>
    ensures { AnswersReading (request_of_tool whose (Some tool) words.now) result }
{
    let mut reading = Reading::new(alloc, whose, tool);
    'words: for (place, word) in words.iter().enumerate() {
        reading.take(place + 1, word.as_slice())?;
    }
    if let Expects::ValueOf(_) = reading.expects {
        return Err(WordFault::MissingValue(words.len()));
    }
    Ok(reading)
}

impl Reading {
    // A reading of no words.
    fn new(alloc: Global, whose: WordsOf, tool: Tool) -> Self
        ensures { result ≡ record {
          alloc = alloc;
          whose = whose;
          tool = tool;
          prefix = None;
          options = [];
          operands = [];
          expects = Expects.AnyWord;
        } }
    {
        Reading {
            alloc,
            whose,
            tool,
            prefix: None,
            options: Options::new(alloc),
            operands: Names::new(alloc),
            expects: Expects::AnyWord,
        }
    }

    // Takes the word at a place.
    fn take(&mut self, place: usize, word: &[u8]) -> Result<(), WordFault>
        ensures { ReadsOn (λ words. outcome_of self.old place (word.now ∷ words)) self.new
            (suc place) result }
    {
        match self.expects {
            Expects::AnyWord => self.take_word(place, word),
            Expects::OperandsAlone => self.take_operand(place, word),
            Expects::ValueOf(letter) => {
                self.expects = Expects::AnyWord;
                Ok(self.give_value(letter, word)?)
            }
        }
    }

    // Takes a word by what it is.
    fn take_word(&mut self, place: usize, word: &[u8]) -> Result<(), WordFault>
        requires { self.old.expects ≡ Expects.AnyWord }
        ensures { ReadsOn (λ words. outcome_of self.old place (word.now ∷ words)) self.new
            (suc place) result }
    {
        match meaning_of(word) {
            Meaning::Operand => self.take_operand(place, word),
            Meaning::EndOfOptions => {
                self.expects = Expects::OperandsAlone;
                Ok(())
            }
            Meaning::LongName(text) => self.take_long(place, text),
            Meaning::Letters(letters) => self.take_letters(place, letters),
        }
    }

    // Takes an operand, where the tool takes one more.
    fn take_operand(&mut self, place: usize, word: &[u8]) -> Result<(), WordFault>
        ensures taken { OnOk result (has_room self.old
            × (self.new ≡ record self.old { operands = self.old.operands ++ word.now ∷ [] })) }
        ensures fault { IfErr result (λ fault. (fault ≡ WordFault.Memory)
            ⊎ (¬ (has_room self.old) × (fault ≡ WordFault.TooMany place))) }
    {
        if self.operands.len() >= self.tool.row().most {
            return Err(WordFault::TooMany(place));
        }
        Ok(self.operands.push(word)?)
    }

    // Takes what stands behind `--`: a long name, and maybe `=` and a value.
    fn take_long(&mut self, place: usize, text: &[u8]) -> Result<(), WordFault>
        requires { self.old.expects ≡ Expects.AnyWord }
        ensures { ReadsOn
            (options_of_word self.old place (long_reading (forms_of self.old) text.now))
            self.new (suc place) result }
    {
        let option = cut_at_equals(text);
        let Some(form) = form_of_name(self.whose, self.tool, option.name) else {
            return Err(WordFault::UnknownOption(place));
        };
        match option.value {
            Some(value) => self.take_name_with_value(place, form, value),
            None => Ok(self.take_name(form)?),
        }
    }

    // Takes an option by its long name with a value behind `=`.
    fn take_name_with_value(
        &mut self,
        place: usize,
        form: OptionForm,
        value: &[u8],
    ) -> Result<(), WordFault>
        requires { self.old.expects ≡ Expects.AnyWord }
        ensures { ReadsOn
            (options_of_word self.old place (name_reading_with value.now (Some (form_of form))))
            self.new (suc place) result }
    {
        if form.takes_value() {
            return Ok(self.give_value(form.letter(), value)?);
        }
        Err(WordFault::UnexpectedValue(place))
    }

    // Takes an option by its long name alone, and waits for the next word where it takes a value.
    fn take_name(&mut self, form: OptionForm) -> Result<(), AllocError>
        requires { self.old.expects ≡ Expects.AnyWord }
        ensures { OnOk result ((place : ℕ) →
            KeepsOutcome (options_of_word self.old place (name_reading (Some (form_of form))))
            self.new (suc place)) }
    {
        if form.takes_value() {
            self.expects = Expects::ValueOf(form.letter());
            return Ok(());
        }
        self.give(form.letter(), None)
    }

    // Takes the letters behind `-`: flags, and behind them maybe an option with a value.
    fn take_letters(&mut self, place: usize, letters: &[u8]) -> Result<(), WordFault>
        requires { self.old.expects ≡ Expects.AnyWord }
        ensures { ReadsOn
            (options_of_word self.old place (letters_reading (forms_of self.old) letters.now))
            self.new (suc place) result }
    {
        let mut letters = letters;
        'letters: while let Some((letter, behind)) = letters.split_first() {
            let Some(form) = form_of_letter(self.whose, self.tool, *letter) else {
                return Err(WordFault::UnknownOption(place));
            };
            if form.takes_value() {
                return Ok(self.take_value_behind(*letter, behind)?);
            }
            self.give(*letter, None)?;
            letters = behind;
        }
        Ok(())
    }

    // Takes the rest of a word as the value of a letter, or waits for the next word where none is.
    fn take_value_behind(&mut self, letter: u8, behind: &[u8]) -> Result<(), AllocError>
        requires { self.old.expects ≡ Expects.AnyWord }
        ensures { OnOk result ((place : ℕ) →
            KeepsOutcome (options_of_word self.old place (value_behind letter behind.now))
            self.new (suc place)) }
    {
        if behind.is_empty() {
            self.expects = Expects::ValueOf(letter);
            return Ok(());
        }
        self.give_value(letter, behind)
    }

    // Keeps an option with its value.
    fn give_value(&mut self, letter: u8, value: &[u8]) -> Result<(), AllocError>
        ensures { OnOk result (self.new
            ≡ after_option self.old (record { letter = letter; value = Some value.now })) }
    {
        let value = Bytes::of(self.alloc, value)?;
        self.give(letter, Some(value))
    }

    // Keeps an option. Of a repeated prefix the last value counts.
    fn give(&mut self, letter: u8, value: Option<Bytes>) -> Result<(), AllocError>
        ensures { OnOk result
            (self.new ≡ after_option self.old (record { letter = letter; value = value })) }
    {
        if !is_prefix(self.tool, letter) {
            return self.options.push(Given { letter, value });
        }
        if value.is_some() {
            self.prefix = value;
        }
        Ok(())
    }

    /// The request that is read, where the prefix and the operands are there and no rule is broken.
    pub(crate) fn into_parsed(self) -> Result<Parsed, WordFault>
        ensures { Answers (request_with self.tool self.options self.operands
            (prefix_by self.whose self.prefix)) result }
    {
        let Reading {
            alloc,
            whose,
            tool,
            prefix,
            options,
            operands,
            ..
        } = self;
        let prefix = prefix_for(alloc, whose, prefix)?;
        if operands.len() < tool.row().least {
            return Err(WordFault::TooFew);
        }
        if let Some(rule) = broken_rule(tool, options.as_slice()) {
            return Err(WordFault::Clash(rule));
        }
        Ok(Parsed {
            tool,
            prefix,
            options,
            operands,
            planned: None,
        })
    }
}

// The prefix of such words by the folder that was given, or what is wrong with it.
fn prefix_for(alloc: Global, whose: WordsOf, value: Option<Bytes>) -> Result<Bytes, WordFault>
    ensures { result ≡ prefix_by whose value }
{
    match (whose, value) {
        (WordsOf::Line, _) => Ok(Bytes::new(alloc)),
        (WordsOf::Command, None) => Err(WordFault::NoPrefix),
        (WordsOf::Command, Some(value)) if value.as_slice().is_empty() => {
            Err(WordFault::EmptyPrefix)
        }
        (WordsOf::Command, Some(value)) => Ok(value),
    }
}
