// What is said of the first fault of a list of words, and its status ("EXIT VALUES" of each page).
ghost use Rattle.std.specs.Prelude.{◌≡◌, ◌++◌, codes, decimal, IfOk};
ghost use Rattle.account_model.specs.Words.{tool_named};
ghost use Rattle.account_model.specs.WordMessages.{faulty_tool, syntax_status, word_at, word_fault_message, word_fault_status, word_fault_text};

use crate::{MEMORY_STATUS, push_line, rule_text, unknown_text, wrapper_hint};
use account_model::{BAD_USAGE, Tool, WordFault};
use acct_text::Piece::{Number, Text};
use acct_text::{Bytes, Word};
use std::alloc::{AllocError, Global};

// There is no word.
const NO_TOOL: &[u8] = b"no command given: accounts --help lists them";

// `-P` isn't given.
const NO_PREFIX: &[u8] = b"option -P is required: -P DIR is the image in DIR, -P / this system";

// The value of `-P` is empty.
const EMPTY_PREFIX: &[u8] = b"value of -P is empty: -P / is this system";

/// The line on the error stream: of the tool that the first word names, or of `accounts` where the
/// fault comes before a tool is known.
pub fn word_fault_message(
    alloc: Global,
    words: &[Word],
    fault: WordFault,
) -> Result<Bytes, AllocError>
    ensures { IfOk result (λ line. line ≡ word_fault_message words.now fault) }
{
    let text = word_fault_text(alloc, words, fault)?;
    let mut line = Bytes::new(alloc);
    push_line(&mut line, faulty_tool(words, fault), text.as_slice())?;
    Ok(line)
}

/// The status: 100 for want of memory, and else that of a usage error.
pub fn word_fault_status(words: &[Word], fault: WordFault) -> u8
    ensures { result ≡ word_fault_status words.now fault }
{
    if fault == WordFault::Memory {
        return MEMORY_STATUS;
    }
    match faulty_tool(words, fault) {
        None => BAD_USAGE,
        Some(tool) => syntax_status(tool),
    }
}

/// The tool that a fault speaks for; the faults that come before a tool is known have none.
pub fn faulty_tool(words: &[Word], fault: WordFault) -> Option<Tool>
    ensures { result ≡ faulty_tool words.now fault }
{
    match fault {
        WordFault::LineEnd | WordFault::Unclosed(_) | WordFault::WordLimit(_) => None,
        WordFault::NoTool | WordFault::UnknownTool => None,
        WordFault::UnknownOption(_) | WordFault::MissingValue(_) => named(words),
        WordFault::UnexpectedValue(_) | WordFault::TooMany(_) => named(words),
        WordFault::NoPrefix | WordFault::EmptyPrefix | WordFault::TooFew => named(words),
        WordFault::Clash(_) | WordFault::Memory => named(words),
    }
}

// The tool that the first word names.
fn named(words: &[Word]) -> Option<Tool>
    ensures { result ≡ tool_named (word_at words.now 0) }
{
    Tool::named(word_at(words, 0))
}

/// The status of a usage error, of the tool's own words or of a line of its input.
pub fn syntax_status(tool: Tool) -> u8
    ensures { result ≡ syntax_status tool }
{
    tool.row().statuses.syntax
}

// The word at a place, counted from 0; past the end it is empty.
fn word_at(words: &[Word], place: usize) -> &[u8]
    ensures { result.now ≡ word_at words.now place }
{
    match words.get(place) {
        Some(word) => word.as_slice(),
        None => b"",
    }
}

/// What is said of the fault.
pub(crate) fn word_fault_text(
    alloc: Global,
    words: &[Word],
    fault: WordFault,
) -> Result<Bytes, AllocError>
    ensures { IfOk result (λ text. text ≡ word_fault_text words.now fault) }
{
    match fault {
        WordFault::LineEnd => Bytes::of(alloc, b"ends in a carriage return"),
        WordFault::Unclosed(column) => {
            at_place(alloc, b"quote in column ", column, b" isn't closed")
        }
        WordFault::WordLimit(place) => at_place(alloc, b"word ", place, b" passes a limit"),
        WordFault::NoTool => Bytes::of(alloc, NO_TOOL),
        WordFault::UnknownTool => unknown_text(alloc, word_at(words, 0)),
        WordFault::UnknownOption(place) => { unknown_option(alloc, words, place) }
        WordFault::MissingValue(place) => {
            at_place(alloc, b"option in word ", place, b" needs a value")
        }
        WordFault::UnexpectedValue(place) => {
            at_place(alloc, b"option in word ", place, b" takes no value")
        }
        WordFault::TooMany(place) => with_word(alloc, b"unexpected word ", words, place),
        WordFault::NoPrefix => Bytes::of(alloc, NO_PREFIX),
        WordFault::EmptyPrefix => Bytes::of(alloc, EMPTY_PREFIX),
        WordFault::TooFew => Bytes::of(alloc, b"missing operand"),
        WordFault::Clash(rule) => Bytes::of(alloc, rule_text(named(words), rule)),
        WordFault::Memory => Ok(Bytes::new(alloc)),
    }
}

// The word at this place has an unknown option.
fn unknown_option(alloc: Global, words: &[Word], place: usize) -> Result<Bytes, AllocError>
    ensures { IfOk result (λ text. text ≡ word_fault_text words.now (WordFault.UnknownOption place)) }
{
    let word = word_at(words, place);
    Bytes::made_of(
        alloc,
        &[
            Text(b"unknown option in word "),
            Number(place as u64),
            Text(b": "),
            Text(word),
            Text(wrapper_hint(named(words), word)),
        ],
    )
}

// A text with the place of a word, or a column, in it.
fn at_place<'x>(
    alloc: Global,
    before: &'x [u8],
    place: usize,
    behind: &'x [u8],
) -> Result<Bytes, AllocError>
    ensures { IfOk result (λ text. text ≡ before.now ++ decimal place ++ behind.now) }
{
    Bytes::made_of(alloc, &[Text(before), Number(place as u64), Text(behind)])
}

// A text that ends with the place of a word, and with the word.
fn with_word<'x>(
    alloc: Global,
    before: &'x [u8],
    words: &'x [Word],
    place: usize,
) -> Result<Bytes, AllocError>
    ensures { IfOk result (λ text. text ≡
        before.now ++ decimal place ++ codes ": " ++ word_at words.now place) }
{
    let word = word_at(words, place);
    Bytes::made_of(
        alloc,
        &[Text(before), Number(place as u64), Text(b": "), Text(word)],
    )
}
