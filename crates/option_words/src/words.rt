// The words of a command, or of a line of a batch, from their limits to the request.
ghost use Rattle.std.specs.Prelude.{◌≡◌, ◌⊎◌, Some, IfOk, IfErr};
ghost use Rattle.account_model.specs.Words.{Asks, AsksAs, AsksLine, fault, fault_as, fault_line, may_name, past_limit as first_past_limit, tool_for as tool_by};
ghost use Rattle.option_words.specs.Parsed.{request_in};

use crate::Parsed;
use crate::plan::{command_words, plan_of};
use crate::reading::read_arguments;
use account_model::{Tool, WordFault, WordsOf};
use acct_text::Word;
use std::alloc::Global;

// How many words a command has at most, the tool's name among them.
const MOST_WORDS: usize = 512;

// How many bytes a word has at most.
const LONGEST_WORD: usize = 4096;

/// What the words of a command ask for. Word 0 names the tool; where it is `plan`, what the words behind
/// it ask for is planned, and all that is told of words counts from those.
///
/// A fault of the words is the first of them, in the order of `WordFault`: the limits, the tool, the
/// words from left to right, the prefix, a missing operand, and the tool's rules. `Memory` comes for
/// want of memory alone. The time is linear in the bytes of the words.
pub fn read_words(alloc: Global, words: &[Word]) -> Result<Parsed, WordFault>
    ensures request { IfOk result (λ parsed. Asks words.now (request_in parsed)) }
    ensures first_fault { IfErr result (λ found. (fault words.now ≡ Some found) ⊎ (found ≡ WordFault.Memory)) }
{
    let parsed = read_as(alloc, WordsOf::Command, command_words(words))?;
    Ok(Parsed {
        planned: plan_of(words),
        ..parsed
    })
}

/// What the words of a line of a batch ask for, in the folder of the batch: the prefix is empty, and
/// `-P` and `--prefix` are unknown options. Word 0 names a tool whose row is for lines (`is_for_lines`),
/// as useradd or groupdel; each other tool, and `plan`, is unknown.
///
/// A fault of the words is the first of them, in the same order as `read_words` has it, and `Memory`
/// comes for want of memory alone. The time is linear in the bytes of the words.
pub fn read_line_words(alloc: Global, words: &[Word]) -> Result<Parsed, WordFault>
    ensures request { IfOk result (λ parsed. AsksLine words.now (request_in parsed)) }
    ensures first_fault { IfErr result (λ found.
        (fault_line words.now ≡ Some found) ⊎ (found ≡ WordFault.Memory)) }
{
    read_as(alloc, WordsOf::Line, words)
}

// What such words ask for.
fn read_as(alloc: Global, whose: WordsOf, words: &[Word]) -> Result<Parsed, WordFault>
    ensures request { IfOk result (λ parsed. AsksAs whose words.now (request_in parsed)) }
    ensures first_fault { IfErr result (λ found.
        (fault_as whose words.now ≡ Some found) ⊎ (found ≡ WordFault.Memory)) }
{
    if let Some(place) = past_limit(words) {
        return Err(WordFault::WordLimit(place));
    }
    let Some((name, arguments)) = words.split_first() else {
        return Err(WordFault::NoTool);
    };
    let tool = tool_for(whose, name.as_slice()).ok_or(WordFault::UnknownTool)?;
    read_arguments(alloc, whose, tool, arguments)?.into_parsed()
}

// The tool that a word names, where such words may name it.
fn tool_for(whose: WordsOf, name: &[u8]) -> Option<Tool>
    ensures { result ≡ tool_by whose name.now }
{
    let tool = Tool::named(name)?;
    if may_name(whose, tool) {
        Some(tool)
    } else {
        None
    }
}

// Whether such words may name the tool.
fn may_name(whose: WordsOf, tool: Tool) -> bool
    ensures { result ≡ may_name whose tool }
{
    match whose {
        WordsOf::Command => true,
        WordsOf::Line => tool.row().is_for_lines,
    }
}

// The place of the first word that passes a limit.
fn past_limit(words: &[Word]) -> Option<usize>
    ensures { result ≡ first_past_limit words.now }
{
    words.iter().enumerate().position(|(place, word)| place >= MOST_WORDS
        || word.as_slice().len() > LONGEST_WORD)
}
