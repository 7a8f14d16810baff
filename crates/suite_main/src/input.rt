// Which file a batch reads in place of standard input.
ghost use Rattle.std.specs.Prelude.{◌≡◌, IfOk};
ghost use Rattle.suite_main.specs.Input.{named_file, operand_file};

use account_model::{Tool, WordFault};
use acct_text::{Bytes, Names, Word};
use option_words::read_words;
use std::alloc::{AllocError, Global};

/// The file that the words name for a batch; none where that is standard input, or where the words ask
/// for something else.
///
/// At `AllocError` there was no memory to read the words.
pub(crate) fn named_file(alloc: Global, words: &[Word]) -> Result<Option<Bytes>, AllocError>
    ensures { IfOk result (λ file. file ≡ named_file words.now) }
{
    match read_words(alloc, words) {
        Ok(parsed) => operand_file(alloc, parsed.tool, &parsed.operands),
        Err(fault) if matches!(&fault, WordFault::Memory) => Err(AllocError),
        Err(_) => Ok(None),
    }
}

// The operand of batch, where that isn't `-`.
fn operand_file(alloc: Global, tool: Tool, operands: &Names) -> Result<Option<Bytes>, AllocError>
    ensures { IfOk result (λ file. file ≡ operand_file tool operands.now) }
{
    match operands.as_slice().first() {
        Some(file) if tool.row().input.has_commands() && file.as_slice() != b"-".as_slice() => {
            Ok(Some(Bytes::of(alloc, file.as_slice())?))
        }
        _ => Ok(None),
    }
}
