// The tables that commands are carried out on, with the indices that pay.
ghost use Rattle.std.specs.Prelude.{◌≡◌, IfOk, OnOk};

use account_model::Tool;
use acct_text::Files;
use carried_tables::CarriedTables;
use command_values::Asked;
use std::alloc::{AllocError, Global};

// From so many lines on a batch has an index of each table.
const MANY_LINES: usize = 8;

// From so many names on, or lines of an input, a command has an index of the tables where they are
// looked up.
const MANY_NAMES: usize = 64;

/// The tables of the files, for a command with this input: with an index of those where it looks up many
/// names.
pub(crate) fn tables_for<'a>(
    alloc: Global,
    asked: &Asked,
    input: &[u8],
    files: &'a Files,
) -> Result<CarriedTables<'a>, AllocError>
    ensures { IfOk result (λ tables. tables ≡ files.now) }
{
    let mut tables = CarriedTables::of(alloc, files);
    let many_lines = has_many(input, b'\n', MANY_NAMES);
    let of_groups = asked.tool() == Tool::Chgpasswd;
    if lists_many(asked, b'A') || lists_many(asked, b'M') || (many_lines && !of_groups) {
        tables.index_users(alloc)?;
    }
    if lists_many(asked, b'G') || (many_lines && of_groups) {
        tables.index_groups(alloc)?;
    }
    Ok(tables)
}

/// Makes an index of each table for the lines of a batch, where they are many.
pub(crate) fn index_for_lines(
    alloc: Global,
    input: &[u8],
    tables: &mut CarriedTables,
) -> Result<(), AllocError>
    ensures { OnOk result (tables.new ≡ tables.old) }
{
    if has_many(input, b'\n', MANY_LINES) {
        tables.index(alloc)?;
    }
    Ok(())
}

// Whether the option lists many names.
fn lists_many(asked: &Asked, letter: u8) -> bool {
    match asked.value(letter) {
        Some(names) => has_many(names, b',', MANY_NAMES),
        None => false,
    }
}

// Whether the byte stands in the text so many times.
fn has_many(text: &[u8], byte: u8, many: usize) -> bool {
    text.iter().filter(|one| **one == byte).count() >= many
}
