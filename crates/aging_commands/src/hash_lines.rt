// The lines of the input of chpasswd(8) and chgpasswd(8), each NAME:HASH.
ghost use Rattle.std.specs.Prelude.{◌≡◌, ◌≤◌, ◌++◌, [], ◌∷◌, length, map, IfOk, OnOk};
ghost use Rattle.acct_text.specs.Limits.{table_limit};
ghost use Rattle.acct_text.specs.Lines.{lines_of, texts_of};
ghost use Rattle.account_model.specs.Chpasswd.{bad_line_from, has_account as is_there, unknown as unknown_name};
ghost use Rattle.table_edits.specs.Stopping.{StopsBy};
ghost use Rattle.aging_commands.specs.HashLines.{IsCut, hash_line, line_refusal, seen_new};

use account_model::{HashesOf, LineProblem, Refusal};
use acct_text::{Bytes, cut_once, lines};
use command_values::{ToolFault, has_byte};
use option_words::ends_in_return;
use std::alloc::{AllocError, Global};
use table_edits::Tables;

/// A line of the input: a user or a group, and the new hash.
#[derive(Drop)]
pub(crate) struct NewHash<'a> {
    /// The name of the user or the group.
    pub name: &'a [u8],
    /// The hash, as shadow or gshadow has it.
    pub hash: &'a [u8],
}

/// The lines of the input.
///
/// `BadLine` refuses the first bad one, counted from 1: it has no `:`, or its hash has one, or its
/// name isn't in passwd, or in group for hashes of groups, or it ends in a carriage return.
pub(crate) fn read_hashes<'a>(
    alloc: Global,
    whose: HashesOf,
    input: &'a [u8],
    tables: &Tables,
) -> Result<Vec<NewHash<'a>>, ToolFault>
    requires { length input.now ≤ table_limit }
    ensures refused { StopsBy (bad_line_from whose 1 tables.now (lines_of input.now)) result }
    ensures read { IfOk result (λ hashes.
        map seen_new hashes.items ≡ map hash_line (texts_of (lines_of input.now))) }
{
    let places = lines(alloc, input)?;
    let mut hashes = Vec::new(alloc);
    let mut number = 0u32;
    'lines: for (start, end) in &places {
        number += 1;
        let hash = read_hash(alloc, whose, &input[*start..*end], number, tables)?;
        push_hash(&mut hashes, hash)?;
    }
    Ok(hashes)
}

// Adds a line behind the others.
fn push_hash<'a>(hashes: &mut Vec<NewHash<'a>>, hash: NewHash<'a>) -> Result<(), AllocError>
    ensures { OnOk result (map seen_new hashes.new.items
        ≡ map seen_new hashes.old.items ++ seen_new hash.entry ∷ []) }
{
    hashes.push(hash)?;
    Ok(())
}

// The name and the hash of the line of this number; `BadLine` refuses a bad one.
fn read_hash<'a>(
    alloc: Global,
    whose: HashesOf,
    line: &'a [u8],
    number: u32,
    tables: &Tables,
) -> Result<NewHash<'a>, ToolFault>
    ensures refused { StopsBy (line_refusal whose tables.now number line.now) result }
    ensures read { IfOk result (λ hash. seen_new hash ≡ hash_line line.now) }
{
    let Some(new) = cut_at_colon(line) else {
        return Err(bad_line(number, LineProblem::NoColon));
    };
    if has_byte(new.hash, b':') {
        return Err(bad_line(number, LineProblem::HashColon));
    }
    if !has_account(whose, new.name, tables) {
        return Err(bad_line(number, unknown(alloc, whose, new.name)?));
    }
    if ends_in_return(line) {
        return Err(bad_line(number, LineProblem::LineEnd));
    }
    Ok(new)
}

// Whether there is such a user, or such a group.
fn has_account(whose: HashesOf, name: &[u8], tables: &Tables) -> bool
    ensures { result ≡ is_there whose name.now tables.now }
{
    match whose {
        HashesOf::Users => tables.has_user(name),
        HashesOf::Groups => tables.has_group(name),
    }
}

// What is wrong with a line whose name isn't there.
fn unknown(alloc: Global, whose: HashesOf, name: &[u8]) -> Result<LineProblem, AllocError>
    ensures { IfOk result (λ problem. problem ≡ unknown_name whose name.now) }
{
    let name = Bytes::of(alloc, name)?;
    Ok(match whose {
        HashesOf::Users => LineProblem::UnknownUser(name),
        HashesOf::Groups => LineProblem::UnknownGroup(name),
    })
}

// The fault that names a bad line.
fn bad_line(number: u32, problem: LineProblem) -> ToolFault
    ensures { result ≡ ToolFault.Refused (Refusal.BadLine number problem) }
{
    ToolFault::Refused(Refusal::BadLine(number, problem))
}

// The name and the hash that stand around the first `:`; none where there is none.
fn cut_at_colon<'a>(line: &'a [u8]) -> Option<NewHash<'a>>
    ensures { IsCut line.now result }
{
    let cut = cut_once(b':', line)?;
    Some(NewHash {
        name: cut.before,
        hash: cut.behind,
    })
}
