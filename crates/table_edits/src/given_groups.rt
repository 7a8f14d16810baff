// The groups that words name, and refusals of words that name none (useradd(8), usermod(8), `-g` and
// `-G`).
ghost use Rattle.std.specs.Prelude.{◌≡◌, ◌++◌, [], false, None, find, map, option_map, IfOk, OnOk};
ghost use Rattle.std.specs.List.{cons_option};
ghost use Rattle.std.specs.Option.{option_copied};
ghost use Rattle.account_model.specs.GivenGroups.{find_group as named_by_word, given_group, given_groups, given_group_words as words_of_groups, is_unknown_group, unknown_group, unknown_groups};
ghost use Rattle.account_model.specs.Tables.{group_records};
ghost use Rattle.table_edits.specs.Stopping.{StopsBy};

use crate::Tables;
use crate::lookups::no_group;
use account_model::GroupRecord;
use acct_lines::is_digits;
use acct_text::{Bytes, Names};
use command_values::{Asked, ToolFault, list_value, read_id};
use std::alloc::{AllocError, Global};

/// Refuses a word of `-g` that names no group: `NoGroup`.
pub fn check_given_group(alloc: Global, asked: &Asked, tables: &Tables) -> Result<(), ToolFault>
    ensures { StopsBy (unknown_group asked.now tables.now) result }
{
    let Some(word) = asked.value(b'g') else {
        return Ok(());
    };
    if !is_unknown(alloc, tables, word)? {
        return Ok(());
    }
    Err(no_group(alloc, word)?)
}

/// Refuses the first word of `-G` that names no group: `NoGroup`.
pub fn check_given_groups(alloc: Global, asked: &Asked, tables: &Tables) -> Result<(), ToolFault>
    ensures { StopsBy (unknown_groups asked.now tables.now) result }
{
    let words = group_words(alloc, asked)?;
    match first_unknown(alloc, tables, words.as_slice())? {
        Some(word) => Err(no_group(alloc, word.as_slice())?),
        None => Ok(()),
    }
}

// The first of the words that names no group.
fn first_unknown<'a>(
    alloc: Global,
    tables: &Tables,
    words: &'a [Bytes],
) -> Result<Option<&'a Bytes>, AllocError>
    ensures { IfOk result (λ found.
        option_copied found ≡ find (is_unknown_group tables.now) words.now) }
{
    for word in words {
        if is_unknown(alloc, tables, word.as_slice())? {
            return Ok(Some(word));
        }
    }
    Ok(None)
}

// Whether a word names no group. Of a GID that asks the used ones, where these are known.
fn is_unknown(alloc: Global, tables: &Tables, word: &[u8]) -> Result<bool, AllocError>
    ensures { IfOk result (λ is. is ≡ is_unknown_group tables.now word.now) }
{
    if !is_digits(word) {
        return Ok(!tables.has_group(word));
    }
    match read_id(word) {
        Some(gid) => Ok(!tables.is_gid_used(alloc, gid)?),
        None => Ok(true),
    }
}

/// The group of `-g`; none where the option isn't given or names none.
pub fn given_group(
    alloc: Global,
    asked: &Asked,
    tables: &Tables,
) -> Result<Option<GroupRecord>, AllocError>
    ensures { IfOk result (λ found. found ≡ given_group asked.now tables.now) }
{
    match asked.value(b'g') {
        Some(word) => find_group(alloc, tables, word),
        None => Ok(None),
    }
}

// The first group that a word names: by its GID where the word is all digits, and else by its name.
fn find_group(
    alloc: Global,
    tables: &Tables,
    word: &[u8],
) -> Result<Option<GroupRecord>, AllocError>
    ensures { IfOk result (λ found.
        found ≡ named_by_word word.now (group_records tables.now)) }
{
    if !is_digits(word) {
        return tables.group_named(alloc, word);
    }
    match read_id(word) {
        Some(gid) => tables.group_of_gid(alloc, gid),
        None => Ok(None),
    }
}

// The words of `-G`, each once.
fn group_words(alloc: Global, asked: &Asked) -> Result<Names, AllocError>
    ensures { IfOk result (λ words. words ≡ words_of_groups asked.now) }
{
    list_value(alloc, asked.value_or(b'G', b""))
}

/// The names of the groups of `-G`, all of which are there, in the order in which they were given.
pub fn group_names(alloc: Global, asked: &Asked, tables: &Tables) -> Result<Names, AllocError>
    requires { unknown_groups asked.now tables.now ≡ None }
    ensures { IfOk result (λ names.
        names ≡ map (λ group. group.name) (given_groups asked.now tables.now)) }
{
    let words = group_words(alloc, asked)?;
    let mut names = Names::new(alloc);
    for word in words.as_slice() {
        push_named(alloc, &mut names, tables, word.as_slice())?;
    }
    Ok(names)
}

// Adds the name of the group that the word names. Where that isn't all digits it is the word, and group(5)
// isn't searched again.
fn push_named(
    alloc: Global,
    names: &mut Names,
    tables: &Tables,
    word: &[u8],
) -> Result<(), AllocError>
    requires { is_unknown_group tables.now word.now ≡ false }
    ensures { OnOk result (names.new ≡ names.old ++ cons_option
        (option_map (λ group. group.name) (named_by_word word.now (group_records tables.now))) []) }
{
    if !is_digits(word) {
        return names.push(word);
    }
    if let Some(group) = find_group(alloc, tables, word)? {
        names.push(group.name.as_slice())?;
    }
    Ok(())
}
