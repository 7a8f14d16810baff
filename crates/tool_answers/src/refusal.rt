// The text and the status of a refusal. The texts are this suite's own, the statuses are those of
// the "EXIT VALUES" of the manual pages.
ghost use Rattle.std.specs.Prelude.{◌≡◌, ◌++◌, ◌∷◌, codes, decimal, IfOk};
ghost use Rattle.account_model.specs.Messages.{but_wanted, line_problem_text, refusal_text, wanted_form};
ghost use Rattle.acct_text.specs.Tables.{table_name};

use account_model::{KEY_FORM, LineProblem, NAME_FORM, Refusal, Tool};
use acct_text::Piece::{Number, Text};
use acct_text::{Bytes, Tab, pair, triple};
use std::alloc::{AllocError, Global};

/// The text of a refusal of the tool, without its name in front and without a newline.
pub fn refusal_text(alloc: Global, tool: Tool, refusal: &Refusal) -> Result<Bytes, AllocError>
    ensures { IfOk result (λ text. text ≡ refusal_text tool refusal.now) }
{
    match refusal {
        Refusal::BadName(name) => but_wanted(alloc, b"invalid name: ", name.as_slice(), NAME_FORM),
        Refusal::BadKey(word) => but_wanted(alloc, b"invalid setting: ", word.as_slice(), KEY_FORM),
        Refusal::BadValue(letter, value) => bad_value(alloc, tool, *letter, value.as_slice()),
        Refusal::UserExists(name) => triple(alloc, b"user ", name.as_slice(), b" exists"),
        Refusal::GroupExists(name) => triple(alloc, b"group ", name.as_slice(), b" exists"),
        Refusal::NoUser(name) => pair(alloc, b"unknown user ", name.as_slice()),
        Refusal::NoGroup(word) => pair(alloc, b"unknown group ", word.as_slice()),
        Refusal::UidInUse(uid) => in_use(alloc, b"UID ", *uid),
        Refusal::GidInUse(gid) => in_use(alloc, b"GID ", *gid),
        Refusal::NoFreeUid => Bytes::of(alloc, b"no free UID"),
        Refusal::NoFreeGid => Bytes::of(alloc, b"no free GID"),
        Refusal::NoGap(tab) => pair(alloc, b"no free range in ", tab.name().as_bytes()),
        Refusal::Meets(first, last, tab, line) => meets(alloc, *first, *last, *tab, *line),
        Refusal::EmptyHash(name) => empty_hash(alloc, name.as_slice()),
        Refusal::PrimaryGroup(group, user) => primary(alloc, group.as_slice(), user.as_slice()),
        Refusal::NotMember(user, group) => no_member(alloc, user.as_slice(), group.as_slice()),
        Refusal::NoShadow => Bytes::of(alloc, b"shadow does not exist"),
        Refusal::NoGshadow => Bytes::of(alloc, b"gshadow does not exist"),
        Refusal::BadLine(line, problem) => bad_line(alloc, *line, problem),
        Refusal::NoRanges(name) => pair(alloc, b"no ranges for ", name.as_slice()),
        Refusal::Multiple(tab, name) => multiple(alloc, *tab, name.as_slice()),
    }
}

// What can't be used, with the form that is wanted.
fn but_wanted<'text>(
    alloc: Global,
    what: &'text [u8],
    word: &'text [u8],
    form: &'text [u8],
) -> Result<Bytes, AllocError>
    ensures { IfOk result (λ text. text ≡ but_wanted (what.now ++ word.now) form.now) }
{
    Bytes::made_of(
        alloc,
        &[Text(what), Text(word), Text(b" ("), Text(form), Text(b")")],
    )
}

// The value of the option of a letter can't be used.
fn bad_value(alloc: Global, tool: Tool, letter: u8, value: &[u8]) -> Result<Bytes, AllocError>
    ensures { IfOk result (λ text. text ≡
        but_wanted (codes "invalid value for -" ++ letter ∷ codes ": " ++ value.now)
        (wanted_form tool letter)) }
{
    let mut text = Bytes::of(alloc, b"invalid value for -")?;
    text.push(&[letter])?;
    text.push(b": ")?;
    text.push(value)?;
    text.push(b" (")?;
    text.push(wanted_form(tool, letter))?;
    text.push(b")")?;
    Ok(text)
}

// The form that the tool's option with the letter says of its value; empty where it says none.
fn wanted_form(tool: Tool, letter: u8) -> &'static [u8]
    ensures { result.now ≡ wanted_form tool letter }
{
    match tool.option(letter) {
        Some(option) => option.wanted(),
        None => b"",
    }
}

// The ID of this sort is in use.
fn in_use(alloc: Global, sort: &[u8], id: u32) -> Result<Bytes, AllocError>
    ensures { IfOk result (λ text. text ≡ sort.now ++ decimal id ++ codes " is in use") }
{
    Bytes::made_of(
        alloc,
        &[Text(sort), Number(u64::from(id)), Text(b" is in use")],
    )
}

// The range from the first ID to the last meets a line of the table.
fn meets(alloc: Global, first: u32, last: u32, tab: Tab, line: usize) -> Result<Bytes, AllocError>
    ensures { IfOk result (λ text. text ≡
        codes "range " ++ decimal first ++ codes "-" ++ decimal last ++ codes " meets "
        ++ table_name tab ++ codes " line " ++ decimal line) }
{
    Bytes::made_of(
        alloc,
        &[
            Text(b"range "),
            Number(u64::from(first)),
            Text(b"-"),
            Number(u64::from(last)),
            Text(b" meets "),
            Text(tab.name().as_bytes()),
            Text(b" line "),
            Number(line as u64),
        ],
    )
}

// To unlock the user would leave no password.
fn empty_hash(alloc: Global, name: &[u8]) -> Result<Bytes, AllocError>
    ensures { IfOk result (λ text. text ≡
        codes "unlocking " ++ name.now ++ codes " would leave no password") }
{
    triple(alloc, b"unlocking ", name, b" would leave no password")
}

// The group is the primary group of the user.
fn primary(alloc: Global, group: &[u8], user: &[u8]) -> Result<Bytes, AllocError>
    ensures { IfOk result (λ text. text ≡
        codes "group " ++ group.now ++ codes " is the primary group of " ++ user.now) }
{
    let mut text = triple(alloc, b"group ", group, b" is the primary group of ")?;
    text.push(user)?;
    Ok(text)
}

// The user isn't a member of the group.
fn no_member(alloc: Global, user: &[u8], group: &[u8]) -> Result<Bytes, AllocError>
    ensures { IfOk result (λ text. text ≡
        codes "user " ++ user.now ++ codes " is not a member of " ++ group.now) }
{
    let mut text = triple(alloc, b"user ", user, b" is not a member of ")?;
    text.push(group)?;
    Ok(text)
}

// A line of the input has this problem.
fn bad_line(alloc: Global, line: u32, problem: &LineProblem) -> Result<Bytes, AllocError>
    ensures { IfOk result (λ text. text ≡
        codes "line " ++ decimal line ++ codes ": " ++ line_problem_text problem.now) }
{
    let problem = problem_text(alloc, problem)?;
    Bytes::made_of(
        alloc,
        &[
            Text(b"line "),
            Number(u64::from(line)),
            Text(b": "),
            Text(problem.as_slice()),
        ],
    )
}

// What is wrong with a line of the input.
fn problem_text(alloc: Global, problem: &LineProblem) -> Result<Bytes, AllocError>
    ensures { IfOk result (λ text. text ≡ line_problem_text problem.now) }
{
    match problem {
        LineProblem::NoColon => Bytes::of(alloc, b"no colon"),
        LineProblem::HashColon => Bytes::of(alloc, b"colon in hash"),
        LineProblem::UnknownUser(name) => pair(alloc, b"unknown user ", name.as_slice()),
        LineProblem::UnknownGroup(name) => pair(alloc, b"unknown group ", name.as_slice()),
        LineProblem::LineEnd => Bytes::of(alloc, b"ends in a carriage return"),
    }
}

// The table has several records of the name.
fn multiple(alloc: Global, tab: Tab, name: &[u8]) -> Result<Bytes, AllocError>
    ensures { IfOk result (λ text. text ≡
        table_name tab ++ codes " has multiple entries for " ++ name.now) }
{
    triple(
        alloc,
        tab.name().as_bytes(),
        b" has multiple entries for ",
        name,
    )
}
