// The words after the program's name, and what main answers to them by itself.
ghost use Rattle.std.specs.Prelude.{◌≡◌, ◌↔◌, [], ◌∷◌, Some, IsTrue, codes};
ghost use Rattle.rehearsal.specs.Asked.{BeginsRehearsal};
ghost use Rattle.suite_main.specs.Help.{AskAbout, AskAboutPlans, AskForTools};

use account_model::Tool;
use acct_text::Word;
use option_words::command_words;
use rehearsal::asks_for_rehearsal;
use std::rt::Env;
use std::{env, io};

/// Who answers the words.
#[derive(Clone, Copy)]
pub(crate) enum Request {
    /// main, with the list of the tools.
    Help,
    /// main, with the text of this tool.
    ToolHelp(Tool),
    /// main, with the text of plans.
    PlanHelp,
    /// main, with the version.
    Version,
    /// The rehearsal.
    Rehearsal,
    /// The suite, whatever the words are.
    Suite,
}

/// The words after the program's name.
///
/// At `InvalidData` one of them isn't UTF-8, and at `OutOfMemory` there was no memory for them.
pub(crate) fn words_of<R: Env + AllocGlobal>(rt: &R) -> io::Result<Vec<Word>> {
    let mut words = Vec::new(rt.alloc());
    for word in env::args(rt)?.skip(1) {
        words.push(Word::of(rt.alloc(), word.as_str().as_bytes())?)?;
    }
    Ok(words)
}

/// Who answers the words: main where they ask for a text and for nothing else, the rehearsal where
/// word 0 is `rehearse`, and else the suite.
pub(crate) fn request_of(words: &[Word]) -> Request
    ensures help { (result ≡ Request.Help) ↔ AskForTools words.now }
    ensures tool_help { (tool : Tool) → (result ≡ Request.ToolHelp tool) ↔ AskAbout words.now tool }
    ensures plan_help { (result ≡ Request.PlanHelp) ↔ AskAboutPlans words.now }
    ensures version { (result ≡ Request.Version) ↔ (words.now ≡ codes "--version" ∷ []) }
    ensures rehearsal { (result ≡ Request.Rehearsal) ↔ BeginsRehearsal words.now }
{
    if is_only(words, b"--version") {
        return Request::Version;
    }
    if is_only(words, b"--help") || is_only(words, b"-h") || is_only(words, b"help") {
        return Request::Help;
    }
    match asked_about(words) {
        Some(tool) => Request::ToolHelp(tool),
        None if asks_about_plans(words) => Request::PlanHelp,
        None if asks_for_rehearsal(words) => Request::Rehearsal,
        None => Request::Suite,
    }
}

/// The name that begins a line on the error stream: of the tool that the first word names, of a plan the
/// first behind its form, and else of the program.
pub(crate) fn teller(words: &[Word]) -> &'static str {
    match command_words(words).split_first() {
        Some((word, _)) => match Tool::named(word.as_slice()) {
            Some(tool) => tool.name(),
            None => "accounts",
        },
        None => "accounts",
    }
}

// The tool that the words ask about: its name with `--help` or `-h`, and nothing behind that.
fn asked_about(words: &[Word]) -> Option<Tool>
    ensures { (tool : Tool) → (result ≡ Some tool) ↔ AskAbout words.now tool }
{
    let (name, options) = words.split_first()?;
    if is_only(options, b"--help") || is_only(options, b"-h") {
        return Tool::named(name.as_slice());
    }
    None
}

// Whether the words ask about plans.
fn asks_about_plans(words: &[Word]) -> bool
    ensures { IsTrue result ↔ AskAboutPlans words.now }
{
    match words.split_first() {
        Some((word, options)) if is_only(options, b"--help") || is_only(options, b"-h") => {
            word.as_slice() == b"plan".as_slice()
        }
        _ => false,
    }
}

// Whether this is the only word.
fn is_only(words: &[Word], wanted: &[u8]) -> bool
    ensures { IsTrue result ↔ (words.now ≡ wanted.now ∷ []) }
{
    match words.split_first() {
        Some((word, others)) => others.is_empty() && word.as_slice() == wanted,
        None => false,
    }
}
