// The commands of a rehearsal, by their places.
ghost use Rattle.std.specs.Prelude.{◌≡◌, ◌≤◌, ◌<◌, [], ◌∷◌, ◌++◌, IfOk, OnOk};
ghost use Rattle.rehearsal.specs.Asked.{greatest_seed, most_commands};
ghost use Rattle.rehearsal.specs.Commands.{command_at, numbered, own_words, tool_of, words_of};

use account_model::Tool;
use acct_text::{Bytes, Word, push_decimal};
use std::alloc::{AllocError, Global};

/// How many commands a round has.
const ROUND: u64 = 5;

/// A command of the rehearsal, with the number in its names.
#[derive(Clone, Copy)]
pub enum Command {
    /// `useradd -P R -U uN`.
    AddUser(u64),
    /// `groupadd -P R gN`.
    AddGroup(u64),
    /// `usermod -P R -a -G gN uN`.
    JoinGroup(u64),
    /// `chage -P R -M 90 uN`.
    LimitAge(u64),
    /// `groupmod -P R -n hN gN`.
    RenameGroup(u64),
    /// `userdel -P R uN`.
    RemoveUser(u64),
}

impl Command {
    /// The command at a place, counted from 0, of the rehearsal with this seed.
    ///
    /// Five commands are a round. A round's number is the seed and the rounds before it; the last
    /// command of every second round removes the user of the round before.
    pub(crate) fn at(seed: u64, place: u64) -> Self
        requires seed { seed ≤ greatest_seed }
        requires place { place < most_commands }
        ensures { result ≡ command_at seed place }
    {
        let round = place / ROUND;
        let number = seed + round;
        match place % ROUND {
            0 => Command::AddUser(number),
            1 => Command::AddGroup(number),
            2 => Command::JoinGroup(number),
            3 => Command::LimitAge(number),
            _ if round % 2 == 0 => Command::RenameGroup(number),
            _ => Command::RemoveUser(number - 1),
        }
    }

    /// The words of the command. The error says that memory ran out.
    pub(crate) fn words(self, alloc: Global) -> Result<Vec<Word>, AllocError>
        ensures { IfOk result (λ words. words.items ≡ words_of self) }
    {
        let mut words = Vec::new(alloc);
        push(alloc, &mut words, self.tool().name().as_bytes())?;
        push(alloc, &mut words, b"-P")?;
        push(alloc, &mut words, b"R")?;
        self.push_own(alloc, &mut words)?;
        Ok(words)
    }

    // The tool of the command.
    fn tool(self) -> Tool
        ensures { result ≡ tool_of self }
    {
        match self {
            Command::AddUser(_) => Tool::Useradd,
            Command::AddGroup(_) => Tool::Groupadd,
            Command::JoinGroup(_) => Tool::Usermod,
            Command::LimitAge(_) => Tool::Chage,
            Command::RenameGroup(_) => Tool::Groupmod,
            Command::RemoveUser(_) => Tool::Userdel,
        }
    }

    // Adds the words that stand behind the image.
    fn push_own(self, alloc: Global, words: &mut Vec<Word>) -> Result<(), AllocError>
        ensures { OnOk result (words.new.items ≡ words.old.items ++ own_words self) }
    {
        match self {
            Command::AddUser(number) => {
                push(alloc, words, b"-U")?;
                push_name(alloc, words, b"u", number)
            }
            Command::AddGroup(number) => push_name(alloc, words, b"g", number),
            Command::JoinGroup(number) => push_join(alloc, words, number),
            Command::LimitAge(number) => {
                push(alloc, words, b"-M")?;
                push(alloc, words, b"90")?;
                push_name(alloc, words, b"u", number)
            }
            Command::RenameGroup(number) => {
                push(alloc, words, b"-n")?;
                push_name(alloc, words, b"h", number)?;
                push_name(alloc, words, b"g", number)
            }
            Command::RemoveUser(number) => push_name(alloc, words, b"u", number),
        }
    }
}

// Adds the words by which a user joins the group of its number.
fn push_join(alloc: Global, words: &mut Vec<Word>, number: u64) -> Result<(), AllocError>
    ensures { OnOk result (words.new.items ≡ words.old.items ++ own_words (Command.JoinGroup number)) }
{
    push(alloc, words, b"-a")?;
    push(alloc, words, b"-G")?;
    push_name(alloc, words, b"g", number)?;
    push_name(alloc, words, b"u", number)
}

// Adds a word.
fn push(alloc: Global, words: &mut Vec<Word>, text: &[u8]) -> Result<(), AllocError>
    ensures { OnOk result (words.new.items ≡ words.old.items ++ text.now ∷ []) }
{
    words.push(Word::of(alloc, text)?)?;
    Ok(())
}

// Adds a name: a letter with a number behind it.
fn push_name(
    alloc: Global,
    words: &mut Vec<Word>,
    letter: &[u8],
    number: u64,
) -> Result<(), AllocError>
    ensures { OnOk result (words.new.items ≡ words.old.items ++ numbered letter.now number ∷ []) }
{
    let mut name = Bytes::of(alloc, letter)?;
    push_decimal(&mut name, number)?;
    push(alloc, words, name.as_slice())
}
