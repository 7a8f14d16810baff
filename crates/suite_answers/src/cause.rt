// Why a command answers as it does, with the status and the stage of its commit.
ghost use Rattle.std.specs.Prelude.{◌≡◌};
ghost use Rattle.suite_answers.specs.Reasons.{stage_of, status_of};

use account_model::{Refusal, Tool, WordFault};
use acct_outside::{CommitStage, Name, Token};
use acct_text::Tab;
use tool_answers::{MEMORY_STATUS, file_status, lock_status, update_status};

// The input can't be read.
const INPUT_FAULT_STATUS: u8 = 101;

/// The status of a command whose output or message can't be written, whatever its tool is.
pub const OUTPUT_FAULT_STATUS: u8 = 102;

// The clock gives no day.
const CLOCK_FAULT_STATUS: u8 = 103;

/// What has more bytes than it may have.
#[derive(Clone, Copy, Drop)]
pub enum Which {
    /// The input of chpasswd(8) or chgpasswd(8), or that of a batch.
    Input,
    /// A file of the folder.
    File(Name),
}

/// Why a command answers as it does.
#[derive(Drop)]
pub enum Cause {
    /// The tables were changed in this call.
    Changed,
    /// All tables stay as they are. A report is one of these.
    Same,
    /// The tool refuses.
    Refused(Refusal),
    /// The tool of this line of a batch refuses. Lines are counted from 1, also those that are skipped.
    RefusedLine(u32, Refusal),
    /// The words are no request: their first fault, which isn't `Memory`.
    Syntax(WordFault),
    /// This line of a batch, counted from 1, is the first that asks for nothing: its first fault, which
    /// isn't `Memory`.
    BatchSyntax(u32, WordFault),
    /// The session of this token holds the lock, and may still run.
    Held(Token),
    /// The lock of this number was listed, and was gone when it was read.
    Gone(u64),
    /// Another session took the lock of this number first.
    Raced(u64),
    /// The lock of the first number was taken, and one of the second number, a greater one, stood
    /// then.
    Outrun(u64, u64),
    /// The lock of this number holds neither of the texts of a lock.
    LockDamaged(u64),
    /// The greatest lock has the greatest number.
    Exhausted,
    /// This part of the intent, counted from 0, is the first that doesn't stand.
    IntentDamaged(u32),
    /// The input or a file has more bytes than it may have, or would have.
    TooLarge(Which),
    /// A table that must stand is absent.
    NoTable(Tab),
    /// This line of login.defs(5), counted from 1, is the first with a number that its key doesn't
    /// allow.
    BadSetting(u32),
    /// The folder failed, at this stage of the commit.
    DiskFault(CommitStage),
    /// The input failed.
    InputFault,
    /// The output or the error stream failed, at this stage of the commit.
    OutputFault(CommitStage),
    /// The clock gave no day.
    ClockFault,
    /// There was no memory, at this stage of the commit.
    Memory(CommitStage),
}

/// The status of a command, and why it answers so.
#[derive(Drop)]
pub struct Outcome {
    /// The exit status of the program, from 0 to 103.
    pub status: u8,
    /// Why the command answers so.
    pub cause: Cause,
}

impl Cause {
    /// How far the commit came: a change is committed, and what is no fault stops before it.
    pub fn stage(&self) -> CommitStage
        ensures { result ≡ stage_of self.now }
    {
        match self {
            Cause::Changed => CommitStage::Committed,
            Cause::DiskFault(stage) | Cause::OutputFault(stage) | Cause::Memory(stage) => *stage,
            _ => CommitStage::Before,
        }
    }

    /// The status that the tool's page has for the cause, from 0 to 103.
    ///
    /// What the tool decides, `Changed`, `Same`, `Refused` and `RefusedLine`, has 0 here, and so have
    /// `Syntax` and `BatchSyntax`: their status comes with the decision, and with the words.
    pub fn status(&self, tool: Tool) -> u8
        ensures { result ≡ status_of tool self.now }
    {
        match self {
            Cause::Changed | Cause::Same | Cause::Refused(_) | Cause::RefusedLine(..) => 0,
            Cause::Syntax(_) | Cause::BatchSyntax(..) => 0,
            Cause::Held(_) | Cause::Gone(_) | Cause::Raced(_) => lock_status(tool),
            Cause::Outrun(..) | Cause::LockDamaged(_) | Cause::Exhausted => lock_status(tool),
            Cause::IntentDamaged(_) | Cause::DiskFault(_) => update_status(tool),
            Cause::TooLarge(_) | Cause::NoTable(_) | Cause::BadSetting(_) => file_status(tool),
            Cause::Memory(_) => MEMORY_STATUS,
            Cause::InputFault => INPUT_FAULT_STATUS,
            Cause::OutputFault(_) => OUTPUT_FAULT_STATUS,
            Cause::ClockFault => CLOCK_FAULT_STATUS,
        }
    }
}
