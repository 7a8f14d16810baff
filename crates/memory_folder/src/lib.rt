//! The outside in memory: a folder of the account files that tells its history, streams and a clock.
//!
//! `MemoryFolder` is proved to meet `Folder`. Its calls fail as a `Mishap` of its plan says, and a session
//! dies in it with the `Effect` that a test names. The streams and the clock fail in the calls that their
//! lists name. They are for tests, and for claims about whole histories.
#![tactic(auto)]

ghost use Rattle.std.specs.Prelude.{◌≡◌, IfOk};

mod apply;
mod event;
mod failing;
mod log;
mod memory;
mod memory_calls;
mod memory_streams;
mod mishap;
mod store;
mod tokens;

use acct_text::Bytes;
pub use memory::MemoryFolder;
pub use memory_streams::{MemoryClock, MemorySink, MemorySource};
pub use mishap::Mishap;
use std::alloc::AllocError;

/// What a call did that failed, or within which its session died.
#[derive(Drop)]
pub enum Effect {
    /// All that it does where it is done.
    Happened,
    /// Nothing.
    Nothing,
    /// Of a write or an append alone: these bytes, or nothing, stand at its name.
    Left(Option<Bytes>),
}

impl Effect {
    /// An equal effect.
    pub fn copy(&self) -> Result<Self, AllocError>
        ensures { IfOk result (λ effect. effect ≡ self.now) }
    {
        match self {
            Effect::Happened => Ok(Effect::Happened),
            Effect::Nothing => Ok(Effect::Nothing),
            Effect::Left(None) => Ok(Effect::Left(None)),
            Effect::Left(Some(bytes)) => Ok(Effect::Left(Some(bytes.copy()?))),
        }
    }
}
