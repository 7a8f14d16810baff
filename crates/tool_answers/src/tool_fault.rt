// Why a tool goes no further.
use account_model::Refusal;
use std::alloc::AllocError;

/// Why a tool makes no change.
#[derive(Drop)]
pub enum ToolFault {
    /// The tool refuses, for this cause.
    Refused(Refusal),
    /// There is no memory.
    Memory,
}

impl From<AllocError> for ToolFault {
    ghost use Rattle.std.specs.Prelude.{◌≡◌};
    ghost use Rattle.tool_answers.specs.declared.tool_fault.ToolFault.TheVariants.{Memory};

    ghost from_gives = { λ _ fault. fault ≡ Memory };

    fn from(_: AllocError) -> Self {
        ToolFault::Memory
    }
}
