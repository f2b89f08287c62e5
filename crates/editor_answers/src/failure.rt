//! Why there is no answer.
use editor_messages::ErrorCode;
use std::alloc::AllocError;

/// Why there is no answer.
#[derive(Clone, Copy)]
pub enum Failure {
    /// Memory ran out.
    Memory,
    /// The request is refused, with a message.
    Refused(ErrorCode, &'static str),
}

impl From<AllocError> for Failure {
    ghost use Rattle.std.specs.Prelude.{◌≡◌};
    ghost use Rattle.editor_answers.specs.declared.failure.Failure.TheVariants.{Memory};

    ghost from_gives = { λ _ failure. failure ≡ Memory };

    fn from(_: AllocError) -> Self {
        Failure::Memory
    }
}
