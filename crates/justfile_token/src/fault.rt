//! Why a call returned no value: an error of the text, or memory or numbers ran out.
use crate::compile_error::CompileError;
use std::alloc::{AllocError, AllocFailed};
use std::error::Error;
use std::fmt;

/// Why a call returned no value.
#[derive(Debug, Drop)]
pub enum Fault<'src> {
    /// The text isn't a valid justfile.
    Compile(CompileError<'src>),
    /// Memory ran out. This tells nothing about the text.
    Memory,
    /// The counter of bindings or recipes has no number left.
    Numbers,
}

/// The result of a call that parses a text.
pub type CompileResult<'src, T = ()> = Result<T, Fault<'src>>;

impl<'src> From<AllocError> for Fault<'src> {
    ghost use Rattle.std.specs.Prelude.{◌≡◌};
    ghost use Rattle.justfile_token.specs.declared.fault.Fault.TheVariants.{Memory};

    ghost from_gives = { λ _ e. e ≡ Memory };

    fn from(_: AllocError) -> Self {
        Fault::Memory
    }
}

impl<'src, T: Drop> From<AllocFailed<T>> for Fault<'src> {
    ghost use Rattle.std.specs.Prelude.{◌≡◌};
    ghost use Rattle.justfile_token.specs.declared.fault.Fault.TheVariants.{Memory};

    ghost from_gives = { λ _ e. e ≡ Memory };

    fn from(_: AllocFailed<T>) -> Self {
        Fault::Memory
    }
}

/// Writes the message of an error and, on the lines after it, the excerpt of the line that it is
/// on; or `out of memory`, or `out of numbers`. No line end is at the end.
impl fmt::Display for Fault<'_> {
    ghost use Rattle.std.specs.Prelude.{Some};
    ghost use Rattle.justfile_token.specs.Fault.{fault_text};

    ghost output = { λ fault. Some (fault_text fault) };

    fn fmt<W: fmt::Write>(&self, f: &mut fmt::Formatter<W>) -> fmt::Result {
        match self {
            Fault::Compile(error) => write!(f, "{error}\n{}", error.token),
            Fault::Memory => f.write_str("out of memory"),
            Fault::Numbers => f.write_str("out of numbers"),
        }
    }
}

impl Error for Fault<'_> {}
