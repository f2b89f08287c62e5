//! Why a text isn't formatted.
ghost use Rattle.std.specs.Prelude.{◌≡◌};
ghost use Rattle.justfile_canonical.specs.Fault.{format_fault_text};

use std::alloc::{AllocError, AllocFailed};
use std::error::Error;
use std::fmt;

/// The error for which a text isn't a justfile. The place is that of the error's token, with the
/// meanings of a token's fields.
#[derive(Debug, Drop)]
pub struct Rejection {
    /// `error: ` and the message of the error, and the excerpt of the line that it is on. Each line
    /// ends in a line feed.
    pub lines: String,
    /// The number of bytes of the text before the token.
    pub offset: usize,
    /// The number of bytes of the token.
    pub length: usize,
    /// The line on which the token begins, from 0.
    pub line: usize,
    /// The number of bytes on that line before the token.
    pub column: usize,
}

/// Why a text isn't formatted.
#[derive(Debug, Drop)]
pub enum FormatFault {
    /// The text isn't a justfile.
    Rejected(Rejection),
    /// A body line ends in a carriage return, so the printed text wouldn't read back.
    NotPrintable,
    /// Memory ran out. This tells nothing about the text.
    Memory,
    /// Numbers of bindings or recipes ran out.
    Numbers,
}

impl FormatFault {
    /// Returns the lines that tell a user about it. Each ends in a line feed.
    pub fn lines(&self) -> &str
        ensures { result.now ≡ format_fault_text self.now }
    {
        match self {
            FormatFault::Rejected(rejection) => rejection.lines.as_str(),
            FormatFault::NotPrintable => "error: a body line ends in a carriage return\n",
            FormatFault::Memory => "error: out of memory\n",
            FormatFault::Numbers => "error: out of numbers\n",
        }
    }
}

/// Writes its lines, which `justfmt` writes to standard error: with `error: ` before the message,
/// and with a line feed at the end.
impl fmt::Display for FormatFault {
    ghost use Rattle.std.specs.Prelude.{Some};

    ghost output = { λ fault. Some (format_fault_text fault) };

    fn fmt<W: fmt::Write>(&self, f: &mut fmt::Formatter<W>) -> fmt::Result {
        f.write_str(self.lines())
    }
}

impl Error for FormatFault {}

impl From<AllocError> for FormatFault {
    ghost use Rattle.justfile_canonical.specs.declared.fault.FormatFault.TheVariants.{Memory};

    ghost from_gives = { λ _ e. e ≡ Memory };

    fn from(_: AllocError) -> Self {
        FormatFault::Memory
    }
}

impl<T: Drop> From<AllocFailed<T>> for FormatFault {
    ghost use Rattle.justfile_canonical.specs.declared.fault.FormatFault.TheVariants.{Memory};

    ghost from_gives = { λ _ e. e ≡ Memory };

    fn from(_: AllocFailed<T>) -> Self {
        FormatFault::Memory
    }
}
