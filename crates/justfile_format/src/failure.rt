//! Why nothing was formatted, and how that is reported.
ghost use Rattle.std.specs.Prelude.{◌≡◌};
ghost use Rattle.justfile_format.specs.Failure.{failure_text, status_of};
ghost use Rattle.system_run.specs.Beginning.{AppendsBeginning};

use justfile_ast::WriteFault;
use justfile_canonical::fault::FormatFault;
use std::alloc::{AllocError, AllocFailed};
use std::io::Write;
use system_run::write_up_to;

/// Why nothing was formatted.
#[derive(Debug, Drop)]
pub enum Failure {
    /// The program doesn't take these arguments.
    Usage,
    /// Standard input couldn't be read.
    Reading,
    /// The input isn't UTF-8.
    NotUtf8,
    /// The text isn't a justfile. The lines tell why.
    Rejected(String),
    /// A body line ends in a carriage return, so the printed text wouldn't read back.
    NotPrintable,
    /// Standard output couldn't be written.
    Writing,
    /// Memory ran out.
    Memory,
    /// Numbers of bindings or recipes ran out.
    Numbers,
}

impl From<AllocError> for Failure {
    ghost use Rattle.justfile_format.specs.declared.failure.Failure.TheVariants.{Memory};

    ghost from_gives = { λ _ e. e ≡ Memory };

    fn from(_: AllocError) -> Self {
        Failure::Memory
    }
}

impl<T: Drop> From<AllocFailed<T>> for Failure {
    ghost use Rattle.justfile_format.specs.declared.failure.Failure.TheVariants.{Memory};

    ghost from_gives = { λ _ e. e ≡ Memory };

    fn from(_: AllocFailed<T>) -> Self {
        Failure::Memory
    }
}

impl From<FormatFault> for Failure {
    ghost use Rattle.justfile_format.specs.Failure.{failure_of};

    ghost from_gives = { λ fault failure. failure ≡ failure_of fault };

    fn from(fault: FormatFault) -> Self {
        match fault {
            FormatFault::Rejected(rejection) => Failure::Rejected(rejection.lines),
            FormatFault::NotPrintable => Failure::NotPrintable,
            FormatFault::Memory => Failure::Memory,
            FormatFault::Numbers => Failure::Numbers,
        }
    }
}

impl From<WriteFault> for Failure {
    ghost use Rattle.justfile_format.specs.declared.failure.Failure.TheVariants.{Writing};

    ghost from_gives = { λ _ e. e ≡ Writing };

    fn from(_: WriteFault) -> Self {
        Failure::Writing
    }
}

impl Failure {
    /// Returns the exit status: 2 for a text that can't be formatted, 3 for any other failure.
    pub fn status(&self) -> u8
        ensures { result ≡ status_of self.now }
    {
        match self {
            Failure::Rejected(_) | Failure::NotPrintable => 2,
            Failure::Usage
            | Failure::Reading
            | Failure::NotUtf8
            | Failure::Writing
            | Failure::Memory
            | Failure::Numbers => 3,
        }
    }

    /// Returns the lines for standard error.
    fn message(&self) -> &str
        ensures { result.now ≡ failure_text self.now }
    {
        match self {
            Failure::Usage => "usage: justfmt [--check]\n",
            Failure::Reading => "error: reading failed\n",
            Failure::NotUtf8 => "error: input is not UTF-8\n",
            Failure::Rejected(lines) => lines.as_str(),
            Failure::NotPrintable => "error: a body line ends in a carriage return\n",
            Failure::Writing => "error: writing failed\n",
            Failure::Memory => "error: out of memory\n",
            Failure::Numbers => "error: out of numbers\n",
        }
    }
}

/// Writes the failure's lines up to the first write that fails, and returns the exit status.
#[tactic(auto, using(system_run::proofs::Beginnings::front))]
pub fn report<E: Write>(failure: &Failure, errors: &mut E) -> u8
    ensures status { result ≡ status_of failure.now }
    ensures written { AppendsBeginning (E.contents errors.old) (E.contents errors.new)
        (failure_text failure.now) }
{
    let _ = write_up_to(failure.message().as_bytes(), errors);
    failure.status()
}
