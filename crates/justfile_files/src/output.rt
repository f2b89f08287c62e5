//! Where reports go, and writing texts.
ghost use Rattle.std.specs.Prelude.{◌≡◌, ℕ, List, OnErr, OnOk};
ghost use Rattle.std.specs.Io.KnownBytes.{Appends};
ghost use Rattle.justfile_files.specs.Output.{AppendsBeginning};

use std::io::{self, Error, ErrorKind, Write};

/// Takes the reports of files: for the program standard output, for a test a text in memory.
pub trait Output {
    /// A report was written between two states, all of it.
    ghost writes: { Self → List ℕ → Self → Type 0 };

    /// Writing a report failed between two states.
    ghost loses: { Self → List ℕ → Self → Type 0 };

    /// Writes a report.
    ///
    /// # Errors
    ///
    /// It couldn't be written to its end.
    fn take(&mut self, report: &str) -> io::Result<()>
        ensures written { OnOk result (writes self.old report.now self.new) }
        ensures lost { OnErr result (loses self.old report.now self.new) };
}

impl<W: Write> Output for W {
    ghost writes = { λ s report t. Appends (W.contents s) (W.contents t) report };

    ghost loses = { λ s report t. AppendsBeginning (W.contents s) (W.contents t) report };

    fn take(&mut self, report: &str) -> io::Result<()> {
        write_text(report, self)
    }
}

/// Writes a text up to the first write that fails, and flushes the writer.
///
/// # Errors
///
/// A write failed, or took nothing. A beginning of the text was written, or all of it.
#[tactic(auto, using(crate::proofs::OutputLemmas::flushed, crate::proofs::OutputLemmas::flushed_beginning))]
pub(crate) fn write_text<W: Write>(text: &str, writer: &mut W) -> io::Result<()>
    ensures ok { OnOk result (Appends (W.contents writer.old) (W.contents writer.new) text.now) }
    ensures beginning { AppendsBeginning (W.contents writer.old) (W.contents writer.new)
        text.now }
{
    write_bytes(text.as_bytes(), writer)?;
    writer.flush()
}

/// Writes bytes up to the first write that fails.
#[tactic(auto, using(crate::proofs::OutputLemmas::front, crate::proofs::OutputLemmas::all))]
fn write_bytes<W: Write>(bytes: &[u8], writer: &mut W) -> io::Result<()>
    ensures ok { OnOk result (Appends (W.contents writer.old) (W.contents writer.new) bytes.now) }
    ensures beginning { AppendsBeginning (W.contents writer.old) (W.contents writer.new)
        bytes.now }
{
    let mut written = 0;
    while written < bytes.len() {
        match writer.write(&bytes[written..]) {
            Ok(0) => return Err(Error::from(ErrorKind::WriteZero)),
            Ok(count) => written += count,
            Err(error) => return Err(error),
        }
    }
    Ok(())
}
