//! Where messages of failures go.
ghost use Rattle.std.specs.Prelude.{ℕ, List};
ghost use Rattle.justfile_files.specs.Output.{AppendsBeginning};

use crate::output::write_text;
use std::io::Write;

/// Takes messages of failures: for the program standard error, for a test a text in memory.
pub trait Messages {
    /// A message was told between two states, as far as it could be written.
    ghost tells: { Self → List ℕ → Self → Type 0 };

    /// Writes a message, up to the first write that fails.
    fn tell(&mut self, message: &str)
        ensures { tells self.old message.now self.new };
}

impl<W: Write> Messages for W {
    ghost tells = { λ s message t. AppendsBeginning (W.contents s) (W.contents t) message };

    fn tell(&mut self, message: &str) {
        let _ = write_text(message, self);
    }
}
