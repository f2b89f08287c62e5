//! The texts in lines of bodies.
ghost use Rattle.justfile_token.specs.Sink.{Puts};
ghost use Rattle.justfile_token.specs.Token.{lexeme_of};

use justfile_token::{Sink, Token};

/// Writes a text of a body line, which is printed as it was written.
pub fn write_body_text<S: Sink>(token: &Token<'_>, sink: &mut S) -> Result<(), S::Fault>
    ensures { Puts S.took S.failed sink.old result (lexeme_of token.now) sink.new }
{
    sink.put(token.lexeme())
}
