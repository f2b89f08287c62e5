//! Fixed pieces of text.
ghost use Rattle.justfile_model.specs.Printed.Printing.{fixed_text, if_true};
ghost use Rattle.justfile_token.specs.Sink.{Puts};

use justfile_token::Sink;

/// Writes a fixed piece of text.
#[tactic(auto, unfolding(justfile_model::specs::Printed::Printing::fixed_text))]
pub fn put_piece<S: Sink>(piece: &str, sink: &mut S) -> Result<(), S::Fault>
    ensures { Puts S.took S.failed sink.old result (fixed_text piece.now) sink.new }
{
    sink.put(piece)
}

/// Writes a fixed piece of text if `present` is set.
pub fn put_piece_if<S: Sink>(present: bool, piece: &str, sink: &mut S) -> Result<(), S::Fault>
    ensures { Puts S.took S.failed sink.old result
        (if_true present (fixed_text piece.now)) sink.new }
{
    if present {
        put_piece(piece, sink)
    } else {
        Ok(())
    }
}
