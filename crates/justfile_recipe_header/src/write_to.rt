//! Values that are written in a list, each after the same text.
ghost use Rattle.std.specs.Prelude.{ℕ, List, ◌++◌};
ghost use Rattle.std.specs.List.{flat_map};
ghost use Rattle.justfile_model.specs.Printed.Printing.{fixed_text, if_true};
ghost use Rattle.justfile_token.specs.Sink.{Puts};

use justfile_leaves::put_piece;
use justfile_token::Sink;

/// Values of a header that are written to a sink.
pub(crate) trait WriteTo {
    /// The text of the value.
    ghost piece_text: { Self → List ℕ };

    /// Writes the text of the value.
    fn write<S: Sink>(&self, sink: &mut S) -> Result<(), S::Fault>
        ensures { Puts S.took S.failed sink.old result (piece_text self.now) sink.new };
}

/// Writes several values, each after the text `before`.
pub(crate) fn write_each<P: WriteTo, S: Sink>(
    before: &str,
    pieces: &[P],
    sink: &mut S,
) -> Result<(), S::Fault>
    ensures { Puts S.took S.failed sink.old result
        (flat_map (λ p. fixed_text before.now ++ P.piece_text p) pieces.now) sink.new }
{
    for piece in pieces {
        write_one(before, piece, sink)?;
    }
    Ok(())
}

/// Writes the text `before`, and then a value.
fn write_one<P: WriteTo, S: Sink>(before: &str, piece: &P, sink: &mut S) -> Result<(), S::Fault>
    ensures { Puts S.took S.failed sink.old result
        (fixed_text before.now ++ P.piece_text piece.now) sink.new }
{
    put_piece(before, sink)?;
    piece.write(sink)
}
