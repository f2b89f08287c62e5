//! A sink that writes to a `Write`.
ghost use Rattle.std.specs.Prelude.{◌≡◌, ℕ, List, ◌++◌, OnOk, OnErr};
ghost use Rattle.std.specs.Io.KnownBytes.{Appends};
ghost use Rattle.std.proofs.Common.{refl, ◌∙◌};
ghost use Rattle.std.proofs.KnownBytes.{Appends-nil, Appends-trans};
ghost use Rattle.justfile_ast.specs.Written.{AppendsPart};
ghost use Rattle.justfile_ast.specs.WrittenLaws.{part_before, part_later};

use crate::write_fault::WriteFault;
use justfile_token::Sink;
use std::io::Write;

/// A writer as a sink.
#[derive(Drop)]
pub(crate) struct WriterSink<'w, W> {
    pub(crate) writer: &'w mut W,
}

impl<W: Write> Sink for WriterSink<'_, W> {
    type Fault = WriteFault;

    ghost took = { λ s text t. (t.writer.ghost_name ≡ s.writer.ghost_name)
        × Appends (W.contents s.writer.now) (W.contents t.writer.now) text };

    ghost failed = { λ s text t. (t.writer.ghost_name ≡ s.writer.ghost_name)
        × AppendsPart (W.contents s.writer.now) (W.contents t.writer.now) text };

    fn put(&mut self, piece: &str) -> Result<(), WriteFault> {
        write_whole(piece.as_bytes(), self.writer)
    }

    ghost took_nothing = { λ s. (refl, Appends-nil (W.contents s.writer.now)) };

    ghost took_more = { λ s t u xs ys p q. (
      q.0 ∙ p.0,
      Appends-trans (W.contents s.writer.now) (W.contents t.writer.now)
          (W.contents u.writer.now) xs ys p.1 q.1,
    ) };

    ghost failed_later = { λ s t u xs ys p q. (
      q.0 ∙ p.0,
      part_later (W.contents s.writer.now) (W.contents t.writer.now)
          (W.contents u.writer.now) xs ys p.1 q.1,
    ) };

    ghost failed_before = { λ s t xs ys p. (
      p.0,
      part_before (W.contents s.writer.now) (W.contents t.writer.now) xs ys p.1,
    ) };
}

/// Writes all bytes, with as many writes as that takes. Stops at the first write that fails or
/// accepts no bytes.
#[inline(always)]
fn write_whole<W: Write>(bytes: &[u8], writer: &mut W) -> Result<(), WriteFault>
    ensures ok { OnOk result (Appends (W.contents writer.old) (W.contents writer.new) bytes.now) }
    ensures err { OnErr result
        (AppendsPart (W.contents writer.old) (W.contents writer.new) bytes.now) }
{
    let mut rest = bytes;
    while !rest.is_empty() {
        match writer.write(rest) {
            Ok(0) => return Err(WriteFault::Zero),
            Ok(count) => rest = &rest[count..],
            Err(_) => return Err(WriteFault::Failed),
        }
    }
    Ok(())
}
