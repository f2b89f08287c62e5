//! The chunks of a text: the lines of an item, with its doc, its attributes and its body.
ghost use Rattle.std.specs.Prelude.{ℕ, List, map, IfOk};
ghost use Rattle.std.specs.Str.{IsUtf8};
ghost use Rattle.justfile_model.specs.Lexing.Lexed.{Lexed};
ghost use Rattle.justfile_model.specs.Lexing.Tok.{tok_of};
ghost use Rattle.justfile_chunks.specs.Spans.{AreChunks};

use crate::cuts::{depth_after, is_cut, line_after};
use crate::span::Span;
use justfile_token::Token;
use std::alloc::{AllocError, Global};

/// Returns the spans of the chunks of the text with these tokens. They follow one another, and cover
/// the whole text.
///
/// # Errors
///
/// Memory runs out.
pub fn chunks(alloc: Global, tokens: &[Token<'_>]) -> Result<Vec<Span>, AllocError>
    ensures { (text : List ℕ) → IsUtf8 text → Lexed text (map tok_of tokens.now)
        → IfOk result (λ spans. AreChunks text (map tok_of tokens.now) spans.items) }
{
    let mut spans = Vec::new(alloc);
    let Some((last, others)) = tokens.split_last() else {
        return Ok(spans);
    };
    let mut start = 0;
    let mut depth = 0;
    let mut line = None;
    for (at, token) in others.iter().enumerate() {
        depth = depth_after(token.kind, depth);
        if is_cut(token.kind, depth, line, &tokens[at + 1..]) {
            let end = token.end();
            spans.push(Span { start, end })?;
            start = end;
        }
        line = line_after(token.kind, line);
    }
    spans.push(Span {
        start,
        end: last.end(),
    })?;
    Ok(spans)
}
