//! Parts of a text that can be read by themselves, each up to the first byte of the next one.
ghost use Rattle.std.specs.Prelude.{◌≡◌, ◌≤◌, ◌<◌, ◌-◌, ℕ, false, IfSome, IsTrue, List, Some, length, map};
ghost use Rattle.std.specs.List.{remove};
ghost use Rattle.std.specs.Str.{IsUtf8};
ghost use Rattle.justfile_model.specs.Lexing.BlankLines.{is_blank_or_line_end};
ghost use Rattle.justfile_model.specs.Lexing.Lexed.{Lexed};
ghost use Rattle.justfile_model.specs.Lexing.SignificantTokens.{significant_of, significant_tokens};
ghost use Rattle.justfile_model.specs.Lexing.Tok.{Tok};
ghost use Rattle.justfile_chunks.specs.Cuts.{depth_after, is_cut};
ghost use Rattle.justfile_chunks.specs.PartTables.{IsCutOff, IsLineStart, IsTested, depth_past, line_past};

use crate::cuts::{depth_after, is_cut_before, line_after};
use justfile_token::Token;
use justfile_vocabulary::TokenKind;

/// Returns a place from this offset on where a part of the text probably begins: a line that begins
/// like an item, its attributes or a comment, and not after a line that belongs to it. Only the
/// tokens show whether the text is cut there.
pub fn find_cut(text: &[u8], from: usize) -> Option<usize>
    requires { 1 ≤ from }
    ensures later { IfSome result (λ at. from ≤ at) }
    ensures start { IfSome result (IsLineStart text.now) }
{
    let mut is_joined = true;
    for at in from..text.len() {
        if text[at - 1] == b'\n' {
            if !is_joined && is_start(text[at]) {
                return Some(at);
            }
            is_joined = matches!(text[at], b'#' | b'[');
        }
    }
    None
}

/// Whether an item, its attributes or a comment can begin with this byte.
fn is_start(byte: u8) -> bool
    ensures small { IsTrue result → byte < 128 }
    ensures other { IsTrue result → is_blank_or_line_end byte ≡ false }
{
    matches!(byte, b'A'..=b'Z' | b'a'..=b'z' | b'_' | b'@' | b'#' | b'[')
}

/// Takes the token before the end out of a table of significant tokens, if it is one byte and the
/// text is cut before it. Then the table is that of the text before it. Returns whether it did.
pub fn take_next(table: &mut Vec<(Token<'_>, bool)>) -> bool
    ensures kept { IsTrue result
        → table.new.items ≡ remove table.old.items (length table.old.items - 2) }
    ensures cut_off { IsTrue result → (text : List ℕ) (tokens : List Tok) → IsUtf8 text
        → Lexed text tokens → map significant_of table.old.items ≡ significant_tokens tokens
        → IsCutOff tokens (map significant_of table.new.items) }
{
    if !ends_cut(table.as_slice()) {
        return false;
    }
    let _next = table.remove(table.len() - 2);
    true
}

/// Whether the last token but one is one byte, and the text is cut before it.
fn ends_cut(table: &[(Token<'_>, bool)]) -> bool
    ensures { IsTrue result → IsTested table.now }
{
    let Some((&(_end, is_end_glued), front)) = table.split_last() else {
        return false;
    };
    let Some((&(next, is_glued), part)) = front.split_last() else {
        return false;
    };
    let Some((&(last, _), others)) = part.split_last() else {
        return false;
    };
    if !is_end_glued || !is_glued || next.length != 1 {
        return false;
    }
    is_cut_at(others, last.kind, next.kind)
}

/// Whether a text is cut between tokens of these kinds, after the other ones.
fn is_cut_at(others: &[(Token<'_>, bool)], last: TokenKind, next: TokenKind) -> bool
    ensures { result ≡ is_cut last (depth_after last (depth_past others.now))
        (line_past others.now) (Some next) }
{
    let mut depth = 0;
    let mut line = None;
    for (token, _) in others {
        depth = depth_after(token.kind, depth);
        line = line_after(token.kind, line);
    }
    is_cut_before(last, depth_after(last, depth), line, Some(next))
}
