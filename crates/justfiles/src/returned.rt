//! Where the line of a body ends in a carriage return.

use justfile_syntax::lexer::Lexer;
use justfile_syntax::token::Token;
use justfile_syntax::token_kind::TokenKind;
use std::alloc::{AllocError, Global};

/// Returns the excerpt of the first body line of a file that ends in a carriage return. If none is
/// found, it is the file's name alone.
pub fn returned_excerpt(alloc: Global, name: &str, source: &str) -> Result<String, AllocError> {
    let Ok(tokens) = Lexer::lex(alloc, name, source) else {
        return format!(in alloc; "{name}\n");
    };
    match returned_text(&tokens) {
        Some(token) => format!(in alloc; "{token}\n"),
        None => format!(in alloc; "{name}\n"),
    }
}

/// Returns the first text that ends a body line and ends in a carriage return.
fn returned_text<'src>(tokens: &[Token<'src>]) -> Option<Token<'src>> {
    for (token, next) in tokens.iter().zip(tokens.iter().skip(1)) {
        let ends_line = next.kind != TokenKind::InterpolationStart;
        if token.kind == TokenKind::Text && ends_line && token.lexeme().ends_with('\r') {
            return Some(*token);
        }
    }
    None
}
