//! Tokens and names of texts, and paths of names.

use justfile_lex::Lexer;
use justfile_token::{Name, Namepath, Token};
use justfile_vocabulary::TokenKind;
use std::alloc::{AllocError, Global};

/// Returns the tokens of a text, or none if it is rejected.
pub fn tokens_of<'src>(alloc: Global, text: &'src str) -> Vec<Token<'src>> {
    match Lexer::lex(alloc, "justfile", text) {
        Ok(tokens) => tokens,
        Err(_) => Vec::new(alloc),
    }
}

/// Returns the names of a text, in order.
///
/// # Errors
///
/// Memory ran out.
pub fn names_of<'src>(alloc: Global, text: &'src str) -> Result<Vec<Name<'src>>, AllocError> {
    let tokens = tokens_of(alloc, text);
    let mut names = Vec::new(alloc);
    for token in &tokens {
        if let TokenKind::Identifier = token.kind {
            names.push(Name::from_identifier(*token))?;
        }
    }
    Ok(names)
}

/// Returns the path of the names of a text.
///
/// # Errors
///
/// Memory ran out, or the text has no name.
pub fn path_of<'src>(alloc: Global, text: &'src str) -> Result<Namepath<'src>, AllocError> {
    let names = names_of(alloc, text)?;
    match names.split_first() {
        Some((first, others)) => path_from(alloc, *first, others),
        None => Err(AllocError),
    }
}

/// Returns the path of a name and the names after it.
///
/// # Errors
///
/// Memory ran out.
pub fn path_from<'src>(
    alloc: Global,
    first: Name<'src>,
    others: &[Name<'src>],
) -> Result<Namepath<'src>, AllocError> {
    let mut path = Namepath::from_name(alloc, first)?;
    for name in others {
        path.push(*name)?;
    }
    Ok(path)
}
