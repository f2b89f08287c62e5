//! The table of tokens that the parser reads.

use justfile_token::Token;

/// A token that isn't whitespace, and whether it directly follows the token before, with no
/// whitespace between them.
pub type SignificantToken<'src> = (Token<'src>, bool);
