//! Tokens whose presence sets a field of an item, such as `?` and `@`.
ghost use Rattle.std.specs.Prelude.{◌≡◌};
ghost use Rattle.justfile_parse_item.specs.ItemTable as reader;
ghost use Rattle.justfile_parse_expression.specs.View.{state_of};

use justfile_parse_expression::ParserState;
use justfile_token::Expander;
use justfile_vocabulary::TokenKind;

/// Takes the next token if it is of this kind, and returns whether it is.
#[tactic(auto, unfolding(justfile_model::specs::Readers::ReaderState::accepted))]
pub(crate) fn accept_kind<X: Expander>(parser: &mut ParserState<'_, '_, X>, kind: TokenKind) -> bool
    ensures { (result, state_of X.answer parser.new)
        ≡ reader.accepted kind (state_of X.answer parser.old) }
{
    match parser.accept(kind) {
        Some(_token) => true,
        None => false,
    }
}
