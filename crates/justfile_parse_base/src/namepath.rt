//! Paths of names.
ghost use Rattle.justfile_parse_expression.specs.ParsedResults.{Parses};
ghost use Rattle.justfile_parse_base.specs.SharedTable as reader;
ghost use Rattle.justfile_parse_base.specs.Trees.{path_tree};

use justfile_parse_expression::{ExpressionError, ParserState};
use justfile_token::{Expander, Name, Namepath};
use justfile_vocabulary::TokenKind;

/// Parses names separated by `::`.
///
/// # Errors
///
/// The tokens are refused, or memory runs out.
#[tactic(auto, using(crate::proofs::Paths::path_begins, crate::proofs::Paths::path_ends, crate::proofs::Paths::path_goes_on))]
pub fn parse_namepath<'src, X: Expander>(
    parser: &mut ParserState<'_, 'src, X>,
) -> Result<Namepath<'src>, ExpressionError<'src>>
    ensures { Parses X.answer path_tree result parser.old parser.new reader.path }
{
    let (first, _) = parser.expect(TokenKind::Identifier)?;
    let mut path = Namepath::from_name(parser.alloc, Name::from_identifier(*first))?;
    'names: loop {
        let Some(_colons) = parser.accept(TokenKind::ColonColon) else {
            return Ok(path);
        };
        let (name, _) = parser.expect(TokenKind::Identifier)?;
        path.push(Name::from_identifier(*name))?;
    }
}
