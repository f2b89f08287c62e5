//! A part of a text, parsed up to the first byte of what begins after it.
ghost use Rattle.std.specs.Prelude.{IfSome};
ghost use Rattle.justfile_parse_expression.specs.Conditions.{conditions_of};
ghost use Rattle.justfile_parse.specs.Parts.{IsPart};

use justfile_ast::Ast;
use justfile_chunks::take_next;
use justfile_lex::Lexer;
use justfile_numbers::{Numerator, Version};
use justfile_parse_file::parse_significant;
use justfile_token::{Expander, Source};
use std::alloc::Global;

/// Parses what is before the last byte of a text, under a limit as for `Parser::parse`. Returns
/// `None` if the text isn't cut before that byte, what is before it is rejected, or memory runs out.
pub fn parse_part<'src, X: Expander>(
    alloc: Global,
    path: &'src str,
    source: &Source<'_, '_>,
    src: &'src str,
    expander: &X,
    current: Version,
    limit: usize,
) -> Option<Ast<'src>>
    ensures { IfSome result (IsPart (conditions_of X.answer expander.now current limit)
        path.now src.now source.now.file_depth source.now.import_offsets.now) }
{
    let Ok(mut table) = Lexer::lex_significant(alloc, path, src) else {
        return None;
    };
    if !take_next(&mut table) {
        return None;
    }
    let mut numerator = Numerator::new(0);
    parse_significant(
        alloc,
        &mut numerator,
        source,
        table.as_slice(),
        expander,
        current,
        limit,
    )
    .ok()
}
