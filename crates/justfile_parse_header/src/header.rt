//! The header of a recipe, from its name to its end.
ghost use Rattle.std.specs.Prelude.{IfOk};
ghost use Rattle.justfile_attribute_set.specs.AttributeSet.{attributes_of};
ghost use Rattle.justfile_parse_expression.specs.View.{state_of};
ghost use Rattle.justfile_parse_header.specs.Arguments.{HaveBoundKeys};
ghost use Rattle.justfile_parse_base.specs.Counting.{TookBindingNumbers, counters_of, identifiers_left, identifiers_left_after_header, ParsesCounted};
ghost use Rattle.justfile_parse_header.specs.HeaderTable as reader;
ghost use Rattle.justfile_parse_header.specs.HeaderFields.{HasDerivedHeaderFields};
ghost use Rattle.justfile_parse_header.specs.Tree.{header_tree, rules_of};

use crate::arguments::check_defined;
use crate::dependency::{parse_dependencies, parse_subsequents};
use crate::options::{check_options, note_arg_attributes};
use crate::parameter::parse_parameters;
use justfile_attribute_set::AttributeSet;
use justfile_numbers::Numerator;
use justfile_parse_base::ParseError;
use justfile_parse_expression::ParserState;
use justfile_parse_expression::significant::SignificantToken;
use justfile_recipe_header::{Parameter, UnresolvedDependency};
use justfile_token::Expander;
use justfile_vocabulary::TokenKind;

/// The header of a recipe, without its `@`.
#[derive(Drop)]
pub struct Header<'src> {
    /// The dependencies before `&&`, and then those after it.
    pub dependencies: Vec<UnresolvedDependency<'src>>,
    /// The token of its name.
    pub name: SignificantToken<'src>,
    /// The parameters, in source order.
    pub parameters: Vec<Parameter<'src>>,
    /// How many of the dependencies come before `&&`.
    pub priors: usize,
}

/// Parses the header of a recipe with these attributes, from its name to its end, and gives its
/// parameters numbers. Requires that each bound of an `arg` has its key.
///
/// # Errors
///
/// The tokens aren't a header, a literal has no text, a rule is broken, or memory or numbers run
/// out.
pub fn parse_header<'src, X: Expander>(
    attributes: &AttributeSet<'src>,
    parser: &mut ParserState<'_, 'src, X>,
    numerator: &mut Numerator,
) -> Result<Header<'src>, ParseError<'src>>
    requires { HaveBoundKeys (attributes_of attributes.now) }
    ensures reads { ParsesCounted X.answer header_tree result numerator.new parser.old parser.new
        (reader.header (rules_of attributes.now) (counters_of numerator.old)) }
    ensures fields { IfOk result (HasDerivedHeaderFields (rules_of attributes.now)) }
    ensures numbers { TookBindingNumbers numerator.old numerator.new
        (identifiers_left (state_of X.answer parser.old))
        (identifiers_left_after_header result (state_of X.answer parser.new)) }
{
    let name = parser.expect(TokenKind::Identifier)?;
    note_arg_attributes(attributes, parser)?;
    let (token, _) = name;
    check_options(attributes, parser.alloc, *token)?;
    let parameters = parse_parameters(attributes, parser, numerator)?;
    check_defined(attributes, parser.alloc, &parameters)?;
    let mut dependencies = Vec::new(parser.alloc);
    parse_dependencies(parser, &mut dependencies)?;
    let priors = dependencies.len();
    parse_subsequents(parser, &mut dependencies)?;
    Ok(Header {
        dependencies,
        name: *name,
        parameters: parameters.list,
        priors,
    })
}
