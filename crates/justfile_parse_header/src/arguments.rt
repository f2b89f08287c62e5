//! The parameters that `arg` attributes belong to.
ghost use Rattle.std.specs.Prelude.{◌≡◌, None, map, string_bytes};
ghost use Rattle.std.specs.Option.{option_map};
ghost use Rattle.justfile_attribute.specs.Attribute.{leaf_attribute_of};
ghost use Rattle.justfile_attribute_rules.specs.Made.{IsFaultOfRule, quoted_leaf};
ghost use Rattle.justfile_model.specs.Meanings.RecipeRules.{rules_for};
ghost use Rattle.justfile_model.specs.Meanings.Rules.{UndefinedArgAttribute};
ghost use Rattle.justfile_parse_base.specs.ParseErrors.{ChecksRules};
ghost use Rattle.justfile_parse_header.specs.HeaderTable as reader;
ghost use Rattle.justfile_parse_header.specs.Arguments.{OptionHasBoundKeys, least_undefined, lesser_of, rules_by, undefined_in};
ghost use Rattle.justfile_parse_header.specs.ArgNames.{AreFirsts};
ghost use Rattle.justfile_parse_header.specs.Tree.{parameter_tree, rules_of};
ghost use Rattle.justfile_expression.specs.LeafViews.{views_leaves};
ghost use Rattle.justfile_expression.specs.LeafTree.{Named};

use crate::arg_names::{ArgAttributes, find_first};
use crate::read_parameters::ReadParameters;
use justfile_attribute::Attribute;
use justfile_attribute_set::AttributeSet;
use justfile_parse_base::{ParseError, rule_error};
use justfile_token::{CompileError, CompileErrorKind, Fault, StringLiteral, Token};
use std::alloc::Global;

/// Returns the `arg` attribute of the parameter with this name, if it has one. It belongs to the
/// first parameter with its name, so a parameter that repeats a name from `before` has none.
pub(crate) fn find_arg<'run, 'src>(
    arg_attributes: &ArgAttributes<'run, 'src>,
    before: &ReadParameters<'src>,
    name: Token<'src>,
) -> Option<&'run Attribute<'src>>
    requires { AreFirsts arg_attributes.now.firsts (rules_of arg_attributes.now.attributes.now) }
    ensures rules { rules_by result
        ≡ rules_for views_leaves (rules_of arg_attributes.now.attributes.now)
        (map parameter_tree before.now.list.items) (Named name.entry None) }
    ensures keyed { OptionHasBoundKeys result }
{
    let found = find_first(&arg_attributes.firsts, name.lexeme())?;
    if before.is_named(name.lexeme()) {
        None
    } else {
        Some(found)
    }
}

/// Refuses `arg` attributes that name no parameter. The error is about the one whose name is the
/// least as text.
#[tactic(auto, using(crate::proofs::Undefined::is_defined, crate::proofs::Undefined::is_undefined))]
pub(crate) fn check_defined<'src>(
    attributes: &AttributeSet<'src>,
    alloc: Global,
    parameters: &ReadParameters<'src>,
) -> Result<(), ParseError<'src>>
    ensures { ChecksRules (reader.undefined (map parameter_tree parameters.now.list.items)
        (rules_of attributes.now)) result }
{
    match find_undefined(attributes, parameters) {
        None => Ok(()),
        Some(argument) => Err(rule_error(alloc, undefined_argument_fault(alloc, argument))),
    }
}

/// Returns the name in an `arg` attribute that names no parameter. If there are several, returns
/// the least as text, and the first of equal ones.
#[tactic(auto, using(crate::proofs::Least::begins, crate::proofs::Least::goes_on, crate::proofs::Least::ends))]
fn find_undefined<'run, 'src>(
    attributes: &'run AttributeSet<'src>,
    parameters: &ReadParameters<'src>,
) -> Option<&'run StringLiteral<'src>>
    ensures { option_map (λ l. quoted_leaf l.now) result
        ≡ least_undefined (map parameter_tree parameters.now.list.items)
        (rules_of attributes.now) }
{
    let mut found: Option<&'run StringLiteral<'src>> = None;
    let mut left = attributes.iter();
    'attributes: loop {
        let Some(attribute) = left.next() else {
            return found;
        };
        found = min_by_text(found, undefined_parameter(attribute, parameters));
    }
}

/// Returns the name in an `arg` attribute, if it isn't the name of a parameter.
fn undefined_parameter<'run, 'src>(
    attribute: &'run Attribute<'src>,
    parameters: &ReadParameters<'src>,
) -> Option<&'run StringLiteral<'src>>
    ensures { option_map (λ l. quoted_leaf l.now) result
        ≡ undefined_in (map parameter_tree parameters.now.list.items)
        (leaf_attribute_of attribute.now) }
{
    match attribute {
        Attribute::Arg { name, .. } => {
            if parameters.is_named(name.cooked.as_str()) {
                None
            } else {
                Some(name)
            }
        }
        _ => None,
    }
}

/// Returns the literal with the lesser text, or the first if the texts are equal.
fn min_by_text<'run, 'src>(
    first: Option<&'run StringLiteral<'src>>,
    second: Option<&'run StringLiteral<'src>>,
) -> Option<&'run StringLiteral<'src>>
    ensures { option_map (λ l. quoted_leaf l.now) result
        ≡ lesser_of (option_map (λ l. quoted_leaf l.now) first.entry)
        (option_map (λ l. quoted_leaf l.now) second.entry) }
{
    let Some(literal) = first else {
        return second;
    };
    let Some(other) = second else {
        return first;
    };
    if literal.cooked.as_str() > other.cooked.as_str() {
        second
    } else {
        first
    }
}

/// Makes the fault for an `arg` attribute that names no parameter. It is `Memory` if there is no
/// memory for a copy that the error holds.
fn undefined_argument_fault<'src>(alloc: Global, argument: &StringLiteral<'src>) -> Fault<'src>
    ensures { IsFaultOfRule (UndefinedArgAttribute (string_bytes argument.now.cooked))
        argument.now.token result }
{
    match argument.cooked.as_str().to_string(alloc) {
        Ok(text) => Fault::Compile(CompileError {
            kind: CompileErrorKind::UndefinedArgAttribute { argument: text },
            token: argument.token,
        }),
        Err(_) => Fault::Memory,
    }
}
