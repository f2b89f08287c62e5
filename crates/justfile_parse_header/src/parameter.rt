//! The parameters of a recipe.
ghost use Rattle.std.specs.Prelude.{◌≡◌, [], Option, Some};
ghost use Rattle.justfile_expression.specs.LeafTree.{Named};
ghost use Rattle.justfile_attribute_rules.specs.Made.{IsFaultOfRule};
ghost use Rattle.justfile_attribute_set.specs.AttributeSet.{attributes_of};
ghost use Rattle.justfile_model.specs.Readers.NewAttribute as new;
ghost use Rattle.justfile_model.specs.Meanings.Rules.{ArgAttributeRequiresMultipleOrVariadic, FlagWithDefault};
ghost use Rattle.justfile_parse_base.specs.ParseErrors.{IsAfterVariadicFault, ParsesRuled, ChecksRules};
ghost use Rattle.justfile_parse_expression.specs.ParsedResults.{Parses};
ghost use Rattle.justfile_parse_expression.specs.View.{state_of};
ghost use Rattle.justfile_parse_header.specs.Arguments.{HaveBoundKeys, rules_by, OptionHasBoundKeys};
ghost use Rattle.justfile_parse_header.specs.HeaderTable as reader;
ghost use Rattle.justfile_parse_header.specs.HeaderTable.{Rules};
ghost use Rattle.justfile_parse_header.specs.ArgAttribute.{HasArgAttribute, IsArgAttribute, arg_attribute_broken};
ghost use Rattle.justfile_parse_header.specs.ArgNames.{AreFirsts};
ghost use Rattle.justfile_parse_header.specs.ParameterResults.{ParsesParameters};
ghost use Rattle.justfile_parse_header.specs.Tree.{parameter_tree, rules_of, value_tree};

use crate::arg_attribute::{
    ArgAttribute, copy_arg_attribute, find_bound_key, is_flag, is_multiple,
};
use crate::arg_names::{ArgAttributes, find_firsts};
use crate::arguments::find_arg;
use crate::read_parameters::ReadParameters;
use justfile_attribute::Attribute;
use justfile_attribute_set::AttributeSet;
use justfile_expression::Expression;
use justfile_numbers::{Number, Numerator};
use justfile_parse_base::{ParseError, next_binding_number, rule_error};
use justfile_parse_expression::{ExpressionError, ParserState};
use justfile_recipe_header::{Parameter, ParameterKind, unboxed};
use justfile_token::{CompileError, CompileErrorKind, Expander, Fault, Name, Token};
use justfile_vocabulary::TokenKind;
use std::alloc::Global;

/// How many names of parameters are looked up faster in their list than in a set of all names.
const FEW_NAMES: usize = 4;

/// Parses the parameters of a recipe, and the colon after them.
#[tactic(auto, unfolding(justfile_model::specs::Readers::HeaderReader::parameters))]
pub(crate) fn parse_parameters<'src, X: Expander>(
    attributes: &AttributeSet<'src>,
    parser: &mut ParserState<'_, 'src, X>,
    numerator: &mut Numerator,
) -> Result<ReadParameters<'src>, ParseError<'src>>
    requires { HaveBoundKeys (attributes_of attributes.now) }
    ensures { ParsesParameters X.answer (rules_of attributes.now) (λ read. read.list.items)
        result [] numerator.old numerator.new parser.old parser.new
        (λ rules x. reader.parameters rules x.0.1 x.1) }
{
    let firsts = find_firsts(attributes, parser.alloc)?;
    let mut parameters = ReadParameters::new(parser.alloc, firsts.len() > FEW_NAMES);
    let arg_attributes = ArgAttributes { attributes, firsts };
    parse_singulars(&arg_attributes, parser, numerator, &mut parameters)?;
    parse_last(&arg_attributes, parser, numerator, &mut parameters)?;
    parser.expect(TokenKind::Colon)?;
    Ok(parameters)
}

/// Parses parameters that take one argument, and appends them to `parameters`.
fn parse_singulars<'src, X: Expander>(
    arg_attributes: &ArgAttributes<'_, 'src>,
    parser: &mut ParserState<'_, 'src, X>,
    numerator: &mut Numerator,
    parameters: &mut ReadParameters<'src>,
) -> Result<(), ParseError<'src>>
    requires { AreFirsts arg_attributes.now.firsts (rules_of arg_attributes.now.attributes.now) }
    ensures { ParsesParameters X.answer (rules_of arg_attributes.now.attributes.now)
        (λ _. parameters.new.list.items) result parameters.old.list.items numerator.old
        numerator.new parser.old parser.new reader.singulars }
{
    'parameters: loop {
        if !begins_parameter(parser) {
            return Ok(());
        }
        parse_parameter(
            arg_attributes,
            parser,
            numerator,
            parameters,
            ParameterKind::Singular,
        )?;
    }
}

/// Whether the next token begins a parameter that takes one argument.
fn begins_parameter<X: Expander>(parser: &ParserState<'_, '_, X>) -> bool
    ensures { result ≡ reader.begins_parameter (state_of X.answer parser.now) }
{
    parser.peek_kinds(&[TokenKind::Identifier]) || parser.peek_kinds(&[TokenKind::Dollar])
}

/// Parses the last parameter, if it is variadic (takes several arguments), and appends it to
/// `parameters`.
#[tactic(auto, unfolding(justfile_model::specs::Readers::HeaderReader::last_parameter))]
fn parse_last<'src, X: Expander>(
    arg_attributes: &ArgAttributes<'_, 'src>,
    parser: &mut ParserState<'_, 'src, X>,
    numerator: &mut Numerator,
    parameters: &mut ReadParameters<'src>,
) -> Result<(), ParseError<'src>>
    requires { AreFirsts arg_attributes.now.firsts (rules_of arg_attributes.now.attributes.now) }
    ensures { ParsesParameters X.answer (rules_of arg_attributes.now.attributes.now)
        (λ _. parameters.new.list.items) result parameters.old.list.items numerator.old
        numerator.new parser.old parser.new reader.last_parameter }
{
    if let Some(_plus) = parser.accept(TokenKind::Plus) {
        return parse_variadic(
            arg_attributes,
            parser,
            numerator,
            parameters,
            ParameterKind::Plus,
        );
    }
    if let Some(_star) = parser.accept(TokenKind::Asterisk) {
        return parse_variadic(
            arg_attributes,
            parser,
            numerator,
            parameters,
            ParameterKind::Star,
        );
    }
    Ok(())
}

/// Parses a variadic parameter, and appends it to `parameters`. No name may follow it.
#[tactic(auto, unfolding(justfile_model::specs::Readers::HeaderReader::variadic))]
fn parse_variadic<'src, X: Expander>(
    arg_attributes: &ArgAttributes<'_, 'src>,
    parser: &mut ParserState<'_, 'src, X>,
    numerator: &mut Numerator,
    parameters: &mut ReadParameters<'src>,
    kind: ParameterKind,
) -> Result<(), ParseError<'src>>
    requires { AreFirsts arg_attributes.now.firsts (rules_of arg_attributes.now.attributes.now) }
    ensures { ParsesParameters X.answer (rules_of arg_attributes.now.attributes.now)
        (λ _. parameters.new.list.items) result parameters.old.list.items numerator.old
        numerator.new parser.old parser.new (λ rules. reader.variadic rules kind) }
{
    parse_parameter(arg_attributes, parser, numerator, parameters, kind)?;
    expect_no_name(parser)
}

/// Refuses a name after a variadic parameter.
#[tactic(auto, unfolding(justfile_model::specs::Readers::HeaderReader::expect_no_name, justfile_parse_expression::specs::TableReader::leaves))]
fn expect_no_name<'src, X: Expander>(
    parser: &ParserState<'_, 'src, X>,
) -> Result<(), ParseError<'src>>
    ensures { ParsesRuled X.answer (λ _. tt) result parser.now parser.now reader.expect_no_name }
{
    match parser.probe_if(TokenKind::Identifier) {
        None => Ok(()),
        Some((name, _)) => Err(rule_error(parser.alloc, after_variadic_fault(*name))),
    }
}

/// Makes the fault for a name after a variadic parameter.
fn after_variadic_fault<'src>(name: Token<'src>) -> Fault<'src>
    ensures { IsAfterVariadicFault name.entry result }
{
    Fault::Compile(CompileError {
        kind: CompileErrorKind::ParameterFollowsVariadicParameter {
            parameter: name.lexeme(),
        },
        token: name,
    })
}

/// Parses a parameter with or without `$` before it, and appends it to `parameters`.
fn parse_parameter<'src, X: Expander>(
    arg_attributes: &ArgAttributes<'_, 'src>,
    parser: &mut ParserState<'_, 'src, X>,
    numerator: &mut Numerator,
    parameters: &mut ReadParameters<'src>,
    kind: ParameterKind,
) -> Result<(), ParseError<'src>>
    requires { AreFirsts arg_attributes.now.firsts (rules_of arg_attributes.now.attributes.now) }
    ensures { ParsesParameters X.answer (rules_of arg_attributes.now.attributes.now)
        (λ _. parameters.new.list.items) result parameters.old.list.items numerator.old
        numerator.new parser.old parser.new (λ rules. reader.parameter rules kind) }
{
    match parser.accept(TokenKind::Dollar) {
        Some(_dollar) => parse_named(arg_attributes, parser, numerator, parameters, kind, true),
        None => parse_named(arg_attributes, parser, numerator, parameters, kind, false),
    }
}

/// Parses a parameter from its name on, and appends it to `parameters`.
fn parse_named<'src, X: Expander>(
    arg_attributes: &ArgAttributes<'_, 'src>,
    parser: &mut ParserState<'_, 'src, X>,
    numerator: &mut Numerator,
    parameters: &mut ReadParameters<'src>,
    kind: ParameterKind,
    export: bool,
) -> Result<(), ParseError<'src>>
    requires { AreFirsts arg_attributes.now.firsts (rules_of arg_attributes.now.attributes.now) }
    ensures { ParsesParameters X.answer (rules_of arg_attributes.now.attributes.now)
        (λ _. parameters.new.list.items) result parameters.old.list.items numerator.old
        numerator.new parser.old parser.new
        (λ rules x. reader.named_parameter rules kind export x.0 x.1) }
{
    let (name, _) = parser.expect(TokenKind::Identifier)?;
    let default = parse_default(parser)?;
    let arg = find_arg(arg_attributes, parameters, *name);
    check_arg_attribute(arg, parser.alloc, *name, default.is_some(), kind)?;
    let arg_attribute = copy_arg_attribute(parser.alloc, arg)?;
    let number = next_binding_number(numerator)?;
    let is_option = arg.is_some();
    parameters.push(
        make_parameter(
            Name::from_identifier(*name),
            number,
            kind,
            export,
            default,
            arg_attribute,
        ),
        is_option,
    )?;
    Ok(())
}

/// Makes a parameter of its parts and of what its `arg` attribute sets for it. It is inlined, as
/// what appends it is, so that the parameter is copied less often on its way into the list.
#[inline(always)]
#[tactic(auto, using(crate::proofs::Unboxed::unboxed_tree))]
fn make_parameter<'src>(
    name: Name<'src>,
    number: Number,
    kind: ParameterKind,
    export: bool,
    default: Option<Box<Expression<'src>>>,
    arg_attribute: ArgAttribute<'src>,
) -> Parameter<'src>
    ensures name { result.name ≡ name.entry }
    ensures tree { parameter_tree result ≡ record {
      kind = kind;
      export = export;
      name = Named result.name.token (Some number);
      default = value_tree default.entry;
    } }
    ensures fields { (rules : Option Rules) → IsArgAttribute rules arg_attribute.entry
        → HasArgAttribute rules result }
{
    let ArgAttribute {
        flag,
        long,
        max,
        min,
        multiple,
        short,
        value,
    } = arg_attribute;
    Parameter {
        default: unboxed(default),
        export,
        flag,
        help: None,
        kind,
        long,
        max,
        min,
        multiple,
        name,
        number,
        short,
        value: unboxed(value),
    }
}

/// Parses the default value of a parameter, if `=` comes next.
#[tactic(auto, unfolding(justfile_model::specs::Readers::HeaderReader::default_value))]
fn parse_default<'src, X: Expander>(
    parser: &mut ParserState<'_, 'src, X>,
) -> Result<Option<Box<Expression<'src>>>, ExpressionError<'src>>
    ensures { Parses X.answer value_tree result parser.old parser.new reader.default_value }
{
    let Some(_equals) = parser.accept(TokenKind::Equals) else {
        return Ok(None);
    };
    Ok(Some(parser.parse_value()?))
}

/// Refuses an `arg` that conflicts with the parameter's default or kind.
fn check_arg_attribute<'src>(
    rules: Option<&Attribute<'src>>,
    alloc: Global,
    name: Token<'src>,
    has_default: bool,
    kind: ParameterKind,
) -> Result<(), ParseError<'src>>
    requires { OptionHasBoundKeys rules }
    ensures { ChecksRules (arg_attribute_broken name.entry has_default kind (rules_by rules.entry))
        result }
{
    let Some(attribute) = rules else {
        return Ok(());
    };
    if is_flag(attribute) && has_default {
        return Err(rule_error(alloc, flag_with_default_fault(alloc, name)));
    }
    if is_multiple(attribute) || kind.is_variadic() {
        return Ok(());
    }
    match find_bound_key(attribute) {
        Some(key) => Err(rule_error(alloc, bound_alone_fault(key))),
        None => Ok(()),
    }
}

/// Makes the fault for a flag with a default value. It is `Memory` if there is no memory for a copy
/// that the error holds.
fn flag_with_default_fault<'src>(alloc: Global, name: Token<'src>) -> Fault<'src>
    ensures { IsFaultOfRule (FlagWithDefault name.entry) name.entry result }
{
    match name.lexeme().to_string(alloc) {
        Ok(parameter) => Fault::Compile(CompileError {
            kind: CompileErrorKind::FlagWithDefault { parameter },
            token: name,
        }),
        Err(_) => Fault::Memory,
    }
}

/// Makes the fault for `max` or `min`, whichever is the key, on a parameter that takes one
/// argument.
fn bound_alone_fault<'src>(key: Name<'src>) -> Fault<'src>
    ensures { IsFaultOfRule (ArgAttributeRequiresMultipleOrVariadic key.entry.token)
        key.entry.token result }
{
    Fault::Compile(CompileError {
        kind: CompileErrorKind::ArgAttributeRequiresMultipleOrVariadic { key },
        token: key.token,
    })
}
