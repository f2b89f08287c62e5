//! How the lines of attributes before a construct are parsed.
ghost use Rattle.std.specs.Prelude.{◌≡◌, ◌<◌, ◌≤◌, [], false, IfOk, OnOk};
ghost use Rattle.std.specs.Option.{option_map};
ghost use Rattle.justfile_attribute_rules.specs.Made.{IsFaultOfRule};
ghost use Rattle.justfile_model.specs.Readers.NewAttribute as new;
ghost use Rattle.justfile_model.specs.Meanings.Rules.{AttributePositionalFollowsKeyword, DuplicateAttributeKey, UnknownAttribute};
ghost use Rattle.justfile_model.specs.Trees.Tree as tree;
ghost use Rattle.justfile_parse_attribute.specs.Attributes.{arguments_of, entries_of};
ghost use Rattle.justfile_parse_base.specs.ParseErrors.{ParsesRuled};
ghost use Rattle.justfile_parse_attribute.specs.DerivedAttributeFields.{HaveDerivedPairFields, KeepsDerivedPairFields};
ghost use Rattle.justfile_parse_expression.specs.ParsedResults.{Parses};
ghost use Rattle.justfile_parse_attribute.specs.AttributeTable as reader;
ghost use Rattle.justfile_expression.specs.LeafTree.{leaf_tree_of};
ghost use Rattle.justfile_parse_expression.specs.View.{tokens_left, state_of};

use crate::arguments::Arguments;
use crate::read_attributes::ReadAttributes;
use justfile_attribute::Attribute;
use justfile_expression::Expression;
use justfile_expression_parser::parse_expression;
use justfile_parse_base::{ParseError, comment_text, parse_separator, rule_error};
use justfile_parse_expression::significant::SignificantToken;
use justfile_parse_expression::{ExpressionError, ParserState, SyntaxError};
use justfile_token::{CompileError, CompileErrorKind, Expander, Fault, Name, Token};
use justfile_vocabulary::{AttributeKind, Keyword, TokenKind};
use justfile_written::Written;

/// Parses the lines of attributes before a construct. Returns each attribute with its name and its
/// comment.
///
/// # Errors
///
/// The tokens aren't lines of attributes, a literal has no text, an attribute breaks a rule, or
/// memory runs out.
#[tactic(auto, using(crate::proofs::AttributeLoops::lines_end, crate::proofs::AttributeLoops::lines_go_on, crate::proofs::DerivedFieldsKept::then_fields))]
pub fn parse_attributes<'src, X: Expander>(
    parser: &mut ParserState<'_, 'src, X>,
) -> Result<Vec<(Attribute<'src>, Written<'src>)>, ParseError<'src>>
    ensures reads { ParsesRuled X.answer (λ pairs. entries_of pairs.items) result
        parser.old parser.new reader.attribute_lines }
    ensures fields { IfOk result (λ pairs. HaveDerivedPairFields pairs.items) }
{
    let mut attributes = ReadAttributes::new(parser.alloc);
    'lines: loop {
        if parse_next_line(parser, &mut attributes)? {
            return Ok(attributes.into_pairs());
        }
    }
}

/// Parses a line of attributes if an opening bracket comes next, and appends them to `attributes`.
/// Returns whether there are no more lines.
#[tactic(auto, using(justfile_parse_base::proofs::RuleSteps::broken_first, crate::proofs::DerivedFieldsKept::same_fields), unfolding(crate::specs::AttributeTable::line_step))]
fn parse_next_line<'src, X: Expander>(
    parser: &mut ParserState<'_, 'src, X>,
    attributes: &mut ReadAttributes<'src>,
) -> Result<bool, ParseError<'src>>
    ensures reads { ParsesRuled X.answer
        (λ is_last. (entries_of attributes.new.pairs.items, is_last)) result
        parser.old parser.new (reader.line_step (entries_of attributes.old.pairs.items)) }
    ensures fields { OnOk result
        (KeepsDerivedPairFields attributes.old.pairs.items attributes.new.pairs.items) }
    ensures shrinks { IfOk result (λ is_last. is_last ≡ false
        → tokens_left parser.new < tokens_left parser.old) }
{
    let Some(_opener) = parser.accept(TokenKind::BracketL) else {
        return Ok(true);
    };
    parse_attribute_line(parser, attributes)?;
    Ok(false)
}

/// Parses a line of attributes after its opening bracket, and appends them to `attributes`.
#[tactic(auto, using(justfile_parse_base::proofs::RuleSteps::broken_first, crate::proofs::DerivedFieldsKept::both_fields), unfolding(crate::specs::AttributeTable::attribute_line))]
fn parse_attribute_line<'src, X: Expander>(
    parser: &mut ParserState<'_, 'src, X>,
    attributes: &mut ReadAttributes<'src>,
) -> Result<(), ParseError<'src>>
    ensures reads { ParsesRuled X.answer
        (λ _. entries_of attributes.new.pairs.items) result parser.old parser.new
        (reader.attribute_line (entries_of attributes.old.pairs.items)) }
    ensures fields { OnOk result
        (KeepsDerivedPairFields attributes.old.pairs.items attributes.new.pairs.items) }
    ensures progress { OnOk result (tokens_left parser.new < tokens_left parser.old) }
{
    parse_bracketed(parser, attributes)?;
    let comment = parse_attributes_end(parser)?;
    attach_comment(attributes, comment);
    Ok(())
}

/// Attaches the comment after a line of attributes, if there is one, to the last attribute of the
/// line.
fn attach_comment<'src>(
    attributes: &mut ReadAttributes<'src>,
    comment: Option<SignificantToken<'src>>,
)
    ensures entries { entries_of attributes.new.pairs.items
        ≡ reader.commented_by comment.entry (entries_of attributes.old.pairs.items) }
    ensures fields { KeepsDerivedPairFields attributes.old.pairs.items attributes.new.pairs.items }
{
    attributes.attach_comment(comment_text(comment));
}

/// Parses the attributes of a bracket and its closing delimiter, and appends them to `attributes`.
#[tactic(auto, using(crate::proofs::AttributeLoops::bracket_ends, crate::proofs::AttributeLoops::bracket_goes_on, crate::proofs::DerivedFieldsKept::same_fields, crate::proofs::DerivedFieldsKept::both_fields))]
fn parse_bracketed<'src, X: Expander>(
    parser: &mut ParserState<'_, 'src, X>,
    attributes: &mut ReadAttributes<'src>,
) -> Result<(), ParseError<'src>>
    ensures reads { ParsesRuled X.answer
        (λ _. entries_of attributes.new.pairs.items) result parser.old parser.new
        (λ s. reader.bracketed (entries_of attributes.old.pairs.items, s)) }
    ensures fields { OnOk result
        (KeepsDerivedPairFields attributes.old.pairs.items attributes.new.pairs.items) }
    ensures progress { OnOk result (tokens_left parser.new < tokens_left parser.old) }
{
    'bracket: loop {
        if parse_next_attribute(parser, attributes)? {
            return Ok(());
        }
    }
}

/// Parses an attribute and what follows it, and appends it to `attributes`. Returns whether the
/// bracket is closed.
#[tactic(auto, using(justfile_parse_base::proofs::RuleSteps::broken_first), unfolding(crate::specs::AttributeTable::bracket_step))]
fn parse_next_attribute<'src, X: Expander>(
    parser: &mut ParserState<'_, 'src, X>,
    attributes: &mut ReadAttributes<'src>,
) -> Result<bool, ParseError<'src>>
    ensures reads { ParsesRuled X.answer
        (λ is_last. (entries_of attributes.new.pairs.items, is_last)) result
        parser.old parser.new (reader.bracket_step (entries_of attributes.old.pairs.items)) }
    ensures fields { OnOk result
        (KeepsDerivedPairFields attributes.old.pairs.items attributes.new.pairs.items) }
    ensures progress { OnOk result (tokens_left parser.new < tokens_left parser.old) }
{
    parse_attribute(parser, attributes)?;
    Ok(parse_separator(parser, TokenKind::BracketR)?)
}

/// Parses the end of a line of attributes, and returns the comment before it, if there is one.
#[tactic(auto, unfolding(justfile_model::specs::Readers::AttributeReader::attributes_end))]
fn parse_attributes_end<'src, X: Expander>(
    parser: &mut ParserState<'_, 'src, X>,
) -> Result<Option<SignificantToken<'src>>, ExpressionError<'src>>
    ensures reads { Parses X.answer (λ comment. comment) result parser.old parser.new
        reader.attributes_end }
    ensures progress { OnOk result (tokens_left parser.new < tokens_left parser.old) }
{
    match parser.accept(TokenKind::Comment) {
        Some(comment) => parse_line_end_after(parser, Some(*comment)),
        None => parse_line_end_after(parser, None),
    }
}

/// Parses the end of a line of attributes after its comment, if it has one, and returns the
/// comment. The end of the file isn't allowed here.
#[tactic(auto, unfolding(justfile_model::specs::Readers::AttributeReader::line_end_after))]
fn parse_line_end_after<'src, X: Expander>(
    parser: &mut ParserState<'_, 'src, X>,
    comment: Option<SignificantToken<'src>>,
) -> Result<Option<SignificantToken<'src>>, ExpressionError<'src>>
    ensures reads { Parses X.answer (λ comment. comment) result parser.old parser.new
        (reader.line_end_after comment.entry) }
    ensures progress { OnOk result (tokens_left parser.new < tokens_left parser.old) }
{
    add_expected_end(parser);
    parser.expect(TokenKind::Eol)?;
    Ok(comment)
}

/// Adds the end of the file to the expected tokens, as after other lines. If the file ends here,
/// adds what a construct begins with, because one has to follow the attributes.
fn add_expected_end<X: Expander>(parser: &ParserState<'_, '_, X>) {
    parser.expected_tokens.add(TokenKind::Eof);
    if parser.probe_if(TokenKind::Eof).is_some() {
        parser.expected_tokens.add_all(&[
            TokenKind::At,
            TokenKind::BracketL,
            TokenKind::Comment,
            TokenKind::Identifier,
        ]);
    }
}

/// Parses an attribute, and appends it to `attributes`.
#[tactic(auto, using(justfile_parse_base::proofs::RuleSteps::broken_first, crate::proofs::AttributeSteps::one_attribute_is))]
fn parse_attribute<'src, X: Expander>(
    parser: &mut ParserState<'_, 'src, X>,
    attributes: &mut ReadAttributes<'src>,
) -> Result<(), ParseError<'src>>
    ensures reads { ParsesRuled X.answer
        (λ _. entries_of attributes.new.pairs.items) result parser.old parser.new
        (reader.one_attribute (entries_of attributes.old.pairs.items)) }
    ensures fields { OnOk result
        (KeepsDerivedPairFields attributes.old.pairs.items attributes.new.pairs.items) }
    ensures progress { OnOk result (tokens_left parser.new < tokens_left parser.old) }
{
    let name = parser.expect(TokenKind::Identifier)?;
    let kind = find_attribute_kind(parser, name)?;
    let arguments = parse_arguments(parser, name, kind.accepts_keyword_arguments())?;
    let (token, _) = name;
    push_attribute(
        parser,
        attributes,
        Name::from_identifier(*token),
        kind,
        arguments,
    )
}

/// Returns the kind of attribute with this name.
///
/// # Errors
///
/// No attribute has this name, or memory runs out.
#[tactic(auto, using(justfile_parse_base::proofs::RuleSteps::fails_for, crate::proofs::AttributeSteps::kind_at_is), unfolding(justfile_parse_expression::specs::TableReader::leaves))]
fn find_attribute_kind<'src, X: Expander>(
    parser: &ParserState<'_, 'src, X>,
    name: &SignificantToken<'src>,
) -> Result<AttributeKind, ParseError<'src>>
    ensures { ParsesRuled X.answer (λ kind. kind) result parser.now parser.now
        (reader.kind_at name.now) }
{
    let (token, _) = name;
    match AttributeKind::from_name(token.lexeme()) {
        Some(kind) => Ok(kind),
        None => Err(rule_error(parser.alloc, unknown_attribute_fault(*token))),
    }
}

/// Makes an attribute from its arguments, and appends it to `attributes`, unless it conflicts with
/// those before it.
#[tactic(auto, using(crate::proofs::AttributeSteps::entry_fails, crate::proofs::AttributeSteps::entry_last))]
fn push_attribute<'src, X: Expander>(
    parser: &ParserState<'_, 'src, X>,
    attributes: &mut ReadAttributes<'src>,
    name: Name<'src>,
    kind: AttributeKind,
    arguments: Arguments<'src>,
) -> Result<(), ParseError<'src>>
    ensures reads { ParsesRuled X.answer (λ _. entries_of attributes.new.pairs.items) result
        parser.now parser.now
        (reader.one_made (entries_of attributes.old.pairs.items) name.entry.token kind
        (arguments_of arguments.entry)) }
    ensures fields { OnOk result
        (KeepsDerivedPairFields attributes.old.pairs.items attributes.new.pairs.items) }
{
    match attributes.push(parser.alloc, name, kind, arguments) {
        Ok(()) => Ok(()),
        Err(fault) => Err(rule_error(parser.alloc, fault)),
    }
}

/// Parses the arguments of an attribute, after its name. `keys` tells whether keyword arguments are
/// allowed.
#[tactic(auto, using(crate::proofs::AttributeSteps::arguments_is))]
fn parse_arguments<'src, X: Expander>(
    parser: &mut ParserState<'_, 'src, X>,
    name: &SignificantToken<'src>,
    keys: bool,
) -> Result<Arguments<'src>, ParseError<'src>>
    ensures reads { ParsesRuled X.answer arguments_of result parser.old parser.new
        (reader.arguments name.now keys) }
    ensures progress { OnOk result (tokens_left parser.new ≤ tokens_left parser.old) }
{
    if let Some(_colon) = parser.accept(TokenKind::Colon) {
        return Ok(parse_one_argument(parser)?);
    }
    if let Some(_opener) = parser.accept(TokenKind::ParenL) {
        return parse_argument_list(parser, name, keys);
    }
    Ok(Arguments::new(parser.alloc))
}

/// Parses the argument after a colon.
#[tactic(auto, unfolding(crate::specs::AttributeTable::single_argument))]
fn parse_one_argument<'src, X: Expander>(
    parser: &mut ParserState<'_, 'src, X>,
) -> Result<Arguments<'src>, ExpressionError<'src>>
    ensures reads { Parses X.answer arguments_of result parser.old parser.new
        reader.single_argument }
    ensures progress { OnOk result (tokens_left parser.new < tokens_left parser.old) }
{
    let (first, value) = parse_placed(parser)?;
    let mut arguments = Arguments::new(parser.alloc);
    arguments.push_positional(first, value)?;
    Ok(arguments)
}

/// Parses arguments separated by commas, and the closing parenthesis.
#[tactic(auto, using(crate::proofs::AttributeLoops::list_ends, crate::proofs::AttributeLoops::list_goes_on))]
fn parse_argument_list<'src, X: Expander>(
    parser: &mut ParserState<'_, 'src, X>,
    name: &SignificantToken<'src>,
    keys: bool,
) -> Result<Arguments<'src>, ParseError<'src>>
    ensures reads { ParsesRuled X.answer arguments_of result parser.old parser.new
        (λ s. reader.arguments_from name.now keys ([], s)) }
    ensures progress { OnOk result (tokens_left parser.new < tokens_left parser.old) }
{
    let mut arguments = Arguments::new(parser.alloc);
    'list: loop {
        if parse_next_argument(parser, name, keys, &mut arguments)? {
            return Ok(arguments);
        }
    }
}

/// Parses the closing parenthesis, or an argument and what follows it. Returns whether the
/// arguments are at their end.
#[tactic(auto, using(justfile_parse_base::proofs::RuleSteps::broken_first), unfolding(crate::specs::AttributeTable::list_step))]
fn parse_next_argument<'src, X: Expander>(
    parser: &mut ParserState<'_, 'src, X>,
    name: &SignificantToken<'src>,
    keys: bool,
    arguments: &mut Arguments<'src>,
) -> Result<bool, ParseError<'src>>
    ensures reads { ParsesRuled X.answer (λ is_last. (arguments_of arguments.new, is_last)) result
        parser.old parser.new (reader.list_step name.now keys (arguments_of arguments.old)) }
    ensures progress { OnOk result (tokens_left parser.new < tokens_left parser.old) }
{
    if let Some(_closer) = parser.accept(TokenKind::ParenR) {
        return Ok(true);
    }
    parse_argument(parser, name, keys, arguments)?;
    Ok(parse_separator(parser, TokenKind::ParenR)?)
}

/// Parses an argument of the attribute with this name, and appends it to `arguments`.
#[tactic(auto, using(crate::proofs::AttributeSteps::one_argument_is))]
fn parse_argument<'src, X: Expander>(
    parser: &mut ParserState<'_, 'src, X>,
    name: &SignificantToken<'src>,
    keys: bool,
    arguments: &mut Arguments<'src>,
) -> Result<(), ParseError<'src>>
    ensures reads { ParsesRuled X.answer (λ _. arguments_of arguments.new) result
        parser.old parser.new (reader.one_argument name.now keys (arguments_of arguments.old)) }
    ensures progress { OnOk result (tokens_left parser.new < tokens_left parser.old) }
{
    if keys && peek_key(parser) {
        return parse_keyed(parser, name, arguments);
    }
    parse_positional(parser, arguments)
}

/// Parses a keyword argument, and appends it to `arguments`.
#[tactic(auto, using(justfile_parse_base::proofs::RuleSteps::fails_for), unfolding(justfile_parse_expression::specs::TableReader::leaves, crate::specs::AttributeTable::one_keyed, justfile_model::specs::Readers::AttributeReader::keyed))]
fn parse_keyed<'src, X: Expander>(
    parser: &mut ParserState<'_, 'src, X>,
    name: &SignificantToken<'src>,
    arguments: &mut Arguments<'src>,
) -> Result<(), ParseError<'src>>
    ensures reads { ParsesRuled X.answer (λ _. arguments_of arguments.new) result
        parser.old parser.new (reader.one_keyed name.now (arguments_of arguments.old)) }
    ensures progress { OnOk result (tokens_left parser.new < tokens_left parser.old) }
{
    let (key, _) = parser.expect(TokenKind::Identifier)?;
    let value = parse_key_value(parser)?;
    if arguments.has_text(key.lexeme()) {
        let (token, _) = name;
        return Err(rule_error(parser.alloc, repeated_key_fault(*token, *key)));
    }
    arguments.push_keyed(Name::from_identifier(*key), value)?;
    Ok(())
}

/// Parses what follows a key: `=` and its value, or nothing.
#[tactic(auto, unfolding(justfile_model::specs::Readers::AttributeReader::key_value))]
fn parse_key_value<'src, X: Expander>(
    parser: &mut ParserState<'_, 'src, X>,
) -> Result<Option<Box<Expression<'src>>>, ExpressionError<'src>>
    ensures reads { Parses X.answer (option_map (λ e. leaf_tree_of e.value)) result
        parser.old parser.new reader.key_value }
    ensures progress { OnOk result (tokens_left parser.new ≤ tokens_left parser.old) }
{
    let Some(_equals) = parser.accept(TokenKind::Equals) else {
        return Ok(None);
    };
    Ok(Some(parse_expression(parser)?))
}

/// Parses a positional argument, and appends it to `arguments`. It can't follow a keyword argument.
#[tactic(auto, using(justfile_parse_base::proofs::RuleSteps::fails_for), unfolding(crate::specs::AttributeTable::one_positional, justfile_model::specs::Readers::AttributeReader::positional))]
fn parse_positional<'src, X: Expander>(
    parser: &mut ParserState<'_, 'src, X>,
    arguments: &mut Arguments<'src>,
) -> Result<(), ParseError<'src>>
    ensures reads { ParsesRuled X.answer (λ _. arguments_of arguments.new) result
        parser.old parser.new (reader.one_positional (arguments_of arguments.old)) }
    ensures progress { OnOk result (tokens_left parser.new < tokens_left parser.old) }
{
    let (first, value) = parse_placed(parser)?;
    if arguments.has_key() {
        return Err(rule_error(parser.alloc, after_key_fault(first)));
    }
    arguments.push_positional(first, value)?;
    Ok(())
}

/// Parses an expression, and returns it with its first token.
#[inline(always)]
#[tactic(auto, using(crate::proofs::AttributeSteps::none_before), unfolding(justfile_model::specs::Readers::AttributeReader::placed, justfile_parse_expression::specs::TableReader::leaves))]
fn parse_placed<'src, X: Expander>(
    parser: &mut ParserState<'_, 'src, X>,
) -> Result<(Token<'src>, Box<Expression<'src>>), ExpressionError<'src>>
    ensures reads { Parses X.answer (λ x. tree.Positional x.0 (leaf_tree_of x.1.value)) result
        parser.old parser.new reader.placed }
    ensures progress { OnOk result (tokens_left parser.new < tokens_left parser.old) }
{
    let first = parser.peek_front();
    let value = parse_expression(parser)?;
    match first {
        Some((token, _)) => Ok((token, value)),
        None => Err(ExpressionError::Refused(SyntaxError::Unexpected)),
    }
}

/// Whether a name comes next that isn't the mark of a string.
fn peek_key<X: Expander>(parser: &ParserState<'_, '_, X>) -> bool
    ensures { result ≡ reader.begins_key (state_of X.answer parser.now) }
{
    parser.peek_kinds(&[TokenKind::Identifier])
        && !parser.peek_marked(Keyword::X, TokenKind::StringToken)
}

/// Makes the fault for a positional argument after a keyword argument.
fn after_key_fault<'src>(first: Token<'src>) -> Fault<'src>
    ensures { IsFaultOfRule AttributePositionalFollowsKeyword first.entry result }
{
    Fault::Compile(CompileError {
        kind: CompileErrorKind::AttributePositionalFollowsKeyword,
        token: first,
    })
}

/// Makes the fault for a key that is repeated.
fn repeated_key_fault<'src>(name: Token<'src>, key: Token<'src>) -> Fault<'src>
    ensures { IsFaultOfRule (DuplicateAttributeKey name.entry key.entry) key.entry result }
{
    Fault::Compile(CompileError {
        kind: CompileErrorKind::DuplicateAttributeKey {
            attribute: name.lexeme(),
            key: key.lexeme(),
        },
        token: key,
    })
}

/// Makes the fault for a name that isn't that of an attribute.
fn unknown_attribute_fault<'src>(name: Token<'src>) -> Fault<'src>
    ensures { IsFaultOfRule (UnknownAttribute name.entry) name.entry result }
{
    Fault::Compile(CompileError {
        kind: CompileErrorKind::UnknownAttribute {
            attribute: name.lexeme(),
        },
        token: name,
    })
}
