//! The values of settings.
ghost use Rattle.std.specs.Prelude.{◌≡◌, IfOk, OnOk, Some};
ghost use Rattle.justfile_model.specs.Grammars.Settings as forms;
ghost use Rattle.justfile_model.specs.Trees.Tree as tree;
ghost use Rattle.justfile_parse_base.specs.ParseErrors.{ReadsRuled, ParsesRuled};
ghost use Rattle.justfile_parse_expression.specs.MethodResults.{UnlessMemory};
ghost use Rattle.justfile_parse_expression.specs.ParsedResults.{Parses};
ghost use Rattle.justfile_parse_expression.specs.TableReader.{State};
ghost use Rattle.justfile_parse_item_parts.specs.PartTable as reader;
ghost use Rattle.justfile_parse_item_parts.specs.Parts.{interpreter_tree};
ghost use Rattle.justfile_setting.specs.LeafSetting.{leaf_value_of};
ghost use Rattle.justfile_setting.specs.Setting.{HasDerivedSettingFields, keyword_of};
ghost use Rattle.justfile_expression.specs.LeafTree.{leaf_tree_of, trees_of};

use crate::errors::{expected_keyword_fault, unknown_setting_fault};
use crate::plain::make_plain;
use justfile_attribute::Interpreter;
use justfile_expression::Expression;
use justfile_expression_parser::parse_expression;
use justfile_parse_base::{ParseError, rule_error};
use justfile_parse_expression::significant::SignificantToken;
use justfile_parse_expression::{ExpressionError, ParserState, is_word};
use justfile_setting::{Setting, SettingForm, setting_form};
use justfile_token::Expander;
use justfile_vocabulary::{Keyword, TokenKind};
use std::alloc::Global;

/// Returns the keyword that the name of a setting spells.
///
/// # Errors
///
/// The name isn't a keyword, or memory runs out.
pub fn setting_keyword<'src>(
    alloc: Global,
    name: &SignificantToken<'src>,
) -> Result<Keyword, ParseError<'src>>
    ensures { (s : State)
        → ReadsRuled (λ keyword. keyword) result s (reader.setting_keyword name.now s) }
{
    let (token, _) = name;
    match Keyword::from_lexeme(token.lexeme()) {
        Some(keyword) => Ok(keyword),
        None => Err(rule_error(alloc, unknown_setting_fault(*token))),
    }
}

/// Parses the value of the setting with this name and keyword, after its name.
///
/// # Errors
///
/// The tokens are refused, a literal has no text, the keyword isn't the name of a setting, the
/// value breaks a rule, or memory runs out.
pub fn parse_setting_value<'src, X: Expander>(
    parser: &mut ParserState<'_, 'src, X>,
    name: &SignificantToken<'src>,
    keyword: Keyword,
) -> Result<Setting<'src>, ParseError<'src>>
    ensures reads { ParsesRuled X.answer leaf_value_of result parser.old parser.new
        (reader.setting_value name.now keyword (forms.setting_form keyword)) }
    ensures keyword { IfOk result (λ setting. keyword_of setting ≡ keyword) }
    ensures fields { IfOk result HasDerivedSettingFields }
{
    match setting_form(keyword) {
        Some(SettingForm::Truth) => parse_truth_setting(parser, keyword),
        Some(SettingForm::Expression) => parse_expression_setting(parser, keyword),
        Some(SettingForm::Interpreter) => parse_interpreter_setting(parser, keyword),
        Some(SettingForm::Plain) => parse_plain_setting(parser, name, keyword),
        None => refuse_setting(parser, name),
    }
}

/// Parses a setting that takes a boolean.
#[tactic(auto, using(justfile_parse_base::proofs::RuleSteps::broken_first))]
fn parse_truth_setting<'src, X: Expander>(
    parser: &mut ParserState<'_, 'src, X>,
    keyword: Keyword,
) -> Result<Setting<'src>, ParseError<'src>>
    requires { forms.setting_form keyword ≡ Some forms.TruthForm }
    ensures reads { ParsesRuled X.answer leaf_value_of result parser.old parser.new reader.truth }
    ensures keyword { IfOk result (λ setting. keyword_of setting ≡ keyword) }
    ensures fields { IfOk result HasDerivedSettingFields }
{
    let value = parse_truth(parser)?;
    Ok(Setting::from_truth(keyword, value))
}

/// Parses the value of a boolean setting: nothing, which means true, or `:=` and a boolean.
#[tactic(auto, unfolding(justfile_model::specs::Readers::PartReader::truth))]
fn parse_truth<'src, X: Expander>(
    parser: &mut ParserState<'_, 'src, X>,
) -> Result<bool, ParseError<'src>>
    ensures { ParsesRuled X.answer tree.Truth result parser.old parser.new reader.truth }
{
    let Some(_operator) = parser.accept(TokenKind::ColonEquals) else {
        return Ok(true);
    };
    let word = parser.expect(TokenKind::Identifier)?;
    find_truth(parser.alloc, word)
}

/// Returns the boolean that a word spells.
#[tactic(auto, using(justfile_parse_base::proofs::RuleSteps::fails_with), unfolding(justfile_model::specs::Readers::PartReader::truth_of, justfile_parse_expression::specs::TableReader::leaves))]
fn find_truth<'src>(alloc: Global, word: &SignificantToken<'src>) -> Result<bool, ParseError<'src>>
    ensures { (s : State) → ReadsRuled tree.Truth result s (reader.truth_of (word.now, s)) }
{
    if is_word(word, Keyword::True.lexeme()) {
        Ok(true)
    } else if is_word(word, Keyword::False.lexeme()) {
        Ok(false)
    } else {
        let (token, _) = word;
        Err(rule_error(
            alloc,
            expected_keyword_fault(alloc, &[Keyword::True, Keyword::False], *token),
        ))
    }
}

/// Parses a setting that takes an expression.
#[tactic(auto, unfolding(justfile_model::specs::Readers::PartReader::expression_value))]
fn parse_expression_setting<'src, X: Expander>(
    parser: &mut ParserState<'_, 'src, X>,
    keyword: Keyword,
) -> Result<Setting<'src>, ParseError<'src>>
    requires { forms.setting_form keyword ≡ Some forms.ExpressionForm }
    ensures reads { ParsesRuled X.answer leaf_value_of result parser.old parser.new
        (reader.after_operator reader.expression_value) }
    ensures keyword { IfOk result (λ setting. keyword_of setting ≡ keyword) }
    ensures fields { IfOk result HasDerivedSettingFields }
{
    parser.expect(TokenKind::ColonEquals)?;
    let value = parse_expression(parser)?;
    Ok(Setting::from_expression(keyword, Box::into_inner(value)))
}

/// Parses a setting that takes a command with its arguments.
fn parse_interpreter_setting<'src, X: Expander>(
    parser: &mut ParserState<'_, 'src, X>,
    keyword: Keyword,
) -> Result<Setting<'src>, ParseError<'src>>
    requires { forms.setting_form keyword ≡ Some forms.InterpreterForm }
    ensures reads { ParsesRuled X.answer leaf_value_of result parser.old parser.new
        (reader.after_operator reader.interpreter) }
    ensures keyword { IfOk result (λ setting. keyword_of setting ≡ keyword) }
    ensures fields { IfOk result HasDerivedSettingFields }
{
    parser.expect(TokenKind::ColonEquals)?;
    let interpreter = parse_interpreter(parser)?;
    Ok(Setting::from_interpreter(keyword, Box::into_inner(interpreter)))
}

/// Parses a command with its arguments, in brackets.
#[tactic(auto, using(crate::proofs::SettingSteps::interpreter_is))]
fn parse_interpreter<'src, X: Expander>(
    parser: &mut ParserState<'_, 'src, X>,
) -> Result<Box<Interpreter<Expression<'src>>>, ExpressionError<'src>>
    ensures { Parses X.answer interpreter_tree result parser.old parser.new
        reader.interpreter }
{
    parser.expect(TokenKind::BracketL)?;
    parse_command(parser)
}

/// Parses a command with its arguments, after the opening bracket.
#[tactic(auto, unfolding(crate::specs::PartTable::command_from))]
fn parse_command<'src, X: Expander>(
    parser: &mut ParserState<'_, 'src, X>,
) -> Result<Box<Interpreter<Expression<'src>>>, ExpressionError<'src>>
    ensures { Parses X.answer interpreter_tree result parser.old parser.new
        reader.command_from }
{
    let (command, is_last) = parser.parse_element(TokenKind::BracketR)?;
    if is_last {
        return make_interpreter(parser.alloc, command, Vec::new(parser.alloc));
    }
    let arguments = parser.parse_sequence(TokenKind::BracketR)?;
    make_interpreter(parser.alloc, command, arguments)
}

/// Moves a command with its arguments into a box.
fn make_interpreter<'src>(
    alloc: Global,
    command: Box<Expression<'src>>,
    arguments: Vec<Expression<'src>>,
) -> Result<Box<Interpreter<Expression<'src>>>, ExpressionError<'src>>
    ensures { UnlessMemory result (λ i. interpreter_tree i
        ≡ tree.Interpreter (leaf_tree_of command.entry.value) (trees_of arguments.entry.items)) }
{
    let command = Box::into_inner(command);
    match Box::new(alloc, Interpreter { command, arguments }) {
        Ok(interpreter) => Ok(interpreter),
        Err(_failed) => Err(ExpressionError::Memory),
    }
}

/// Parses a setting that takes a plain literal.
#[tactic(auto, using(crate::proofs::SettingSteps::plain_is))]
fn parse_plain_setting<'src, X: Expander>(
    parser: &mut ParserState<'_, 'src, X>,
    name: &SignificantToken<'src>,
    keyword: Keyword,
) -> Result<Setting<'src>, ParseError<'src>>
    requires { forms.setting_form keyword ≡ Some forms.PlainForm }
    ensures reads { ParsesRuled X.answer leaf_value_of result parser.old parser.new
        (reader.after_operator (reader.plain_value name.now keyword)) }
    ensures keyword { IfOk result (λ setting. keyword_of setting ≡ keyword) }
    ensures fields { IfOk result HasDerivedSettingFields }
{
    parser.expect(TokenKind::ColonEquals)?;
    let value = parse_expression(parser)?;
    let (token, _) = name;
    make_plain(parser.alloc, parser.current(), *token, keyword, value)
}

/// Refuses a keyword that isn't the name of a setting, once `:=` is taken.
fn refuse_setting<'src, X: Expander>(
    parser: &mut ParserState<'_, 'src, X>,
    name: &SignificantToken<'src>,
) -> Result<Setting<'src>, ParseError<'src>>
    ensures reads { ParsesRuled X.answer leaf_value_of result parser.old parser.new
        (reader.after_operator (reader.no_setting name.now)) }
    ensures fails { OnOk result ⊥ }
{
    parser.expect(TokenKind::ColonEquals)?;
    let (token, _) = name;
    Err(rule_error(parser.alloc, unknown_setting_fault(*token)))
}
