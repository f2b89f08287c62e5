//! Settings that take a plain literal: one that is neither expanded nor in triple quotes.
ghost use Rattle.std.specs.Prelude.{◌≡◌, ◌&&◌, not, IfNone, IfOk, IfSome, None, Some, codes, string_bytes};
ghost use Rattle.justfile_token.specs.Token.{lexeme_of};
ghost use Rattle.justfile_token.specs.StringKind.{kind_of};
ghost use Rattle.justfile_vocabulary.specs.declared.keyword.Keyword.TheVariants as words;
ghost use Rattle.justfile_model.specs.Grammars.Conditions.{VersionNumbers};
ghost use Rattle.justfile_model.specs.Meanings.Meaning.{quoted};
ghost use Rattle.justfile_model.specs.Readers.ReaderState.{BreaksRule};
ghost use Rattle.justfile_model.specs.Meanings.Rules as rules;
ghost use Rattle.justfile_model.specs.Grammars.Settings as forms;
ghost use Rattle.justfile_model.specs.Trees.Tree as tree;
ghost use Rattle.justfile_model.specs.Meanings.Versions.{version_numbers};
ghost use Rattle.justfile_parse_base.specs.ParseErrors.{IsFaultOfRead, ReadsRuled};
ghost use Rattle.justfile_parse_expression.specs.TableReader.{State};
ghost use Rattle.justfile_parse_item_parts.specs.PartTable as reader;
ghost use Rattle.justfile_setting.specs.LeafSetting.{leaf_value_of};
ghost use Rattle.justfile_setting.specs.Setting.{HasDerivedSettingFields, keyword_of};
ghost use Rattle.justfile_expression.specs.LeafTree.{Literal, leaf_tree_of, literal_of};

use justfile_expression::Expression;
use justfile_numbers::Version;
use justfile_parse_base::{ParseError, rule_error};
use justfile_setting::Setting;
use justfile_token::{CompileError, CompileErrorKind, Fault, StringKind, StringLiteral, Token};
use justfile_vocabulary::{Indentation, Keyword};
use std::alloc::Global;

/// Makes the setting with this keyword from its value, which has to be a plain literal. `name` is
/// where an error is reported.
#[tactic(auto, using(justfile_parse_base::proofs::RuleSteps::fails_with, crate::proofs::PlainValues::no_literal, crate::proofs::PlainValues::not_plain, crate::proofs::PlainValues::plain))]
pub(crate) fn make_plain<'src>(
    alloc: Global,
    current: Version,
    name: Token<'src>,
    keyword: Keyword,
    value: Box<Expression<'src>>,
) -> Result<Setting<'src>, ParseError<'src>>
    requires { forms.setting_form keyword ≡ Some forms.PlainForm }
    ensures reads { (s : State) → ReadsRuled leaf_value_of result s (reader.plain_made
        (version_numbers current) name.entry keyword (leaf_tree_of value.entry.value) s) }
    ensures keyword { IfOk result (λ setting. keyword_of setting ≡ keyword) }
    ensures fields { IfOk result HasDerivedSettingFields }
{
    let Some(literal) = into_literal(value) else {
        return Err(rule_error(alloc, setting_expression_fault(name, keyword)));
    };
    if !is_plain_literal(&literal) {
        return Err(rule_error(alloc, setting_expression_fault(name, keyword)));
    }
    make_literal(alloc, current, keyword, literal)
}

/// Returns the literal that an expression is, or `None` if it isn't one.
#[tactic(auto, using(justfile_attribute_rules::proofs::Quoted::not_quoted))]
fn into_literal(value: Box<Expression<'_>>) -> Option<StringLiteral<'_>>
    ensures literal { IfSome result (λ literal. leaf_tree_of value.entry.value
        ≡ tree.StringLiteral literal.expand (Literal (literal_of literal))) }
    ensures none { IfNone result (quoted (leaf_tree_of value.entry.value) ≡ None) }
{
    Box::into_inner(value).into_string_literal()
}

/// Makes the setting with this keyword from a plain literal: `indentation`, or `minimum-version`,
/// the only other setting that takes one.
#[tactic(auto, using(crate::proofs::PlainValues::other_plain))]
fn make_literal<'src>(
    alloc: Global,
    current: Version,
    keyword: Keyword,
    literal: StringLiteral<'src>,
) -> Result<Setting<'src>, ParseError<'src>>
    requires { forms.setting_form keyword ≡ Some forms.PlainForm }
    ensures reads { (s : State) → ReadsRuled leaf_value_of result s
        (reader.literal_made (version_numbers current) keyword literal.entry s) }
    ensures keyword { IfOk result (λ setting. keyword_of setting ≡ keyword) }
    ensures fields { IfOk result HasDerivedSettingFields }
{
    match keyword {
        Keyword::Indentation => make_indentation(alloc, literal),
        _ => make_minimum_version(alloc, current, literal),
    }
}

/// Whether a literal is neither expanded nor in triple quotes.
fn is_plain_literal(literal: &StringLiteral<'_>) -> bool
    ensures { result
        ≡ (not literal.now.expand && not (kind_of (lexeme_of literal.now.token)).indented) }
{
    !literal.expand && !StringKind::of_opening(literal.token.lexeme().as_bytes()).indented
}

/// Makes the setting `indentation` from its literal.
#[tactic(auto, using(justfile_parse_base::proofs::RuleSteps::fails_with, crate::proofs::PlainValues::is_indentation, crate::proofs::PlainValues::no_indentation))]
fn make_indentation<'src>(
    alloc: Global,
    literal: StringLiteral<'src>,
) -> Result<Setting<'src>, ParseError<'src>>
    ensures reads { (current : VersionNumbers) (s : State) → ReadsRuled leaf_value_of result s
        (reader.literal_made current words.Indentation literal.entry s) }
    ensures keyword { IfOk result (λ setting. keyword_of setting ≡ words.Indentation) }
    ensures fields { IfOk result HasDerivedSettingFields }
{
    match literal.cooked.as_str().parse::<Indentation>() {
        Ok(indentation) => Ok(Setting::Indentation(literal, indentation)),
        Err(message) => Err(rule_error(alloc, invalid_indentation_fault(literal.token, message))),
    }
}

/// Makes the setting `minimum-version` from its literal.
fn make_minimum_version<'src>(
    alloc: Global,
    current: Version,
    literal: StringLiteral<'src>,
) -> Result<Setting<'src>, ParseError<'src>>
    ensures reads { (s : State) → ReadsRuled leaf_value_of result s
        (reader.literal_made (version_numbers current) words.MinimumVersion literal.entry s) }
    ensures keyword { IfOk result (λ setting. keyword_of setting ≡ words.MinimumVersion) }
    ensures fields { IfOk result HasDerivedSettingFields }
{
    match literal.cooked.as_str().parse::<Version>() {
        Ok(minimum) if current < minimum => Err(rule_error(
            alloc,
            minimum_version_fault(literal.token, current, minimum),
        )),
        Ok(_minimum) => Ok(Setting::MinimumVersion(literal)),
        Err(source) => Err(rule_error(
            alloc,
            invalid_minimum_version_fault(literal.token, source, literal.cooked),
        )),
    }
}

/// Makes the fault for an expression that isn't a plain literal.
fn setting_expression_fault<'src>(name: Token<'src>, setting: Keyword) -> Fault<'src>
    ensures { IsFaultOfRead (BreaksRule
        (record { rule = rules.SettingExpression setting; token = name.entry })) result }
{
    Fault::Compile(CompileError {
        kind: CompileErrorKind::SettingExpression { setting },
        token: name,
    })
}

/// Makes the fault for a text that isn't an indentation, with the reason as `message`.
fn invalid_indentation_fault<'src>(token: Token<'src>, message: &'static str) -> Fault<'src>
    ensures { IsFaultOfRead (BreaksRule
        (record { rule = rules.InvalidIndentation message.now; token = token.entry })) result }
{
    Fault::Compile(CompileError {
        kind: CompileErrorKind::InvalidIndentation { message },
        token,
    })
}

/// Makes the fault for a text that isn't a version.
fn invalid_minimum_version_fault<'src>(
    token: Token<'src>,
    source: &'static str,
    version: String,
) -> Fault<'src>
    requires { source.now ≡ codes "invalid version" }
    ensures { IsFaultOfRead (BreaksRule
        (record { rule = rules.InvalidMinimumVersion (string_bytes version); token = token.entry }))
        result }
{
    Fault::Compile(CompileError {
        kind: CompileErrorKind::InvalidMinimumVersion { source, version },
        token,
    })
}

/// Makes the fault for a version that is later than the running one.
fn minimum_version_fault<'src>(
    token: Token<'src>,
    current: Version,
    minimum: Version,
) -> Fault<'src>
    ensures { IsFaultOfRead (BreaksRule (record {
      rule = rules.MinimumVersion (version_numbers minimum) (version_numbers current);
      token = token.entry;
    })) result }
{
    Fault::Compile(CompileError {
        kind: CompileErrorKind::MinimumVersion { current, minimum },
        token,
    })
}
