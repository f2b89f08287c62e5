//! The messages of errors.
ghost use Rattle.std.specs.Prelude.{Some};
ghost use Rattle.std.specs.Fmt.{DisplaysOnOk};
ghost use Rattle.justfile_token.specs.Messages.{kind_message};

mod tokens;

use crate::compile_error::CompileError;
use crate::compile_error_kind::CompileErrorKind;
use crate::messages::tokens::{write_expected_keyword, write_mismatched};
use justfile_message::counts::{write_count_mismatch, write_extraneous, write_function_mismatch};
use justfile_message::cycles::{write_recipe_circle, write_variable_circle};
use justfile_message::parts::{
    write_around, write_both, write_duplicate, write_duplicate_set, write_expected_character,
    write_expected_end, write_incompatible, write_inconsistent, write_invalid_attribute,
    write_invalid_count, write_invalid_version, write_minimum_version, write_mixed,
    write_redefinition, write_unexpected_token,
};
use justfile_message::shown::{Escaped, Start};
use std::fmt;

/// Writes the message of an error kind at a token on this line.
fn write_kind<W: fmt::Write>(
    kind: &CompileErrorKind<'_>,
    line: usize,
    f: &mut fmt::Formatter<W>,
) -> fmt::Result
    ensures { DisplaysOnOk W.write_str_gives f.old result
        (Some (kind_message line kind.now)) f.new }
{
    match kind {
        CompileErrorKind::ArgAttributeMinExceedsMax { min, max } => write_both(
            "argument attribute `min` `",
            min,
            "` exceeds `max` `",
            max,
            "`",
            f,
        ),
        CompileErrorKind::ArgAttributeRequiresMultipleOrVariadic { key } => write_around(
            "argument attribute `",
            key,
            "` only valid with `multiple` or a variadic parameter",
            f,
        ),
        CompileErrorKind::ArgAttributeRequiresOption { key } => write_around(
            "argument attribute `",
            key,
            "` only valid with `long` or `short`",
            f,
        ),
        CompileErrorKind::ArgumentCountParse { key, source, value } => write_invalid_count(
            key, value, source, f,
        ),
        CompileErrorKind::ArgumentCountValue { key, value } => write_both(
            "invalid `",
            key,
            "` value `",
            value,
            "`",
            f,
        ),
        CompileErrorKind::AttributeArgumentCountMismatch {
            attribute,
            found,
            min,
            max,
        } => write_count_mismatch("attribute `", attribute, *found, *min, *max, f),
        CompileErrorKind::AttributeArgumentExpression { attribute } => write_around(
            "attribute `",
            attribute,
            "` arguments must be string literals",
            f,
        ),
        CompileErrorKind::AttributeKeyMissingValue { key } => write_around(
            "attribute key `",
            key,
            "` requires value",
            f,
        ),
        CompileErrorKind::AttributeKeyTakesNoValue { key } => write_around(
            "attribute key `",
            key,
            "` takes no value",
            f,
        ),
        CompileErrorKind::AttributePositionalFollowsKeyword => f.write_str(
            "positional attribute arguments cannot follow keyword attribute arguments",
        ),
        CompileErrorKind::BacktickShebang => f.write_str("backticks may not start with `#!`"),
        CompileErrorKind::CircularRecipeDependency { recipe, circle } => write_recipe_circle(
            recipe, circle, f,
        ),
        CompileErrorKind::CircularVariableDependency { variable, circle } => write_variable_circle(
            variable, circle, f,
        ),
        CompileErrorKind::DependencyArgumentCountMismatch {
            dependency,
            found,
            min,
            max,
        } => write_count_mismatch("dependency `", dependency, *found, *min, *max, f),
        CompileErrorKind::DuplicateArgAttribute { arg, first } => write_duplicate(
            "attribute for argument `",
            arg,
            "`",
            *first,
            line,
            f,
        ),
        CompileErrorKind::DuplicateAttribute { attribute, first } => write_duplicate(
            "attribute `",
            attribute,
            "`",
            *first,
            line,
            f,
        ),
        CompileErrorKind::DuplicateAttributeKey { attribute, key } => write_both(
            "duplicate key `",
            key,
            "` for `",
            attribute,
            "` attribute",
            f,
        ),
        CompileErrorKind::DuplicateDefault { recipe } => write_around(
            "recipe `",
            recipe,
            "` has duplicate `[default]` attribute, which may only appear once per module",
            f,
        ),
        CompileErrorKind::DuplicateFunctionParameter {
            function,
            parameter,
        } => write_both(
            "function `",
            function,
            "` has duplicate parameter `",
            parameter,
            "`",
            f,
        ),
        CompileErrorKind::DuplicateGroupAttribute { first, group } => write_duplicate(
            "`[group(",
            group,
            ")]` attribute",
            *first,
            line,
            f,
        ),
        CompileErrorKind::DuplicateOption { recipe, option } => write_both(
            "recipe `",
            recipe,
            "` defines option `",
            option,
            "` multiple times",
            f,
        ),
        CompileErrorKind::DuplicateParameter { recipe, parameter } => write_both(
            "recipe `",
            recipe,
            "` has duplicate parameter `",
            parameter,
            "`",
            f,
        ),
        CompileErrorKind::DuplicateSet { setting, first } => write_duplicate_set(
            setting, *first, line, f,
        ),
        CompileErrorKind::DuplicateUnexport { variable } => write_around(
            "variable `",
            variable,
            "` is unexported multiple times",
            f,
        ),
        CompileErrorKind::DuplicateVariable { variable } => write_around(
            "variable `",
            variable,
            "` has multiple definitions",
            f,
        ),
        CompileErrorKind::EscapeEndOfFile => f.write_str(
            "expected escape sequence but found end-of-file",
        ),
        CompileErrorKind::ExitMessageAndNoExitMessageAttribute { recipe } => write_around(
            "recipe `",
            recipe,
            "` has both `[exit-message]` and `[no-exit-message]` attributes",
            f,
        ),
        CompileErrorKind::ExpectedKeyword { expected, found } => write_expected_keyword(
            expected, found, f,
        ),
        CompileErrorKind::ExportUnexported { variable } => write_around(
            "variable ",
            variable,
            " is both exported and unexported",
            f,
        ),
        CompileErrorKind::ExtraLeadingWhitespace => f.write_str(
            "recipe line has extra leading whitespace",
        ),
        CompileErrorKind::ExtraneousAttributes { count } => write_extraneous(*count, f),
        CompileErrorKind::FlagAndPatternArgAttribute { parameter } => write_around(
            "argument `",
            parameter,
            "` may not have both `flag` and `pattern` attributes",
            f,
        ),
        CompileErrorKind::FlagAndValueArgAttribute { parameter } => write_around(
            "argument `",
            parameter,
            "` may not have both `flag` and `value` attributes",
            f,
        ),
        CompileErrorKind::FlagAttributeTakesNoValue { parameter } => write_around(
            "`flag` attribute for argument `",
            parameter,
            "` takes no value",
            f,
        ),
        CompileErrorKind::FlagWithDefault { parameter } => write_around(
            "flag parameter `",
            parameter,
            "` may not have a default",
            f,
        ),
        CompileErrorKind::FunctionArgumentCountMismatch {
            arguments,
            expected,
            function,
        } => write_function_mismatch(function, *arguments, expected, f),
        CompileErrorKind::GuardAndInfallibleSigil => f.write_str(
            "the guard `?` and infallible `-` sigils may not be used together",
        ),
        CompileErrorKind::IncompatibleSettings {
            first,
            first_line,
            second,
        } => write_incompatible(*first, *first_line, *second, f),
        CompileErrorKind::InconsistentLeadingWhitespace { expected, found } => write_inconsistent(
            expected, found, f,
        ),
        CompileErrorKind::Internal { message } => write_around(
            "internal error, this may indicate a bug in just: ",
            message,
            "\nconsider filing an issue: https://github.com/casey/just/issues/new",
            f,
        ),
        CompileErrorKind::InvalidAttribute {
            item_kind,
            item_name,
            attribute,
        } => write_invalid_attribute(*item_kind, item_name, *attribute, f),
        CompileErrorKind::InvalidEscapeSequence { character } => write_around(
            "`\\",
            &Escaped(*character),
            "` is not a valid escape sequence",
            f,
        ),
        CompileErrorKind::InvalidIndentation { message } => f.write_str(message),
        CompileErrorKind::InvalidMinimumVersion { source, version } => write_invalid_version(
            version, source, f,
        ),
        CompileErrorKind::InvalidShellRecipeAttribute { attribute, recipe } => write_both(
            "shell recipe `",
            recipe,
            "` has script recipe attribute `",
            &attribute.name(),
            "`",
            f,
        ),
        CompileErrorKind::InvalidSignal { signal } => write_around(
            "invalid signal `",
            signal,
            "`: expected `SIGHUP`, `SIGINT`, or `SIGQUIT`",
            f,
        ),
        CompileErrorKind::ListFeature(feature) => write!(f, "{feature}"),
        CompileErrorKind::MappedDependencyMultipleStarredArguments => f.write_str(
            "mapped dependencies may not have multiple starred arguments",
        ),
        CompileErrorKind::MappedDependencyWithoutListsSetting => f.write_str(
            "mapped dependencies require `set lists`",
        ),
        CompileErrorKind::MappedDependencyWithoutStarredArgument => f.write_str(
            "mapped dependencies must have starred argument",
        ),
        CompileErrorKind::MinimumVersion { current, minimum } => write_minimum_version(
            minimum, current, f,
        ),
        CompileErrorKind::MismatchedClosingDelimiter {
            close,
            open_line,
            opener,
        } => write_mismatched(*close, *opener, *open_line, f),
        CompileErrorKind::MixedLeadingWhitespace { whitespace } => write_mixed(whitespace, f),
        CompileErrorKind::NoCdAndWorkingDirectoryAttribute { recipe } => write_around(
            "recipe `",
            recipe,
            "` has both `[no-cd]` and `[working-directory]` attributes",
            f,
        ),
        CompileErrorKind::OptionNameContainsEqualSign { parameter } => write_around(
            "option name for parameter `",
            parameter,
            "` contains equal sign",
            f,
        ),
        CompileErrorKind::OptionNameEmpty { parameter } => write_around(
            "option name for parameter `",
            parameter,
            "` is empty",
            f,
        ),
        CompileErrorKind::OptionNameStartsWithDash { parameter } => write_around(
            "option name for parameter `",
            parameter,
            "` starts with dash",
            f,
        ),
        CompileErrorKind::ParameterFollowsVariadicParameter { parameter } => write_around(
            "parameter `",
            parameter,
            "` follows variadic parameter",
            f,
        ),
        CompileErrorKind::ParsingRecursionDepthExceeded => f.write_str(
            "parsing recursion depth exceeded",
        ),
        CompileErrorKind::Redefinition {
            first,
            first_type,
            name,
            second_type,
        } => write_redefinition(*first_type, name, *first, *second_type, line, f),
        CompileErrorKind::RequiredParameterFollowsDefaultParameter { parameter } => write_around(
            "non-default parameter `",
            parameter,
            "` follows default parameter",
            f,
        ),
        CompileErrorKind::ScriptAndShellAttribute { recipe } => write_around(
            "recipe `",
            recipe,
            "` has both `[script]` and `[shell]` attributes",
            f,
        ),
        CompileErrorKind::SettingExpression { setting } => write_around(
            "`",
            setting,
            "` setting must be a plain string literal",
            f,
        ),
        CompileErrorKind::ShellExpansion { err } => write!(f, "shell expansion failed: {err}"),
        CompileErrorKind::ShortOptionWithMultipleCharacters { parameter } => write_around(
            "short option name for parameter `",
            parameter,
            "` contains multiple characters",
            f,
        ),
        CompileErrorKind::StarredArgumentOutsideMappedDependency => f.write_str(
            "starred arguments may not be used outside mapped dependencies",
        ),
        CompileErrorKind::UndefinedArgAttribute { argument } => write_around(
            "argument attribute for undefined argument `",
            argument,
            "`",
            f,
        ),
        CompileErrorKind::UndefinedFunction { function } => write_around(
            "call to undefined function `",
            function,
            "`",
            f,
        ),
        CompileErrorKind::UndefinedVariable { variable } => write_around(
            "variable `",
            variable,
            "` not defined",
            f,
        ),
        CompileErrorKind::UnexpectedCharacter { expected } => write_expected_character(expected, f),
        CompileErrorKind::UnexpectedClosingDelimiter { close } => write_around(
            "unexpected closing delimiter `",
            &close.close(),
            "`",
            f,
        ),
        CompileErrorKind::UnexpectedEndOfToken { expected } => write_expected_end(expected, f),
        CompileErrorKind::UnexpectedToken { expected, found } => write_unexpected_token(
            expected, *found, f,
        ),
        CompileErrorKind::UnicodeEscapeCharacter { character } => write_around(
            "expected hex digit [0-9A-Fa-f] but found `",
            character,
            "`",
            f,
        ),
        CompileErrorKind::UnicodeEscapeDelimiter { character } => write_around(
            "expected unicode escape sequence delimiter `{` but found `",
            character,
            "`",
            f,
        ),
        CompileErrorKind::UnicodeEscapeEmpty => f.write_str(
            "unicode escape sequences must not be empty",
        ),
        CompileErrorKind::UnicodeEscapeLength { hex } => write_around(
            "unicode escape sequence starting with `\\u{",
            hex,
            "` longer than six hex digits",
            f,
        ),
        CompileErrorKind::UnicodeEscapeRange { hex } => write_around(
            "unicode escape sequence value `",
            hex,
            "` greater than maximum valid code point `10FFFF`",
            f,
        ),
        CompileErrorKind::UnicodeEscapeUnterminated => f.write_str(
            "unterminated unicode escape sequence",
        ),
        CompileErrorKind::UnknownAliasTarget { alias, target } => write_both(
            "alias `",
            alias,
            "` has an unknown target `",
            target,
            "`",
            f,
        ),
        CompileErrorKind::UnknownAttribute { attribute } => write_around(
            "unknown attribute `",
            attribute,
            "`",
            f,
        ),
        CompileErrorKind::UnknownAttributeKey { attribute, key } => write_both(
            "unknown key `",
            key,
            "` for `",
            attribute,
            "` attribute",
            f,
        ),
        CompileErrorKind::UnknownDependency { recipe, unknown } => write_both(
            "recipe `",
            recipe,
            "` has unknown dependency `",
            unknown,
            "`",
            f,
        ),
        CompileErrorKind::UnknownSetting { setting } => write_around(
            "unknown setting `",
            setting,
            "`",
            f,
        ),
        CompileErrorKind::UnknownStartOfToken { start } => write!(
            f,
            "unknown start of token {}",
            Start(*start)
        ),
        CompileErrorKind::UnpairedCarriageReturn => f.write_str("unpaired carriage return"),
        CompileErrorKind::UnterminatedBacktick => f.write_str("unterminated backtick"),
        CompileErrorKind::UnterminatedInterpolation => f.write_str("unterminated interpolation"),
        CompileErrorKind::UnterminatedString => f.write_str("unterminated string"),
    }
}

impl fmt::Display for CompileError<'_> {
    ghost use Rattle.justfile_token.specs.Messages.{message_text};

    ghost output = { λ error. Some (message_text error) };

    fn fmt<W: fmt::Write>(&self, f: &mut fmt::Formatter<W>) -> fmt::Result {
        write_kind(&self.kind, self.token.line, f)
    }
}

/// Writes the message as `Display` does.
impl fmt::Debug for CompileError<'_> {
    fn fmt<W: fmt::Write>(&self, f: &mut fmt::Formatter<W>) -> fmt::Result {
        write_kind(&self.kind, self.token.line, f)
    }
}
