//! The kinds of errors, with what their messages name.
use crate::delimiter::Delimiter;
use crate::name::Name;
use crate::namepath::Namepath;
use crate::string_literal::StringLiteral;
use crate::token::Token;
use justfile_numbers::Version;
use justfile_vocabulary::{AttributeKind, ItemKind, Keyword, ListFeature, Switch, TokenKind};
use std::ops::RangeInclusive;

/// Why a text isn't a valid justfile.
#[derive(Debug, Drop, PartialEq)]
pub enum CompileErrorKind<'src> {
    /// The key `min` of an `arg` attribute is greater than its key `max`.
    ArgAttributeMinExceedsMax {
        min: u64,
        max: u64,
    },
    /// The key `max` or `min` is set for a parameter that can only be given once.
    ArgAttributeRequiresMultipleOrVariadic {
        key: Name<'src>,
    },
    /// The key `value`, `flag` or `multiple` is set for a parameter that isn't an option.
    ArgAttributeRequiresOption {
        key: Name<'src>,
    },
    /// The value of `min` or `max` doesn't fit 64 bits, for the reason `source`.
    ArgumentCountParse {
        key: Name<'src>,
        source: &'static str,
        value: String,
    },
    /// The value of `min` or `max` isn't a number, or has a leading zero.
    ArgumentCountValue {
        key: Name<'src>,
        value: String,
    },
    /// An attribute has too few or too many positional arguments.
    AttributeArgumentCountMismatch {
        attribute: Name<'src>,
        /// The number of arguments that it has.
        found: usize,
        /// The least number of arguments that it takes.
        min: usize,
        /// The greatest number of arguments that it takes, or `usize::MAX` if there is no limit.
        max: usize,
    },
    /// An argument of the attribute isn't a literal.
    AttributeArgumentExpression {
        attribute: Name<'src>,
    },
    /// A key of an attribute needs a value and has none.
    AttributeKeyMissingValue {
        key: Name<'src>,
    },
    /// A key of an attribute has a value and takes none.
    AttributeKeyTakesNoValue {
        key: Name<'src>,
    },
    /// A positional argument follows one by key.
    AttributePositionalFollowsKeyword,
    /// A command between backticks begins with `#!`.
    BacktickShebang,
    /// A recipe depends on itself, directly or through other recipes.
    CircularRecipeDependency {
        recipe: &'src str,
        /// The recipes from this one back to itself, each of which depends on the next.
        circle: Vec<&'src str>,
    },
    /// A variable is defined in terms of itself, directly or through other variables.
    CircularVariableDependency {
        variable: &'src str,
        /// The variables from this one back to itself, each of which uses the next.
        circle: Vec<&'src str>,
    },
    /// A dependency has too few or too many arguments.
    DependencyArgumentCountMismatch {
        dependency: Namepath<'src>,
        /// The number of arguments that it has.
        found: usize,
        /// The least number of arguments that its recipe takes.
        min: usize,
        /// The greatest number of arguments that its recipe takes, or `usize::MAX` if there is no
        /// limit.
        max: usize,
    },
    /// A recipe has two `arg` attributes for the same parameter.
    DuplicateArgAttribute {
        arg: String,
        /// The line of the first attribute's name, from 0.
        first: usize,
    },
    /// An attribute that can't be repeated is repeated.
    DuplicateAttribute {
        /// The name of the second attribute.
        attribute: Name<'src>,
        /// The line of the first attribute's name, from 0.
        first: usize,
    },
    /// An attribute has a key twice.
    DuplicateAttributeKey {
        attribute: &'src str,
        key: &'src str,
    },
    /// A recipe has the attribute `default`, but an earlier one has it, too.
    DuplicateDefault {
        recipe: &'src str,
    },
    /// Two parameters of a function have the same name.
    DuplicateFunctionParameter {
        function: &'src str,
        parameter: &'src str,
    },
    /// An item is put into the same group twice.
    DuplicateGroupAttribute {
        /// The line of the first attribute's name, from 0.
        first: usize,
        group: StringLiteral<'src>,
    },
    /// Two options of a recipe have the same name.
    DuplicateOption {
        recipe: &'src str,
        option: Switch,
    },
    /// Two parameters of a recipe have the same name.
    DuplicateParameter {
        recipe: &'src str,
        parameter: &'src str,
    },
    /// A setting is set twice.
    DuplicateSet {
        setting: &'src str,
        /// The line of the first setting's name, from 0.
        first: usize,
    },
    /// A variable is unexported twice.
    DuplicateUnexport {
        variable: &'src str,
    },
    /// A variable is defined twice.
    DuplicateVariable {
        variable: &'src str,
    },
    /// A literal ends after a backslash.
    EscapeEndOfFile,
    /// A recipe has two attributes that exclude each other.
    ExitMessageAndNoExitMessageAttribute {
        recipe: &'src str,
    },
    /// One of these keywords is expected here.
    ExpectedKeyword {
        expected: Vec<Keyword>,
        found: Token<'src>,
    },
    /// A variable is both exported and unexported.
    ExportUnexported {
        variable: &'src str,
    },
    /// A line of a body is indented more than the lines before it, and isn't continued from one of
    /// them.
    ExtraLeadingWhitespace,
    /// Attributes are before a comment or an empty line.
    ExtraneousAttributes {
        /// The number of attributes.
        count: usize,
    },
    /// The `arg` attribute of a flag sets a pattern.
    FlagAndPatternArgAttribute {
        parameter: String,
    },
    /// The `arg` attribute of a flag sets a value.
    FlagAndValueArgAttribute {
        parameter: String,
    },
    /// The key `flag` has a value, and takes none.
    FlagAttributeTakesNoValue {
        parameter: String,
    },
    /// A parameter is a flag and has a default.
    FlagWithDefault {
        parameter: String,
    },
    /// A function is called with too few or too many arguments.
    FunctionArgumentCountMismatch {
        /// The number of arguments in the call.
        arguments: usize,
        /// The numbers of arguments that the function takes. The end is `usize::MAX` if there is no
        /// limit.
        expected: RangeInclusive<usize>,
        function: &'src str,
    },
    /// The sigils `?` and `-` are both used before the same line.
    GuardAndInfallibleSigil,
    /// Two settings exclude each other.
    IncompatibleSettings {
        first: Keyword,
        /// The line of the first setting's name, from 0.
        first_line: usize,
        second: Keyword,
    },
    /// A line of a body isn't indented like the lines before it.
    InconsistentLeadingWhitespace {
        expected: &'src str,
        found: &'src str,
    },
    /// An error of the program, not of the justfile.
    Internal {
        message: &'static str,
    },
    /// An item of this kind doesn't take the attribute.
    InvalidAttribute {
        item_kind: ItemKind,
        item_name: &'src str,
        attribute: AttributeKind,
    },
    /// The character after a backslash doesn't begin an escape.
    InvalidEscapeSequence {
        character: char,
    },
    /// A text isn't an indentation, for the reason `message`.
    InvalidIndentation {
        message: &'static str,
    },
    /// A text isn't a version, for the reason `source`.
    InvalidMinimumVersion {
        source: &'static str,
        version: String,
    },
    /// A recipe without the attribute `script` has an attribute that only scripts can have.
    InvalidShellRecipeAttribute {
        attribute: AttributeKind,
        recipe: &'src str,
    },
    /// A text isn't the name of a known signal.
    InvalidSignal {
        signal: String,
    },
    /// A feature is used that requires the setting `lists`.
    ListFeature(ListFeature),
    /// Two arguments of a dependency are starred.
    MappedDependencyMultipleStarredArguments,
    /// A dependency is starred in a justfile without the setting `lists`.
    MappedDependencyWithoutListsSetting,
    /// A dependency is starred, but none of its arguments is.
    MappedDependencyWithoutStarredArgument,
    /// The justfile requires a later version of the program than the current one.
    MinimumVersion {
        current: Version,
        minimum: Version,
    },
    /// A closing delimiter doesn't match the opening one.
    MismatchedClosingDelimiter {
        close: Delimiter,
        /// The line of the opening delimiter, from 0.
        open_line: usize,
        opener: Delimiter,
    },
    /// The indentation of a body mixes tabs and spaces.
    MixedLeadingWhitespace {
        whitespace: &'src str,
    },
    /// A recipe has two attributes that exclude each other.
    NoCdAndWorkingDirectoryAttribute {
        recipe: &'src str,
    },
    /// The name of an option contains `=`.
    OptionNameContainsEqualSign {
        parameter: String,
    },
    /// The name of an option is empty.
    OptionNameEmpty {
        parameter: String,
    },
    /// The name of an option begins with `-`.
    OptionNameStartsWithDash {
        parameter: String,
    },
    /// A parameter follows a variadic one.
    ParameterFollowsVariadicParameter {
        parameter: &'src str,
    },
    /// Expressions are nested too deeply.
    ParsingRecursionDepthExceeded,
    /// An item has the name of an earlier one.
    Redefinition {
        /// The line of the earlier one's name, from 0.
        first: usize,
        first_type: ItemKind,
        name: &'src str,
        second_type: ItemKind,
    },
    /// A parameter without a default follows one with a default.
    RequiredParameterFollowsDefaultParameter {
        parameter: &'src str,
    },
    /// A recipe has two attributes that exclude each other.
    ScriptAndShellAttribute {
        recipe: &'src str,
    },
    /// The value of the setting isn't a plain literal.
    SettingExpression {
        setting: Keyword,
    },
    /// The text of a literal with the mark `x` can't be expanded, for the reason `err`.
    ShellExpansion {
        err: String,
    },
    /// The name of a short option has more than one character.
    ShortOptionWithMultipleCharacters {
        parameter: String,
    },
    /// An argument of a dependency is starred, but the dependency isn't.
    StarredArgumentOutsideMappedDependency,
    /// An `arg` attribute names a parameter that the recipe doesn't have.
    UndefinedArgAttribute {
        argument: String,
    },
    /// An undefined function is called.
    UndefinedFunction {
        function: &'src str,
    },
    /// An undefined variable is used.
    UndefinedVariable {
        variable: &'src str,
    },
    /// The first character of a token isn't followed by one of these characters.
    UnexpectedCharacter {
        expected: Vec<char>,
    },
    /// A closing delimiter has no opening one.
    UnexpectedClosingDelimiter {
        close: Delimiter,
    },
    /// The text ends where one of these characters is expected.
    UnexpectedEndOfToken {
        expected: Vec<char>,
    },
    /// None of the expected tokens is next.
    UnexpectedToken {
        expected: Vec<TokenKind>,
        found: TokenKind,
    },
    /// A character in the braces of `\u{..}` isn't a hexadecimal digit.
    UnicodeEscapeCharacter {
        character: char,
    },
    /// The character after `\u` isn't `{`.
    UnicodeEscapeDelimiter {
        character: char,
    },
    /// The braces of `\u{..}` are empty.
    UnicodeEscapeEmpty,
    /// The braces of `\u{..}` hold more than six digits, of which this holds the first seven.
    UnicodeEscapeLength {
        hex: String,
    },
    /// The number in the braces of `\u{..}` isn't the code point of a character.
    UnicodeEscapeRange {
        hex: String,
    },
    /// The text ends within an escape.
    UnicodeEscapeUnterminated,
    /// The target of an alias isn't a recipe.
    UnknownAliasTarget {
        alias: &'src str,
        target: Namepath<'src>,
    },
    /// An attribute has an unknown name.
    UnknownAttribute {
        attribute: &'src str,
    },
    /// An attribute has an argument with an unknown key.
    UnknownAttributeKey {
        attribute: &'src str,
        key: &'src str,
    },
    /// A dependency isn't a recipe.
    UnknownDependency {
        recipe: &'src str,
        unknown: Namepath<'src>,
    },
    /// A setting has an unknown name.
    UnknownSetting {
        setting: &'src str,
    },
    /// No token begins with this character.
    UnknownStartOfToken {
        start: char,
    },
    /// A carriage return isn't followed by a line feed.
    UnpairedCarriageReturn,
    /// A command between backticks has no closing backtick.
    UnterminatedBacktick,
    /// The text ends inside an interpolation.
    UnterminatedInterpolation,
    /// A string has no closing quote.
    UnterminatedString,
}
