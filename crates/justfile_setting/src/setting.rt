//! The type of settings, with their keywords, their values and their conflicts.
ghost use Rattle.std.specs.Prelude.{◌≡◌};
ghost use Rattle.justfile_setting.specs.LeafSetting.{leaf_value_of};
ghost use Rattle.justfile_setting.specs.Setting.{conflicts, is_default, keyword_of, truth_of, value_of};
ghost use Rattle.justfile_setting.specs.Value.{leaf_value_seen, value_seen};

use crate::value::Value;
use justfile_attribute::Interpreter;
use justfile_expression::Expression;
use justfile_token::StringLiteral;
use justfile_vocabulary::{Indentation, Keyword};

/// A setting of a justfile, with its value. `docs/LANGUAGE.md` lists them.
#[derive(Drop)]
pub enum Setting<'src> {
    AllowDuplicateRecipes(bool),
    AllowDuplicateVariables(bool),
    DefaultList(bool),
    DefaultScript(bool),
    DotenvCommand(Expression<'src>),
    DotenvFilename(Expression<'src>),
    DotenvLoad(bool),
    DotenvOverride(bool),
    DotenvPath(Expression<'src>),
    DotenvRequired(bool),
    Export(bool),
    Fallback(bool),
    Guards(bool),
    IgnoreComments(bool),
    /// The literal, and its text as an indentation.
    Indentation(StringLiteral<'src>, Indentation),
    Lazy(bool),
    Lists(bool),
    /// The literal. Its text is a version.
    MinimumVersion(StringLiteral<'src>),
    NoCd(bool),
    NoExitMessage(bool),
    PositionalArguments(bool),
    Quiet(bool),
    ScriptInterpreter(Interpreter<Expression<'src>>),
    Shell(Interpreter<Expression<'src>>),
    Tempdir(Expression<'src>),
    Unstable(bool),
    WindowsPowerShell(bool),
    WindowsShell(Interpreter<Expression<'src>>),
    WorkingDirectory(Expression<'src>),
}

/// The settings that conflict with `dotenv-command`.
static AGAINST_DOTENV_COMMAND: [Keyword; 4] = [
    Keyword::DotenvFilename,
    Keyword::DotenvLoad,
    Keyword::DotenvPath,
    Keyword::DotenvRequired,
];

/// The setting that conflicts with those that load variables from a file.
static AGAINST_DOTENV_FILE: [Keyword; 1] = [Keyword::DotenvCommand];

/// The setting that conflicts with `no-cd`.
static AGAINST_NO_CD: [Keyword; 1] = [Keyword::WorkingDirectory];

/// The setting that conflicts with `working-directory`.
static AGAINST_WORKING_DIRECTORY: [Keyword; 1] = [Keyword::NoCd];

impl<'src> Setting<'src> {
    /// Returns the keyword that is the setting's name.
    pub fn keyword(&self) -> Keyword
        ensures { result ≡ keyword_of self.now }
    {
        match self {
            Setting::AllowDuplicateRecipes(_) => Keyword::AllowDuplicateRecipes,
            Setting::AllowDuplicateVariables(_) => Keyword::AllowDuplicateVariables,
            Setting::DefaultList(_) => Keyword::DefaultList,
            Setting::DefaultScript(_) => Keyword::DefaultScript,
            Setting::DotenvCommand(_) => Keyword::DotenvCommand,
            Setting::DotenvFilename(_) => Keyword::DotenvFilename,
            Setting::DotenvLoad(_) => Keyword::DotenvLoad,
            Setting::DotenvOverride(_) => Keyword::DotenvOverride,
            Setting::DotenvPath(_) => Keyword::DotenvPath,
            Setting::DotenvRequired(_) => Keyword::DotenvRequired,
            Setting::Export(_) => Keyword::Export,
            Setting::Fallback(_) => Keyword::Fallback,
            Setting::Guards(_) => Keyword::Guards,
            Setting::IgnoreComments(_) => Keyword::IgnoreComments,
            Setting::Indentation(_, _) => Keyword::Indentation,
            Setting::Lazy(_) => Keyword::Lazy,
            Setting::Lists(_) => Keyword::Lists,
            Setting::MinimumVersion(_) => Keyword::MinimumVersion,
            Setting::NoCd(_) => Keyword::NoCd,
            Setting::NoExitMessage(_) => Keyword::NoExitMessage,
            Setting::PositionalArguments(_) => Keyword::PositionalArguments,
            Setting::Quiet(_) => Keyword::Quiet,
            Setting::ScriptInterpreter(_) => Keyword::ScriptInterpreter,
            Setting::Shell(_) => Keyword::Shell,
            Setting::Tempdir(_) => Keyword::Tempdir,
            Setting::Unstable(_) => Keyword::Unstable,
            Setting::WindowsPowerShell(_) => Keyword::WindowsPowershell,
            Setting::WindowsShell(_) => Keyword::WindowsShell,
            Setting::WorkingDirectory(_) => Keyword::WorkingDirectory,
        }
    }

    /// Whether the value is `true`, which need not be written.
    pub fn is_default(&self) -> bool
        ensures { result ≡ is_default (value_of self.now) }
    {
        match self.value() {
            Value::Truth(value) => *value,
            _ => false,
        }
    }

    /// Returns the value if it is `true` or `false`, and otherwise `None`.
    pub fn truth(&self) -> Option<bool>
        ensures { result ≡ truth_of (value_of self.now) }
    {
        match self.value() {
            Value::Truth(value) => Some(*value),
            _ => None,
        }
    }

    /// Returns the value of the setting.
    pub fn value<'a>(&'a self) -> Value<'a, 'src>
        ensures tree { value_seen result ≡ value_of self.now }
        ensures leaves { leaf_value_seen result ≡ leaf_value_of self.now }
    {
        match self {
            Setting::AllowDuplicateRecipes(value) => Value::Truth(value),
            Setting::AllowDuplicateVariables(value) => Value::Truth(value),
            Setting::DefaultList(value) => Value::Truth(value),
            Setting::DefaultScript(value) => Value::Truth(value),
            Setting::DotenvCommand(value) => Value::Expression(value),
            Setting::DotenvFilename(value) => Value::Expression(value),
            Setting::DotenvLoad(value) => Value::Truth(value),
            Setting::DotenvOverride(value) => Value::Truth(value),
            Setting::DotenvPath(value) => Value::Expression(value),
            Setting::DotenvRequired(value) => Value::Truth(value),
            Setting::Export(value) => Value::Truth(value),
            Setting::Fallback(value) => Value::Truth(value),
            Setting::Guards(value) => Value::Truth(value),
            Setting::IgnoreComments(value) => Value::Truth(value),
            Setting::Indentation(literal, _) => Value::Literal(literal),
            Setting::Lazy(value) => Value::Truth(value),
            Setting::Lists(value) => Value::Truth(value),
            Setting::MinimumVersion(literal) => Value::Literal(literal),
            Setting::NoCd(value) => Value::Truth(value),
            Setting::NoExitMessage(value) => Value::Truth(value),
            Setting::PositionalArguments(value) => Value::Truth(value),
            Setting::Quiet(value) => Value::Truth(value),
            Setting::ScriptInterpreter(interpreter) => Value::Interpreter(interpreter),
            Setting::Shell(interpreter) => Value::Interpreter(interpreter),
            Setting::Tempdir(value) => Value::Expression(value),
            Setting::Unstable(value) => Value::Truth(value),
            Setting::WindowsPowerShell(value) => Value::Truth(value),
            Setting::WindowsShell(interpreter) => Value::Interpreter(interpreter),
            Setting::WorkingDirectory(value) => Value::Expression(value),
        }
    }

    /// Returns the names of the settings that conflict with this one.
    pub fn conflicts(&self) -> &'static [Keyword]
        ensures { result.now ≡ conflicts self.now }
    {
        match self {
            Setting::DotenvCommand(_) => &AGAINST_DOTENV_COMMAND,
            Setting::DotenvFilename(_) => &AGAINST_DOTENV_FILE,
            Setting::DotenvLoad(true) => &AGAINST_DOTENV_FILE,
            Setting::DotenvPath(_) => &AGAINST_DOTENV_FILE,
            Setting::DotenvRequired(true) => &AGAINST_DOTENV_FILE,
            Setting::NoCd(true) => &AGAINST_NO_CD,
            Setting::WorkingDirectory(_) => &AGAINST_WORKING_DIRECTORY,
            _ => &[],
        }
    }
}
