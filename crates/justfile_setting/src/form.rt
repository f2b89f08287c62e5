//! The forms of settings, and settings from keywords and values.
ghost use Rattle.std.specs.Prelude.{◌≡◌, Some};
ghost use Rattle.std.specs.Option.{option_map};
ghost use Rattle.justfile_model.specs.Grammars.Settings as forms;
ghost use Rattle.justfile_model.specs.Trees.Tree as tree;
ghost use Rattle.justfile_setting.specs.Form.{form_of};
ghost use Rattle.justfile_setting.specs.LeafSetting.{leaf_value_of};
ghost use Rattle.justfile_setting.specs.Setting.{keyword_of, HasDerivedSettingFields};
ghost use Rattle.justfile_expression.specs.LeafTree.{leaf_tree_of, trees_of};

use crate::setting::Setting;
use justfile_attribute::Interpreter;
use justfile_expression::Expression;
use justfile_vocabulary::Keyword;

/// What is written after the name of a setting.
#[derive(Clone, Copy, Debug, PartialEq, Eq)]
pub enum SettingForm {
    /// `:=` and an expression.
    Expression,
    /// `:=` and expressions in brackets.
    Interpreter,
    /// `:=` and a plain string: not tripled, without `x` or `f` before it.
    Plain,
    /// Nothing, or `:=` and `true` or `false`.
    Truth,
}

/// Returns the form of the setting with this name, or `None` if the keyword isn't the name of a
/// setting.
pub fn setting_form(keyword: Keyword) -> Option<SettingForm>
    ensures { option_map form_of result ≡ forms.setting_form keyword }
{
    match keyword {
        Keyword::AllowDuplicateRecipes => Some(SettingForm::Truth),
        Keyword::AllowDuplicateVariables => Some(SettingForm::Truth),
        Keyword::DefaultList => Some(SettingForm::Truth),
        Keyword::DefaultScript => Some(SettingForm::Truth),
        Keyword::DotenvCommand => Some(SettingForm::Expression),
        Keyword::DotenvFilename => Some(SettingForm::Expression),
        Keyword::DotenvLoad => Some(SettingForm::Truth),
        Keyword::DotenvOverride => Some(SettingForm::Truth),
        Keyword::DotenvPath => Some(SettingForm::Expression),
        Keyword::DotenvRequired => Some(SettingForm::Truth),
        Keyword::Export => Some(SettingForm::Truth),
        Keyword::Fallback => Some(SettingForm::Truth),
        Keyword::Guards => Some(SettingForm::Truth),
        Keyword::IgnoreComments => Some(SettingForm::Truth),
        Keyword::Indentation => Some(SettingForm::Plain),
        Keyword::Lazy => Some(SettingForm::Truth),
        Keyword::Lists => Some(SettingForm::Truth),
        Keyword::MinimumVersion => Some(SettingForm::Plain),
        Keyword::NoCd => Some(SettingForm::Truth),
        Keyword::NoExitMessage => Some(SettingForm::Truth),
        Keyword::PositionalArguments => Some(SettingForm::Truth),
        Keyword::Quiet => Some(SettingForm::Truth),
        Keyword::ScriptInterpreter => Some(SettingForm::Interpreter),
        Keyword::Shell => Some(SettingForm::Interpreter),
        Keyword::Tempdir => Some(SettingForm::Expression),
        Keyword::Unstable => Some(SettingForm::Truth),
        Keyword::WindowsPowershell => Some(SettingForm::Truth),
        Keyword::WindowsShell => Some(SettingForm::Interpreter),
        Keyword::WorkingDirectory => Some(SettingForm::Expression),
        _ => None,
    }
}

impl<'src> Setting<'src> {
    /// Returns a setting that is true or false. Requires that the keyword's setting has this form.
    pub fn from_truth(keyword: Keyword, value: bool) -> Self
        requires { forms.setting_form keyword ≡ Some forms.TruthForm }
        ensures keyword { keyword_of result ≡ keyword }
        ensures value { leaf_value_of result ≡ tree.Truth value }
        ensures fields { HasDerivedSettingFields result }
    {
        match keyword {
            Keyword::AllowDuplicateRecipes => Setting::AllowDuplicateRecipes(value),
            Keyword::AllowDuplicateVariables => Setting::AllowDuplicateVariables(value),
            Keyword::DefaultList => Setting::DefaultList(value),
            Keyword::DefaultScript => Setting::DefaultScript(value),
            Keyword::DotenvLoad => Setting::DotenvLoad(value),
            Keyword::DotenvOverride => Setting::DotenvOverride(value),
            Keyword::DotenvRequired => Setting::DotenvRequired(value),
            Keyword::Export => Setting::Export(value),
            Keyword::Fallback => Setting::Fallback(value),
            Keyword::Guards => Setting::Guards(value),
            Keyword::IgnoreComments => Setting::IgnoreComments(value),
            Keyword::Lazy => Setting::Lazy(value),
            Keyword::Lists => Setting::Lists(value),
            Keyword::NoCd => Setting::NoCd(value),
            Keyword::NoExitMessage => Setting::NoExitMessage(value),
            Keyword::PositionalArguments => Setting::PositionalArguments(value),
            Keyword::Quiet => Setting::Quiet(value),
            Keyword::Unstable => Setting::Unstable(value),
            Keyword::WindowsPowershell => Setting::WindowsPowerShell(value),
            _ => unreachable!(),
        }
    }

    /// Returns a setting with an expression. Requires that the keyword's setting has this form.
    pub fn from_expression(keyword: Keyword, value: Expression<'src>) -> Self
        requires { forms.setting_form keyword ≡ Some forms.ExpressionForm }
        ensures keyword { keyword_of result ≡ keyword }
        ensures value { leaf_value_of result ≡ tree.Value (leaf_tree_of value.entry) }
        ensures fields { HasDerivedSettingFields result }
    {
        match keyword {
            Keyword::DotenvCommand => Setting::DotenvCommand(value),
            Keyword::DotenvFilename => Setting::DotenvFilename(value),
            Keyword::DotenvPath => Setting::DotenvPath(value),
            Keyword::Tempdir => Setting::Tempdir(value),
            Keyword::WorkingDirectory => Setting::WorkingDirectory(value),
            _ => unreachable!(),
        }
    }

    /// Returns a setting with an interpreter. Requires that the keyword's setting has this form.
    pub fn from_interpreter(keyword: Keyword, interpreter: Interpreter<Expression<'src>>) -> Self
        requires { forms.setting_form keyword ≡ Some forms.InterpreterForm }
        ensures keyword { keyword_of result ≡ keyword }
        ensures value { leaf_value_of result
            ≡ tree.Interpreter (leaf_tree_of interpreter.entry.command)
            (trees_of interpreter.entry.arguments.items) }
        ensures fields { HasDerivedSettingFields result }
    {
        match keyword {
            Keyword::ScriptInterpreter => Setting::ScriptInterpreter(interpreter),
            Keyword::Shell => Setting::Shell(interpreter),
            Keyword::WindowsShell => Setting::WindowsShell(interpreter),
            _ => unreachable!(),
        }
    }
}
