//! The expressions of settings.
ghost use Rattle.std.specs.Prelude.{◌≡◌, IfOk, OnOk};
ghost use Rattle.justfile_inner_expressions.specs.Pushed.{ArePushed, referents};
ghost use Rattle.justfile_setting.specs.Expressions.{interpreter_expressions, setting_expressions};

use crate::setting::Setting;
use justfile_attribute::Interpreter;
use justfile_expression::Expression;
use justfile_inner_expressions::{push_all, push_expression};
use std::alloc::{AllocError, Global};

impl<'src> Setting<'src> {
    /// Returns the expressions that the setting has directly, in the order in which they are
    /// printed. Those inside of other expressions are left out.
    ///
    /// # Errors
    ///
    /// `AllocError` if out of memory.
    pub fn expressions(&self, alloc: Global) -> Result<Vec<&Expression<'src>>, AllocError>
        ensures { IfOk result (λ found. referents found.items ≡ setting_expressions self.now) }
    {
        let mut found = Vec::new(alloc);
        push_setting(self, &mut found)?;
        Ok(found)
    }
}

/// Pushes references to the expressions that a setting has directly, in the order in which they
/// are printed.
///
/// # Errors
///
/// Memory runs out.
pub fn push_setting<'a, 'src>(
    setting: &'a Setting<'src>,
    found: &mut Vec<&'a Expression<'src>>,
) -> Result<(), AllocError>
    ensures { OnOk result (ArePushed found.new found.old (setting_expressions setting.now)) }
{
    match setting {
        Setting::DotenvCommand(value) => push_expression(value, found),
        Setting::DotenvFilename(value) => push_expression(value, found),
        Setting::DotenvPath(value) => push_expression(value, found),
        Setting::ScriptInterpreter(interpreter) => push_interpreter(interpreter, found),
        Setting::Shell(interpreter) => push_interpreter(interpreter, found),
        Setting::Tempdir(value) => push_expression(value, found),
        Setting::WindowsShell(interpreter) => push_interpreter(interpreter, found),
        Setting::WorkingDirectory(value) => push_expression(value, found),
        _ => Ok(()),
    }
}

/// Pushes references to an interpreter's command and its arguments.
fn push_interpreter<'a, 'src>(
    interpreter: &'a Interpreter<Expression<'src>>,
    found: &mut Vec<&'a Expression<'src>>,
) -> Result<(), AllocError>
    ensures { OnOk result
        (ArePushed found.new found.old (interpreter_expressions interpreter.now)) }
{
    push_expression(&interpreter.command, found)?;
    push_all(&interpreter.arguments, found)
}
