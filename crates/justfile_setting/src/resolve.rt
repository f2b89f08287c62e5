//! Resolution of the variables in settings.
ghost use Rattle.justfile_setting.specs.Resolved.{IsResolvedInterpreter, IsResolvedSetting};
ghost use Rattle.justfile_expression.specs.Resolved.{number_of};

use crate::setting::Setting;
use justfile_attribute::Interpreter;
use justfile_expression::Expression;
use justfile_inner_expressions::resolve_each;
use justfile_numbers::Number;
use std::collections::HashMap;

impl<'src> Setting<'src> {
    /// Sets the number of each variable in the setting's expressions to that of its name in the
    /// context, or else in the bindings, or else to `None`. Nothing else changes.
    pub fn resolve_variables(
        &mut self,
        context: Option<&HashMap<&'src str, Number>>,
        bindings: &HashMap<&'src str, Number>,
    )
        ensures { IsResolvedSetting (number_of context.entry bindings.now) self.new self.old }
    {
        match self {
            Setting::DotenvCommand(value) => value.resolve_variables(context, bindings),
            Setting::DotenvFilename(value) => value.resolve_variables(context, bindings),
            Setting::DotenvPath(value) => value.resolve_variables(context, bindings),
            Setting::ScriptInterpreter(value) => resolve_interpreter(value, context, bindings),
            Setting::Shell(value) => resolve_interpreter(value, context, bindings),
            Setting::Tempdir(value) => value.resolve_variables(context, bindings),
            Setting::WindowsShell(value) => resolve_interpreter(value, context, bindings),
            Setting::WorkingDirectory(value) => value.resolve_variables(context, bindings),
            _ => {}
        }
    }
}

/// Sets the numbers of the variables in an interpreter's command and arguments.
fn resolve_interpreter<'src>(
    interpreter: &mut Interpreter<Expression<'src>>,
    context: Option<&HashMap<&'src str, Number>>,
    bindings: &HashMap<&'src str, Number>,
)
    ensures { IsResolvedInterpreter (number_of context.entry bindings.now) interpreter.new
        interpreter.old }
{
    interpreter.command.resolve_variables(context, bindings);
    resolve_each(&mut interpreter.arguments, context, bindings);
}
