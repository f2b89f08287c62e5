//! Copies of settings.
ghost use Rattle.std.specs.Prelude.{IfOk};
ghost use Rattle.justfile_token.specs.StringLiteral.{IsSameLiteral};
ghost use Rattle.justfile_setting.specs.Copies.{IsSameSetting};
ghost use Rattle.justfile_setting.specs.declared.setting.Setting.TheVariants as settings;

use crate::setting::Setting;
use justfile_token::StringLiteral;
use justfile_vocabulary::Indentation;
use std::alloc::{AllocError, Global};

impl<'src> Setting<'src> {
    /// Returns a copy of the setting, or an error if out of memory.
    pub fn clone(&self, alloc: Global) -> Result<Self, AllocError>
        ensures { IfOk result (λ copy. IsSameSetting copy self.now) }
    {
        match self {
            Setting::AllowDuplicateRecipes(value) => Ok(Setting::AllowDuplicateRecipes(*value)),
            Setting::AllowDuplicateVariables(value) => Ok(Setting::AllowDuplicateVariables(*value)),
            Setting::DefaultList(value) => Ok(Setting::DefaultList(*value)),
            Setting::DefaultScript(value) => Ok(Setting::DefaultScript(*value)),
            Setting::DotenvCommand(value) => Ok(Setting::DotenvCommand(value.clone(alloc)?)),
            Setting::DotenvFilename(value) => Ok(Setting::DotenvFilename(value.clone(alloc)?)),
            Setting::DotenvLoad(value) => Ok(Setting::DotenvLoad(*value)),
            Setting::DotenvOverride(value) => Ok(Setting::DotenvOverride(*value)),
            Setting::DotenvPath(value) => Ok(Setting::DotenvPath(value.clone(alloc)?)),
            Setting::DotenvRequired(value) => Ok(Setting::DotenvRequired(*value)),
            Setting::Export(value) => Ok(Setting::Export(*value)),
            Setting::Fallback(value) => Ok(Setting::Fallback(*value)),
            Setting::Guards(value) => Ok(Setting::Guards(*value)),
            Setting::IgnoreComments(value) => Ok(Setting::IgnoreComments(*value)),
            Setting::Indentation(literal, indentation) => copy_indentation(
                alloc,
                literal,
                *indentation,
            ),
            Setting::Lazy(value) => Ok(Setting::Lazy(*value)),
            Setting::Lists(value) => Ok(Setting::Lists(*value)),
            Setting::MinimumVersion(literal) => Ok(Setting::MinimumVersion(literal.clone(alloc)?)),
            Setting::NoCd(value) => Ok(Setting::NoCd(*value)),
            Setting::NoExitMessage(value) => Ok(Setting::NoExitMessage(*value)),
            Setting::PositionalArguments(value) => Ok(Setting::PositionalArguments(*value)),
            Setting::Quiet(value) => Ok(Setting::Quiet(*value)),
            Setting::ScriptInterpreter(interpreter) => Ok(Setting::ScriptInterpreter(
                interpreter.clone(alloc)?,
            )),
            Setting::Shell(interpreter) => Ok(Setting::Shell(interpreter.clone(alloc)?)),
            Setting::Tempdir(value) => Ok(Setting::Tempdir(value.clone(alloc)?)),
            Setting::Unstable(value) => Ok(Setting::Unstable(*value)),
            Setting::WindowsPowerShell(value) => Ok(Setting::WindowsPowerShell(*value)),
            Setting::WindowsShell(interpreter) => Ok(Setting::WindowsShell(interpreter.clone(
                alloc,
            )?)),
            Setting::WorkingDirectory(value) => Ok(Setting::WorkingDirectory(value.clone(alloc)?)),
        }
    }
}

/// Returns a copy of an `indentation` setting, given by its literal and its indentation.
fn copy_indentation<'src>(
    alloc: Global,
    literal: &StringLiteral<'src>,
    indentation: Indentation,
) -> Result<Setting<'src>, AllocError>
    ensures { IfOk result
        (λ copy. IsSameSetting copy (settings.Indentation literal.now indentation)) }
{
    let copy = literal.clone(alloc)?;
    Ok(Setting::Indentation(copy, indentation))
}
