//! The errors that problems are.
ghost use Rattle.std.specs.Prelude.{◌≡◌, IfOk};
ghost use Rattle.justfile_token.specs.Namepath.{names_in};
ghost use Rattle.justfile_problems.specs.Errors.{IsErrorOf, IsErrorWithin, Says, path_to};

use crate::problem::{Problem, What};
use justfile_token::{CompileError, CompileErrorKind, Name, Namepath, Token};
use std::alloc::{AllocError, Global};

impl<'src> Problem<'src> {
    /// Returns the error, as `just` reports it.
    ///
    /// # Errors
    ///
    /// `AllocError` if memory runs out.
    pub fn error(&self, alloc: Global) -> Result<CompileError<'src>, AllocError>
        ensures { IfOk result (λ error. IsErrorOf self.now error) }
    {
        self.error_within(alloc, None)
    }

    /// Returns the error, where a name that isn't known has the name of a module before it, or none.
    ///
    /// # Errors
    ///
    /// `AllocError` if memory runs out.
    pub fn error_within(
        &self,
        alloc: Global,
        owner: Option<Name<'src>>,
    ) -> Result<CompileError<'src>, AllocError>
        ensures { IfOk result (λ error. IsErrorWithin owner.entry self.now error) }
    {
        let kind = kind_of(alloc, owner, self.token, self.what)?;
        Ok(self.token.error(kind))
    }
}

/// Returns the path of a name of a module, or of a name alone.
fn path_to<'src>(
    alloc: Global,
    owner: Option<Name<'src>>,
    name: Name<'src>,
) -> Result<Namepath<'src>, AllocError>
    ensures { IfOk result (λ path. names_in path ≡ path_to owner.entry name.entry) }
{
    match owner {
        Some(owner) => Namepath::from_name(alloc, owner)?.join(alloc, name),
        None => Namepath::from_name(alloc, name),
    }
}

/// Returns the kind of error at a token, with a name of a module or of none.
fn kind_of<'src>(
    alloc: Global,
    owner: Option<Name<'src>>,
    token: Token<'src>,
    what: What<'src>,
) -> Result<CompileErrorKind<'src>, AllocError>
    ensures { IfOk result (λ kind. Says owner.entry token.entry what.entry kind) }
{
    let text = token.lexeme();
    match what {
        What::DependencyCount {
            dependency,
            found,
            takes,
        } => match path_to(alloc, owner, dependency) {
            Ok(dependency) => Ok(CompileErrorKind::DependencyArgumentCountMismatch {
                dependency,
                found,
                min: takes.least,
                max: takes.most.unwrap_or(usize::MAX),
            }),
            Err(fault) => Err(fault),
        },
        What::DuplicateDefault { .. } => Ok(CompileErrorKind::DuplicateDefault { recipe: text }),
        What::DuplicateFunctionParameter { function, .. } => {
            Ok(CompileErrorKind::DuplicateFunctionParameter {
                function: function.lexeme(),
                parameter: text,
            })
        }
        What::DuplicateParameter { recipe, .. } => Ok(CompileErrorKind::DuplicateParameter {
            recipe: recipe.lexeme(),
            parameter: text,
        }),
        What::DuplicateSet { first } => Ok(CompileErrorKind::DuplicateSet {
            setting: text,
            first: first.token.line,
        }),
        What::DuplicateUnexport { .. } => {
            Ok(CompileErrorKind::DuplicateUnexport { variable: text })
        }
        What::DuplicateVariable { .. } => {
            Ok(CompileErrorKind::DuplicateVariable { variable: text })
        }
        What::ExportUnexported { .. } => Ok(CompileErrorKind::ExportUnexported { variable: text }),
        What::ExtraLeadingWhitespace => Ok(CompileErrorKind::ExtraLeadingWhitespace),
        What::FunctionCount { found, takes } => Ok(
            CompileErrorKind::FunctionArgumentCountMismatch {
                arguments: found,
                expected: takes.least..=takes.most.unwrap_or(usize::MAX),
                function: text,
            },
        ),
        What::GuardAndInfallibleSigil => Ok(CompileErrorKind::GuardAndInfallibleSigil),
        What::IncompatibleSettings { own, other, first } => {
            Ok(CompileErrorKind::IncompatibleSettings {
                first: other,
                first_line: first.token.line,
                second: own,
            })
        }
        What::InvalidShellRecipeAttribute { attribute } => {
            Ok(CompileErrorKind::InvalidShellRecipeAttribute {
                attribute,
                recipe: text,
            })
        }
        What::ListFeature(feature) => Ok(CompileErrorKind::ListFeature(feature)),
        What::MappedDependency => Ok(CompileErrorKind::MappedDependencyWithoutListsSetting),
        What::Redefinition {
            kind,
            first_kind,
            first,
        } => Ok(CompileErrorKind::Redefinition {
            first: first.token.line,
            first_type: first_kind,
            name: text,
            second_type: kind,
        }),
        What::RequiredParameter { .. } => {
            Ok(CompileErrorKind::RequiredParameterFollowsDefaultParameter { parameter: text })
        }
        What::UndefinedFunction => Ok(CompileErrorKind::UndefinedFunction { function: text }),
        What::UndefinedVariable => Ok(CompileErrorKind::UndefinedVariable { variable: text }),
        What::UnknownAliasTarget { target } => match path_to(alloc, owner, target) {
            Ok(target) => Ok(CompileErrorKind::UnknownAliasTarget {
                alias: text,
                target,
            }),
            Err(fault) => Err(fault),
        },
        What::UnknownDependency { item, unknown } => match path_to(alloc, owner, unknown) {
            Ok(unknown) => Ok(CompileErrorKind::UnknownDependency {
                recipe: item.lexeme(),
                unknown,
            }),
            Err(fault) => Err(fault),
        },
    }
}
