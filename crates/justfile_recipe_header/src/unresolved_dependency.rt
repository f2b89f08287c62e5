//! Dependencies of recipes, and their arguments.
ghost use Rattle.std.specs.Prelude.{◌≡◌, ◌++◌, IfOk};
ghost use Rattle.std.specs.List.{list_any};
ghost use Rattle.justfile_token.specs.Sink.{Puts};
ghost use Rattle.justfile_recipe_header.specs.Copies.{IsSameArgument, IsSameDependency};
ghost use Rattle.justfile_recipe_header.specs.Header.{argument_text, call_text, dependencies_text, dependency_text_of, is_starred, star_text, subsequents_text_of};

use crate::path::write_namepath;
use crate::write_to::{WriteTo, write_each};
use justfile_expression::Expression;
use justfile_inner_expressions::write_expression;
use justfile_leaves::put_piece;
use justfile_token::{Namepath, Sink, TryClone, clone_all};
use std::alloc::{AllocError, Global};
use std::fmt;

/// An argument of a dependency.
#[derive(Drop, PartialEq)]
pub struct DependencyArgument<'src> {
    /// The value.
    pub expression: Expression<'src>,
    /// Whether the recipe runs once for each element of the value, with `*` before the argument.
    pub starred: bool,
}

/// A dependency of a recipe, with the recipe as a path. It isn't resolved to a recipe.
#[derive(Drop, PartialEq)]
pub struct UnresolvedDependency<'src> {
    /// The arguments for the recipe.
    pub arguments: Vec<DependencyArgument<'src>>,
    /// The path of the recipe.
    pub recipe: Namepath<'src>,
}

impl<'src> DependencyArgument<'src> {
    /// Returns a copy of the argument, or an error if out of memory.
    pub fn clone(&self, alloc: Global) -> Result<Self, AllocError>
        ensures { IfOk result (λ copy. IsSameArgument copy self.now) }
    {
        Ok(DependencyArgument {
            expression: self.expression.clone(alloc)?,
            starred: self.starred,
        })
    }
}

impl TryClone for DependencyArgument<'_> {
    ghost is_copy = { IsSameArgument };

    fn try_clone(&self, alloc: Global) -> Result<Self, AllocError> {
        self.clone(alloc)
    }
}

impl<'src> UnresolvedDependency<'src> {
    /// Returns a copy of the dependency, or an error if out of memory.
    pub fn clone(&self, alloc: Global) -> Result<Self, AllocError>
        ensures { IfOk result (λ copy. IsSameDependency copy self.now) }
    {
        let recipe = self.recipe.clone(alloc)?;
        Ok(UnresolvedDependency {
            arguments: clone_all(alloc, &self.arguments)?,
            recipe,
        })
    }

    /// Whether any of the arguments is starred.
    pub fn starred(&self) -> bool
        ensures { result ≡ is_starred self.now }
    {
        is_one_starred(&self.arguments)
    }
}

impl TryClone for UnresolvedDependency<'_> {
    ghost is_copy = { IsSameDependency };

    fn try_clone(&self, alloc: Global) -> Result<Self, AllocError> {
        self.clone(alloc)
    }
}

impl WriteTo for DependencyArgument<'_> {
    ghost piece_text = { argument_text };

    fn write<S: Sink>(&self, sink: &mut S) -> Result<(), S::Fault> {
        write_star(self.starred, sink)?;
        write_expression(&self.expression, sink)
    }
}

impl WriteTo for UnresolvedDependency<'_> {
    ghost piece_text = { dependency_text_of };

    fn write<S: Sink>(&self, sink: &mut S) -> Result<(), S::Fault> {
        write_dependency(self, sink)
    }
}

impl fmt::Display for DependencyArgument<'_> {
    ghost use Rattle.std.specs.Prelude.{Some};

    ghost output = { λ argument. Some (argument_text argument) };

    fn fmt<W: fmt::Write>(&self, f: &mut fmt::Formatter<W>) -> fmt::Result {
        self.write(f)
    }
}

impl fmt::Display for UnresolvedDependency<'_> {
    ghost use Rattle.std.specs.Prelude.{Some};

    ghost output = { λ dependency. Some (dependency_text_of dependency) };

    fn fmt<W: fmt::Write>(&self, f: &mut fmt::Formatter<W>) -> fmt::Result {
        write_dependency(self, f)
    }
}

/// Writes the same text as `Display`.
impl fmt::Debug for DependencyArgument<'_> {
    fn fmt<W: fmt::Write>(&self, f: &mut fmt::Formatter<W>) -> fmt::Result {
        self.write(f)
    }
}

/// Writes the same text as `Display`.
impl fmt::Debug for UnresolvedDependency<'_> {
    fn fmt<W: fmt::Write>(&self, f: &mut fmt::Formatter<W>) -> fmt::Result {
        write_dependency(self, f)
    }
}

/// Whether any of the arguments is starred.
fn is_one_starred(arguments: &[DependencyArgument<'_>]) -> bool
    ensures { result ≡ list_any (λ argument. argument.starred) arguments.now }
{
    arguments.iter().any(|argument| argument.starred)
}

/// Writes the text of a dependency.
#[tactic(auto, using(crate::proofs::Parts::bare_parts, crate::proofs::Parts::call_parts))]
pub fn write_dependency<S: Sink>(
    dependency: &UnresolvedDependency<'_>,
    sink: &mut S,
) -> Result<(), S::Fault>
    ensures { Puts S.took S.failed sink.old result (dependency_text_of dependency.now) sink.new }
{
    if dependency.arguments.is_empty() {
        write_namepath(&dependency.recipe, sink)
    } else {
        write_call(dependency, sink)
    }
}

/// Writes the text of a dependency with its arguments, in parentheses.
fn write_call<S: Sink>(dependency: &UnresolvedDependency<'_>, sink: &mut S) -> Result<(), S::Fault>
    ensures { Puts S.took S.failed sink.old result (call_text dependency.now) sink.new }
{
    write_star(dependency.starred(), sink)?;
    put_piece("(", sink)?;
    write_namepath(&dependency.recipe, sink)?;
    write_each(" ", &dependency.arguments, sink)?;
    put_piece(")", sink)
}

/// Writes the `*` of a starred argument or dependency.
fn write_star<S: Sink>(starred: bool, sink: &mut S) -> Result<(), S::Fault>
    ensures { Puts S.took S.failed sink.old result (star_text starred) sink.new }
{
    if starred {
        put_piece("*", sink)
    } else {
        Ok(())
    }
}

/// Writes the dependencies that run after a recipe, each after a space, with ` &&` before them.
/// Writes nothing if there are none.
#[tactic(auto, using(crate::proofs::Parts::subsequents_some, crate::proofs::Parts::subsequents_none))]
pub fn write_subsequents<S: Sink>(
    subsequents: &[UnresolvedDependency<'_>],
    sink: &mut S,
) -> Result<(), S::Fault>
    ensures { Puts S.took S.failed sink.old result (subsequents_text_of subsequents.now) sink.new }
{
    if subsequents.is_empty() {
        return Ok(());
    }
    put_piece(" &&", sink)?;
    write_dependencies(subsequents, sink)?;
    Ok(())
}

/// Writes dependencies, each after a space.
#[tactic(auto, using(crate::proofs::Parts::dependencies_parts))]
pub fn write_dependencies<S: Sink>(
    dependencies: &[UnresolvedDependency<'_>],
    sink: &mut S,
) -> Result<(), S::Fault>
    ensures { Puts S.took S.failed sink.old result (dependencies_text dependencies.now) sink.new }
{
    write_each(" ", dependencies, sink)?;
    Ok(())
}
