//! Recipes that depend on themselves, and variables that are defined in terms of themselves.
ghost use Rattle.std.specs.Prelude.{◌≡◌, ◌<◌, ◌++◌, ◌∷◌, [], All, IfOk, OnOk, length};
ghost use Rattle.std.specs.List.{AllZip};
ghost use Rattle.justfile_problems.specs.Circular.{AreCirclesAmong, AreCirclesOf, AreNames, IsErrorOfCircle, IsInside, IsRead, IsTurned, edges_of, last_use};

use crate::facts::{Definition, Role, Use};
use crate::nodes::Nodes;
use crate::steps::{Step, steps};
use circles::{Edge, find_circles};
use justfile_token::{CompileError, CompileErrorKind};
use std::alloc::{AllocError, Global};

/// Uses of recipes, or of variables: each is in the item that the one before it names, and the first
/// in the one that the last names.
#[derive(Drop)]
pub struct Circle<'src> {
    /// The use in the first item.
    pub first: Use<'src>,
    /// The other ones.
    pub others: Vec<Use<'src>>,
}

/// Returns the circles that one comes to by following from each recipe its first dependency that is
/// part of a circle, and from each assignment its first such variable. There are some exactly if a
/// recipe depends on itself or a variable is defined in terms of itself, directly or through others,
/// and none of them share an item.
///
/// # Errors
///
/// `AllocError` if memory runs out.
pub fn circles_of<'src>(
    alloc: Global,
    definitions: &[Definition<'src>],
    uses: &[Use<'src>],
) -> Result<Vec<Circle<'src>>, AllocError>
    ensures { IfOk result (λ found. AreCirclesOf definitions.now uses.now found.items) }
{
    let nodes = Nodes::of(alloc, definitions)?;
    let steps = steps(alloc, &nodes, uses)?;
    circles_among(alloc, definitions.len(), &steps)
}

/// Returns the circles of these steps between so many definitions.
fn circles_among<'src>(
    alloc: Global,
    definitions: usize,
    steps: &[Step<'src>],
) -> Result<Vec<Circle<'src>>, AllocError>
    ensures { IfOk result (λ found. AreCirclesAmong steps.now found.items) }
{
    let edges = edges_of(alloc, steps)?;
    let rings = find_circles(alloc, definitions, &edges)?;
    read_all(alloc, steps, &rings)
}

/// Returns the indices between which these steps lead.
fn edges_of(alloc: Global, steps: &[Step<'_>]) -> Result<Vec<Edge>, AllocError>
    ensures { IfOk result (λ edges. edges.items ≡ edges_of steps.now) }
{
    let mut edges = Vec::new(alloc);
    for step in steps {
        push_edge(step, &mut edges)?;
    }
    Ok(edges)
}

/// Appends the indices between which a step leads.
fn push_edge(step: &Step<'_>, edges: &mut Vec<Edge>) -> Result<(), AllocError>
    ensures { OnOk result (edges.new.items ≡ edges.old.items ++ step.now.edge ∷ []) }
{
    edges.push(step.edge)?;
    Ok(())
}

/// Appends the use that is a step.
fn push_use<'src>(step: &Step<'src>, uses: &mut Vec<Use<'src>>) -> Result<(), AllocError>
    ensures { OnOk result (uses.new.items ≡ uses.old.items ++ step.now.used ∷ []) }
{
    uses.push(step.used)?;
    Ok(())
}

/// Returns the circles with these indices of steps.
fn read_all<'src>(
    alloc: Global,
    steps: &[Step<'src>],
    rings: &[circles::Circle],
) -> Result<Vec<Circle<'src>>, AllocError>
    requires { All (IsInside (length steps.now)) rings.now }
    ensures { IfOk result (λ found. AllZip (IsRead steps.now) rings.now found.items) }
{
    let mut found = Vec::new(alloc);
    for ring in rings {
        let circle = read(alloc, steps, ring)?;
        found.push(circle)?;
    }
    Ok(found)
}

/// Returns the circle with these indices of steps.
fn read<'src>(
    alloc: Global,
    steps: &[Step<'src>],
    ring: &circles::Circle,
) -> Result<Circle<'src>, AllocError>
    requires { IsInside (length steps.now) ring.now }
    ensures { IfOk result (IsRead steps.now ring.now) }
{
    let mut uses = Vec::new(alloc);
    push_use(&steps[ring.first], &mut uses)?;
    for index in &ring.others {
        push_use(&steps[*index], &mut uses)?;
    }
    turned(alloc, &uses)
}

/// Returns the circle of these uses that begins with the item whose name comes first in the alphabet,
/// as `just` does where no other item leads there.
fn turned<'src>(alloc: Global, uses: &[Use<'src>]) -> Result<Circle<'src>, AllocError>
    requires { 0 < length uses.now }
    ensures { IfOk result (IsTurned uses.now) }
{
    let begin = least(uses);
    let mut others = Vec::from_slice(alloc, &uses[begin + 1..])?;
    others.extend_from_slice(&uses[..begin])?;
    Ok(Circle {
        first: uses[begin],
        others,
    })
}

/// Returns the index of the use in the item whose name comes first in the alphabet.
fn least(uses: &[Use<'_>]) -> usize
    requires { 0 < length uses.now }
    ensures { result < length uses.now }
{
    let mut least = 0;
    for index in 1..uses.len() {
        let (used, first) = (&uses[index], &uses[least]);
        if used.item.lexeme() < first.item.lexeme() {
            least = index;
        }
    }
    least
}

impl<'src> Circle<'src> {
    /// Returns the error, as `just` reports it: at the dependency, or at the assignment, that leads
    /// back to the first item.
    ///
    /// # Errors
    ///
    /// `AllocError` if memory runs out.
    pub fn error(&self, alloc: Global) -> Result<CompileError<'src>, AllocError>
        ensures { IfOk result (IsErrorOfCircle self.now) }
    {
        let circle = self.names(alloc)?;
        match self.first.role {
            Role::Dependency(_) => {
                let last = self.last();
                let recipe = last.item.lexeme();
                let kind = CompileErrorKind::CircularRecipeDependency { recipe, circle };
                Ok(last.name.token.error(kind))
            }
            _ => {
                let variable = self.first.item.lexeme();
                let kind = CompileErrorKind::CircularVariableDependency { variable, circle };
                Ok(self.first.item.token.error(kind))
            }
        }
    }

    /// Returns the use that leads back to the first item.
    fn last(&self) -> Use<'src>
        ensures { result ≡ last_use self.now }
    {
        match self.others.last() {
            Some(used) => *used,
            None => self.first,
        }
    }

    /// Returns the names from the first item on, and back to it.
    fn names(&self, alloc: Global) -> Result<Vec<&'src str>, AllocError>
        ensures { IfOk result (λ names. AreNames self.now names.items) }
    {
        let mut names = Vec::new(alloc);
        names.push(self.first.item.lexeme())?;
        names.push(self.first.name.lexeme())?;
        for used in &self.others {
            names.push(used.name.lexeme())?;
        }
        Ok(names)
    }
}
