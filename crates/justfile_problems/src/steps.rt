//! Uses that lead from one recipe to another, or from one assignment to another.
ghost use Rattle.std.specs.Prelude.{◌≡◌, ◌++◌, IfOk, OnOk};
ghost use Rattle.justfile_problems.specs.Circular.{all_steps, node_of, step_between, step_of, step_space, steps_at};

use crate::facts::{Role, Space, Use};
use crate::nodes::{Node, Nodes};
use circles::Edge;
use justfile_builtins::constants::is_constant;
use justfile_token::Name;
use std::alloc::{AllocError, Global};

/// A use that leads from one item to another.
#[derive(Clone, Copy)]
pub(crate) struct Step<'src> {
    /// The use.
    pub(crate) used: Use<'src>,
    /// The indices of the definitions of the item and of the other one.
    pub(crate) edge: Edge,
}

/// Returns the steps among these uses.
#[tactic(auto, using(std::proofs::lemmas::List::flat_map_more, std::proofs::lemmas::List::take_more))]
pub(crate) fn steps<'src>(
    alloc: Global,
    nodes: &Nodes<'src>,
    uses: &[Use<'src>],
) -> Result<Vec<Step<'src>>, AllocError>
    ensures { IfOk result (λ found. found.items ≡ all_steps (node_of nodes.now) uses.now) }
{
    let mut found = Vec::new(alloc);
    for used in uses {
        push(step_of(nodes, used), used, &mut found)?;
    }
    Ok(found)
}

/// Appends a use, if it is a step.
fn push<'src>(
    edge: Option<Edge>,
    used: &Use<'src>,
    found: &mut Vec<Step<'src>>,
) -> Result<(), AllocError>
    ensures { OnOk result (found.new.items ≡ found.old.items ++ steps_at used.now edge) }
{
    if let Some(edge) = edge {
        found.push(Step { used: *used, edge })?;
    }
    Ok(())
}

/// Returns the step that a use is, if it is one.
fn step_of<'src>(nodes: &Nodes<'src>, used: &Use<'src>) -> Option<Edge>
    ensures { result ≡ step_of (node_of nodes.now) used.now }
{
    match step_space(used.name, used.role) {
        None => None,
        Some(space) => step_between(
            used,
            nodes.last(space, used.item.lexeme()),
            nodes.last(space, used.name.lexeme()),
        ),
    }
}

/// Returns the set of names in which a use is a step from its item, if it can be one.
fn step_space(name: Name<'_>, role: Role) -> Option<Space>
    ensures { result ≡ step_space name.entry role }
{
    match role {
        Role::Dependency(_) => Some(Space::Commands),
        Role::Variable(_) => {
            if is_constant(name.lexeme()) {
                None
            } else {
                Some(Space::Variables)
            }
        }
        _ => None,
    }
}

/// Returns the step between two definitions, if the use is in the first one.
fn step_between(used: &Use<'_>, from: Option<Node>, to: Option<Node>) -> Option<Edge>
    ensures { result ≡ step_between used.now from to }
{
    let (from, to) = (from?, to?);
    if from.offset == used.item.token.offset {
        Some(Edge {
            from: from.index,
            to: to.index,
        })
    } else {
        None
    }
}
