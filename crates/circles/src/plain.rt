//! Which edges are part of a circle, by a search from each edge's end.
ghost use Rattle.std.specs.Prelude.{◌↔◌, IfOk, IsTrue};
ghost use Rattle.circles.specs.Circles.{AreInCircles};
ghost use Rattle.circles.specs.Graph.{Leads};
ghost use Rattle.circles.specs.Passed.{Passes};

use crate::edge::Edge;
use std::alloc::{AllocError, Global};

/// Returns for each edge whether it is part of a circle. Its time can grow like the cube of the
/// number of edges.
pub(crate) fn in_circles_by_search(alloc: Global, edges: &[Edge]) -> Result<Vec<bool>, AllocError>
    ensures { IfOk result (λ found. AreInCircles edges.now found.items) }
{
    let mut found = Vec::new(alloc);
    for edge in edges {
        let is_in_circle = leads(alloc, edges, edge.to, edge.from)?;
        found.push(is_in_circle)?;
    }
    Ok(found)
}

/// Returns whether steps lead from the one node to the other.
fn leads(alloc: Global, edges: &[Edge], from: usize, to: usize) -> Result<bool, AllocError>
    ensures { IfOk result (λ leads. IsTrue leads ↔ Leads edges.now from to) }
{
    let mut pending = Vec::from_slice(alloc, edges)?;
    let mut reached = vec![in alloc; from]?;
    let mut passed = 0;
    'nodes: while passed < reached.len() {
        let node = reached[passed];
        pending = pass(alloc, &pending, node, &mut reached)?;
        passed += 1;
    }
    Ok(reached.contains(&to))
}

/// Adds the nodes to which edges lead from the node. Returns the other edges.
fn pass(
    alloc: Global,
    pending: &[Edge],
    node: usize,
    reached: &mut Vec<usize>,
) -> Result<Vec<Edge>, AllocError>
    ensures { IfOk result (λ rest.
        Passes pending.now node reached.old.items reached.new.items rest.items) }
{
    let mut rest = Vec::new(alloc);
    for edge in pending {
        if edge.from == node {
            reached.push(edge.to)?;
        } else {
            rest.push(*edge)?;
        }
    }
    Ok(rest)
}
