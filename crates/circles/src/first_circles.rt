//! The circles of first steps.
ghost use Rattle.std.specs.Prelude.{◌≡◌, ◌++◌, ℕ, false, IfOk, OnOk, length, option_to_list, slice_index_or};
ghost use Rattle.std.specs.Option.{option_or};
ghost use Rattle.circles.specs.FirstCircles.{AreFirstCircles};
ghost use Rattle.circles.specs.Walks.{first_flagged, flagged, step_from};

use crate::circle::Circle;
use crate::circles::in_circles;
use crate::edge::{Edge, start_of};
use crate::walk::{circle_in, follow};
use std::alloc::{AllocError, Global};
use std::collections::HashMap;

/// Returns the circles that one comes to by following from each node its first edge that is part of
/// a circle. There are some exactly if an edge is part of a circle, and none of them share a node. So
/// they have no more edges than there are nodes.
///
/// If all edges are between nodes below `nodes`, time and memory grow with the number of nodes and
/// edges (no contract says so).
///
/// # Errors
///
/// Memory ran out.
pub fn find_circles(alloc: Global, nodes: usize, edges: &[Edge]) -> Result<Vec<Circle>, AllocError>
    ensures { IfOk result (λ found. AreFirstCircles edges.now found.items) }
{
    let flags = in_circles(alloc, nodes, edges)?;
    let mut next = first_steps(alloc, edges, &flags)?;
    let mut found = Vec::new(alloc);
    for edge in edges {
        let walked = follow(alloc, edges, edge.from, &mut next)?;
        push(
            circle_in(alloc, edges, &walked.steps, walked.end)?,
            &mut found,
        )?;
    }
    Ok(found)
}

/// Appends a circle, if there is one.
fn push(circle: Option<Circle>, found: &mut Vec<Circle>) -> Result<(), AllocError>
    ensures { OnOk result (found.new.items ≡ found.old.items ++ option_to_list circle) }
{
    if let Some(circle) = circle {
        found.push(circle)?;
    }
    Ok(())
}

/// Returns for each node the first edge from there with a flag.
fn first_steps(
    alloc: Global,
    edges: &[Edge],
    flags: &[bool],
) -> Result<HashMap<usize, usize>, AllocError>
    ensures { IfOk result (λ next. (node : ℕ)
        → step_from next node ≡ first_flagged edges.now flags.now (length edges.now) node) }
{
    let mut next = HashMap::new(alloc);
    for index in 0..edges.len() {
        note(edges, flags, index, &mut next)?;
    }
    Ok(next)
}

/// Stores an edge, if it has a flag and there is none from the same node.
fn note(
    edges: &[Edge],
    flags: &[bool],
    index: usize,
    next: &mut HashMap<usize, usize>,
) -> Result<(), AllocError>
    ensures { OnOk result ((node : ℕ) → step_from next.new node
        ≡ option_or (step_from next.old node) (flagged edges.now flags.now index node)) }
{
    let node = start_of(edges, index);
    if is_flagged(flags, index) && !next.contains_key(&node) {
        next.insert(node, index)?;
    }
    Ok(())
}

/// Returns whether the edge at an index has a flag.
fn is_flagged(flags: &[bool], index: usize) -> bool
    ensures { result ≡ slice_index_or flags.now index false }
{
    match flags.get(index) {
        Some(flag) => *flag,
        None => false
    }
}
