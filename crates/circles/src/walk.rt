//! Walks through a graph by a map of edges.
ghost use Rattle.std.specs.Prelude.{IfOk};
ghost use Rattle.circles.specs.Walks.{IsCircleIn, IsWhole};

use crate::circle::Circle;
use crate::edge::{Edge, end_of, start_of};
use std::alloc::{AllocError, Global};
use std::collections::HashMap;

/// A walk from a node.
#[derive(Drop)]
pub(crate) struct Walk {
    /// The edges that it went over.
    pub steps: Vec<usize>,
    /// Where it ended.
    pub end: usize,
}

/// Walks from a node over the edges that the map has for it and for where they end, and takes them
/// out, until there is none.
pub(crate) fn follow(
    alloc: Global,
    edges: &[Edge],
    from: usize,
    next: &mut HashMap<usize, usize>,
) -> Result<Walk, AllocError>
    ensures { IfOk result (λ walk. IsWhole edges.now from next.old next.new walk) }
{
    let mut steps = Vec::new(alloc);
    let mut end = from;
    while let Some(index) = next.remove(&end) {
        steps.push(index)?;
        end = end_of(edges, index);
    }
    Ok(Walk { steps, end })
}

/// Returns the circle that a walk to a node ends with, or `None` if it wasn't there before.
pub(crate) fn circle_in(
    alloc: Global,
    edges: &[Edge],
    steps: &[usize],
    node: usize,
) -> Result<Option<Circle>, AllocError>
    ensures { IfOk result (IsCircleIn edges.now steps.now node) }
{
    for index in 0..steps.len() {
        let first = steps[index];
        if start_of(edges, first) == node {
            let others = Vec::from_slice(alloc, &steps[index + 1..])?;
            return Ok(Some(Circle { first, others }));
        }
    }
    Ok(None)
}
