//! Which edges of a directed graph are part of a circle.
ghost use Rattle.std.specs.Prelude.{IfOk};
ghost use Rattle.circles.specs.Circles.{AreInCircles};

use crate::certificate::{are_certified, staying_in_trees};
use crate::edge::Edge;
use crate::forests::Forests;
use crate::plain::in_circles_by_search;
use std::alloc::{AllocError, Global};

/// Returns for each edge whether it is part of a circle: whether edges lead from where it ends to
/// where it begins. An edge from a node to itself is.
///
/// If all edges are between nodes below `nodes`, time and memory grow with the number of nodes and
/// edges (no contract says so). Otherwise the answer is right, too, but the time can grow like the
/// cube of the number of edges.
///
/// # Errors
///
/// Memory ran out.
pub fn in_circles(alloc: Global, nodes: usize, edges: &[Edge]) -> Result<Vec<bool>, AllocError>
    ensures { IfOk result (λ found. AreInCircles edges.now found.items) }
{
    let forests = Forests::new(alloc, nodes, edges)?;
    if are_certified(edges, &forests.to_roots, &forests.from_roots) {
        staying_in_trees(alloc, edges, &forests.to_roots)
    } else {
        in_circles_by_search(alloc, edges)
    }
}
