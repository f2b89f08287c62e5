//! The edges of a directed graph.
ghost use Rattle.std.specs.Prelude.{◌≡◌};
ghost use Rattle.circles.specs.FirstCircles.{edge_at, end_of, start_of};

/// A step from one node to another. Nodes are numbers.
#[derive(Clone, Copy, Debug, PartialEq, Eq)]
pub struct Edge {
    /// Where the step begins.
    pub from: usize,
    /// Where it ends.
    pub to: usize,
}

impl Edge {
    /// Returns the step back.
    pub(crate) fn reversed(self) -> Edge {
        Edge {
            from: self.to,
            to: self.from,
        }
    }
}

/// What stands for an edge that isn't there.
pub(crate) const NO_EDGE: Edge = Edge { from: 0, to: 0 };

/// Returns where the edge at an index begins.
pub(crate) fn start_of(edges: &[Edge], index: usize) -> usize
    ensures { result ≡ start_of edges.now index }
{
    edge_at(edges, index).from
}

/// Returns where the edge at an index ends.
pub(crate) fn end_of(edges: &[Edge], index: usize) -> usize
    ensures { result ≡ end_of edges.now index }
{
    edge_at(edges, index).to
}

/// Returns the edge at an index.
fn edge_at(edges: &[Edge], index: usize) -> Edge
    ensures { result ≡ edge_at edges.now index }
{
    match edges.get(index) {
        Some(edge) => *edge,
        None => NO_EDGE,
    }
}
